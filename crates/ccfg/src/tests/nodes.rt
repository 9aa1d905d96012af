//! Schedules of many nodes, each line with what is printed for it, worked out by hand.

use crate::tests::part::Lines;
use crate::tests::part::Part::{Answered, Asked, Text, World};
use crate::tests::run::{Output, Run};
use crate::tests::schedules::REPLAY;
use crate::tests::table::Table;
use std::alloc::AllocError;
use std::process::Abort;

/// A put that nobody commits is rolled back: node 2 wins the next view without it.
const ROLLBACK: Lines<'static> = &[
    ("submit 1 put public:t 61 01", "accepted 2.3 done"),
    ("timeout 2", "candidate sent 1 2"),
    ("deliver 2", "ok sent 3"),
    ("deliver 3", "leader"),
    ("submit 2 put public:t 61 02", "accepted 3.3 done"),
    ("reserve 2", "ok"),
    ("sign 2", "signed 3.4"),
    ("replicate 2 3", "ok sent 4"),
    ("deliver 4", "ok sent 5"),
    ("deliver 5", "ok"),
    ("advance 2", "commit 3.4"),
    ("status 1 2.3", "Pending"),
    ("status 2 2.3", "Invalid"),
    ("replicate 2 1", "ok sent 6"),
    ("deliver 6", "ok sent 7"),
    ("status 1 2.3", "Invalid"),
    ("ids 1", "ids 2.1 2.2 3.3 3.4"),
];

/// Messages that come again, after that.
const REPEATED: Lines<'static> = &[
    ("deliver 3", "idle"),
    ("deliver 4", "ok sent 8"),
    ("deliver 4", "ok sent 9"),
    // Node 3's last signature is now that of view 3, so it doesn't grant.
    ("deliver 2", "ok sent 10"),
    ("submit 1 size public:t", "refused 110 3 2"),
];

/// Node 2 grants its vote once more when the request comes again.
const GRANTED_AGAIN: Lines<'static> = &[
    ("submit 2 size public:t", "refused 110 2 -"),
    ("timeout 2", "candidate sent 1 2"),
    ("deliver 2", "ok sent 3"),
    ("deliver 2", "ok sent 4"),
    ("deliver 4", "leader"),
];

/// Views and votes last through restarts: node 3 doesn't vote for a second node in view 3.
const RESTARTS: Lines<'static> = &[
    ("timeout 2", "candidate sent 1 2"),
    ("deliver 2", "ok sent 3"),
    ("restart 3", "ok"),
    ("restart 1", "ok"),
    ("timeout 1", "candidate sent 4 5"),
    ("deliver 5", "ok sent 6"),
    ("deliver 6", "idle"),
];

/// A leader that steps down has another node stand, and follows.
const STEPS_DOWN: Lines<'static> = &[
    ("stepdown 1 2", "ok sent 1"),
    ("deliver 1", "candidate sent 2 3"),
    ("submit 1 size public:t", "refused 110 2 -"),
    ("replicate 1 2", "refused 110 2 -"),
    ("stage 1 2", "none"),
];

/// Numbers that name nothing, nodes that are no peers, and a node in no configuration.
const NO_PEERS: Lines<'static> = &[
    ("replicate 1 1", "refused 126"),
    ("stepdown 1 1", "refused 126"),
    ("replicate 1 4", "refused 0"),
    ("deliver 1", "refused 0"),
    ("restart 0", "refused 0"),
    ("mark 1 2", "refused 49 2"),
];

/// A node in no configuration.
const JOINER: Lines<'static> = &[("timeout 2", "idle")];

/// A signature of an earlier view is committed by one of the leader's own view alone, though a
/// majority holds it.
const EARLIER_VIEW: Lines<'static> = &[
    ("submit 1 put public:t 61 01", "accepted 2.3 done"),
    ("reserve 1", "ok"),
    ("sign 1", "signed 2.4"),
    ("replicate 1 2", "ok sent 1"),
    ("deliver 1", "ok sent 2"),
    // Node 5 wins view 3 by nodes 3, 4 and 5, and signs alone.
    ("timeout 5", "candidate sent 3 4 5 6"),
    ("deliver 5", "ok sent 7"),
    ("deliver 6", "ok sent 8"),
    ("deliver 7", "ok"),
    ("deliver 8", "leader"),
    ("submit 5 put public:t 61 02", "accepted 3.3 done"),
    ("reserve 5", "ok"),
    ("sign 5", "signed 3.4"),
    // Node 1 wins view 4 by nodes 1, 2 and 3.
    ("restart 1", "ok"),
    ("timeout 1", "candidate sent 9 10 11 12"),
    ("timeout 1", "candidate sent 13 14 15 16"),
    ("deliver 13", "ok sent 17"),
    ("deliver 14", "ok sent 18"),
    ("deliver 17", "ok"),
    ("deliver 18", "leader"),
    // Nodes 2 and 3 hold 2.4, and that commits nothing.
    ("replicate 1 2", "ok sent 19"),
    ("deliver 19", "ok sent 20"),
    ("replicate 1 3", "ok sent 21"),
    ("deliver 21", "ok sent 22"),
    ("deliver 20", "ok"),
    ("deliver 22", "ok"),
    ("replicate 1 3", "ok sent 23"),
    ("deliver 23", "ok sent 24"),
    ("deliver 24", "ok"),
    ("advance 1", "idle"),
    ("reserve 1", "ok"),
    ("sign 1", "signed 4.5"),
    ("replicate 1 2", "ok sent 25"),
    ("deliver 25", "ok sent 26"),
    ("deliver 26", "ok"),
    ("replicate 1 3", "ok sent 27"),
    ("deliver 27", "ok sent 28"),
    ("deliver 28", "ok"),
    ("advance 1", "commit 4.5"),
];

/// Two nodes leave and two come: what is signed after that waits for a majority of the new ones.
const RECONFIGURED: Lines<'static> = &[
    ("ack 1 1", "accepted 2.3"),
    ("join 1 4", "accepted 2.4"),
    ("join 1 5", "accepted 2.5"),
    // It is recorded, and not trusted yet.
    ("replicate 1 4", "refused 126"),
    (
        concat!(
            r#"propose 1 1 {"actions":["#,
            r##"{"args":{"node":"#4"},"name":"transition_node_to_trusted"},"##,
            r##"{"args":{"node":"#5"},"name":"transition_node_to_trusted"},"##,
            r##"{"args":{"node":"#1"},"name":"remove_node"},"##,
            r##"{"args":{"node":"#2"},"name":"remove_node"}]}"##
        ),
        "accepted 2.6 proposal 1 Open",
    ),
    ("ballot 1 1 1 yes", "accepted 2.7 proposal 1 Accepted"),
    ("reserve 1", "ok"),
    ("sign 1", "signed 2.8"),
    ("replicate 1 2", "ok sent 1"),
    ("deliver 1", "ok sent 2"),
    ("deliver 2", "ok"),
    ("replicate 1 3", "ok sent 3"),
    ("deliver 3", "ok sent 4"),
    ("deliver 4", "ok"),
    ("advance 1", "idle"),
    // Node 4's log is empty: the first message tells the leader so.
    ("replicate 1 4", "ok sent 5"),
    ("deliver 5", "ok sent 6"),
    ("deliver 6", "ok"),
    ("replicate 1 4", "ok sent 7"),
    ("deliver 7", "ok sent 8"),
    ("deliver 8", "ok"),
    ("advance 1", "commit 2.8"),
    // A retired node is sent entries until its mark is committed.
    ("replicate 1 2", "ok sent 9"),
    ("mark 1 2", "accepted 2.9"),
    ("reserve 1", "ok"),
    ("sign 1", "signed 2.10"),
    ("replicate 1 3", "ok sent 10"),
    ("deliver 10", "ok sent 11"),
    ("deliver 11", "ok"),
    ("replicate 1 4", "ok sent 12"),
    ("deliver 12", "ok sent 13"),
    ("deliver 13", "ok"),
    ("advance 1", "commit 2.10"),
    ("replicate 1 2", "refused 126"),
];

/// A node is retired, stage by stage, and marked once its removal is committed.
const RETIRED: Lines<'static> = &[
    ("ack 1 1", "accepted 2.3"),
    (
        r##"propose 1 1 {"actions":[{"args":{"node":"#1"},"name":"remove_node"}]}"##,
        "accepted 2.4 proposal 1 Open",
    ),
    ("ballot 1 1 1 yes", "accepted 2.5 proposal 1 Accepted"),
    ("stage 1 1", "Ordered"),
    ("mark 1 1", "refused 115 5 2"),
    ("reserve 1", "ok"),
    ("sign 1", "signed 2.6"),
    ("stage 1 1", "Signed"),
    ("replicate 1 2", "ok sent 1"),
    ("deliver 1", "ok sent 2"),
    ("deliver 2", "ok"),
    ("replicate 1 3", "ok sent 3"),
    ("deliver 3", "ok sent 4"),
    ("deliver 4", "ok"),
    ("advance 1", "commit 2.6"),
    ("stage 1 1", "Completed"),
    ("mark 1 1", "accepted 2.7"),
    ("reserve 1", "ok"),
    ("sign 1", "signed 2.8"),
    ("replicate 1 2", "ok sent 5"),
    ("deliver 5", "ok sent 6"),
    ("deliver 6", "ok"),
    ("replicate 1 3", "ok sent 7"),
    ("deliver 7", "ok sent 8"),
    ("deliver 8", "ok"),
    ("advance 1", "commit 2.8"),
    ("stage 1 1", "RetiredCommitted"),
    // The last signature that node 2 holds records commit 6.
    ("restart 2", "ok"),
    ("ids 2", "ids 2.1 2.2 2.3 2.4 2.5 2.6"),
    // It asks node 3 alone, whose vote is enough.
    ("timeout 2", "candidate sent 9"),
    ("deliver 9", "ok sent 10"),
    ("deliver 10", "leader"),
];

const ROLLBACKS: &[Run<'static>] = &[
    Run {
        name: "a rollback",
        input: &[World("3 0 1 open"), Asked(ROLLBACK)],
        output: Output::Is(&[Text("1 ok\n"), Answered(2, ROLLBACK)]),
        ..REPLAY
    },
    Run {
        name: "a rollback, and messages again",
        input: &[World("3 0 1 open"), Asked(ROLLBACK), Asked(REPEATED)],
        output: Output::Is(&[
            Text("1 ok\n"),
            Answered(2, ROLLBACK),
            Answered(19, REPEATED),
        ]),
        ..REPLAY
    },
];

const ELECTIONS: &[Run<'static>] = &[
    Run {
        name: "a vote that is granted again",
        input: &[World("3 0 1 open"), Asked(GRANTED_AGAIN)],
        output: Output::Is(&[Text("1 ok\n"), Answered(2, GRANTED_AGAIN)]),
        ..REPLAY
    },
    Run {
        name: "votes last through restarts",
        input: &[World("3 0 1 open"), Asked(RESTARTS)],
        output: Output::Is(&[Text("1 ok\n"), Answered(2, RESTARTS)]),
        ..REPLAY
    },
    Run {
        name: "a leader that steps down",
        input: &[World("3 0 1 open"), Asked(STEPS_DOWN)],
        output: Output::Is(&[Text("1 ok\n"), Answered(2, STEPS_DOWN)]),
        ..REPLAY
    },
];

const OUTSIDERS: &[Run<'static>] = &[
    Run {
        name: "nodes that are no peers",
        input: &[World("3 0 1 open"), Asked(NO_PEERS)],
        output: Output::Is(&[Text("1 ok\n"), Answered(2, NO_PEERS)]),
        ..REPLAY
    },
    Run {
        name: "a joiner that times out",
        input: &[World("1 1 1 open"), Asked(JOINER)],
        output: Output::Is(&[Text("1 ok\n"), Answered(2, JOINER)]),
        ..REPLAY
    },
];

const EARLIER_VIEWS: &[Run<'static>] = &[Run {
    name: "a signature of an earlier view",
    input: &[World("5 0 1 open"), Asked(EARLIER_VIEW)],
    output: Output::Is(&[Text("1 ok\n"), Answered(2, EARLIER_VIEW)]),
    ..REPLAY
}];

const RECONFIGURATIONS: &[Run<'static>] = &[Run {
    name: "another set of nodes",
    input: &[World("3 2 1 open"), Asked(RECONFIGURED)],
    output: Output::Is(&[Text("1 ok\n"), Answered(2, RECONFIGURED)]),
    ..REPLAY
}];

const RETIREMENTS: &[Run<'static>] = &[Run {
    name: "a node that is retired",
    input: &[World("3 0 1 open"), Asked(RETIRED)],
    output: Output::Is(&[Text("1 ok\n"), Answered(2, RETIRED)]),
    ..REPLAY
}];

fn play_rollbacks(rt: &impl Abort, table: &mut Table) -> Result<(), AllocError> {
    table.play_all(rt, ROLLBACKS)
}

fn play_elections(rt: &impl Abort, table: &mut Table) -> Result<(), AllocError> {
    table.play_all(rt, ELECTIONS)
}

fn play_outsiders(rt: &impl Abort, table: &mut Table) -> Result<(), AllocError> {
    table.play_all(rt, OUTSIDERS)
}

fn play_earlier_views(rt: &impl Abort, table: &mut Table) -> Result<(), AllocError> {
    table.play_all(rt, EARLIER_VIEWS)
}

fn play_reconfigurations(rt: &impl Abort, table: &mut Table) -> Result<(), AllocError> {
    table.play_all(rt, RECONFIGURATIONS)
}

fn play_retirements(rt: &impl Abort, table: &mut Table) -> Result<(), AllocError> {
    table.play_all(rt, RETIREMENTS)
}

/// Plays schedules of many nodes.
pub fn play(rt: &impl Abort, table: &mut Table) -> Result<(), AllocError> {
    play_rollbacks(rt, table)?;
    play_elections(rt, table)?;
    play_outsiders(rt, table)?;
    play_earlier_views(rt, table)?;
    play_reconfigurations(rt, table)?;
    play_retirements(rt, table)
}
