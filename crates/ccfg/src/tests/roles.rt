//! Each event at each role, worked out by hand, and the limit on configurations that wait.

use crate::tests::part::Lines;
use crate::tests::part::Part::{Answered, Asked, Each, Text, World};
use crate::tests::run::{Output, Run};
use crate::tests::schedules::REPLAY;
use crate::tests::table::Table;
use std::alloc::AllocError;
use std::process::Abort;

/// Node 1 leads view 2, node 2 follows, and node 3 stands in view 3.
const REQUESTS: Lines<'static> = &[
    ("timeout 3", "candidate sent 1 2"),
    // At the leader.
    ("timeout 1", "idle"),
    ("submit 1 size public:t", "accepted 2.3 number 0"),
    ("ack 1 1", "accepted 2.4"),
    ("reserve 1", "ok"),
    ("sign 1", "signed 2.5"),
    ("sign 1", "refused 112 2"),
    ("evidence 1", "signed 2.6"),
    ("evidence 1", "refused 129"),
    ("replicate 1 2", "ok sent 3"),
    ("advance 1", "idle"),
    // At the follower.
    ("submit 2 size public:t", "refused 110 2 -"),
    ("ack 2 1", "refused 110 2 -"),
    ("reserve 2", "ok"),
    ("sign 2", "refused 110 2 -"),
    ("evidence 2", "refused 110 2 -"),
    ("replicate 2 1", "refused 110 2 -"),
    ("advance 2", "refused 110 2 -"),
    ("stepdown 2 1", "refused 110 2 -"),
    // At the candidate.
    ("submit 3 size public:t", "refused 110 3 -"),
    ("ack 3 1", "refused 110 3 -"),
    ("reserve 3", "ok"),
    ("sign 3", "refused 110 3 -"),
    ("evidence 3", "refused 110 3 -"),
    ("replicate 3 1", "refused 110 3 -"),
    ("advance 3", "refused 110 3 -"),
    ("stepdown 3 1", "refused 110 3 -"),
    ("timeout 3", "candidate sent 4 5"),
    // Each forgets its role.
    ("restart 3", "ok"),
    ("restart 2", "ok"),
    ("restart 1", "ok"),
    ("submit 1 size public:t", "refused 110 2 -"),
    ("timeout 1", "candidate sent 6 7"),
];

/// Nodes 2 and 3 stand in view 3, and node 2 wins.
const MESSAGES: Lines<'static> = &[
    ("submit 1 put public:t 61 01", "accepted 2.3 done"),
    ("replicate 1 2", "ok sent 1"),
    ("replicate 1 3", "ok sent 2"),
    ("timeout 3", "candidate sent 3 4"),
    ("timeout 2", "candidate sent 5 6"),
    // Entries of an earlier view at a candidate.
    ("deliver 2", "ok sent 7"),
    // Requests for votes: at a candidate, which has its own, and at the leader of an earlier view.
    ("deliver 6", "ok sent 8"),
    ("deliver 5", "ok sent 9"),
    // Votes: at a candidate one that isn't granted, and one that is; at the leader.
    ("deliver 8", "idle"),
    ("deliver 9", "leader"),
    ("deliver 9", "idle"),
    // Requests for votes: at a follower, which has voted, and at the leader of their view.
    ("deliver 3", "ok sent 10"),
    ("deliver 4", "ok sent 11"),
    ("deliver 10", "idle"),
    // Entries of its view at a candidate, which follows then, and a vote for it comes too late.
    ("submit 2 put public:t 61 02", "accepted 3.3 done"),
    ("replicate 2 3", "ok sent 12"),
    ("deliver 12", "ok sent 13"),
    ("deliver 11", "idle"),
    // Answers: at the leader, and at a follower.
    ("deliver 13", "ok"),
    ("deliver 7", "idle"),
    // Entries: of an earlier view at the leader, and of its view at a follower.
    ("deliver 1", "ok sent 14"),
    ("replicate 2 1", "ok sent 15"),
    ("deliver 15", "ok sent 16"),
    // An answer and a vote of an earlier view at a candidate.
    ("restart 2", "ok"),
    ("timeout 2", "candidate sent 17 18"),
    ("deliver 16", "idle"),
    ("deliver 9", "idle"),
];

/// Proposals to stand: at a follower, at a candidate and at a leader, both of a later view, and at
/// a candidate of its view.
const PROPOSALS: Lines<'static> = &[
    ("timeout 3", "candidate sent 1 2"),
    ("stepdown 1 2", "ok sent 3"),
    ("deliver 3", "candidate sent 4 5"),
    ("deliver 3", "idle"),
    ("deliver 4", "ok sent 6"),
    ("deliver 6", "leader"),
    ("deliver 3", "idle"),
    ("stepdown 2 3", "ok sent 7"),
    ("deliver 7", "candidate sent 8 9"),
];

/// The leader of an earlier view stands too.
const LATER_PROPOSAL: Lines<'static> = &[
    ("timeout 2", "candidate sent 1 2"),
    ("deliver 2", "ok sent 3"),
    ("deliver 3", "leader"),
    ("stepdown 2 1", "ok sent 4"),
    ("deliver 4", "candidate sent 5 6"),
];

/// A proposal that trusts a node, and the vote that accepts it.
const TRUST: &str = concat!(
    r##"propose 1 1 {"actions":[{"args":{"node":"#%"},"name":"transition_node_to_trusted"}]}"##,
    "\nballot 1 1 % yes\n"
);

/// One that removes a node, and the vote.
const REMOVE: &str = concat!(
    r##"propose 1 1 {"actions":[{"args":{"node":"#%"},"name":"remove_node"}]}"##,
    "\nballot 1 1 % yes\n"
);

/// One by another member.
const SIXTEENTH: &str = concat!(
    r##"propose 1 2 {"actions":[{"args":{"node":"#4"},"name":"remove_node"}]}"##,
    "\n"
);

const RUNS: &[Run<'static>] = &[
    Run {
        name: "requests at each role",
        input: &[World("3 0 1 open"), Asked(REQUESTS)],
        output: Output::Is(&[Text("1 ok\n"), Answered(2, REQUESTS)]),
        ..REPLAY
    },
    Run {
        name: "messages at each role",
        input: &[World("3 0 1 open"), Asked(MESSAGES)],
        output: Output::Is(&[Text("1 ok\n"), Answered(2, MESSAGES)]),
        ..REPLAY
    },
    Run {
        name: "proposals to stand",
        input: &[World("3 0 1 open"), Asked(PROPOSALS)],
        output: Output::Is(&[Text("1 ok\n"), Answered(2, PROPOSALS)]),
        ..REPLAY
    },
    Run {
        name: "a leader of an earlier view stands",
        input: &[World("3 0 1 open"), Asked(LATER_PROPOSAL)],
        output: Output::Is(&[Text("1 ok\n"), Answered(2, LATER_PROPOSAL)]),
        ..REPLAY
    },
    // Fifteen configurations after commit wait, made by member 1 alone: nodes 2 to 10 are trusted
    // one by one, and then nodes 10 to 5 removed. Two members make a sixteenth, and no mark is
    // taken.
    Run {
        name: "sixteen configurations after commit",
        input: &[
            World("1 9 2 open"),
            Text("ack 1 1\n"),
            Each(9, "join 1 %\n", &[(2, 1)]),
            Each(9, TRUST, &[(2, 1), (1, 1)]),
            Each(6, REMOVE, &[(10, -1), (10, 1)]),
            Text("ack 1 2\n"),
            Text(SIXTEENTH),
            Text("ballot 1 1 16 yes\nballot 1 2 16 yes\nmark 1 4\n"),
        ],
        output: Output::Is(&[
            Text("1 ok\n"),
            Each(10, "% accepted 2.%\n", &[(2, 1), (3, 1)]),
            Each(
                15,
                "% accepted 2.% proposal % Open\n% accepted 2.% proposal % Accepted\n",
                &[(12, 2), (13, 2), (1, 1), (13, 2), (14, 2), (1, 1)],
            ),
            Text("42 accepted 2.43\n43 accepted 2.44 proposal 16 Open\n"),
            Text("44 accepted 2.45 proposal 16 Open\n"),
            Text("45 accepted 2.46 proposal 16 Accepted\n46 refused 111 16\n"),
        ]),
        ..REPLAY
    },
];

/// Plays each event at each role.
pub fn play(rt: &impl Abort, table: &mut Table) -> Result<(), AllocError> {
    table.play_all(rt, RUNS)
}
