//! Schedules and the expected text for them, worked out by hand.

use crate::tests::part::Part::{Answered, Asked, Each, Text, Times, World, Zeros};
use crate::tests::part::{Lines, Part};
use crate::tests::run::{InTurn, Inputs, Output, RUN, Run};
use crate::tests::table::Table;
use std::alloc::AllocError;
use std::process::Abort;

pub const REPLAY: Run<'static> = Run {
    name: "what is no schedule",
    words: &["replay"],
    ..RUN
};

/// A put, its signature and its commit.
const ROW: Lines<'static> = &[
    ("submit 1 put public:t 61 01", "accepted 2.3 done"),
    ("status 1 2.3", "Pending"),
    ("reserve 1", "ok"),
    ("sign 1", "signed 2.4"),
    ("advance 1", "commit 2.4"),
    ("status 1 2.3", "Committed"),
    ("ids 1", "ids 2.1 2.2 2.3 2.4"),
];

const COMMITTED: Lines<'static> = &[
    ("submit 1 put public:t 61 01", "accepted 2.3 done"),
    ("status 1 2.3", "Pending"),
    ("reserve 1", "ok"),
    ("sign 1", "signed 2.4"),
    ("advance 1", "commit 2.4"),
    ("status 1 2.3", "Committed"),
];

const NOTHING_TO_SIGN: Lines<'static> = &[
    ("sign 1", "refused 112 1"),
    ("reserve 1", "ok"),
    ("sign 1", "refused 114 2"),
];

/// Evidence is made right after a signature alone, also the opening one.
const EVIDENCE: Lines<'static> = &[
    ("evidence 1", "signed 2.3"),
    ("evidence 1", "refused 129"),
    ("submit 1 put public:t 61 01", "accepted 2.4 done"),
    ("evidence 1", "refused 129"),
    ("evidence 2", "refused 0"),
    ("reserve 1", "ok"),
    ("sign 1", "signed 2.5"),
    ("advance 1", "commit 2.5"),
    ("ids 1", "ids 2.1 2.2 2.3 2.4 2.5"),
];

/// A follower takes evidence as any entry, and a stop leaves it.
const EVIDENCE_SENT: Lines<'static> = &[
    ("submit 1 put public:t 61 01", "accepted 2.3 done"),
    ("reserve 1", "ok"),
    ("sign 1", "signed 2.4"),
    ("evidence 1", "signed 2.5"),
    ("reserve 1", "ok"),
    ("sign 1", "signed 2.6"),
    ("replicate 1 2", "ok sent 1"),
    ("deliver 1", "ok sent 2"),
    ("deliver 2", "ok"),
    ("advance 1", "commit 2.6"),
    ("status 1 2.5", "Committed"),
    ("evidence 2", "refused 110 2 1"),
    ("replicate 1 2", "ok sent 3"),
    ("deliver 3", "ok sent 4"),
    ("ids 2", "ids 2.1 2.2 2.3 2.4 2.5 2.6"),
    ("restart 2", "ok"),
    ("status 2 2.5", "Pending"),
];

/// A node that joins begins from a snapshot. It tells of no entry that came by that, and takes what
/// follows, also behind entries that it skips.
const INSTALLED: Lines<'static> = &[
    ("install 2 1", "refused 81 2"),
    ("submit 1 put public:t 61 01", "accepted 2.3 done"),
    ("evidence 1", "refused 129"),
    ("reserve 1", "ok"),
    ("sign 1", "signed 2.4"),
    ("evidence 1", "signed 2.5"),
    ("reserve 1", "ok"),
    ("sign 1", "signed 2.6"),
    // The signature above the evidence isn't committed yet.
    ("install 2 1", "refused 81 2"),
    ("advance 1", "commit 2.6"),
    ("install 1 2", "idle"),
    ("install 2 2", "refused 81 0"),
    ("install 3 1", "refused 0"),
    ("install 2 3", "refused 0"),
    ("install 2 1", "ok"),
    ("install 2 1", "idle"),
    ("ids 2", "ids"),
    ("status 2 2.3", "Committed"),
    ("status 2 2.5", "Unknown"),
    ("replicate 1 2", "refused 126"),
    ("ack 1 1", "accepted 2.7"),
    ("join 1 2", "accepted 2.8"),
    (
        concat!(
            r#"propose 1 1 {"actions":["#,
            r##"{"args":{"node":"#2"},"name":"transition_node_to_trusted"}]}"##
        ),
        "accepted 2.9 proposal 1 Open",
    ),
    ("ballot 1 1 1 yes", "accepted 2.10 proposal 1 Accepted"),
    ("reserve 1", "ok"),
    ("sign 1", "signed 2.11"),
    ("replicate 1 2", "ok sent 1"),
    ("deliver 1", "ok sent 2"),
    ("ids 2", "ids 2.5 2.6"),
    ("deliver 2", "ok"),
    ("advance 1", "commit 2.11"),
    ("restart 2", "ok"),
    ("ids 2", "ids 2.5 2.6"),
    ("status 2 2.3", "Committed"),
    ("status 2 2.11", "Pending"),
];

const NOT_OPEN: Lines<'static> = &[
    ("submit 1 put public:t 61 01", "refused 51 1"),
    ("sign 2", "refused 0"),
];

/// The operations on one open node.
const OPERATIONS: Lines<'static> = &[
    ("submit 1 add public:t 61 5", "accepted 2.3 number 5"),
    (
        "submit 1 add public:t 61 18446744073709551615",
        "refused 122 1 4",
    ),
    ("submit 1 check public:t 62 -", "accepted 2.4 done"),
    ("submit 1 follow public:t 63 public:u", "accepted 2.5 none"),
    ("submit 1 size public:t", "accepted 2.6 number 1"),
    ("submit 1 put secret 61 01", "refused 122 1 1"),
    ("submit 1 put public:ccf.gov.x 61 01", "refused 122 1 2"),
    (
        "submit 1 put public:ccf.internal.x 61 01",
        "refused 122 1 2",
    ),
    (
        "submit 1 get public:t 61",
        "accepted 2.7 value 0500000000000000",
    ),
    ("submit 1 get public:t 62", "accepted 2.8 none"),
    (
        "submit 1 put public:t 62 . ; get public:t 62 ; has public:t 62 ; size public:t",
        "accepted 2.9 done ; value . ; yes ; number 2",
    ),
    (
        "submit 1 remove public:t 62 ; remove public:t 62 ; has public:t 62 ; size public:t",
        "accepted 2.10 yes ; no ; no ; number 1",
    ),
    (
        "submit 1 put public:t 63 6b ; put public:u 6b 07 ; follow public:t 63 public:u",
        "accepted 2.11 done ; done ; value 07",
    ),
    (
        "submit 1 put public:t 64 . ; follow public:t 64 public:u",
        "refused 122 2 6",
    ),
    ("submit 1 add public:u 6b 1", "refused 122 1 3"),
    (
        "submit 1 get public:t 61 ; check public:u 6b 08",
        "refused 122 2 5",
    ),
    (
        "submit 1 follow public:t 61 public:ccf.gov.nodes",
        "refused 122 1 2",
    ),
    ("submit 1 get ; 61", "refused 122 1 1"),
    ("submit 2 size public:t", "refused 0"),
    ("ids 0", "refused 0"),
];

/// What leads to a commit, or doesn't.
const COMMITS: &[Run<'static>] = &[
    Run {
        name: "no bytes",
        output: Output::Is(&[]),
        ..REPLAY
    },
    Run {
        name: "a first line",
        input: &[World("1 0 1 open")],
        output: Output::Is(&[Text("1 ok\n")]),
        ..REPLAY
    },
    Run {
        name: "a commit",
        input: &[World("1 0 1 open"), Asked(COMMITTED)],
        output: Output::Is(&[Text("1 ok\n"), Answered(2, COMMITTED)]),
        ..REPLAY
    },
    Run {
        name: "nothing to sign",
        input: &[World("1 0 1 open"), Asked(NOTHING_TO_SIGN)],
        output: Output::Is(&[Text("1 ok\n"), Answered(2, NOTHING_TO_SIGN)]),
        ..REPLAY
    },
    Run {
        name: "nothing to commit",
        input: &[World("1 0 1 open"), Text("advance 1\n")],
        output: Output::Is(&[Text("1 ok\n2 idle\n")]),
        ..REPLAY
    },
    Run {
        name: "a service that is not open",
        input: &[World("1 0 64 opening"), Asked(NOT_OPEN)],
        output: Output::Is(&[Text("1 ok\n"), Answered(2, NOT_OPEN)]),
        ..REPLAY
    },
];

/// Evidence of snapshots, and a node that begins from one.
const EVIDENCES: &[Run<'static>] = &[
    Run {
        name: "evidence after signatures",
        input: &[World("1 0 1 open"), Asked(EVIDENCE)],
        output: Output::Is(&[Text("1 ok\n"), Answered(2, EVIDENCE)]),
        ..REPLAY
    },
    Run {
        name: "evidence at a follower",
        input: &[World("3 0 1 open"), Asked(EVIDENCE_SENT)],
        output: Output::Is(&[Text("1 ok\n"), Answered(2, EVIDENCE_SENT)]),
        ..REPLAY
    },
    Run {
        name: "a node that begins from a snapshot",
        input: &[World("1 1 1 open"), Asked(INSTALLED)],
        output: Output::Is(&[Text("1 ok\n"), Answered(2, INSTALLED)]),
        ..REPLAY
    },
];

/// What an open node is asked.
const REQUESTS: &[Run<'static>] = &[Run {
    name: "each operation",
    input: &[World("1 0 1 open"), Asked(OPERATIONS)],
    output: Output::Is(&[Text("1 ok\n"), Answered(2, OPERATIONS)]),
    ..REPLAY
}];

/// The last leaf, and what is too large.
const LARGEST: &[Run<'static>] = &[
    Run {
        name: "a node's 33rd leaf",
        input: &[World("1 0 1 open"), Times(b"reserve 1\n", 32)],
        output: Output::Is(&[
            Text("1 ok\n"),
            Each(31, "% ok\n", &[(2, 1)]),
            Text("33 refused 113 32\n"),
        ]),
        ..REPLAY
    },
    // A value of the greatest size, and 16 gets of it, of which the reply is larger than 1 MiB.
    Run {
        name: "what is too large",
        input: &[
            World("1 0 1 open"),
            Zeros("submit 1 put public:t 61 ", 65536, 1),
            Zeros("\nsubmit 1 put public:t 61 ", 65536, 1),
            Zeros(" ; put public:t 61 ", 65536, 15),
            Text("\nsubmit 1 get public:t 61"),
            Times(b" ; get public:t 61", 15),
            Text("\n"),
        ],
        piece: 65536,
        output: Output::Is(&[Text(
            "1 ok\n2 accepted 2.3 done\n3 refused 119 1114456\n4 refused 119 1048658\n",
        )]),
        ..REPLAY
    },
];

/// Calls that fail, and schedules that are cut off.
const FAILURES: &[Run<'static>] = &[
    // A fault's own line is a write too.
    Run {
        name: "a fault that can't be printed",
        input: &[Text("word\n")],
        writes: &[1],
        status: 4,
        output: Output::Is(&[]),
        ..REPLAY
    },
    Run {
        name: "each read and each write fails",
        input: &[World("1 0 1 open"), Asked(ROW)],
        piece: 1,
        sink_piece: 50,
        output: Output::Is(&[Text("1 ok\n"), Answered(2, ROW)]),
        in_turn: &[InTurn::Reads, InTurn::Lines],
        ..REPLAY
    },
    // A prefix of a schedule that ends at a line is one, and each other prefix isn't.
    Run {
        name: "each prefix of a schedule",
        input: &[World("1 0 1 open"), Asked(ROW)],
        output: Output::Is(&[Text("1 ok\n"), Answered(2, ROW)]),
        prefixes: true,
        ..REPLAY
    },
];

/// What isn't read to its end.
const LIMITED: Run<'static> = Run {
    name: "a limit",
    piece: 65536,
    ..REPLAY
};

const LIMITS: Inputs = &[
    (&[Times(b"x", 16_777_217)], 8, "fault bytes 16777216"),
    (&[Times(b"\n", 16_777_217)], 8, "fault bytes 16777216"),
    (&[Times(b"x", 16_777_216)], 9, "fault line 1"),
    (&[Times(b"\n", 100_001)], 8, "fault lines 100000"),
    (&[Times(b"\n", 100_000)], 9, "fault line 1"),
];

/// First lines that begin no service: their number of members,
const NO_MEMBERS: Inputs = &[
    (&[World("1 0 0 open")], 9, "fault line 1"),
    (&[World("1 0 65 open")], 9, "fault line 1"),
    (&[World("1 0 064 open")], 9, "fault line 1"),
];

/// their state,
const NO_STATE: Inputs = &[
    (&[World("1 0 1 closed")], 9, "fault line 1"),
    (&[World("1 0 1")], 9, "fault line 1"),
    (&[World("1 0 1  open")], 9, "fault line 1"),
];

/// and their numbers of nodes, or all of it.
const NO_NODES: Inputs = &[
    (&[World("0 0 1 open")], 9, "fault line 1"),
    (&[World("10 0 1 open")], 9, "fault line 1"),
    (&[World("1 10 1 open")], 9, "fault line 1"),
    (&[World("01 0 1 open")], 9, "fault line 1"),
    (&[World("")], 9, "fault line 1"),
];

const OPEN: Part<'static> = World("1 0 1 open");

/// Second lines that are none: no `sign`,
const NO_SIGN: Inputs = &[
    (&[OPEN, Text("\n")], 9, "fault line 2"),
    (&[OPEN, Text("sign 1")], 9, "fault line 2"),
    (&[OPEN, Text(" sign 1\n")], 9, "fault line 2"),
    (&[OPEN, Text("sign 1 \n")], 9, "fault line 2"),
    (&[OPEN, Text("sign  1\n")], 9, "fault line 2"),
    (&[OPEN, Text("sign 01\n")], 9, "fault line 2"),
    (
        &[OPEN, Text("sign 340282366920938463463374607431768211456\n")],
        9,
        "fault line 2",
    ),
    (&[OPEN, Text("Sign 1\n")], 9, "fault line 2"),
];

/// no event of a node,
const NO_EVENT: Inputs = &[
    (&[OPEN, Text("status 1 02.3\n")], 9, "fault line 2"),
    (&[OPEN, Text("status 1 2.0\n")], 9, "fault line 2"),
    (&[OPEN, Text("deliver\n")], 9, "fault line 2"),
    (&[OPEN, Text("stepdown 1\n")], 9, "fault line 2"),
    (&[OPEN, Text("evidence 1 2\n")], 9, "fault line 2"),
    (&[OPEN, Text("join 1 04\n")], 9, "fault line 2"),
];

/// no request,
const NO_SUBMIT: Inputs = &[
    (&[OPEN, Text("submit 1\n")], 9, "fault line 2"),
    (
        &[OPEN, Text("submit 1 put public:t 61\n")],
        9,
        "fault line 2",
    ),
    (
        &[OPEN, Text("submit 1 put public:t 61 -\n")],
        9,
        "fault line 2",
    ),
    (
        &[OPEN, Text("submit 1 put public:t 61 01 ;\n")],
        9,
        "fault line 2",
    ),
    (
        &[OPEN, Text("submit 1 get public:t 6\n")],
        9,
        "fault line 2",
    ),
    (
        &[OPEN, Text("submit 1 get public:t 6B\n")],
        9,
        "fault line 2",
    ),
    (
        &[
            OPEN,
            Text("submit 1 add public:t 61 18446744073709551616\n"),
        ],
        9,
        "fault line 2",
    ),
];

/// and nothing of a member.
const NO_BALLOT: Inputs = &[
    (&[OPEN, Text("ack 1 2 3\n")], 9, "fault line 2"),
    (&[OPEN, Text("ballot 1 2 3 maybe\n")], 9, "fault line 2"),
    (&[OPEN, Text("withdraw 1 2 03\n")], 9, "fault line 2"),
    (&[OPEN, Text("again 1 017\n")], 9, "fault line 2"),
    (
        &[OPEN, Text("propose 1 2 {\"actions\":[]}\n")],
        9,
        "fault line 2",
    ),
    // The second of three lines after the first one.
    (&[OPEN, Text("sign 1\nsign 1 1\nsign\n")], 9, "fault line 3"),
];

fn play_commits(rt: &impl Abort, table: &mut Table) -> Result<(), AllocError> {
    table.play_all(rt, COMMITS)
}

fn play_evidences(rt: &impl Abort, table: &mut Table) -> Result<(), AllocError> {
    table.play_all(rt, EVIDENCES)
}

fn play_requests(rt: &impl Abort, table: &mut Table) -> Result<(), AllocError> {
    table.play_all(rt, REQUESTS)
}

fn play_largest(rt: &impl Abort, table: &mut Table) -> Result<(), AllocError> {
    table.play_all(rt, LARGEST)
}

fn play_failures(rt: &impl Abort, table: &mut Table) -> Result<(), AllocError> {
    table.play_all(rt, FAILURES)
}

fn play_limits(rt: &impl Abort, table: &mut Table) -> Result<(), AllocError> {
    table.play_inputs(rt, &LIMITED, LIMITS)
}

fn play_no_members(rt: &impl Abort, table: &mut Table) -> Result<(), AllocError> {
    table.play_inputs(rt, &REPLAY, NO_MEMBERS)
}

fn play_no_state(rt: &impl Abort, table: &mut Table) -> Result<(), AllocError> {
    table.play_inputs(rt, &REPLAY, NO_STATE)
}

fn play_no_nodes(rt: &impl Abort, table: &mut Table) -> Result<(), AllocError> {
    table.play_inputs(rt, &REPLAY, NO_NODES)
}

fn play_no_sign(rt: &impl Abort, table: &mut Table) -> Result<(), AllocError> {
    table.play_inputs(rt, &REPLAY, NO_SIGN)
}

fn play_no_event(rt: &impl Abort, table: &mut Table) -> Result<(), AllocError> {
    table.play_inputs(rt, &REPLAY, NO_EVENT)
}

fn play_no_submit(rt: &impl Abort, table: &mut Table) -> Result<(), AllocError> {
    table.play_inputs(rt, &REPLAY, NO_SUBMIT)
}

fn play_no_ballot(rt: &impl Abort, table: &mut Table) -> Result<(), AllocError> {
    table.play_inputs(rt, &REPLAY, NO_BALLOT)
}

/// Plays schedules of one node, and evidence of snapshots at several.
pub fn play(rt: &impl Abort, table: &mut Table) -> Result<(), AllocError> {
    play_commits(rt, table)?;
    play_evidences(rt, table)?;
    play_requests(rt, table)?;
    play_largest(rt, table)?;
    play_failures(rt, table)
}

/// Plays what is no schedule.
pub fn play_faults(rt: &impl Abort, table: &mut Table) -> Result<(), AllocError> {
    play_limits(rt, table)?;
    play_no_members(rt, table)?;
    play_no_state(rt, table)?;
    play_no_nodes(rt, table)?;
    play_no_sign(rt, table)?;
    play_no_event(rt, table)?;
    play_no_submit(rt, table)?;
    play_no_ballot(rt, table)
}
