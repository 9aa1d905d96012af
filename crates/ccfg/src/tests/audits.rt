//! Ledgers that are audited: that of a schedule, and that ledger changed. The expected output for a
//! changed one is worked out from the rules, and `examples/audit/verify_ledger.py`, which is
//! written from the documents of the format alone, says the same of it.

use crate::tests::part::Of::Ledger;
use crate::tests::part::Part::{All, Changed, Cut, Hex, Text, World};
use crate::tests::part::{Of, Part};
use crate::tests::receipts::IDENTITY as OTHER_IDENTITY;
use crate::tests::run::{Inputs, Output, RUN, Run};
use crate::tests::table::Table;
use std::alloc::AllocError;
use std::process::Abort;

/// The key of the service whose seed is zeros.
pub const IDENTITY: &str = "\
    00000002000000050000000358d23188ef65205d9e7e3a23be517855dbdfe85fa3d204fab5ee0af77f0a1c4af7f\
    c810c8a9a4007e2768290e9012cb1";

/// One request, and the signature after it.
const LINES: &str = "\
    submit 1 put public:t 61 01\n\
    reserve 1\n\
    sign 1\n\
    advance 1\n\
    ledger 1\n";

/// A vote that opens the service, and a request.
const VOTE: &str = "\
    ack 1 1\n\
    propose 1 1 {\"actions\":[{\"args\":{},\"name\":\"transition_service_to_open\"}]}\n\
    ballot 1 1 1 yes\n\
    submit 1 put public:t 61 01\n\
    ledger 1\n";

/// The ledger of one request and its signature, and where its last frame begins and ends.
const SIGNED: &str = "a request that is signed";

const WHOLE: Of = Ledger(SIGNED);

const LAST_FRAME: usize = 10699;

const LEN: usize = 15592;

const AUDIT: Run<'static> = Run {
    name: "a ledger that is cut or changed",
    words: &["audit", "--identity", IDENTITY],
    input: &[All(WHOLE)],
    ..RUN
};

/// The third entry breaks a rule. In pieces of 100 bytes it ends in the 107th.
const BROKEN: Run<'static> = Run {
    input: &[Changed(WHOLE, 10608, 0x01)],
    piece: 100,
    ..AUDIT
};

/// Schedules whose ledgers are audited.
const LEDGERS: &[Run<'static>] = &[
    Run {
        name: SIGNED,
        words: &["replay"],
        input: &[World("1 0 1 open"), Text(LINES)],
        output: Output::Begins(&[Text("1 ok\n")]),
        ..RUN
    },
    Run {
        name: "a vote",
        words: &["replay"],
        input: &[World("1 0 1 opening"), Text(VOTE)],
        output: Output::Begins(&[Text("1 ok\n")]),
        ..RUN
    },
];

/// What is said of them.
const VERDICTS: &[Run<'static>] = &[
    Run {
        name: "what was replayed",
        output: Output::Is(&[Text("valid 2.4 2.4\n")]),
        ..AUDIT
    },
    Run {
        name: "the ledger of a vote",
        input: &[All(Ledger("a vote"))],
        output: Output::Is(&[Text("valid 2.6 2.2\n")]),
        ..AUDIT
    },
    Run {
        name: "whose ledger it is",
        words: &["audit", "--identity", OTHER_IDENTITY],
        status: 1,
        output: Output::Is(&[Text("fault foreign "), Text(IDENTITY), Text("\n")]),
        ..AUDIT
    },
    Run {
        name: "the last entry twice",
        input: &[All(WHOLE), Cut(WHOLE, LAST_FRAME, LEN)],
        status: 1,
        output: Output::Is(&[Text("fault seqno 5 rule 2\n")]),
        ..AUDIT
    },
];

/// Calls that fail.
const FAILURES: &[Run<'static>] = &[
    // It reads no further than the first fault,
    Run {
        name: "a read after the first fault fails",
        reads: &[108],
        status: 1,
        output: Output::Is(&[Text("fault seqno 3 rule 3\n")]),
        ..BROKEN
    },
    // and tells of the source also where the entry that would come breaks a rule.
    Run {
        name: "the first read fails",
        reads: &[1],
        status: 3,
        output: Output::Is(&[]),
        ..BROKEN
    },
    Run {
        name: "a read before the fault fails",
        reads: &[50],
        status: 3,
        output: Output::Is(&[]),
        ..BROKEN
    },
    Run {
        name: "the read of the fault fails",
        reads: &[107],
        status: 3,
        output: Output::Is(&[]),
        ..BROKEN
    },
    Run {
        name: "the verdict isn't written",
        input: &[],
        sink_piece: 4,
        writes: &[3],
        status: 4,
        output: Output::Is(&[Text("fault se")]),
        ..AUDIT
    },
];

/// Where the ledger ends, and the expected output then.
const ENDS: Inputs = &[
    (&[Cut(WHOLE, 0, 0)], 1, "fault seqno 1 rule 3"),
    (&[Cut(WHOLE, 0, 5)], 1, "fault seqno 1 rule 1"),
    (&[Cut(WHOLE, 0, 5706)], 1, "fault seqno 1 rule 1"),
    (&[Cut(WHOLE, 0, 5707)], 0, "valid 2.1 -"),
    (&[Cut(WHOLE, 0, 5708)], 1, "fault seqno 2 rule 1"),
    (&[Cut(WHOLE, 0, 10600)], 0, "valid 2.2 2.2"),
    (&[Cut(WHOLE, 0, LAST_FRAME)], 0, "valid 2.3 2.2"),
    (&[Cut(WHOLE, 0, LAST_FRAME + 5)], 1, "fault seqno 4 rule 1"),
    (&[Cut(WHOLE, 0, 15591)], 1, "fault seqno 4 rule 1"),
];

/// Evidence behind a ledger: its view, its seqno and the digest of a snapshot.
const FRAME: Part<'static> = Hex("01 00 55 00 00 00 00 00 02 00 00 00");

const FIFTH: Part<'static> = Hex("05 00 00 00 00 00 00 00 04 20 00 00 00");

const FOURTH: Part<'static> = Hex("04 00 00 00 00 00 00 00 04 20 00 00 00");

const DIGEST_OF_FOUR: Part<'static> = Hex(
    "3b174948b7f289fefe6fee3a7acecc87ad9d511807b3ffd6595ee382c602b05b",
);

const DIGEST_OF_THREE: Part<'static> = Hex(
    "aaab5b4081c9fe7b5bfea6eaee8243850fab097ab610e27ad4de3ba866cb9831",
);

/// Nothing is written, and nothing is claimed.
const NO_WRITES: Part<'static> = Hex(
    "00000000 0000000000000000000000000000000000000000000000000000000000000000",
);

/// Evidence right after a signature, of another snapshot, and after a request.
const EVIDENCES: Inputs = &[
    (
        &[All(WHOLE), FRAME, FIFTH, DIGEST_OF_FOUR, NO_WRITES],
        0,
        "valid 2.5 2.4",
    ),
    (
        &[All(WHOLE), FRAME, FIFTH, DIGEST_OF_THREE, NO_WRITES],
        1,
        "fault seqno 5 rule 12",
    ),
    (
        &[
            Cut(WHOLE, 0, LAST_FRAME),
            FRAME,
            FOURTH,
            DIGEST_OF_THREE,
            NO_WRITES,
        ],
        1,
        "fault seqno 4 rule 12",
    ),
];

/// A changed byte breaks this rule at this seqno. Each row breaks rules after the one that is
/// reported, too, as the signature after it no longer signs what stands there. Here it is one on
/// all entries,
const CHANGED_FRAMES: Inputs = &[
    (&[Changed(WHOLE, 10600, 0x02)], 1, "fault seqno 3 rule 1"),
    (&[Changed(WHOLE, 10700, 0x01)], 1, "fault seqno 4 rule 1"),
    (&[Changed(WHOLE, 10602, 0x5a)], 1, "fault seqno 3 rule 1"),
    (&[Changed(WHOLE, 10620, 0x05)], 1, "fault seqno 3 rule 1"),
    (&[Changed(WHOLE, 26, 0x03)], 1, "fault seqno 1 rule 1"),
    (&[Changed(WHOLE, 10612, 0x04)], 1, "fault seqno 3 rule 2"),
    (&[Changed(WHOLE, 10711, 0x03)], 1, "fault seqno 4 rule 2"),
];

/// on what stands after what,
const CHANGED_VIEWS: Inputs = &[
    (&[Changed(WHOLE, 8, 0x03)], 1, "fault seqno 1 rule 3"),
    (&[Changed(WHOLE, 10608, 0x01)], 1, "fault seqno 3 rule 3"),
    (&[Changed(WHOLE, 10608, 0x03)], 1, "fault seqno 4 rule 3"),
    (&[Changed(WHOLE, 5715, 0x03)], 1, "fault seqno 2 rule 4"),
];

/// on requests,
const CHANGED_REQUESTS: Inputs = &[
    (&[Changed(WHOLE, 10629, 0x78)], 1, "fault seqno 3 rule 5"),
    (&[Changed(WHOLE, 10666, 0x00)], 1, "fault seqno 3 rule 6"),
    (&[Changed(WHOLE, 10660, 0x62)], 1, "fault seqno 3 rule 6"),
    (&[Changed(WHOLE, 10667, 0xfa)], 1, "fault seqno 3 rule 6"),
    (&[Changed(WHOLE, 2558, 0x00)], 1, "fault seqno 1 rule 7"),
    (&[Changed(WHOLE, 2148, 0x35)], 1, "fault seqno 1 rule 7"),
    (&[Changed(WHOLE, 5613, 0x01)], 1, "fault seqno 1 rule 8"),
    (&[Changed(WHOLE, 2667, 0x03)], 1, "fault seqno 1 rule 8"),
];

/// and on signatures.
const CHANGED_SIGNATURES: Inputs = &[
    (&[Changed(WHOLE, 10764, 0x56)], 1, "fault seqno 4 rule 9"),
    (&[Changed(WHOLE, 10724, 0x91)], 1, "fault seqno 4 rule 9"),
    (&[Changed(WHOLE, 10756, 0x03)], 1, "fault seqno 4 rule 10"),
    (&[Changed(WHOLE, 5764, 0x01)], 1, "fault seqno 2 rule 10"),
    (&[Changed(WHOLE, 15555, 0x63)], 1, "fault seqno 4 rule 11"),
    (&[Changed(WHOLE, 13182, 0x72)], 1, "fault seqno 4 rule 11"),
];

fn play_ledgers(rt: &impl Abort, table: &mut Table) -> Result<(), AllocError> {
    table.play_all(rt, LEDGERS)
}

fn play_verdicts(rt: &impl Abort, table: &mut Table) -> Result<(), AllocError> {
    table.play_all(rt, VERDICTS)
}

fn play_failures(rt: &impl Abort, table: &mut Table) -> Result<(), AllocError> {
    table.play_all(rt, FAILURES)
}

fn play_ends(rt: &impl Abort, table: &mut Table) -> Result<(), AllocError> {
    table.play_inputs(rt, &AUDIT, ENDS)
}

fn play_evidences(rt: &impl Abort, table: &mut Table) -> Result<(), AllocError> {
    table.play_inputs(rt, &AUDIT, EVIDENCES)
}

fn play_changed_frames(rt: &impl Abort, table: &mut Table) -> Result<(), AllocError> {
    table.play_inputs(rt, &AUDIT, CHANGED_FRAMES)
}

fn play_changed_views(rt: &impl Abort, table: &mut Table) -> Result<(), AllocError> {
    table.play_inputs(rt, &AUDIT, CHANGED_VIEWS)
}

fn play_changed_requests(rt: &impl Abort, table: &mut Table) -> Result<(), AllocError> {
    table.play_inputs(rt, &AUDIT, CHANGED_REQUESTS)
}

fn play_changed_signatures(rt: &impl Abort, table: &mut Table) -> Result<(), AllocError> {
    table.play_inputs(rt, &AUDIT, CHANGED_SIGNATURES)
}

/// Plays ledgers that are audited.
pub fn play(rt: &impl Abort, table: &mut Table) -> Result<(), AllocError> {
    play_ledgers(rt, table)?;
    play_verdicts(rt, table)?;
    play_failures(rt, table)?;
    play_ends(rt, table)?;
    play_evidences(rt, table)?;
    play_changed_frames(rt, table)?;
    play_changed_views(rt, table)?;
    play_changed_requests(rt, table)?;
    play_changed_signatures(rt, table)
}
