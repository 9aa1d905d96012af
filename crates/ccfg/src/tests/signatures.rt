//! What is signed with the keys of files. The files are encoded by hand from the documents of the
//! journal.

use crate::tests::founding::{GENESIS, NODE_KEY, SETTINGS};
use crate::tests::part::Of::{Disk, Written};
use crate::tests::part::Part;
use crate::tests::part::Part::{All, Append, Hex, Member, Prefix, Text, Times};
use crate::tests::receipts::IDENTITY;
use crate::tests::run::{InTurn, Output, RUN, Run, Words};
use crate::tests::table::Table;
use std::alloc::AllocError;
use std::process::Abort;

const ACK: &str = "{\"op\":\"ack\"}";

const SIGN_WORDS: &[&str] = &["sign", "--identity", IDENTITY, "--member", "1"];

pub const SIGN: Run<'static> = Run {
    words: SIGN_WORDS,
    input: &[Text(ACK)],
    ..RUN
};

/// Openings, after the runs that found a service.
const OPENINGS: &[Run<'static>] = &[
    Run {
        name: "an opening is valid",
        words: &["audit", "--identity", "$key of the service"],
        input: &[All(Written("the opening"))],
        output: Output::Is(&[Text("valid 2.2 2.2\n")]),
        ..RUN
    },
    // The same key founds a service once more by its next leaf.
    Run {
        name: "a second opening",
        input: SETTINGS,
        disk: Some(&[All(Disk("the opening"))]),
        disk_after: Some(&[
            Prefix(Disk("the opening")),
            Hex("01 12000000 05 04000000 02000000 07 04000000 02000000 00"),
        ]),
        ..GENESIS
    },
    Run {
        name: "a second opening is valid",
        words: &["audit", "--identity", "$key of the service"],
        input: &[All(Written("a second opening"))],
        output: Output::Line("valid 2.2 2.2"),
        ..RUN
    },
    Run {
        name: "another node",
        input: &[Times(&[4], 32)],
        ..NODE_KEY
    },
    Run {
        name: "the key of another node",
        input: SETTINGS,
        disk: Some(&[All(Disk("another node"))]),
        status: 1,
        output: Output::Is(&[
            Text("fault NotFirstNode "),
            Member("the node", "node"),
            Text(" "),
            Member("another node", "node"),
            Text("\n"),
        ]),
        disk_after: Some(&[All(Disk("another node"))]),
        ..GENESIS
    },
];

/// Files without a key of the kind.
const NO_KEYS: &[Run<'static>] = &[
    // Without a key of its kind the source is left unread.
    Run {
        name: "a member's key that is a node's",
        disk: Some(&[All(Disk("the node"))]),
        reads: &[1],
        status: 1,
        output: Output::Is(&[Text("fault KeyKind 3 2\n")]),
        ..SIGN
    },
    Run {
        name: "a service's key that isn't there",
        words: &["endorse"],
        disk: Some(&[]),
        reads: &[1],
        status: 1,
        output: Output::Is(&[Text("fault NotJournal 0\n")]),
        ..SIGN
    },
    Run {
        name: "a file that is no journal",
        words: &["genesis"],
        disk: Some(&[Text("GLJOURNAL")]),
        reads: &[1],
        status: 1,
        output: Output::Is(&[Text("fault NotJournal 7\n")]),
        ..SIGN
    },
];

/// A file that is a text.
const TEXT: &[Part<'static>] = &[Text("To whom it may concern\n")];

/// It stays byte for byte, also where a call of the disk fails, and the source is left unread.
const TEXT_FILE: Run<'static> = Run {
    name: "a text file",
    disk: Some(TEXT),
    disk_after: Some(TEXT),
    reads: &[1],
    status: 1,
    in_turn: &[InTurn::ForeignDisk],
    ..RUN
};

/// A key file that goes on with a record of a kind that there isn't, at place 57, and ends without
/// the closed gate that an open file gets.
const UNFOLDED: &[Part<'static>] = &[
    Text("GLJOURN1"),
    Hex("01 27000000 01 22000000 02 01"),
    Times(&[7], 32),
    Hex("01 01000000 63"),
];

const UNFOLDED_FILE: Run<'static> = Run {
    name: "a record of no kind",
    disk: Some(UNFOLDED),
    disk_after: Some(UNFOLDED),
    ..TEXT_FILE
};

/// A node's key file to which the second entry of a ledger is appended, at place 57: it goes on no
/// ledger that has no first one.
const FOREIGN: &[Part<'static>] = &[
    Prefix(Disk("the node")),
    Append("the opening", 2),
    Hex("00"),
];

const FOREIGN_FILE: Run<'static> = Run {
    name: "an entry that breaks a rule",
    disk: Some(FOREIGN),
    disk_after: Some(FOREIGN),
    ..TEXT_FILE
};

const NODE_WORDS: &[&str] = &["node", "--ticks", "5", "--turns", "40"];

/// The commands that open a key file, and what they tell of one that is no file of a key.
const OF_A_TEXT: Words = &[
    (&["endorse"], "fault NotJournal 0"),
    (&["genesis"], "fault NotJournal 0"),
    (SIGN_WORDS, "fault NotJournal 0"),
    (&["recover"], "fault NotJournal 0"),
    (NODE_WORDS, "fault NotJournal 0"),
];

const OF_A_BAD_RECORD: Words = &[
    (&["endorse"], "fault BadRecord 57"),
    (&["genesis"], "fault BadRecord 57"),
    (SIGN_WORDS, "fault BadRecord 57"),
    (&["recover"], "fault BadRecord 57"),
    (NODE_WORDS, "fault BadRecord 57"),
];

/// Each signature spends a leaf.
const LEAVES: &[Run<'static>] = &[
    // 31 leaves are spent: the last one signs, and none is left.
    Run {
        name: "the last leaf",
        disk: Some(&[
            Prefix(Disk("the member")),
            Hex("01 09000000 05 04000000 1f000000 00"),
        ]),
        output: Output::SignedBy(31),
        ..SIGN
    },
    Run {
        name: "a leaf too many",
        disk: Some(&[All(Disk("the last leaf"))]),
        status: 1,
        output: Output::Is(&[Text("fault KeyExhausted 32\n")]),
        ..SIGN
    },
    Run {
        name: "the first leaf",
        disk: Some(&[All(Disk("the member"))]),
        output: Output::SignedBy(0),
        disk_after: Some(&[
            Prefix(Disk("the member")),
            Hex("01 09000000 05 04000000 01000000 00"),
        ]),
        ..SIGN
    },
    Run {
        name: "the second leaf",
        disk: Some(&[All(Disk("the first leaf"))]),
        output: Output::SignedBy(1),
        ..SIGN
    },
    // A leaf is spent also where the sink fails,
    Run {
        name: "the third leaf, which nobody sees",
        disk: Some(&[All(Disk("the second leaf"))]),
        writes: &[1],
        status: 4,
        output: Output::Is(&[]),
        disk_after: Some(&[
            Prefix(Disk("the second leaf")),
            Hex("01 09000000 05 04000000 03000000 00"),
        ]),
        ..SIGN
    },
    // so the next one signs.
    Run {
        name: "the fourth leaf",
        disk: Some(&[All(Disk("the third leaf, which nobody sees"))]),
        output: Output::SignedBy(3),
        ..SIGN
    },
];

/// What isn't signed, and calls that fail.
const NO_REQUESTS: &[Run<'static>] = &[
    // A text that isn't signed leaves the file as it was.
    Run {
        name: "a request that is no JSON",
        input: &[Text("{")],
        disk: Some(&[All(Disk("the member"))]),
        status: 9,
        output: Output::Is(&[Text("fault NotJson\n")]),
        disk_after: Some(&[All(Disk("the member"))]),
        ..SIGN
    },
    Run {
        name: "a request of no kind",
        input: &[Text("{\"op\":\"nod\"}")],
        disk: Some(&[All(Disk("the member"))]),
        status: 9,
        output: Output::Is(&[Text("fault Shape /op\n")]),
        disk_after: Some(&[All(Disk("the member"))]),
        ..SIGN
    },
    Run {
        name: "a request that is too long",
        input: &[Text(ACK), Times(b" ", 1_048_565)],
        piece: 65536,
        disk: Some(&[All(Disk("the member"))]),
        status: 8,
        output: Output::Is(&[Text("fault json 1048576\n")]),
        disk_after: Some(&[All(Disk("the member"))]),
        ..SIGN
    },
    Run {
        name: "each read and each call of the disk fails",
        disk: Some(&[All(Disk("the member"))]),
        sink_piece: 1000,
        output: Output::SignedBy(0),
        in_turn: &[InTurn::Reads, InTurn::Disk, InTurn::Writes],
        ..SIGN
    },
];

fn play_openings(rt: &impl Abort, table: &mut Table) -> Result<(), AllocError> {
    table.play_all(rt, OPENINGS)
}

fn play_no_keys(rt: &impl Abort, table: &mut Table) -> Result<(), AllocError> {
    table.play_all(rt, NO_KEYS)
}

fn play_foreign_files(rt: &impl Abort, table: &mut Table) -> Result<(), AllocError> {
    table.play_words(rt, &TEXT_FILE, OF_A_TEXT)?;
    table.play_words(rt, &UNFOLDED_FILE, OF_A_BAD_RECORD)?;
    table.play_words(rt, &FOREIGN_FILE, OF_A_BAD_RECORD)
}

fn play_leaves(rt: &impl Abort, table: &mut Table) -> Result<(), AllocError> {
    table.play_all(rt, LEAVES)
}

fn play_no_requests(rt: &impl Abort, table: &mut Table) -> Result<(), AllocError> {
    table.play_all(rt, NO_REQUESTS)
}

/// Plays what keys of files sign, after the runs that found a service.
pub fn play(rt: &impl Abort, table: &mut Table) -> Result<(), AllocError> {
    play_openings(rt, table)?;
    play_no_keys(rt, table)?;
    play_foreign_files(rt, table)?;
    play_leaves(rt, table)?;
    play_no_requests(rt, table)
}
