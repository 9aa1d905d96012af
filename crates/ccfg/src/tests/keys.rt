//! Keys that are begun. The public keys are by RFC 8554 over Python's hashlib, from a seed of 32
//! bytes 07; the files are encoded by hand from the documents of the journal: a header, an open
//! gate, a batch with the record of a key, and a closed gate.

use crate::tests::part::Of::Disk;
use crate::tests::part::Part;
use crate::tests::part::Part::{All, Hex, Text, Times};
use crate::tests::run::{InTurn, Output, RUN, Run};
use crate::tests::table::Table;
use std::alloc::AllocError;
use std::process::Abort;

const SERVICE: &str = "\
    {\"key\":\"0000000200000005000000032cab26dda979f019b56a5fabfcc5c42b7fc4c6d3dc091bbdbd8cf5d9e9cd\
    067a5512cfc83e613cf0340715c075dfa392\",\"kind\":\"service\"}\n";

const MEMBER: &str = "\
    {\"key\":\"0000000100000005000000032cab26dda979f019b56a5fabfcc5c42b7fc4c6d3dc091bbdbd8cf5d9e9cd\
    067a5512cfc83e613cf0340715c075dfa392\",\"kind\":\"member\"}\n";

const NODE: &str = "\
    {\"key\":\"00000005000000032cab26dda979f019b56a5fabfcc5c42b7fc4c6d3dc091bbdbd8cf5d9e9cd067a5512\
    cfc83e613cf0340715c075dfa392\",\"kind\":\"node\",\"node\":\"29c7cccf04a1d88547efc336045ba1fa92\
    9dcb747a37ee6ad2150cceb5f67aa7\"}\n";

const SERVICE_FILE: &[Part<'static>] = &[
    Text("GLJOURN1"),
    Hex("01 27000000 01 22000000 01 01"),
    Times(&[7], 32),
    Hex("00"),
];

const NODE_FILE: &[Part<'static>] = &[
    Text("GLJOURN1"),
    Hex("01 27000000 01 22000000 02 01"),
    Times(&[7], 32),
    Hex("00"),
];

const MEMBER_FILE: &[Part<'static>] = &[
    Text("GLJOURN1"),
    Hex("01 27000000 01 22000000 03 01"),
    Times(&[7], 32),
    Hex("00"),
];

const KEYGEN: Run<'static> = Run {
    words: &["keygen", "--kind", "node", "--types", "h5w4"],
    input: &[Times(&[7], 32)],
    piece: 5,
    disk: Some(&[]),
    ..RUN
};

/// Keys that begin, each one once.
const BEGUN: &[Run<'static>] = &[
    Run {
        name: "a service",
        words: &["keygen", "--kind", "service", "--types", "h5w4"],
        output: Output::Is(&[Text(SERVICE)]),
        disk_after: Some(SERVICE_FILE),
        is_read_whole: Some(true),
        ..KEYGEN
    },
    // It isn't begun a second time, and the source is left alone.
    Run {
        name: "a service once more",
        words: &["keygen", "--kind", "service", "--types", "h5w4"],
        reads: &[1],
        disk: Some(&[All(Disk("a service"))]),
        status: 1,
        output: Output::Is(&[Text("fault NotEmpty 53\n")]),
        disk_after: Some(SERVICE_FILE),
        is_read_whole: Some(false),
        ..KEYGEN
    },
    Run {
        name: "a node",
        words: &["keygen", "--kind", "node", "--types", "h5w4"],
        output: Output::Is(&[Text(NODE)]),
        disk_after: Some(NODE_FILE),
        is_read_whole: Some(true),
        ..KEYGEN
    },
    // It isn't begun a second time, and the source is left alone.
    Run {
        name: "a node once more",
        words: &["keygen", "--kind", "node", "--types", "h5w4"],
        reads: &[1],
        disk: Some(&[All(Disk("a node"))]),
        status: 1,
        output: Output::Is(&[Text("fault NotEmpty 53\n")]),
        disk_after: Some(NODE_FILE),
        is_read_whole: Some(false),
        ..KEYGEN
    },
    Run {
        name: "a member",
        words: &["keygen", "--kind", "member", "--types", "h5w4"],
        output: Output::Is(&[Text(MEMBER)]),
        disk_after: Some(MEMBER_FILE),
        is_read_whole: Some(true),
        ..KEYGEN
    },
    // It isn't begun a second time, and the source is left alone.
    Run {
        name: "a member once more",
        words: &["keygen", "--kind", "member", "--types", "h5w4"],
        reads: &[1],
        disk: Some(&[All(Disk("a member"))]),
        status: 1,
        output: Output::Is(&[Text("fault NotEmpty 53\n")]),
        disk_after: Some(MEMBER_FILE),
        is_read_whole: Some(false),
        ..KEYGEN
    },
];

/// What is no seed.
const SEEDS: &[Run<'static>] = &[
    Run {
        name: "0 bytes for a seed",
        input: &[Times(&[7], 0)],
        piece: 7,
        status: 9,
        output: Output::Is(&[Text("fault Short 0\n")]),
        disk_changes: Some(0),
        is_read_whole: Some(true),
        ..KEYGEN
    },
    Run {
        name: "31 bytes for a seed",
        input: &[Times(&[7], 31)],
        piece: 7,
        status: 9,
        output: Output::Is(&[Text("fault Short 31\n")]),
        disk_changes: Some(0),
        is_read_whole: Some(true),
        ..KEYGEN
    },
    Run {
        name: "33 bytes for a seed",
        input: &[Times(&[7], 33)],
        piece: 7,
        status: 9,
        output: Output::Is(&[Text("fault Trailing 32\n")]),
        disk_changes: Some(0),
        is_read_whole: Some(false),
        ..KEYGEN
    },
    Run {
        name: "40 bytes for a seed",
        input: &[Times(&[7], 40)],
        piece: 7,
        status: 9,
        output: Output::Is(&[Text("fault Trailing 32\n")]),
        disk_changes: Some(0),
        is_read_whole: Some(false),
        ..KEYGEN
    },
];

/// Calls that fail.
const FAILURES: &[Run<'static>] = &[
    Run {
        name: "without a disk",
        disk: None,
        status: 5,
        output: Output::Is(&[]),
        ..KEYGEN
    },
    // The disk isn't asked for anything by then.
    Run {
        name: "the first read of a seed fails",
        piece: 32,
        reads: &[1],
        status: 3,
        output: Output::Is(&[]),
        disk_changes: Some(0),
        ..KEYGEN
    },
    Run {
        name: "the second read of a seed fails",
        piece: 32,
        reads: &[2],
        status: 3,
        output: Output::Is(&[]),
        disk_changes: Some(0),
        ..KEYGEN
    },
    Run {
        name: "each read of a seed fails",
        piece: 32,
        output: Output::Is(&[Text(NODE)]),
        in_turn: &[InTurn::Reads],
        ..KEYGEN
    },
    // The key is kept by then.
    Run {
        name: "the second write of a form fails",
        sink_piece: 10,
        writes: &[2],
        status: 4,
        output: Output::Is(&[Text("{\"key\":\"00")]),
        disk_after: Some(NODE_FILE),
        ..KEYGEN
    },
    Run {
        name: "each call of the disk fails",
        words: &["keygen", "--kind", "member", "--types", "h5w4"],
        output: Output::Is(&[Text(MEMBER)]),
        in_turn: &[InTurn::Disk],
        ..KEYGEN
    },
];

fn play_begun(rt: &impl Abort, table: &mut Table) -> Result<(), AllocError> {
    table.play_all(rt, BEGUN)
}

fn play_seeds(rt: &impl Abort, table: &mut Table) -> Result<(), AllocError> {
    table.play_all(rt, SEEDS)
}

fn play_failures(rt: &impl Abort, table: &mut Table) -> Result<(), AllocError> {
    table.play_all(rt, FAILURES)
}

/// Plays keys that begin.
pub fn play(rt: &impl Abort, table: &mut Table) -> Result<(), AllocError> {
    play_begun(rt, table)?;
    play_seeds(rt, table)?;
    play_failures(rt, table)
}
