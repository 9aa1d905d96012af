//! A service that keys of files found: of a service, a node and a member, each on its own disk.

use crate::tests::part::Of::{Disk, Written};
use crate::tests::part::Part;
use crate::tests::part::Part::{All, Cut, Hex, Member, Text, Times};
use crate::tests::run::{Output, RUN, Run};
use crate::tests::table::Table;
use std::alloc::AllocError;
use std::process::Abort;

/// A key of so many leaves, 32, whose seed is of one byte.
pub const SERVICE_KEY: Run<'static> = Run {
    words: &["keygen", "--kind", "service", "--types", "h5w4"],
    disk: Some(&[]),
    ..RUN
};

pub const NODE_KEY: Run<'static> = Run {
    words: &["keygen", "--kind", "node", "--types", "h5w4"],
    disk: Some(&[]),
    ..RUN
};

pub const MEMBER_KEY: Run<'static> = Run {
    words: &["keygen", "--kind", "member", "--types", "h5w4"],
    disk: Some(&[]),
    ..RUN
};

pub const ENDORSE: Run<'static> = Run {
    words: &["endorse"],
    ..RUN
};

pub const GENESIS: Run<'static> = Run {
    words: &["genesis"],
    ..RUN
};

/// A dealing among one member, up to the service's key.
const DEALING: &str = "{\"dealing\":{\
    \"secret_digest\":\"0000000000000000000000000000000000000000000000000000000000000000\",\
    \"shares\":[{\
    \"digest\":\"0000000000000000000000000000000000000000000000000000000000000000\",\
    \"member\":1}],\"threshold\":1},\"identity\":\"";

/// Settings of a service with one member and one node, which begins open.
pub const SETTINGS: &[Part<'static>] = &[
    Text(DEALING),
    Member("the service", "key"),
    Text("\",\"members\":[{\"key\":\""),
    Member("the member", "key"),
    Text("\",\"number\":1}],\"nodes\":[{\"endorsement\":\""),
    Member("the node, endorsed", "endorsement"),
    Text("\",\"key\":\""),
    Member("the node", "key"),
    Text("\"}],\"state\":\"open\"}"),
];

/// What a file has after a key, of which one leaf is spent, and that one began a service.
pub const STARTED: Part<'static> = Hex("01 12000000 05 04000000 01000000 07 04000000 01000000 00");

/// The keys, an endorsement, and the ledger that opens the service.
const RUNS: &[Run<'static>] = &[
    Run {
        name: "the service",
        input: &[Times(&[1], 32)],
        ..SERVICE_KEY
    },
    Run {
        name: "the node",
        input: &[Times(&[2], 32)],
        ..NODE_KEY
    },
    Run {
        name: "the member",
        input: &[Times(&[3], 32)],
        ..MEMBER_KEY
    },
    // The node's own form stands after the endorsement.
    Run {
        name: "the node, endorsed",
        input: &[All(Written("the node"))],
        disk: Some(&[All(Disk("the service"))]),
        output: Output::Ends(&[Text("\","), Cut(Written("the node"), 1, 1000)]),
        ..ENDORSE
    },
    Run {
        name: "the opening",
        input: SETTINGS,
        disk: Some(&[All(Disk("the node"))]),
        disk_after: Some(&[Part::Prefix(Disk("the node")), STARTED]),
        ..GENESIS
    },
];

/// Founds the service.
pub fn play(rt: &impl Abort, table: &mut Table) -> Result<(), AllocError> {
    table.play_all(rt, RUNS)
}
