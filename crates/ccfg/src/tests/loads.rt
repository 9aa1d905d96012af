//! Ledgers of so many requests.

use crate::tests::part::Part::Text;
use crate::tests::run::{Output, RUN, Run};
use crate::tests::table::Table;
use std::alloc::AllocError;
use std::process::Abort;

const SEED: &str = "0000000000000000000000000000000000000000000000000000000000000000";

const RUNS: &[Run<'static>] = &[
    Run {
        name: "no request",
        words: &["load", "--count", "0", "--seed", SEED],
        output: Output::Has(&[
            "entries 2\nsignatures 1\nbytes ",
            "\nkeys 0\nlast 2.2\nroot ",
        ]),
        ..RUN
    },
    Run {
        name: "250 requests",
        words: &["load", "--count", "250", "--seed", SEED],
        output: Output::Has(&["entries 255\nsignatures 4\nbytes ", "\nlast 2.255\nroot "]),
        ..RUN
    },
    Run {
        name: "a request too many",
        words: &["load", "--count", "100001", "--seed", SEED],
        status: 8,
        output: Output::Is(&[Text("fault count 100000\n")]),
        ..RUN
    },
];

/// Plays ledgers of so many requests.
pub fn play(rt: &impl Abort, table: &mut Table) -> Result<(), AllocError> {
    table.play_all(rt, RUNS)
}
