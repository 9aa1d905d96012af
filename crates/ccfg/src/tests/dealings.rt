//! Secrets that are dealt. The digest is by Python's hashlib.

use crate::tests::part::Part::Times;
use crate::tests::run::{Output, RUN, Run};
use crate::tests::table::Table;
use std::alloc::AllocError;
use std::process::Abort;

/// What is printed for a secret of 32 bytes 07, of which each of two members has a share.
const DEALT: &str = "\
    {\"args\":{\
    \"secret_digest\":\"4bb06f8e4e3a7715d201d573d0aa423762e55dabd61a2c02278fa56cc6d294e0\",\
    \"shares\":[\
    {\"digest\":\"4bb06f8e4e3a7715d201d573d0aa423762e55dabd61a2c02278fa56cc6d294e0\",\"member\":7},\
    {\"digest\":\"4bb06f8e4e3a7715d201d573d0aa423762e55dabd61a2c02278fa56cc6d294e0\",\"member\":9}\
    ],\"threshold\":1},\"name\":\"set_recovery_threshold\"}\n\
    7 0707070707070707070707070707070707070707070707070707070707070707\n\
    9 0707070707070707070707070707070707070707070707070707070707070707";

/// A secret and the seed of its dealing come, 32 bytes each.
const DEAL: Run<'static> = Run {
    words: &["deal", "--threshold", "1", "7", "9"],
    input: &[Times(&[7], 64)],
    ..RUN
};

const RUNS: &[Run<'static>] = &[
    Run {
        name: "a dealing",
        output: Output::Line(DEALT),
        ..DEAL
    },
    Run {
        name: "a threshold of 0",
        words: &["deal", "--threshold", "0", "7", "9"],
        status: 1,
        output: Output::Line("fault BadAction 0 10"),
        ..DEAL
    },
    // More members have to agree than there are.
    Run {
        name: "three of two members",
        words: &["deal", "--threshold", "3", "7", "9"],
        status: 1,
        output: Output::Line("fault BadAction 0 10"),
        ..DEAL
    },
    Run {
        name: "two of one member",
        words: &["deal", "--threshold", "2", "5"],
        status: 1,
        output: Output::Line("fault BadAction 0 10"),
        ..DEAL
    },
    Run {
        name: "a member above 255",
        words: &["deal", "--threshold", "1", "256", "9"],
        status: 1,
        output: Output::Line("fault BadAction 0 10"),
        ..DEAL
    },
    // The bytes are counted before the shares.
    Run {
        name: "a byte too few",
        words: &["deal", "--threshold", "3", "7", "9"],
        input: &[Times(&[7], 63)],
        status: 9,
        output: Output::Line("fault Short 63"),
        ..DEAL
    },
    Run {
        name: "a byte too many",
        words: &["deal", "--threshold", "3", "7", "9"],
        input: &[Times(&[7], 65)],
        status: 9,
        output: Output::Line("fault Trailing 64"),
        ..DEAL
    },
];

/// Plays secrets that are dealt.
pub fn play(rt: &impl Abort, table: &mut Table) -> Result<(), AllocError> {
    table.play_all(rt, RUNS)
}
