//! Words that ask for nothing, and the kind of fault that is reported; and what `main` reads
//! itself.

use crate::tests::part::Part::World;
use crate::tests::receipts::IDENTITY;
use crate::tests::run::{Output, RUN, Run, Words};
use crate::tests::table::Table;
use crate::{HELP, invocation_of, printed_of_itself};
use std::alloc::{AllocError, Global};
use std::process::Abort;
use std::test::Fail;

/// The key in upper-case digits.
const UPPER: &str = "\
    000000020000000500000004C00D2E39CBE697EFBBF49E528E1DA22E3C8D981478775288251EAE18295C29A50A6\
    C0425D60A46A45ECCEDD059CE1460";

/// A digit too few.
const SHORT: &str = "\
    000000020000000500000004c00d2e39cbe697efbbf49e528e1da22e3c8d981478775288251eae18295c29a50a6\
    c0425d60a46a45eccedd059ce146";

/// Words, and what is printed for them: no command,
const NO_COMMAND: Words = &[
    (&[], "fault MissingSubcommand"),
    (&[""], "fault InvalidSubcommand"),
    (&["foo"], "fault InvalidSubcommand"),
    (&["Replay"], "fault InvalidSubcommand"),
    (&["help"], "fault InvalidSubcommand"),
    (&["--", "replay"], "fault UnknownArgument"),
];

/// words of `replay`,
const OF_REPLAY: Words = &[
    (&["replay", "x"], "fault UnknownArgument"),
    (&["replay", "replay"], "fault UnknownArgument"),
    (&["replay", "--identity", IDENTITY], "fault UnknownArgument"),
];

/// `verify`,
const OF_VERIFY: Words = &[
    (&["verify"], "fault MissingRequiredArgument"),
    (&["verify", IDENTITY], "fault UnknownArgument"),
    (&["verify", "--identity"], "fault InvalidValue"),
    (
        &["verify", "--identity", IDENTITY, "--identity", IDENTITY],
        "fault ArgumentConflict",
    ),
    (&["verify", "--identity", UPPER], "fault ValueValidation"),
    (&["verify", "--identity", SHORT], "fault ValueValidation"),
    (&["verify", "--identity", ""], "fault ValueValidation"),
    (&["verify", "--identity=00", "x"], "fault UnknownArgument"),
];

/// `node`,
const OF_NODE: Words = &[
    (&["node", "--ticks", "0"], "fault ValueValidation"),
    (&["node", "--workers", "1"], "fault ValueValidation"),
    (&["node", "--turns"], "fault InvalidValue"),
    (&["node", "00"], "fault ValueValidation"),
];

/// `audit`,
const OF_AUDIT: Words = &[
    (&["audit"], "fault MissingRequiredArgument"),
    (&["audit", "--identity", SHORT], "fault ValueValidation"),
    (
        &["audit", "--identity", IDENTITY, "x"],
        "fault UnknownArgument",
    ),
];

/// `keygen`,
const OF_KEYGEN: Words = &[
    (&["keygen"], "fault MissingRequiredArgument"),
    (
        &["keygen", "--kind", "node"],
        "fault MissingRequiredArgument",
    ),
    (
        &["keygen", "--types", "h5w4"],
        "fault MissingRequiredArgument",
    ),
    (
        &["keygen", "--kind", "nodes", "--types", "h5w4"],
        "fault InvalidValue",
    ),
    (
        &["keygen", "--kind", "node", "--types", "h5w5"],
        "fault InvalidValue",
    ),
    (
        &["keygen", "--kind", "", "--types", ""],
        "fault InvalidValue",
    ),
    (
        &["keygen", "--kind", "node", "--types"],
        "fault InvalidValue",
    ),
    (
        &["keygen", "--kind", "node", "--types", "h5w4", "x"],
        "fault UnknownArgument",
    ),
    (
        &["@disk=a", "keygen", "--kind", "node", "--types", "h5w4"],
        "fault InvalidSubcommand",
    ),
];

/// `deal`,
const OF_DEAL: Words = &[
    (&["deal", "5"], "fault MissingRequiredArgument"),
    (
        &["deal", "--threshold", "1"],
        "fault MissingRequiredArgument",
    ),
    (
        &["deal", "--threshold", "1", "7", "08"],
        "fault ValueValidation",
    ),
    (
        &["deal", "--threshold", "18446744073709551616", "7"],
        "fault ValueValidation",
    ),
];

/// `endorse`, `genesis` and `sign`,
const OF_SIGN: Words = &[
    (&["endorse", "x"], "fault UnknownArgument"),
    (&["genesis", "--member", "1"], "fault UnknownArgument"),
    (&["sign", "--member", "1"], "fault MissingRequiredArgument"),
    (
        &["sign", "--identity", IDENTITY],
        "fault MissingRequiredArgument",
    ),
    (
        &["sign", "--identity", SHORT, "--member", "1"],
        "fault ValueValidation",
    ),
    (
        &["sign", "--identity", IDENTITY, "--member"],
        "fault InvalidValue",
    ),
    (
        &["sign", "--identity", IDENTITY, "--member=1", "x"],
        "fault UnknownArgument",
    ),
];

/// and what `main` prints of itself.
const OF_ITSELF: Words = &[
    (&["--help"], "fault DisplayHelp"),
    (&["--version"], "fault DisplayVersion"),
];

const NOTHING: Run<'static> = Run {
    name: "words that ask for nothing",
    input: &[World("1 0 1 open")],
    status: 2,
    ..RUN
};

/// Words that ask for nothing leave the source unread.
const UNREAD: &[Run<'static>] = &[Run {
    name: "the source is unread",
    words: &["play"],
    reads: &[1],
    output: Output::Line("fault InvalidSubcommand"),
    ..NOTHING
}];

fn play_unread(rt: &impl Abort, table: &mut Table) -> Result<(), AllocError> {
    table.play_all(rt, UNREAD)
}

fn play_no_command(rt: &impl Abort, table: &mut Table) -> Result<(), AllocError> {
    table.play_words(rt, &NOTHING, NO_COMMAND)
}

fn play_of_replay(rt: &impl Abort, table: &mut Table) -> Result<(), AllocError> {
    table.play_words(rt, &NOTHING, OF_REPLAY)
}

fn play_of_verify(rt: &impl Abort, table: &mut Table) -> Result<(), AllocError> {
    table.play_words(rt, &NOTHING, OF_VERIFY)
}

fn play_of_node(rt: &impl Abort, table: &mut Table) -> Result<(), AllocError> {
    table.play_words(rt, &NOTHING, OF_NODE)
}

fn play_of_audit(rt: &impl Abort, table: &mut Table) -> Result<(), AllocError> {
    table.play_words(rt, &NOTHING, OF_AUDIT)
}

fn play_of_keygen(rt: &impl Abort, table: &mut Table) -> Result<(), AllocError> {
    table.play_words(rt, &NOTHING, OF_KEYGEN)
}

fn play_of_deal(rt: &impl Abort, table: &mut Table) -> Result<(), AllocError> {
    table.play_words(rt, &NOTHING, OF_DEAL)
}

fn play_of_sign(rt: &impl Abort, table: &mut Table) -> Result<(), AllocError> {
    table.play_words(rt, &NOTHING, OF_SIGN)
}

fn play_of_itself(rt: &impl Abort, table: &mut Table) -> Result<(), AllocError> {
    table.play_words(rt, &NOTHING, OF_ITSELF)
}

/// Plays words that ask for nothing.
pub fn play(rt: &impl Abort, table: &mut Table) -> Result<(), AllocError> {
    play_unread(rt, table)?;
    play_no_command(rt, table)?;
    play_of_replay(rt, table)?;
    play_of_verify(rt, table)?;
    play_of_node(rt, table)?;
    play_of_audit(rt, table)?;
    play_of_keygen(rt, table)?;
    play_of_deal(rt, table)?;
    play_of_sign(rt, table)?;
    play_of_itself(rt, table)
}

fn words_of(alloc: Global, words: &[&str]) -> Result<Vec<String>, AllocError> {
    let mut held = Vec::new(alloc);
    for word in words {
        held.push(String::from_str(alloc, word)?)?;
    }
    Ok(held)
}

#[test]
fn prints_of_itself(rt: HostRuntime) -> Result<(), Fail> {
    let alloc = rt.alloc();
    let help = printed_of_itself(alloc, &words_of(alloc, &["--help"])?)?.ok_or("no help")?;
    assert_eq!(rt; help.as_str(), HELP);
    let version = printed_of_itself(alloc, &words_of(alloc, &["--version"])?)?.ok_or("no version")?;
    assert_eq!(rt; version.as_str(), "ccfg 0.1.0\n");
    assert!(rt; printed_of_itself(alloc, &words_of(alloc, &["--help", "replay"])?)?.is_none());
    Ok(())
}

#[test]
fn takes_the_last_path_of_a_disk(rt: HostRuntime) -> Result<(), Fail> {
    let alloc = rt.alloc();
    let rows: [(&[&str], Option<&str>, usize); 6] = [
        (&[], None, 0),
        (&["keygen"], None, 1),
        (&["keygen", "@disk=a"], None, 2),
        (&["@disk=a"], Some("a"), 0),
        (
            &["@disk=a", "@disk=", "@disk=b/c", "keygen", "@disk=d"],
            Some("b/c"),
            2,
        ),
        (&["@disk", "@disk=a"], None, 2),
    ];
    for (called, path, count) in rows {
        let called = words_of(alloc, called)?;
        let called = invocation_of(alloc, &called)?;
        assert_eq!(rt; called.disk, path);
        assert_eq!(rt; called.words.len(), count);
    }
    Ok(())
}
