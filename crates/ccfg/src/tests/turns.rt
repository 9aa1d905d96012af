//! Runs that are played again: with a call that fails, in turn, and of each prefix of their input.

use crate::tests::part::{Left, bytes_of};
use crate::tests::play::{Failing, play, play_failing};
use crate::tests::run::{InTurn, Run};
use gl_outside::Traffic;
use std::alloc::{AllocError, Global};

/// The first so many lines of a text.
pub fn first_lines(text: &[u8], count: u64) -> &[u8] {
    let mut lines = 0u64;
    for (index, byte) in text.iter().enumerate() {
        if lines == count {
            return text.get(..index).unwrap_or(text);
        }
        if *byte == b'\n' {
            lines = lines.saturating_add(1);
        }
    }
    text
}

fn is_sent(traffic: &&Traffic) -> bool {
    matches!(traffic, Traffic::Sent(_, _))
}

fn is_same_frame(one: &Traffic, other: &Traffic) -> bool {
    match (one, other) {
        (Traffic::Sent(to, frame), Traffic::Sent(conn, sent)) => to == conn && frame == sent,
        _ => false,
    }
}

/// Whether what was sent is a prefix of what was sent in the whole run.
fn is_prefix_sent(left: &[Traffic], whole: &[Traffic]) -> bool {
    let mut all = whole.iter().filter(is_sent);
    for traffic in left.iter().filter(is_sent) {
        match all.next() {
            Some(sent) if is_same_frame(traffic, sent) => {}
            _ => return false,
        }
    }
    true
}

/// Whether a run of which a call failed came to the expected output then.
fn is_failed_output(what: InTurn, call: u64, before: &[u8], left: &Left, whole: &Left) -> bool {
    match what {
        InTurn::Reads => {
            left.status == 3 && left.written.is_empty() && left.disk.as_slice() == before
        }
        InTurn::Writes => left.status == 4 && whole.written.starts_with(&left.written),
        InTurn::Lines => {
            left.status == 4
                && left.written.as_slice() == first_lines(&whole.written, call.saturating_sub(1))
        }
        InTurn::Disk => {
            left.status == 5
                && left.written.is_empty()
                && is_prefix_sent(&left.traffic, &whole.traffic)
        }
        InTurn::ForeignDisk => {
            left.status == 5 && left.written.is_empty() && left.disk.as_slice() == before
        }
        InTurn::Nexts => {
            left.status == 6
                && left.written.is_empty()
                && is_prefix_sent(&left.traffic, &whole.traffic)
        }
    }
}

/// More calls than a run makes of an object.
const CALLS: u64 = 2000;

/// Whether a run with one failing call didn't come to the expected output, which is that of the
/// whole run where no call failed.
fn is_unexpected(what: InTurn, call: u64, before: &[u8], left: &Left, whole: &Left) -> bool {
    match left.faults {
        0 => left.status != whole.status || left.written != whole.written,
        1 => !is_failed_output(what, call, before, left, whole),
        _ => true,
    }
}

/// Plays a run once for each call that may fail, up to the first that isn't made. Tells at which
/// call it doesn't come to the expected output.
pub fn first_unexpected_call(
    alloc: Global,
    run: &Run<'_>,
    what: InTurn,
    whole: &Left,
    lefts: &[Left],
) -> Result<Option<u64>, AllocError> {
    let before = bytes_of(alloc, run.disk.unwrap_or(&[]), lefts)?;
    for call in 1..CALLS {
        let left = play_failing(alloc, run, Some(Failing { what, call }), lefts)?;
        if is_unexpected(what, call, &before, &left, whole) {
            return Ok(Some(call));
        }
        if left.faults == 0 {
            return Ok(None);
        }
    }
    Ok(Some(CALLS))
}

fn line_count(text: &[u8]) -> u64 {
    let mut count = 0u64;
    for byte in text {
        if *byte == b'\n' {
            count = count.saturating_add(1);
        }
    }
    count
}

/// Whether a run of a prefix of its input came to the expected output then.
fn is_prefix_output(
    alloc: Global,
    prefix: &[u8],
    left: &Left,
    whole: &Left,
) -> Result<bool, AllocError> {
    let lines = line_count(prefix);
    if prefix.is_empty() || prefix.ends_with(b"\n") {
        return Ok(
            left.status == 0 && left.written.as_slice() == first_lines(&whole.written, lines),
        );
    }
    let output = format!(in alloc; "fault line {}\n", lines.saturating_add(1))?;
    Ok(left.status == 9 && left.written.as_slice() == output.as_bytes())
}

/// The same run, of the prefix of its input.
fn with_prefix<'a>(run: &Run<'a>, len: usize) -> Run<'a> {
    Run { cut: len, ..*run }
}

/// Plays a run of each prefix of its input. Tells at which length it doesn't come
/// to the expected output.
pub fn first_unexpected_prefix(
    alloc: Global,
    run: &Run<'_>,
    whole: &Left,
    lefts: &[Left],
) -> Result<Option<usize>, AllocError> {
    let text = bytes_of(alloc, run.input, lefts)?;
    for len in 0..text.len() {
        let left = play(alloc, &with_prefix(run, len), lefts)?;
        let prefix = text.get(..len).unwrap_or(&[]);
        if !is_prefix_output(alloc, prefix, &left, whole)? {
            return Ok(Some(len));
        }
    }
    Ok(None)
}
