//! A run is played over objects in memory.

use crate::program::top;
use crate::tests::Unwatched;
use crate::tests::part::{Left, Part, bytes_of, framed};
use crate::tests::run::{Arrival, InTurn, Run};
use gl_outside::{
    Disk, Incoming, MemDisk, MemLink, MemSink, MemSource, OpenGate, SureDisk, SureLink,
};
use std::alloc::{AllocError, Global};

/// What comes over a link, as bytes.
#[derive(Drop)]
enum Coming {
    Bytes(u64, Vec<u8>),
    Tick,
}

/// What a run is given, as bytes.
#[derive(Drop)]
struct Prepared {
    words: Vec<String>,
    input: Vec<u8>,
    coming: Vec<Coming>,
}

/// A word, or the member of an earlier run's JSON that it names.
fn word_of(alloc: Global, word: &str, lefts: &[Left]) -> Result<String, AllocError> {
    let bytes = if let Some(name) = word.strip_prefix("$key of ") {
        bytes_of(alloc, &[Part::Member(name, "key")], lefts)?
    } else if let Some(name) = word.strip_prefix("$node of ") {
        bytes_of(alloc, &[Part::Member(name, "node")], lefts)?
    } else {
        word.as_bytes().to_vec(alloc)?
    };
    String::from_str(alloc, str::from_utf8(&bytes).unwrap_or(""))
}

fn words_of(alloc: Global, words: &[&str], lefts: &[Left]) -> Result<Vec<String>, AllocError> {
    let mut held = Vec::new(alloc);
    for word in words {
        held.push(word_of(alloc, word, lefts)?)?;
    }
    Ok(held)
}

fn add_coming(
    alloc: Global,
    coming: &mut Vec<Coming>,
    arrival: &Arrival<'_>,
    lefts: &[Left],
) -> Result<(), AllocError> {
    match arrival {
        Arrival::Bytes(conn, parts) => {
            coming.push(Coming::Bytes(*conn, bytes_of(alloc, parts, lefts)?))?;
        }
        Arrival::Payload(conn, parts) => {
            let payload = bytes_of(alloc, parts, lefts)?;
            coming.push(Coming::Bytes(*conn, framed(alloc, &payload)?))?;
        }
        Arrival::Single(conn, parts) => {
            for byte in &bytes_of(alloc, parts, lefts)? {
                coming.push(Coming::Bytes(*conn, Vec::from_slice(alloc, &[*byte])?))?;
            }
        }
        Arrival::Ticks(count) => {
            for _ in 0..*count {
                coming.push(Coming::Tick)?;
            }
        }
    }
    Ok(())
}

fn prepare(alloc: Global, run: &Run<'_>, lefts: &[Left]) -> Result<Prepared, AllocError> {
    let mut coming = Vec::new(alloc);
    for arrival in run.link {
        add_coming(alloc, &mut coming, arrival, lefts)?;
    }
    let words = words_of(alloc, run.words, lefts)?;
    let mut input = bytes_of(alloc, run.input, lefts)?;
    input.truncate(run.cut);
    Ok(Prepared {
        words,
        input,
        coming,
    })
}

fn incoming_of(alloc: Global, coming: &[Coming]) -> Result<Vec<Incoming<'_>>, AllocError> {
    let mut given = Vec::new(alloc);
    for one in coming {
        given.push(match one {
            Coming::Bytes(conn, bytes) => Incoming::Bytes(*conn, bytes),
            Coming::Tick => Incoming::Tick,
        })?;
    }
    Ok(given)
}

/// A call that is to fail, alone of its object, from 1.
#[derive(Clone, Copy)]
pub struct Failing {
    pub what: InTurn,
    pub call: u64,
}

/// Its number, or 0, which no call has.
fn number_of(failing: Option<Failing>) -> u64 {
    match failing {
        Some(failing) => failing.call,
        None => 0,
    }
}

fn what_fails(failing: Option<Failing>) -> Option<InTurn> {
    match failing {
        Some(failing) => Some(failing.what),
        None => None,
    }
}

fn is_of_source(failing: Option<Failing>) -> bool {
    matches!(what_fails(failing), Some(InTurn::Reads))
}

fn is_of_sink(failing: Option<Failing>) -> bool {
    matches!(what_fails(failing), Some(InTurn::Writes | InTurn::Lines))
}

fn is_of_link(failing: Option<Failing>) -> bool {
    matches!(what_fails(failing), Some(InTurn::Nexts))
}

fn is_of_disk(failing: Option<Failing>) -> bool {
    matches!(
        what_fails(failing),
        Some(InTurn::Disk | InTurn::ForeignDisk)
    )
}

/// The calls of an object that fail: the one, or those of the row.
fn one_or_row<'a>(is_one: bool, one: &'a [u64], row: &'a [u64]) -> &'a [u64] {
    if is_one { one } else { row }
}

/// Calls the program with these objects, and a disk.
fn call<D: Disk + Drop + Send>(
    alloc: Global,
    run: &Run<'_>,
    failing: Option<Failing>,
    prepared: &Prepared,
    disk: D,
) -> Result<(Left, D), AllocError> {
    let given = incoming_of(alloc, &prepared.coming)?;
    let one = [number_of(failing)];
    let reads = one_or_row(is_of_source(failing), &one, run.reads);
    let writes = one_or_row(is_of_sink(failing), &one, run.writes);
    let nexts = one_or_row(is_of_link(failing), &one, run.nexts);
    let mut source = MemSource::new(&prepared.input, run.piece, reads);
    let mut sink = MemSink::new(alloc, run.sink_piece, writes);
    let mut link = MemLink::new(SureLink::new(alloc, &given), nexts, run.sends);
    let (status, disk) = top(
        alloc,
        &prepared.words,
        &mut source,
        &mut sink,
        disk,
        &mut link,
        Unwatched,
        &OpenGate,
    );
    let disk_faults = disk.faults();
    let inward = source.plan.faults().saturating_add(link.nexts.faults());
    let outward = sink.plan.faults().saturating_add(link.sends.faults());
    let left = Left {
        name: run.name,
        status,
        given: Vec::new(alloc),
        written: sink.inner.held,
        disk: Vec::new(alloc),
        pieces: Vec::new(alloc),
        disk_changes: 0,
        disk_faults,
        is_read_whole: source.inner.ended,
        traffic: link.inner.past,
        faults: inward.saturating_add(outward).saturating_add(disk_faults),
    };
    Ok((left, disk))
}

/// The calls of a disk that isn't there: each fails, and a run makes no more after them.
const FIRST_CALLS: &[u64] = &[1, 2, 3, 4, 5, 6, 7, 8];

fn play_without_disk(
    alloc: Global,
    run: &Run<'_>,
    failing: Option<Failing>,
    prepared: &Prepared,
) -> Result<Left, AllocError> {
    let none = MemDisk::new(SureDisk::new(alloc), FIRST_CALLS);
    let (left, _disk) = call(alloc, run, failing, prepared, none)?;
    Ok(left)
}

fn play_over_disk(
    alloc: Global,
    run: &Run<'_>,
    failing: Option<Failing>,
    prepared: &Prepared,
    bytes: &[u8],
) -> Result<Left, AllocError> {
    let one = [number_of(failing)];
    let calls = one_or_row(is_of_disk(failing), &one, run.disk_calls);
    let disk = MemDisk::new(SureDisk::holding(alloc, bytes)?, calls);
    let (mut left, disk) = call(alloc, run, failing, prepared, disk)?;
    left.disk_changes = disk.inner.calls.len();
    left.disk = disk.inner.bytes;
    left.pieces = disk.inner.pieces;
    Ok(left)
}

/// Plays a run after earlier ones.
pub fn play(alloc: Global, run: &Run<'_>, lefts: &[Left]) -> Result<Left, AllocError> {
    play_failing(alloc, run, None, lefts)
}

/// Plays a run after earlier ones, where a call is to fail in the place of the row's of its object.
pub fn play_failing(
    alloc: Global,
    run: &Run<'_>,
    failing: Option<Failing>,
    lefts: &[Left],
) -> Result<Left, AllocError> {
    let prepared = prepare(alloc, run, lefts)?;
    let mut left = match run.disk {
        Some(parts) => {
            let bytes = bytes_of(alloc, parts, lefts)?;
            play_over_disk(alloc, run, failing, &prepared, &bytes)?
        }
        None => play_without_disk(alloc, run, failing, &prepared)?,
    };
    left.given = prepared.input;
    Ok(left)
}

/// How many calls a run after earlier ones makes of its disk.
pub fn count_calls(alloc: Global, run: &Run<'_>, lefts: &[Left]) -> Result<u64, AllocError> {
    let prepared = prepare(alloc, run, lefts)?;
    let bytes = bytes_of(alloc, run.disk.unwrap_or(&[]), lefts)?;
    let disk = MemDisk::new(SureDisk::holding(alloc, &bytes)?, &[]);
    let (_left, disk) = call(alloc, run, None, &prepared, disk)?;
    Ok(disk.plan.calls)
}

/// Plays a run after earlier ones that stops at a call of its disk, and gives that disk.
pub fn play_stopped(
    alloc: Global,
    run: &Run<'_>,
    number: u64,
    lefts: &[Left],
) -> Result<(Left, SureDisk), AllocError> {
    let prepared = prepare(alloc, run, lefts)?;
    let bytes = bytes_of(alloc, run.disk.unwrap_or(&[]), lefts)?;
    let failing = [number];
    let disk = MemDisk::new(SureDisk::holding(alloc, &bytes)?, &failing);
    let (mut left, disk) = call(alloc, run, None, &prepared, disk)?;
    left.disk = disk.inner.bytes.to_vec(alloc)?;
    left.pieces = disk.inner.pieces.to_vec(alloc)?;
    Ok((left, disk.inner))
}
