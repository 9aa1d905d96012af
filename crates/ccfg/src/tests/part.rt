//! What a run left, and what the inputs and the outputs of runs are made of.

use gl_outside::Traffic;
use std::alloc::{AllocError, Global};

/// What a run left.
#[derive(Drop)]
pub struct Left {
    pub name: &'static str,
    pub status: u8,
    /// What its source had, and what it wrote.
    pub given: Vec<u8>,
    pub written: Vec<u8>,
    /// The bytes of its disk, the pieces that it handed to that, one after the other, how often it
    /// was written and synced, and how often it failed.
    pub disk: Vec<u8>,
    pub pieces: Vec<u8>,
    pub disk_changes: usize,
    pub disk_faults: u64,
    /// Whether its source gave its end.
    pub is_read_whole: bool,
    pub traffic: Vec<Traffic>,
    /// How many calls failed of all objects.
    pub faults: u64,
}

/// Lines of a schedule without their numbers and newlines, each with its answer.
pub type Lines<'a> = &'a [(&'a str, &'a str)];

/// Bytes that an earlier run left, by its name.
#[derive(Clone, Copy)]
pub enum Of {
    /// What it wrote.
    Written(&'static str),
    /// The frames in the answers that it wrote.
    Ledger(&'static str),
    /// What its source had.
    Input(&'static str),
    /// Its disk.
    Disk(&'static str),
    /// The frame that it sent with this number, from 0.
    Sent(&'static str, usize),
}

/// Bytes of an input, or of the expected output.
#[derive(Clone, Copy)]
pub enum Part<'a> {
    Text(&'a str),
    Bytes(&'a [u8]),
    /// The bytes that digits encode; spaces stand between them.
    Hex(&'a str),
    /// These bytes, so many times.
    Times(&'a [u8], usize),
    /// This text so many times; for each `%` in it stands a number, which begins at its first one
    /// and then goes up by its second.
    Each(i64, &'a str, &'a [(i64, i64)]),
    /// This text, and after it so many bytes of zero in digits, so many times.
    Zeros(&'a str, usize, usize),
    /// A first line of a schedule with these settings, and a seed of zeros.
    World(&'a str),
    /// The lines of a schedule.
    Asked(Lines<'a>),
    /// What is printed for these lines, of which the first has this number.
    Answered(usize, Lines<'a>),
    /// All of it.
    All(Of),
    /// From one place to another, or to its end where it is shorter.
    Cut(Of, usize, usize),
    /// After its length in four bytes, the least significant first.
    Sized(Of),
    /// From one place to another, in digits.
    Digits(Of, usize, usize),
    /// All but its last byte.
    Prefix(Of),
    /// All of it, with this byte at a place.
    Changed(Of, usize, u8),
    /// What stands before the first place of this text in it,
    Before(Of, &'a str),
    /// and what stands after that.
    After(Of, &'a str),
    /// The text of this member of the JSON that a run wrote.
    Member(&'a str, &'a str),
    /// The bytes that this member encodes.
    Encoded(&'a str, &'a str),
    /// The frame of the entry with this number in the ledger that a run wrote,
    Entry(&'static str, usize),
    /// and the batch of a key file that appends it, without the gate behind it.
    Append(&'static str, usize),
}

fn left_by<'a>(lefts: &'a [Left], name: &str) -> Option<&'a Left> {
    lefts.iter().find(|left| left.name == name)
}

fn written_by<'a>(lefts: &'a [Left], name: &str) -> &'a [u8] {
    match left_by(lefts, name) {
        Some(left) => &left.written,
        None => &[],
    }
}

fn given_to<'a>(lefts: &'a [Left], name: &str) -> &'a [u8] {
    match left_by(lefts, name) {
        Some(left) => &left.given,
        None => &[],
    }
}

fn disk_of<'a>(lefts: &'a [Left], name: &str) -> &'a [u8] {
    match left_by(lefts, name) {
        Some(left) => &left.disk,
        None => &[],
    }
}

/// A frame that was sent.
fn sent_in(traffic: &Traffic) -> Option<&[u8]> {
    match traffic {
        Traffic::Sent(_, frame) => Some(frame),
        _ => None,
    }
}

fn sent_by<'a>(lefts: &'a [Left], name: &str, number: usize) -> &'a [u8] {
    match left_by(lefts, name) {
        Some(left) => left
            .traffic
            .iter()
            .filter_map(sent_in)
            .nth(number)
            .unwrap_or(&[]),
        None => &[],
    }
}

/// Puts the frame that a word of an answer encodes, if it is that long.
fn put_frame(alloc: Global, ledger: &mut Vec<u8>, word: &[u8]) -> Result<(), AllocError> {
    if word.len() > 150
        && let Ok(frame) = hex::decode(alloc, word)
    {
        ledger.extend_from_slice(&frame)?;
    }
    Ok(())
}

/// The ledger whose frames stand in an answer.
fn frames_in(alloc: Global, reported: &[u8]) -> Result<Vec<u8>, AllocError> {
    let mut ledger = Vec::new(alloc);
    let mut word = Vec::new(alloc);
    for byte in reported {
        if matches!(*byte, b' ' | b'\n') {
            put_frame(alloc, &mut ledger, &word)?;
            word.clear();
        } else {
            word.push(*byte)?;
        }
    }
    Ok(ledger)
}

fn bytes_left(alloc: Global, of: &Of, lefts: &[Left]) -> Result<Vec<u8>, AllocError> {
    match of {
        Of::Written(name) => written_by(lefts, name).to_vec(alloc),
        Of::Ledger(name) => frames_in(alloc, written_by(lefts, name)),
        Of::Input(name) => given_to(lefts, name).to_vec(alloc),
        Of::Disk(name) => disk_of(lefts, name).to_vec(alloc),
        Of::Sent(name, number) => sent_by(lefts, name, *number).to_vec(alloc),
    }
}

/// The bytes from one place to another, as far as they are there.
fn cut(bytes: &[u8], from: usize, to: usize) -> &[u8] {
    let prefix = bytes.get(..to).unwrap_or(bytes);
    prefix.get(from..).unwrap_or(&[])
}

/// The bytes that digits encode, with spaces between them.
fn encoded(alloc: Global, digits: &[u8]) -> Result<Vec<u8>, AllocError> {
    let mut word = Vec::new(alloc);
    for digit in digits {
        if *digit != b' ' {
            word.push(*digit)?;
        }
    }
    Ok(hex::decode(alloc, &word).unwrap_or(Vec::new(alloc)))
}

/// The text of a member of an object.
fn member_in<'a>(alloc: Global, text: &'a [u8], name: &str) -> Result<&'a [u8], AllocError> {
    let prefix = format!(in alloc; "\"{name}\":\"")?;
    let text = str::from_utf8(text).unwrap_or("");
    let (_, rest) = text.split_once(prefix.as_str()).unwrap_or(("", ""));
    let (value, _) = rest.split_once("\"").unwrap_or(("", ""));
    Ok(value.as_bytes())
}

/// The bytes that a member of an object encodes.
pub fn encoded_member(alloc: Global, text: &[u8], name: &str) -> Result<Vec<u8>, AllocError> {
    let digits = member_in(alloc, text, name)?;
    encoded(alloc, digits)
}

/// What stands before and after the first place of a text.
fn split_at<'a>(bytes: &'a [u8], text: &str) -> (&'a [u8], &'a [u8]) {
    let whole = str::from_utf8(bytes).unwrap_or("");
    let (before, after) = whole.split_once(text).unwrap_or(("no such text", ""));
    (before.as_bytes(), after.as_bytes())
}

/// How many bytes the frame at the start of a ledger has: a version, flags, the size of its body in
/// six bytes, and that.
fn frame_len(ledger: &[u8]) -> usize {
    match ledger {
        [_, _, low, middle, high, ..] => {
            8 + usize::from(*low) + 256 * usize::from(*middle) + 65_536 * usize::from(*high)
        }
        _ => 0,
    }
}

/// The frame of an entry, of which the first has the number 1.
fn entry_in(ledger: &[u8], number: usize) -> &[u8] {
    let mut rest = ledger;
    for _ in 1..number {
        rest = cut(rest, frame_len(rest), rest.len());
    }
    cut(rest, 0, frame_len(rest))
}

/// Puts a text in which numbers stand for each `%`.
fn put_numbered(
    alloc: Global,
    out: &mut Vec<u8>,
    text: &str,
    from: &[(i64, i64)],
    index: i64,
) -> Result<(), AllocError> {
    let mut numbers = from.iter();
    for byte in text.as_bytes() {
        if *byte != b'%' {
            out.push(*byte)?;
        } else if let Some((first, by)) = numbers.next() {
            let number = first.wrapping_add(by.wrapping_mul(index));
            out.extend_from_slice(format!(in alloc; "{number}")?.as_bytes())?;
        }
    }
    Ok(())
}

/// An open gate, the length of a batch, and its one record, which appends this frame.
fn put_append(out: &mut Vec<u8>, frame: &[u8]) -> Result<(), AllocError> {
    let len = u32::try_from(frame.len()).unwrap_or(0);
    out.push(1)?;
    out.extend_from_slice(&len.saturating_add(5).to_le_bytes())?;
    out.push(4)?;
    put_sized(out, frame)
}

fn put_world(out: &mut Vec<u8>, settings: &str) -> Result<(), AllocError> {
    out.extend_from_slice(b"world ")?;
    out.extend_from_slice(settings.as_bytes())?;
    out.push(b' ')?;
    out.extend_from_slice(&[b'0'; 64])?;
    out.push(b'\n')?;
    Ok(())
}

fn put_asked(out: &mut Vec<u8>, lines: Lines<'_>) -> Result<(), AllocError> {
    for (line, _) in lines {
        out.extend_from_slice(line.as_bytes())?;
        out.push(b'\n')?;
    }
    Ok(())
}

fn put_answered(
    alloc: Global,
    out: &mut Vec<u8>,
    first: usize,
    lines: Lines<'_>,
) -> Result<(), AllocError> {
    for (index, (_, answer)) in lines.iter().enumerate() {
        let number = first.wrapping_add(index);
        out.extend_from_slice(format!(in alloc; "{number} {answer}\n")?.as_bytes())?;
    }
    Ok(())
}

fn put_sized(out: &mut Vec<u8>, bytes: &[u8]) -> Result<(), AllocError> {
    let len = u32::try_from(bytes.len()).unwrap_or(0);
    out.extend_from_slice(&len.to_le_bytes())?;
    out.extend_from_slice(bytes)
}

fn put_changed(out: &mut Vec<u8>, bytes: &[u8], at: usize, byte: u8) -> Result<(), AllocError> {
    out.extend_from_slice(cut(bytes, 0, at))?;
    out.push(byte)?;
    out.extend_from_slice(cut(bytes, at.saturating_add(1), bytes.len()))
}

fn put_text(
    alloc: Global,
    out: &mut Vec<u8>,
    times: i64,
    text: &str,
    from: &[(i64, i64)],
) -> Result<(), AllocError> {
    for index in 0..times {
        put_numbered(alloc, out, text, from, index)?;
    }
    Ok(())
}

fn put_times(out: &mut Vec<u8>, bytes: &[u8], times: usize) -> Result<(), AllocError> {
    for _ in 0..times {
        out.extend_from_slice(bytes)?;
    }
    Ok(())
}

fn put_zeros(out: &mut Vec<u8>, text: &str, count: usize, times: usize) -> Result<(), AllocError> {
    for _ in 0..times {
        out.extend_from_slice(text.as_bytes())?;
        put_times(out, b"00", count)?;
    }
    Ok(())
}

/// Puts a part that has to do with earlier runs.
fn put_left(
    alloc: Global,
    out: &mut Vec<u8>,
    part: &Part<'_>,
    lefts: &[Left],
) -> Result<(), AllocError> {
    match part {
        Part::All(of) => out.extend_from_slice(&bytes_left(alloc, of, lefts)?),
        Part::Cut(of, from, to) => {
            out.extend_from_slice(cut(&bytes_left(alloc, of, lefts)?, *from, *to))
        }
        Part::Prefix(of) => {
            let left = bytes_left(alloc, of, lefts)?;
            out.extend_from_slice(cut(&left, 0, left.len().saturating_sub(1)))
        }
        Part::Changed(of, at, byte) => {
            put_changed(out, &bytes_left(alloc, of, lefts)?, *at, *byte)
        }
        Part::Before(of, text) => {
            out.extend_from_slice(split_at(&bytes_left(alloc, of, lefts)?, text).0)
        }
        Part::After(of, text) => {
            out.extend_from_slice(split_at(&bytes_left(alloc, of, lefts)?, text).1)
        }
        Part::Sized(of) => put_sized(out, &bytes_left(alloc, of, lefts)?),
        Part::Digits(of, from, to) => {
            let left = bytes_left(alloc, of, lefts)?;
            let digits = hex::encode(alloc, cut(&left, *from, *to))?;
            out.extend_from_slice(digits.as_bytes())
        }
        Part::Member(name, member) => {
            out.extend_from_slice(member_in(alloc, written_by(lefts, name), member)?)
        }
        Part::Encoded(name, member) => {
            out.extend_from_slice(&encoded_member(alloc, written_by(lefts, name), member)?)
        }
        Part::Entry(name, number) => {
            out.extend_from_slice(entry_in(written_by(lefts, name), *number))
        }
        Part::Append(name, number) => put_append(out, entry_in(written_by(lefts, name), *number)),
        _ => Ok(()),
    }
}

fn put_part(
    alloc: Global,
    out: &mut Vec<u8>,
    part: &Part<'_>,
    lefts: &[Left],
) -> Result<(), AllocError> {
    match part {
        Part::Text(text) => out.extend_from_slice(text.as_bytes()),
        Part::Bytes(bytes) => out.extend_from_slice(bytes),
        Part::Hex(digits) => out.extend_from_slice(&encoded(alloc, digits.as_bytes())?),
        Part::Times(bytes, times) => put_times(out, bytes, *times),
        Part::Each(times, text, from) => put_text(alloc, out, *times, text, from),
        Part::Zeros(text, count, times) => put_zeros(out, text, *count, *times),
        Part::World(settings) => put_world(out, settings),
        Part::Asked(lines) => put_asked(out, lines),
        Part::Answered(first, lines) => put_answered(alloc, out, *first, lines),
        _ => put_left(alloc, out, part, lefts),
    }
}

/// A payload after its length in four bytes, the most significant first.
pub fn framed(alloc: Global, payload: &[u8]) -> Result<Vec<u8>, AllocError> {
    let len = u32::try_from(payload.len()).unwrap_or(0);
    let mut frame = Vec::from_slice(alloc, &len.to_be_bytes())?;
    frame.extend_from_slice(payload)?;
    Ok(frame)
}

/// The bytes of these parts, one after the other.
pub fn bytes_of(alloc: Global, parts: &[Part<'_>], lefts: &[Left]) -> Result<Vec<u8>, AllocError> {
    let mut out = Vec::new(alloc);
    for part in parts {
        put_part(alloc, &mut out, part, lefts)?;
    }
    Ok(out)
}
