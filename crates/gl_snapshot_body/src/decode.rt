//! A body read from bytes.

ghost use Rattle.std.specs.Prelude.{◌≡◌, ◌+◌, ◌^◌, ◌<◌, None, Ok, IfOk, IsTrue, length};
ghost use Rattle.std.specs.Option.{option_copied};
ghost use Rattle.gl_base.specs.Answers.{Answers};
ghost use Rattle.gl_vmaps.specs.Rows.{are_ascending};
ghost use Rattle.gl_snapshot_body.specs.Body.{is_next_start, is_after, body_bytes, is_body};
ghost use Rattle.gl_snapshot_body.specs.Parsing.{repeated_at, base_at, next_start, start_at, starts_at, peak_at, peaks_at, row_at, rows_at, body_at, body_in, shape_of};
ghost use Rattle.gl_snapshot_body.specs.declared.body.Body.{Body as BodyValue};

use crate::body::{Body, Digest, ViewStart};
use crate::fault::ShapeFault;
use gl_base::{CodeFault, Cut, LAST_SEQNO, OrNoMemory, Sequence};
use gl_vmaps::{Key, MapName, Row, Rows, VALUE_LIMIT, Value};
use std::alloc::Global;
use std::cmp::Ordering;

/// What the field that begins at this place holds is not allowed there.
fn refused(at: usize) -> OrNoMemory<CodeFault>
    ensures { result ≡ OrNoMemory.Fault (CodeFault.Value at) }
{
    OrNoMemory::Fault(CodeFault::Value { at })
}

#[tactic(auto, unfolding(crate::specs::Parsing::base_at))]
fn read_base(cut: &mut Cut<'_>) -> Result<u64, OrNoMemory<CodeFault>>
    ensures { Answers (λ base. (base, cut.new)) result (base_at cut.old) }
{
    let place = cut.at();
    let base = cut.u64()?;
    if 1 <= base && base <= LAST_SEQNO {
        Ok(base)
    } else {
        Err(refused(place))
    }
}

fn is_next(base: u64, last: Option<&ViewStart>, start: &ViewStart) -> bool
    ensures { result ≡ is_next_start base (option_copied last.entry) start.now }
{
    match last {
        None => start.seqno == 1 && start.seqno <= base,
        Some(last) => last.view < start.view && last.seqno < start.seqno && start.seqno <= base,
    }
}

/// Reads the start of a view, which stands after the one before it.
#[tactic(auto, unfolding(crate::specs::Parsing::start_at))]
fn read_start(
    cut: &mut Cut<'_>,
    base: u64,
    last: Option<&ViewStart>,
) -> Result<ViewStart, OrNoMemory<CodeFault>>
    ensures { Answers (λ start. (start, cut.new)) result
        (start_at base (option_copied last.entry) cut.old) }
{
    let place = cut.at();
    let view = cut.u32()?;
    let seqno = cut.u64()?;
    let start = ViewStart { view, seqno };
    if !is_next(base, last, &start) {
        return Err(refused(place));
    }
    Ok(start)
}

fn read_starts(
    alloc: Global,
    cut: &mut Cut<'_>,
    base: u64,
    count: u32,
) -> Result<Vec<ViewStart>, OrNoMemory<CodeFault>>
    ensures { Answers (λ starts. (starts.items, cut.new)) result
        (repeated_at (start_at base) None count cut.old) }
{
    let mut starts = Vec::new(alloc);
    for _ in 0..count {
        let start = read_start(cut, base, starts.last())?;
        starts.push(start)?;
    }
    Ok(starts)
}

/// Reads the starts of the views after their count.
#[tactic(auto, unfolding(crate::specs::Parsing::starts_at))]
fn read_views(
    alloc: Global,
    cut: &mut Cut<'_>,
    base: u64,
) -> Result<Sequence<ViewStart>, OrNoMemory<CodeFault>>
    ensures { Answers (λ starts. (starts, cut.new)) result (starts_at base cut.old) }
{
    let count = cut.u32()?;
    Ok(Sequence::from(read_starts(alloc, cut, base, count)?))
}

#[tactic(auto, unfolding(crate::specs::Parsing::peak_at))]
fn read_peak(cut: &mut Cut<'_>) -> Result<Digest, OrNoMemory<CodeFault>>
    ensures { Answers (λ peak. (peak, cut.new)) result (peak_at None cut.old) }
{
    Ok(*cut.array::<32>()?)
}

fn read_digests(
    alloc: Global,
    cut: &mut Cut<'_>,
    count: u32,
) -> Result<Vec<Digest>, OrNoMemory<CodeFault>>
    ensures { Answers (λ peaks. (peaks.items, cut.new)) result
        (repeated_at peak_at None count cut.old) }
{
    let mut peaks = Vec::new(alloc);
    for _ in 0..count {
        let peak = read_peak(cut)?;
        peaks.push(peak)?;
    }
    Ok(peaks)
}

/// Reads the peaks after their count.
#[tactic(auto, unfolding(crate::specs::Parsing::peaks_at))]
fn read_peaks(
    alloc: Global,
    cut: &mut Cut<'_>,
    base: u64,
) -> Result<Sequence<Digest>, OrNoMemory<CodeFault>>
    ensures { Answers (λ peaks. (peaks, cut.new)) result (peaks_at base cut.old) }
{
    let place = cut.at();
    let count = cut.u32()?;
    if count != base.count_ones() {
        return Err(refused(place));
    }
    Ok(Sequence::from(read_digests(alloc, cut, count)?))
}

fn is_after(last: Option<&Row>, map: &MapName, key: &Key) -> bool
    ensures { result ≡ is_after (option_copied last.entry) map.now key.now }
{
    match last {
        None => true,
        Some(last) => {
            let order = last
                .map
                .as_slice()
                .cmp(map.as_slice())
                .then(last.key.as_slice().cmp(key.as_slice()));
            order == Ordering::Less
        }
    }
}

/// Reads a row, which stands after the one before it.
#[tactic(auto, unfolding(crate::specs::Parsing::row_at))]
fn read_row(
    alloc: Global,
    cut: &mut Cut<'_>,
    last: Option<&Row>,
) -> Result<Row, OrNoMemory<CodeFault>>
    ensures { Answers (λ row. (row, cut.new)) result (row_at (option_copied last.entry) cut.old) }
{
    let place = cut.at();
    let map = MapName::from_slice(alloc, cut.map_name()?)?;
    let key = Key::from_slice(alloc, cut.key()?)?;
    if !is_after(last, &map, &key) {
        return Err(refused(place));
    }
    let value = Value::from_slice(alloc, cut.value(VALUE_LIMIT as u64)?)?;
    Ok(Row { map, key, value })
}

fn read_ascending(
    alloc: Global,
    cut: &mut Cut<'_>,
    count: u32,
) -> Result<Vec<Row>, OrNoMemory<CodeFault>>
    ensures exact { Answers (λ rows. (rows.items, cut.new)) result
        (repeated_at row_at None count cut.old) }
    ensures ascending { IfOk result (λ rows. IsTrue (are_ascending rows.items)) }
{
    let mut rows = Vec::new(alloc);
    for _ in 0..count {
        let row = read_row(alloc, cut, rows.last())?;
        rows.push(row)?;
    }
    Ok(rows)
}

/// Reads the rows after their count.
#[tactic(auto, unfolding(crate::specs::Parsing::rows_at))]
fn read_rows(alloc: Global, cut: &mut Cut<'_>) -> Result<Rows, OrNoMemory<CodeFault>>
    ensures { Answers (λ rows. (rows, cut.new)) result (rows_at cut.old) }
{
    let count = cut.u32()?;
    Ok(Rows::of(read_ascending(alloc, cut, count)?))
}

#[tactic(auto, unfolding(crate::specs::Parsing::body_at))]
fn read_fields(alloc: Global, cut: &mut Cut<'_>) -> Result<Body, OrNoMemory<CodeFault>>
    ensures { Answers (λ body. (body, cut.new)) result (body_at cut.old) }
{
    let base = read_base(cut)?;
    let view = cut.u32()?;
    let commit = cut.u64()?;
    let views = read_views(alloc, cut, base)?;
    let peaks = read_peaks(alloc, cut, base)?;
    let rows = read_rows(alloc, cut)?;
    Ok(Body {
        base,
        view,
        commit,
        views,
        peaks,
        rows,
    })
}

fn read_whole(alloc: Global, at: usize, bytes: &[u8]) -> Result<Body, OrNoMemory<CodeFault>>
    requires { at + length bytes.now < 2 ^ 64 }
    ensures { Answers (λ body. body) result (body_in at bytes.now) }
{
    let mut cut = Cut::new_at(bytes, at);
    let body = read_fields(alloc, &mut cut)?;
    cut.end()?;
    Ok(body)
}

fn read_shape(alloc: Global, at: usize, bytes: &[u8]) -> Result<Body, OrNoMemory<ShapeFault>>
    requires { at + length bytes.now < 2 ^ 64 }
    ensures { Answers (λ body. body) result (shape_of at bytes.now) }
{
    Ok(read_whole(alloc, at, bytes).map_err(OrNoMemory::widen)?)
}

/// The body that is all of the bytes, of which the first stands at this place among others.
pub fn read_body(alloc: Global, at: usize, bytes: &[u8]) -> Result<Body, OrNoMemory<ShapeFault>>
    requires { at + length bytes.now < 2 ^ 64 }
    // What is read is encoded so.
    ensures found { IfOk result (λ body. IsTrue (is_body body)
        × (bytes.now ≡ body_bytes body)) }
    // What is encoded so is read, unless memory runs out.
    ensures only { (b : BodyValue) → IsTrue (is_body b) → bytes.now ≡ body_bytes b →
        Answers (λ body. body) result (Ok b) }
    // At which place the first fault is.
    ensures exact { Answers (λ body. body) result (shape_of at bytes.now) }
{
    read_shape(alloc, at, bytes)
}
