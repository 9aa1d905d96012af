//! The entries of an Append, as bytes both ways.

ghost use Rattle.std.specs.Prelude.{◌≡◌, ◌++◌, ◌+◌, ◌≤◌, ◌<◌, ◌^◌, length, MatchResult, OnOk, IfOk, IsTrue, Ok, Err};
ghost use Rattle.std.specs.List.{list_all};
ghost use Rattle.gl_base.specs.Answers.{Answers};
ghost use Rattle.gl_base.specs.Cut.{Gives, bytes_at, number_at};
ghost use Rattle.gl_base.specs.LittleEndian.{little_endian};
ghost use Rattle.gl_entry.specs.Entry.{body_limit, frame_size};
ghost use Rattle.gl_entry.specs.Parsing.{entry_field, size_at, frame_at};
ghost use Rattle.gl_messages.specs.Fields.{id_bytes, id_at};
ghost use Rattle.gl_messages.specs.Message.{most_entries, frames_bytes, has_fitting_body, entries_fit};
ghost use Rattle.gl_messages.specs.MessageReading.{part, view_in, seqno_in, in_order, has_room, view_at, placed_at, entry_at, with_entry, entries_at, count_at, before_first, append_at};

use crate::fault::MessageFault;
use crate::fields::{put_id, read_id};
use crate::message::{Body, Entries};
use gl_base::{CodeFault, Cut, CutFault, OrNoMemory, TxId, put_bytes, put_u16, put_u64};
use gl_entry::{Entry, EntryFault};
use std::alloc::{AllocError, Global};

/// The most entries of an Append.
const MOST_ENTRIES: u16 = 64;

/// The most bytes of its frames, where it has more than one entry.
const MOST_BYTES: u64 = 1_500_000;

/// The most bytes of an entry's body.
const BODY_LIMIT: u64 = gl_base::MEBIBYTE;

/// What stands before an entry of an Append: the view and the place of the entry before it, and the
/// bytes of the frames before it in the message.
#[derive(Clone, Copy, Debug)]
pub(crate) struct Before {
    pub view: u32,
    pub seqno: u64,
    pub size: u64,
}

fn put_entries(alloc: Global, out: &mut Vec<u8>, entries: &[Entry]) -> Result<(), AllocError>
    requires { IsTrue (list_all has_fitting_body entries.now) }
    ensures { OnOk result (out.new.items ≡ out.old.items ++ frames_bytes entries.now) }
{
    for entry in entries {
        put_bytes(out, &entry.encode(alloc)?)?;
    }
    Ok(())
}

/// Writes the fields of an Append. What was written before memory ran out stays.
pub(crate) fn put_append(
    alloc: Global,
    out: &mut Vec<u8>,
    prev: TxId,
    commit: u64,
    entries: &[Entry],
) -> Result<(), AllocError>
    requires { IsTrue (entries_fit entries.now) }
    ensures { OnOk result (out.new.items ≡ out.old.items ++ id_bytes prev ++ little_endian 8 commit
        ++ little_endian 2 (length entries.now) ++ frames_bytes entries.now) }
{
    put_id(out, prev)?;
    put_u64(out, commit)?;
    put_u16(out, entries.len() as u16)?;
    put_entries(alloc, out, entries)
}

fn check_view(most: u32, before: u32, view: u32) -> Result<u32, MessageFault>
    ensures { result ≡ view_in most before view }
{
    if view < before {
        return Err(MessageFault::Order {
            want: u64::from(before),
            got: u64::from(view),
        });
    }
    if view > most {
        return Err(MessageFault::Order {
            want: u64::from(most),
            got: u64::from(view),
        });
    }
    Ok(view)
}

fn check_seqno(before: u64, seqno: u64) -> Result<u64, MessageFault>
    ensures { result ≡ seqno_in before seqno }
{
    if seqno > 0 && seqno - 1 == before {
        return Ok(seqno);
    }
    Err(MessageFault::Order {
        want: before.saturating_add(1),
        got: seqno,
    })
}

fn check_order(most: u32, before: &Before, view: u32, seqno: u64) -> Result<u64, MessageFault>
    ensures { result ≡ in_order most before.now view seqno }
{
    check_view(most, before.view, view)?;
    check_seqno(before.seqno, seqno)
}

fn has_room(before: &Before, size: u64) -> bool
    ensures { result ≡ has_room before.now size }
{
    before.size == 0 || (before.size <= MOST_BYTES && size <= MOST_BYTES - before.size)
}

/// Reads the size of an entry's body, after the version and the flags.
#[tactic(auto, unfolding(gl_entry::specs::Parsing::size_at))]
fn read_size(cut: &mut Cut<'_>) -> Result<u64, EntryFault>
    ensures { MatchResult result
        (λ size. size_at cut.old ≡ Ok (size, cut.new)) (λ fault. size_at cut.old ≡ Err fault) }
{
    if cut.u8()? != 1 {
        return Err(EntryFault::Version);
    }
    if cut.u8()? != 0 {
        return Err(EntryFault::Flags);
    }
    let size = cut.u48()?;
    if size > BODY_LIMIT {
        return Err(EntryFault::Size { size });
    }
    Ok(size)
}

/// Reads so many bytes, and gives the place of the first of them.
#[tactic(auto, using(gl_entry::proofs::Places::bytes_at_place))]
fn read_span<'a>(cut: &mut Cut<'a>, size: u64) -> Result<(usize, &'a [u8]), CutFault>
    ensures exact { Gives (λ span. span.1.now) result cut.old cut.new (bytes_at size cut.old) }
    ensures place { IfOk result (λ span. span.0 ≡ cut.old.at) }
    ensures within { IfOk result (λ span. span.0 + length span.1.now < 2 ^ 64) }
{
    let span = cut.bytes(0, size)?;
    Ok((cut.at() - span.len(), span))
}

/// Reads the view of an entry. Gives also the bytes of the body that stand after it.
#[tactic(auto, unfolding(crate::specs::MessageReading::view_at))]
fn read_view<'a>(cut: &mut Cut<'a>) -> Result<(u32, Cut<'a>), EntryFault>
    ensures { MatchResult result
        (λ read. view_at cut.old ≡ Ok (read.0, read.1)) (λ fault. view_at cut.old ≡ Err fault) }
{
    let size = read_size(cut)?;
    let (place, body) = read_span(cut, size)?;
    let mut inside = Cut::new_at(body, place);
    let view = inside.u32()?;
    Ok((view, inside))
}

fn read_seqno(cut: &mut Cut<'_>) -> Result<u64, EntryFault>
    ensures { MatchResult result
        (λ seqno. entry_field (number_at 8 cut.old) ≡ Ok (seqno, cut.new))
        (λ fault. entry_field (number_at 8 cut.old) ≡ Err fault) }
{
    Ok(cut.u64()?)
}

/// Tries the order of an entry by its view and its place, as far as these can be read.
#[tactic(auto, unfolding(crate::specs::MessageReading::placed_at))]
fn check_head(most: u32, before: &Before, cut: &mut Cut<'_>) -> Result<u64, MessageFault>
    ensures { result ≡ placed_at most before.now cut.old }
{
    let (view, mut inside) = read_view(cut)?;
    check_view(most, before.view, view)?;
    let seqno = read_seqno(&mut inside)?;
    check_seqno(before.seqno, seqno)
}

/// The bytes that are still to be read, and the place of the first of them.
fn all_of<'a>(cut: &Cut<'a>) -> (usize, &'a [u8])
    ensures place { result.0 ≡ cut.now.at }
    ensures bytes { result.1.now ≡ cut.now.bytes }
    ensures within { result.0 + length result.1.now < 2 ^ 64 }
{
    let rest = cut.rest();
    let mut end = cut.copy();
    let _all = end.bytes(0, rest.len() as u64);
    (end.at() - rest.len(), rest)
}

/// Reads the entry whose frame stands at the start, and gives the number of the frame's bytes.
fn read_frame(alloc: Global, cut: &mut Cut<'_>) -> Result<(Entry, u64), OrNoMemory<EntryFault>>
    ensures exact { Answers (λ read. (read.0, cut.new)) result (frame_at cut.old) }
    ensures size { IfOk result (λ read. read.1 ≡ frame_size read.0) }
{
    let (place, bytes) = all_of(cut);
    let (entry, size) = Entry::decode_at(alloc, place, bytes)?;
    cut.bytes(0, size as u64)?;
    Ok((entry, size as u64))
}

/// Reads the next entry, and notes it as the one before the next.
#[tactic(auto, unfolding(crate::specs::MessageReading::entry_at))]
fn read_entry(
    alloc: Global,
    most: u32,
    before: &mut Before,
    cut: &mut Cut<'_>,
) -> Result<Entry, OrNoMemory<MessageFault>>
    ensures exact { Answers (λ e. (e, cut.new)) result (entry_at most before.old cut.old) }
    ensures next { IfOk result (λ e. before.new ≡ with_entry before.old e) }
{
    let place = cut.at();
    let mut head = cut.copy();
    match read_frame(alloc, cut) {
        Ok((entry, size)) => {
            if !has_room(before, size) {
                return Err(MessageFault::Code(CodeFault::Value { at: place }).into());
            }
            check_order(most, before, entry.view, entry.seqno)?;
            *before = Before {
                view: entry.view,
                seqno: entry.seqno,
                size: before.size + size,
            };
            Ok(entry)
        }
        Err(OrNoMemory::NoMemory) => Err(OrNoMemory::NoMemory),
        Err(OrNoMemory::Fault(fault)) => {
            check_head(most, before, &mut head)?;
            Err(OrNoMemory::Fault(MessageFault::Entry(fault)))
        }
    }
}

fn read_entries(
    alloc: Global,
    most: u32,
    prev: TxId,
    count: u16,
    cut: &mut Cut<'_>,
) -> Result<Vec<Entry>, OrNoMemory<MessageFault>>
    ensures { Answers (λ entries. (entries.items, cut.new)) result
        (entries_at most (before_first prev) count cut.old) }
{
    let mut before = Before {
        view: prev.view,
        seqno: prev.seqno,
        size: 0,
    };
    let mut entries = Vec::new(alloc);
    for _ in 0..count {
        let entry = read_entry(alloc, most, &mut before, cut)?;
        entries.push(entry)?;
    }
    Ok(entries)
}

/// Reads a count of entries up to 64.
#[tactic(auto, unfolding(crate::specs::MessageReading::count_at))]
fn read_count(cut: &mut Cut<'_>) -> Result<u16, OrNoMemory<CodeFault>>
    ensures { Answers (λ count. (count, cut.new)) result (count_at cut.old) }
{
    let place = cut.at();
    let count = cut.u16()?;
    if count > MOST_ENTRIES {
        return Err(OrNoMemory::Fault(CodeFault::Value { at: place }));
    }
    Ok(count)
}

fn read_prev(cut: &mut Cut<'_>) -> Result<TxId, OrNoMemory<MessageFault>>
    ensures { Answers (λ prev. (prev, cut.new)) result (part (id_at cut.old)) }
{
    read_id(cut).map_err(OrNoMemory::widen)
}

fn read_entry_count(cut: &mut Cut<'_>) -> Result<u16, OrNoMemory<MessageFault>>
    ensures { Answers (λ count. (count, cut.new)) result (part (count_at cut.old)) }
{
    read_count(cut).map_err(OrNoMemory::widen)
}

/// Reads the fields of an Append in a message of this view.
#[tactic(auto, unfolding(crate::specs::MessageReading::append_at))]
pub(crate) fn read_append(
    alloc: Global,
    view: u32,
    cut: &mut Cut<'_>,
) -> Result<Body, OrNoMemory<MessageFault>>
    ensures { Answers (λ body. (body, cut.new)) result (append_at view cut.old) }
{
    let prev = read_prev(cut)?;
    let commit = cut.u64()?;
    let count = read_entry_count(cut)?;
    let entries = read_entries(alloc, view, prev, count, cut)?;
    Ok(Body::Append {
        prev,
        commit,
        entries: Entries::from(entries),
    })
}
