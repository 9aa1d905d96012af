//! The frames of entries, as bytes both ways.

ghost use Rattle.std.specs.Prelude.{◌≡◌, ◌+◌, ◌++◌, ◌<◌, ◌≤◌, ◌^◌, ℕ, List, length, IsTrue, MatchResult, IfOk, Ok, Err};
ghost use Rattle.gl_base.specs.Answers.{Answers};
ghost use Rattle.gl_base.specs.Cut.{Gives, bytes_at};
ghost use Rattle.gl_entry.specs.Entry.{body_limit, body_bytes, is_entry, frame_bytes, frame_size};
ghost use Rattle.gl_entry.specs.Parsing.{size_at, whole_body, frame_at, entry_at, first_entry};
ghost use Rattle.gl_entry.specs.declared.entry.Entry.{Entry as EntryValue};

use crate::body::read_body;
use crate::entry::{BODY_LIMIT, Entry};
use crate::fault::EntryFault;
use gl_base::{Cut, CutFault, OrNoMemory, put_bytes, put_u48};
use std::alloc::{AllocError, Global};

/// Reads the size of the body, after the version and the flags.
#[tactic(auto, unfolding(crate::specs::Parsing::size_at))]
pub(crate) fn read_size(cut: &mut Cut<'_>) -> Result<u64, EntryFault>
    ensures exact { MatchResult result
        (λ size. size_at cut.old ≡ Ok (size, cut.new)) (λ fault. size_at cut.old ≡ Err fault) }
    ensures limit { IfOk result (λ size. size ≤ body_limit) }
{
    if cut.u8()? != 1 {
        return Err(EntryFault::Version);
    }
    if cut.u8()? != 0 {
        return Err(EntryFault::Flags);
    }
    let size = cut.u48()?;
    if size > BODY_LIMIT {
        return Err(EntryFault::Size { size });
    }
    Ok(size)
}

/// The entry of a whole body, the first byte of which stands at this place.
fn body_of(alloc: Global, place: usize, bytes: &[u8]) -> Result<Entry, OrNoMemory<EntryFault>>
    requires { place + length bytes.now < 2 ^ 64 }
    ensures { Answers (λ entry. entry) result
        (whole_body (record { at = place; bytes = bytes.now })) }
{
    let mut cut = Cut::new_at(bytes, place);
    let entry = read_body(alloc, &mut cut)?;
    cut.end()?;
    Ok(entry)
}

/// Reads the bytes of a body of this size, and gives the place of the first of them.
#[tactic(auto, using(crate::proofs::Places::bytes_at_place))]
fn read_span<'a>(cut: &mut Cut<'a>, size: u64) -> Result<(usize, &'a [u8]), CutFault>
    ensures exact { Gives (λ body. body.1.now) result cut.old cut.new (bytes_at size cut.old) }
    ensures place { IfOk result (λ body. body.0 ≡ cut.old.at) }
    ensures within { IfOk result (λ body. body.0 + length body.1.now < 2 ^ 64) }
{
    let body = cut.bytes(0, size)?;
    Ok((cut.at() - body.len(), body))
}

#[tactic(auto, unfolding(crate::specs::Parsing::frame_at))]
fn read_frame(alloc: Global, cut: &mut Cut<'_>) -> Result<Entry, OrNoMemory<EntryFault>>
    ensures { Answers (λ entry. (entry, cut.new)) result (frame_at cut.old) }
{
    let size = read_size(cut)?;
    let (place, body) = read_span(cut, size)?;
    body_of(alloc, place, body)
}

/// The entry whose frame the bytes begin with, and how many bytes that leaves.
fn read_first(
    alloc: Global,
    place: usize,
    bytes: &[u8],
) -> Result<(Entry, usize), OrNoMemory<EntryFault>>
    requires { place + length bytes.now < 2 ^ 64 }
    ensures { Answers (λ read. read) result (entry_at place bytes.now) }
{
    let mut cut = Cut::new_at(bytes, place);
    let entry = read_frame(alloc, &mut cut)?;
    Ok((entry, bytes.len() - cut.rest().len()))
}

impl Entry {
    /// The bytes of the frame: the body after a version, flags and its size.
    #[tactic(auto, using(crate::proofs::Sizes::body_parts))]
    pub fn encode(&self, alloc: Global) -> Result<Vec<u8>, AllocError>
        requires { length (body_bytes self.now) ≤ body_limit }
        ensures { IfOk result (λ bytes. bytes.items ≡ frame_bytes self.now) }
    {
        let body = self.body(alloc)?;
        let mut out = vec![in alloc; 1, 0]?;
        put_u48(&mut out, body.len() as u64)?;
        put_bytes(&mut out, &body)?;
        Ok(out)
    }

    /// The entry whose frame the bytes begin with, and how many bytes the frame has. Bytes may
    /// follow.
    pub fn decode(alloc: Global, bytes: &[u8]) -> Result<(Self, usize), OrNoMemory<EntryFault>>
        // What is read is encoded so.
        ensures found { IfOk result (λ read. IsTrue (is_entry read.0)
            × (read.1 ≡ frame_size read.0)
            × (rest : List ℕ) × (bytes.now ≡ frame_bytes read.0 ++ rest)) }
        // What is encoded so is read, whatever follows it, unless memory runs out.
        ensures only { (e : EntryValue) (rest : List ℕ) → IsTrue (is_entry e) →
            bytes.now ≡ frame_bytes e ++ rest →
            Answers (λ read. read) result (Ok (e, frame_size e)) }
        // Which fault it is.
        ensures exact { Answers (λ read. read) result (first_entry bytes.now) }
    {
        Self::decode_at(alloc, 0, bytes)
    }

    /// The same of bytes of which the first stands at this place among others: the places of faults
    /// count on from it.
    pub fn decode_at(
        alloc: Global,
        place: usize,
        bytes: &[u8],
    ) -> Result<(Self, usize), OrNoMemory<EntryFault>>
        requires { place + length bytes.now < 2 ^ 64 }
        ensures found { IfOk result (λ read. IsTrue (is_entry read.0)
            × (read.1 ≡ frame_size read.0)
            × (rest : List ℕ) × (bytes.now ≡ frame_bytes read.0 ++ rest)) }
        ensures only { (e : EntryValue) (rest : List ℕ) → IsTrue (is_entry e) →
            bytes.now ≡ frame_bytes e ++ rest →
            Answers (λ read. read) result (Ok (e, frame_size e)) }
        ensures exact { Answers (λ read. read) result (entry_at place bytes.now) }
    {
        read_first(alloc, place, bytes)
    }
}

/// No frame is a proper prefix of another.
pub fn one_frame()
    ensures { (e f : EntryValue) (x y : List ℕ) → IsTrue (is_entry e) → IsTrue (is_entry f) →
        frame_bytes e ++ x ≡ frame_bytes f ++ y → (e ≡ f) × (x ≡ y) }
{}
