//! The text of a transaction identifier, both ways.

ghost use Rattle.std.specs.Prelude.{◌≡◌, ◌++◌, ℕ, ◌+◌, ◌-◌, ◌^◌, ◌<◌, ◌≤◌, length, take, drop, position, min, vec_len, Ok, None, Some, IfOk, OnOk, OnErr};
ghost use Rattle.std.specs.Str.Parse.{AllDigits, digits_value};
ghost use Rattle.gl_base.specs.TxId.{last_view, last_seqno, last_count, IsTxId, text_of, is_dot, is_no_digit, in_range, digits_read, part_read, sides_read, parsed};
ghost use Rattle.gl_base.specs.declared.tx_id.TxId.{TxId as Id};

use crate::put::{put_bytes, undo_on_err};
use crate::tx_id::{LAST_SEQNO, LAST_VIEW, TxId, TxIdFault};
use itoa::Buffer;
use std::alloc::AllocError;

/// The number that the digits encode, or the last u64 where it is greater.
fn capped_value(digits: &[u8]) -> u64
    requires { AllDigits 10 digits.now }
    ensures { result ≡ min last_count (digits_value 10 digits.now) }
{
    let mut value: u64 = 0;
    for digit in digits {
        value = value
            .saturating_mul(10)
            .saturating_add(u64::from(*digit - b'0'));
    }
    value
}

fn in_range(limit: u64, value: u64) -> Result<u64, TxIdFault>
    ensures exact { result ≡ in_range limit value }
    ensures within { IfOk result (λ n. n ≤ limit) }
{
    if value > limit {
        return Err(TxIdFault::TooBig);
    }
    if value == 0 {
        return Err(TxIdFault::Zero);
    }
    Ok(value)
}

#[tactic(auto, unfolding(crate::specs::TxId::digits_read))]
fn read_digits(start: usize, limit: u64, digits: &[u8]) -> Result<u64, TxIdFault>
    requires digits { AllDigits 10 digits.now }
    requires limit { limit < last_count }
    ensures exact { result ≡ digits_read start limit digits.now }
    ensures within { IfOk result (λ n. n ≤ limit) }
{
    match digits {
        [b'0', _, ..] => Err(TxIdFault::LeadingZero { at: start }),
        _ => in_range(limit, capped_value(digits)),
    }
}

fn first_no_digit(part: &[u8]) -> Option<usize>
    ensures { result ≡ position is_no_digit part.now }
{
    part.iter().position(|byte| !byte.is_ascii_digit())
}

fn first_dot(text: &[u8]) -> Option<usize>
    ensures { result ≡ position is_dot text.now }
{
    text.iter().position(|byte| *byte == b'.')
}

#[tactic(auto, unfolding(crate::specs::TxId::part_read))]
fn read_part(start: usize, limit: u64, part: &[u8]) -> Result<u64, TxIdFault>
    requires start { start + length part.now < 2 ^ 64 }
    requires limit { limit < last_count }
    ensures exact { result ≡ part_read start limit part.now }
    ensures within { IfOk result (λ n. n ≤ limit) }
{
    if part.is_empty() {
        return Err(TxIdFault::Empty);
    }
    match first_no_digit(part) {
        Some(index) => Err(TxIdFault::Digit { at: start + index }),
        None => read_digits(start, limit, part),
    }
}

#[tactic(auto, unfolding(crate::specs::TxId::sides_read))]
fn read_sides(text: &[u8], dot: usize) -> Result<TxId, TxIdFault>
    requires { dot < length text.now }
    ensures { result ≡ sides_read text.now dot }
{
    let (left, _) = text.split_at(dot);
    let (_, right) = text.split_at(dot + 1);
    let view = read_part(0, u64::from(LAST_VIEW), left)?;
    let seqno = read_part(dot + 1, LAST_SEQNO, right)?;
    Ok(TxId {
        view: view as u32,
        seqno,
    })
}

#[tactic(auto, unfolding(crate::specs::TxId::parsed))]
fn read(text: &[u8]) -> Result<TxId, TxIdFault>
    ensures { result ≡ parsed text.now }
{
    if text.is_empty() {
        return Err(TxIdFault::Empty);
    }
    match first_dot(text) {
        Some(dot) => read_sides(text, dot),
        None => Err(TxIdFault::NoDot),
    }
}

/// Copies the piece to a place of the buffer, and gives the place after it.
fn put(out: &mut [u8], at: usize, piece: &[u8]) -> usize
    requires { at + length piece.now ≤ length out.old }
    ensures place { result ≡ at + length piece.now }
    ensures text { take result out.new ≡ take at out.old ++ piece.now }
    ensures rest { drop result out.new ≡ drop result out.old }
{
    let (_, room) = out.split_at_mut(at);
    let (room, _) = room.split_at_mut(piece.len());
    room.copy_from_slice(piece);
    at + piece.len()
}

/// Writes the text after what the list holds. What was written before memory ran out stays.
fn put_text(out: &mut Vec<u8>, id: TxId) -> Result<(), AllocError>
    ensures put { OnOk result (out.new.items ≡ out.old.items ++ text_of id) }
    ensures prefix { take (vec_len out.old) out.new.items ≡ out.old.items }
{
    let mut buffer = Buffer::new();
    put_bytes(out, buffer.format(id.view).as_bytes())?;
    put_bytes(out, b".")?;
    put_bytes(out, buffer.format(id.seqno).as_bytes())
}

impl TxId {
    /// Reads the text `view.seqno`, both in decimal without sign or leading zero.
    pub fn parse(text: &[u8]) -> Result<TxId, TxIdFault>
        ensures exact { result ≡ parsed text.now }

        // What is read is the text of an identifier, and every such text is read.
        ensures encoded { IfOk result (λ id. IsTxId id × (text.now ≡ text_of id)) }
        ensures only { (id : Id) → IsTxId id → text.now ≡ text_of id → result ≡ Ok id }
    {
        read(text)
    }

    /// Writes the text `view.seqno` to the start of the buffer, and gives its length. The buffer
    /// has room for every identifier.
    pub fn text_into(self, out: &mut [u8; 24]) -> usize
        requires { self.seqno ≤ last_seqno }
        ensures len { result ≡ length (text_of self) }
        ensures text { take result out.new ≡ text_of self }
        ensures rest { drop result out.new ≡ drop result out.old }
    {
        let mut buffer = Buffer::new();
        let len = put(out, 0, buffer.format(self.view).as_bytes());
        let len = put(out, len, b".");
        put(out, len, buffer.format(self.seqno).as_bytes())
    }

    /// Writes the text `view.seqno` after what the list holds, also of numbers that no transaction
    /// has. Running out of memory leaves the list as it was.
    pub fn push_text(self, out: &mut Vec<u8>) -> Result<(), AllocError>
        ensures put { OnOk result (out.new.items ≡ out.old.items ++ text_of self) }
        ensures kept { OnErr result (out.new.items ≡ out.old.items) }
    {
        let before = out.len();
        let written = put_text(out, self);
        undo_on_err(out, before, written)
    }
}
