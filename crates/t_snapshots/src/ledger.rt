//! The ledger of `owed`, its entries, and the bodies of its snapshots.

use crate::owed::{ENDORSEMENT, IDENTITY, PIECES, ROOTS};
use gl_entry::Entry;
use gl_snapshot_body::{Body, put_body};
use gl_store::LedgerTail;
use std::alloc::Global;

// No other function holds the long texts.
fn pieces() -> &'static [&'static [u8]] {
    PIECES
}

/// The digits of the node's endorsement.
pub fn endorsement() -> &'static [u8] {
    ENDORSEMENT
}

/// The digits of the roots that are owed, one behind the other.
pub fn root_digits() -> &'static [u8] {
    ROOTS
}

/// The service's key.
pub fn identity(alloc: Global) -> Option<[u8; 60]> {
    let bytes = hex::decode(alloc, IDENTITY).ok()?;
    bytes.as_array::<60>().copied()
}

/// The bytes of the ledger.
pub fn frames(alloc: Global) -> Option<Vec<u8>> {
    let mut digits = Vec::new(alloc);
    for piece in pieces() {
        if !digits.is_empty() {
            digits.extend_from_slice(endorsement()).ok()?;
        }
        digits.extend_from_slice(piece).ok()?;
    }
    hex::decode(alloc, &digits).ok()
}

/// The entries of the ledger.
fn entries(alloc: Global) -> Option<Vec<Entry>> {
    let bytes = frames(alloc)?;
    let mut entries = Vec::new(alloc);
    let mut rest = bytes.as_slice();
    for _ in 0..9 {
        let (entry, size) = Entry::decode(alloc, rest).ok()?;
        entries.push(entry).ok()?;
        rest = rest.get(size..)?;
    }
    if rest.is_empty() { Some(entries) } else { None }
}

/// Takes entries of other nodes, and gives the roots after each, one behind the other.
pub fn roots(alloc: Global, tail: &mut LedgerTail, entries: &[Entry]) -> Option<Vec<u8>> {
    let mut roots = Vec::new(alloc);
    for entry in entries {
        tail.apply(entry.copy(alloc).ok()?).ok()?;
        roots.extend_from_slice(&root(tail)?).ok()?;
    }
    Some(roots)
}

/// The root after the last entry.
fn root(tail: &LedgerTail) -> Option<[u8; 32]> {
    let frontier = &tail.state().frontier;
    if frontier.len() == 0 {
        return None;
    }
    Some(frontier.root())
}

/// The ledger, each of whose entries came from another node.
pub fn whole(alloc: Global) -> Option<LedgerTail> {
    let mut tail = LedgerTail::new(alloc).ok()?;
    for entry in entries(alloc)? {
        tail.apply(entry).ok()?;
    }
    Some(tail)
}

/// The bytes of a body.
pub fn bytes_of(alloc: Global, body: &Body) -> Option<Vec<u8>> {
    if !body.is_counted() {
        return None;
    }
    let mut out = Vec::new(alloc);
    put_body(&mut out, body).ok()?;
    Some(out)
}

/// The body of the snapshot at a seqno.
pub fn body_at(tail: &LedgerTail, seqno: u64) -> Option<Body> {
    if seqno < tail.base() || tail.ledger_len() < seqno {
        return None;
    }
    tail.snapshot(seqno).ok()
}

/// The bytes of the body of the snapshot at a seqno.
pub fn bytes_at(alloc: Global, tail: &LedgerTail, seqno: u64) -> Option<Vec<u8>> {
    let body = body_at(tail, seqno)?;
    bytes_of(alloc, &body)
}

/// The entries of a whole ledger above a seqno, up to another.
pub fn entries_up_to(tail: &LedgerTail, base: u64, to: u64) -> &[Entry] {
    tail.entries()
        .get(base as usize..to as usize)
        .unwrap_or(&[])
}

/// Whether these are the digits of bytes.
pub fn has_digits(alloc: Global, bytes: &[u8], digits: &[u8]) -> bool {
    match hex::encode(alloc, bytes) {
        Ok(text) => text.as_bytes() == digits,
        Err(_) => false,
    }
}

/// Whether both are there, and the same.
pub fn is_same(given: Option<Vec<u8>>, owed: Option<Vec<u8>>) -> bool {
    match (&given, &owed) {
        (Some(given), Some(owed)) => given.as_slice() == owed.as_slice(),
        _ => false,
    }
}
