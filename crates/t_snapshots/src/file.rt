//! The file of a snapshot: whole, cut and changed.

use crate::ledger::{bytes_at, frames, has_digits, identity, whole};
use crate::owed::{CHANGED, FILE_DIGEST, FILE_LEN, RECEIPT_BACK, RECEIPT_FRONT};
use gl_base::{OrNoMemory, TxId};
use gl_entry::Content;
use gl_snapshot::{Snapshot, SnapshotFault};
use gl_store::LedgerTail;
use sha2::{Digest, Sha256};
use std::alloc::{AllocError, Global};
use std::test::*;

/// Where the frame of the evidence stands among those of the ledger.
const EVIDENCE: (usize, usize) = (15_592, 15_685);

/// A part of the file behind its length.
fn put_part(out: &mut Vec<u8>, part: &[u8]) -> Result<(), AllocError> {
    let [a, b, c, d, ..] = (part.len() as u64).to_le_bytes();
    out.extend_from_slice(&[a, b, c, d])?;
    out.extend_from_slice(part)
}

// No other function holds the long text.
fn front() -> &'static [u8] {
    RECEIPT_FRONT
}

/// The text of the receipt with these digits of a signature.
fn receipt_with(alloc: Global, digits: &[u8]) -> Option<Vec<u8>> {
    let mut text = Vec::from_slice(alloc, front()).ok()?;
    text.extend_from_slice(digits).ok()?;
    text.extend_from_slice(RECEIPT_BACK).ok()?;
    Some(text)
}

/// The text of the receipt, with the signature of the seventh entry.
pub fn receipt_text(alloc: Global, tail: &LedgerTail) -> Option<Vec<u8>> {
    let entry = tail.entry(7)?;
    let Content::Signature(signature) = &entry.content else {
        return None;
    };
    let digits = hex::encode(alloc, signature.signature.as_slice()).ok()?;
    receipt_with(alloc, digits.as_bytes())
}

/// The file of these parts, and the frame of the evidence.
fn assembled(alloc: Global, body: &[u8], receipt: &[u8], frame: &[u8]) -> Option<Vec<u8>> {
    let mut out = Vec::new(alloc);
    put_part(&mut out, body).ok()?;
    put_part(&mut out, receipt).ok()?;
    put_part(&mut out, frame).ok()?;
    Some(out)
}

/// The file of the snapshot at 2.4.
pub fn file(alloc: Global) -> Option<Vec<u8>> {
    let frames = frames(alloc)?;
    let (from, to) = EVIDENCE;
    let frame = frames.get(from..to)?;
    let tail = whole(alloc)?;
    match (&bytes_at(alloc, &tail, 4), &receipt_text(alloc, &tail)) {
        (Some(body), Some(receipt)) => assembled(alloc, body, receipt, frame),
        _ => None,
    }
}

/// The numbers by which the program says what a snapshot is refused for, 0 for none.
fn number_of(identity: &[u8; 60], snapshot: &Snapshot) -> u8 {
    match snapshot.verify(identity) {
        Ok(_) => 0,
        Err(SnapshotFault::Shape { .. }) => 92,
        Err(SnapshotFault::Receipt(_)) => 91,
        Err(SnapshotFault::Digest { .. }) => 90,
    }
}

/// What is said of bytes.
fn said_of(alloc: Global, identity: &[u8; 60], bytes: &[u8]) -> u8 {
    match Snapshot::decode(alloc, bytes) {
        Ok(read) => number_of(identity, &read.snapshot),
        Err(OrNoMemory::NoMemory) => 255,
        Err(OrNoMemory::Fault(_)) => 92,
    }
}

/// Whether a snapshot is spelled as these bytes.
fn is_spelled_as(alloc: Global, snapshot: &Snapshot, bytes: &[u8]) -> bool {
    match snapshot.spell(alloc) {
        Ok(Some(spelled)) => spelled.as_slice() == bytes,
        _ => false,
    }
}

/// Whether bytes are read as the snapshot of 2.5, and spelled again.
fn is_read(alloc: Global, identity: &[u8; 60], bytes: &[u8]) -> bool {
    match Snapshot::decode(alloc, bytes) {
        Ok(read) => {
            let id = TxId { view: 2, seqno: 5 };
            is_spelled_as(alloc, &read.snapshot, bytes)
                && read.snapshot.verify(identity) == Ok(id)
                && read.governed.seqno == 4
        }
        Err(_) => false,
    }
}

#[test]
fn a_file_is_read_and_spelled_again(rt: HostRuntime) -> Result<(), Fail> {
    let bytes = file(rt.alloc()).ok_or("no file")?;
    let identity = identity(rt.alloc()).ok_or("no key")?;
    assert!(rt; bytes.len() == FILE_LEN);
    assert!(rt; has_digits(rt.alloc(), &Sha256::digest(&bytes), FILE_DIGEST));
    assert!(rt; is_read(rt.alloc(), &identity, &bytes));
    Ok(())
}

#[test]
fn another_service_refuses_a_file(rt: HostRuntime) -> Result<(), Fail> {
    let bytes = file(rt.alloc()).ok_or("no file")?;
    let mut identity = identity(rt.alloc()).ok_or("no key")?;
    identity[59] ^= 1;
    assert!(rt; said_of(rt.alloc(), &identity, &bytes) == 91);
    Ok(())
}

#[test]
fn a_file_that_is_cut_is_refused(rt: HostRuntime) -> Result<(), Fail> {
    let bytes = file(rt.alloc()).ok_or("no file")?;
    let identity = identity(rt.alloc()).ok_or("no key")?;
    for len in [
        0, 3, 4, 11, 76, 3131, 3132, 3136, 8000, 13_152, 13_153, 13_245,
    ] {
        assert!(rt; len <= bytes.len());
        assert!(rt;
            said_of(rt.alloc(), &identity, &bytes[..len]) == 92,
            "{len}"
        );
    }
    Ok(())
}

/// Bytes with the lowest bit of one changed.
pub fn changed(alloc: Global, bytes: &[u8], at: usize) -> Option<Vec<u8>> {
    let mut changed = Vec::from_slice(alloc, bytes).ok()?;
    *changed.get_mut(at)? ^= 1;
    Some(changed)
}

/// What is said of bytes with a bit changed.
fn said_of_changed(alloc: Global, identity: &[u8; 60], bytes: &[u8], at: usize) -> u8 {
    match changed(alloc, bytes, at) {
        Some(changed) => said_of(alloc, identity, &changed),
        None => 255,
    }
}

#[test]
fn a_file_with_a_changed_bit_is_refused(rt: HostRuntime) -> Result<(), Fail> {
    let bytes = file(rt.alloc()).ok_or("no file")?;
    let identity = identity(rt.alloc()).ok_or("no key")?;
    for (at, number) in CHANGED {
        assert!(rt;
            said_of_changed(rt.alloc(), &identity, &bytes, *at) == *number,
            "{at}"
        );
    }
    Ok(())
}
