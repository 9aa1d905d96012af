//! Ledgers that begin behind the body of a snapshot.

use crate::bodies::is_evident;
use crate::ledger::{
    bytes_at, bytes_of, entries_up_to, has_digits, is_same, root_digits, roots, whole,
};
use crate::owed::{BODIES, WRONG};
use gl_base::OrNoMemory;
use gl_entry::Entry;
use gl_ledger::Broken;
use gl_snapshot::{GovernedBody, read_governed_body};
use gl_store::LedgerTail;
use std::alloc::Global;
use std::sync::Arc;
use std::test::*;

/// The seqnos of the signatures.
const SIGNED: [u64; 3] = [2, 4, 7];

/// A ledger of no entries behind these bytes of a body.
fn behind(alloc: Global, bytes: &[u8]) -> Option<LedgerTail> {
    let GovernedBody { body, governed } = read_governed_body(alloc, 0, bytes).ok()?;
    if body.base == 0 {
        return None;
    }
    let governed = Arc::new(alloc, governed).ok()?;
    LedgerTail::at_base(alloc, body, governed).ok()
}

/// A ledger of no entries behind the snapshot at a seqno of another one.
fn begun(alloc: Global, tail: &LedgerTail, seqno: u64) -> Option<LedgerTail> {
    let bytes = bytes_at(alloc, tail, seqno)?;
    behind(alloc, &bytes)
}

/// The ledger with these entries more.
fn more(alloc: Global, mut tail: LedgerTail, entries: &[Entry]) -> Option<LedgerTail> {
    match roots(alloc, &mut tail, entries) {
        Some(_) => Some(tail),
        None => None,
    }
}

/// A ledger with its entries above a base alone, up to a seqno.
fn grown(alloc: Global, tail: &LedgerTail, base: u64, to: u64) -> Option<LedgerTail> {
    let begun = begun(alloc, tail, base)?;
    more(alloc, begun, entries_up_to(tail, base, to))
}

/// Whether the entries above a base give the roots that are owed.
fn gives_roots(alloc: Global, mut begun: LedgerTail, entries: &[Entry], base: u64) -> bool {
    // A root has 64 digits.
    let from = base.wrapping_mul(64) as usize;
    let owed = root_digits().get(from..).unwrap_or(&[]);
    match roots(alloc, &mut begun, entries) {
        Some(roots) => begun.ledger_len() == 9 && has_digits(alloc, &roots, owed),
        None => false,
    }
}

fn has_roots(alloc: Global, tail: &LedgerTail, base: u64) -> bool {
    match begun(alloc, tail, base) {
        Some(begun) => gives_roots(alloc, begun, entries_up_to(tail, base, 9), base),
        None => false,
    }
}

#[test]
fn entries_behind_a_base_give_the_roots_that_are_owed(rt: HostRuntime) -> Result<(), Fail> {
    let tail = whole(rt.alloc()).ok_or("no ledger")?;
    for base in SIGNED {
        assert!(rt; has_roots(rt.alloc(), &tail, base));
    }
    Ok(())
}

/// The views of the entries with the seqnos 0 to 10.
fn views(tail: &LedgerTail) -> [Option<u32>; 11] {
    let mut views = [None; 11];
    for (seqno, view) in views.iter_mut().enumerate() {
        *view = tail.view_at(seqno as u64);
    }
    views
}

/// The views that are owed.
fn owed_views() -> [Option<u32>; 11] {
    let (two, three) = (Some(2), Some(3));
    [
        None, two, two, two, two, two, three, three, three, three, None,
    ]
}

fn has_views(alloc: Global, tail: &LedgerTail, base: u64) -> bool {
    match grown(alloc, tail, base, 9) {
        Some(grown) => views(&grown) == owed_views(),
        None => false,
    }
}

#[test]
fn each_entry_has_its_view_behind_a_base(rt: HostRuntime) -> Result<(), Fail> {
    let tail = whole(rt.alloc()).ok_or("no ledger")?;
    assert!(rt; views(&tail) == owed_views());
    for base in SIGNED {
        assert!(rt; has_views(rt.alloc(), &tail, base));
    }
    Ok(())
}

/// Whether the snapshot at a seqno has the same bytes behind a base.
fn has_bodies(alloc: Global, tail: &LedgerTail, base: u64, seqno: u64) -> bool {
    match grown(alloc, tail, base, 9) {
        Some(grown) => is_same(bytes_at(alloc, &grown, seqno), bytes_at(alloc, tail, seqno)),
        None => false,
    }
}

#[test]
fn snapshots_behind_a_base_have_the_same_bytes(rt: HostRuntime) -> Result<(), Fail> {
    let tail = whole(rt.alloc()).ok_or("no ledger")?;
    for (base, seqno) in [
        (2, 2),
        (2, 4),
        (2, 7),
        (2, 9),
        (4, 4),
        (4, 7),
        (4, 9),
        (7, 7),
        (7, 9),
    ] {
        assert!(rt; has_bodies(rt.alloc(), &tail, base, seqno));
    }
    Ok(())
}

/// The bytes of the body of all entries.
fn bytes_of_all(alloc: Global, tail: &LedgerTail) -> Option<Vec<u8>> {
    let body = tail.state().snapshot().ok()?;
    bytes_of(alloc, &body)
}

/// Whether the state behind a base gives the same body of all of its ledger.
fn has_state(alloc: Global, tail: &LedgerTail, base: u64) -> bool {
    match grown(alloc, tail, base, 9) {
        Some(grown) => {
            grown.base() == base && is_same(bytes_of_all(alloc, &grown), bytes_of_all(alloc, tail))
        }
        None => false,
    }
}

#[test]
fn a_state_behind_a_base_has_the_same_snapshot(rt: HostRuntime) -> Result<(), Fail> {
    let tail = whole(rt.alloc()).ok_or("no ledger")?;
    for base in SIGNED {
        assert!(rt; has_state(rt.alloc(), &tail, base));
    }
    Ok(())
}

/// Whether evidence behind a ledger that begins at the row's seqno has the digest that is owed.
fn is_evident_begun(alloc: Global, tail: &LedgerTail, row: (u64, usize, &[u8])) -> bool {
    match begun(alloc, tail, row.0) {
        Some(begun) => is_evident(alloc, &begun, row),
        None => false,
    }
}

fn is_evident_behind(alloc: Global, tail: &LedgerTail, row: (u64, usize, &[u8])) -> bool {
    match grown(alloc, tail, 2, 9) {
        Some(grown) => is_evident(alloc, &grown, row) && is_evident_begun(alloc, &grown, row),
        None => false,
    }
}

#[test]
fn evidence_behind_a_base_records_the_digests_that_are_owed(rt: HostRuntime) -> Result<(), Fail> {
    let tail = whole(rt.alloc()).ok_or("no ledger")?;
    for row in BODIES {
        assert!(rt; is_evident_behind(rt.alloc(), &tail, *row));
    }
    Ok(())
}

// No other function holds the long texts.
fn wrong() -> &'static [(&'static [u8], u8)] {
    WRONG
}

/// The rule that an entry breaks after a ledger, 0 for none.
fn rule_of(tail: &mut LedgerTail, entry: Entry) -> u8 {
    match tail.apply(entry) {
        Ok(()) => 0,
        Err(OrNoMemory::NoMemory) => 255,
        Err(OrNoMemory::Fault(Broken { rule, .. })) => rule,
    }
}

/// Whether each entry of `owed` breaks its rule after a ledger.
fn refuses(alloc: Global, tail: &mut LedgerTail) -> Option<bool> {
    for (digits, rule) in wrong() {
        let frame = hex::decode(alloc, *digits).ok()?;
        let (entry, _) = Entry::decode(alloc, &frame).ok()?;
        if rule_of(tail, entry) != *rule {
            return Some(false);
        }
    }
    Some(true)
}

fn refuses_behind(alloc: Global, tail: &LedgerTail, base: u64) -> bool {
    match grown(alloc, tail, base, 7) {
        Some(mut grown) => refuses(alloc, &mut grown) == Some(true),
        None => false,
    }
}

/// Whether the whole ledger, cut to its last signature, refuses them.
fn refuses_whole(alloc: Global, tail: &LedgerTail) -> bool {
    match tail.copy() {
        Ok(mut copy) => {
            if copy.base() > 7 || copy.ledger_len() < 7 {
                return false;
            }
            copy.cut(7);
            refuses(alloc, &mut copy) == Some(true)
        }
        Err(_) => false,
    }
}

#[test]
fn a_wrong_entry_is_refused_behind_a_base(rt: HostRuntime) -> Result<(), Fail> {
    let tail = whole(rt.alloc()).ok_or("no ledger")?;
    assert!(rt; refuses_whole(rt.alloc(), &tail));
    for base in SIGNED {
        assert!(rt; refuses_behind(rt.alloc(), &tail, base));
    }
    Ok(())
}
