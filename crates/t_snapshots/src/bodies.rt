//! The bodies of a ledger's snapshots, and the evidence of them.

use crate::ledger::{body_at, bytes_of, endorsement, has_digits, root_digits, roots, whole};
use crate::owed::{BODIES, IDENTITY};
use gl_entry::{Content, Entry};
use gl_gov_rows::governed_rows;
use gl_gov_rules::{GovernedRows, NodeRow, ServiceRow};
use gl_requests::ServiceState;
use gl_snapshot::body_digest;
use gl_snapshot_body::Body;
use gl_store::LedgerTail;
use sha2::{Digest, Sha256};
use std::alloc::Global;
use std::test::*;

/// Whether the entries of a ledger give the roots that are owed.
fn gives_roots(alloc: Global, mut tail: LedgerTail, entries: &[Entry]) -> bool {
    match roots(alloc, &mut tail, entries) {
        Some(roots) => has_digits(alloc, &roots, root_digits()),
        None => false,
    }
}

#[test]
fn a_ledger_has_the_roots_that_are_owed(rt: HostRuntime) -> Result<(), Fail> {
    let tail = whole(rt.alloc()).ok_or("no ledger")?;
    let none = LedgerTail::new(rt.alloc())?;
    assert!(rt; gives_roots(rt.alloc(), none, tail.entries()));
    Ok(())
}

/// Whether bytes are so many, with this digest.
fn has_bytes(alloc: Global, bytes: Option<Vec<u8>>, len: usize, digits: &[u8]) -> bool {
    match bytes {
        Some(bytes) => bytes.len() == len && has_digits(alloc, &Sha256::digest(&bytes), digits),
        None => false,
    }
}

/// Whether the snapshot at a seqno has so many bytes with this digest.
fn has_body(alloc: Global, tail: &LedgerTail, row: (u64, usize, &[u8])) -> bool {
    let (seqno, len, digits) = row;
    match body_at(tail, seqno) {
        Some(body) => {
            has_digits(alloc, &body_digest(&body), digits)
                && has_bytes(alloc, bytes_of(alloc, &body), len, digits)
        }
        None => false,
    }
}

#[test]
fn a_ledger_has_the_bodies_that_are_owed(rt: HostRuntime) -> Result<(), Fail> {
    let tail = whole(rt.alloc()).ok_or("no ledger")?;
    for row in BODIES {
        assert!(rt; has_body(rt.alloc(), &tail, *row));
    }
    Ok(())
}

/// Whether it is the row of the service, which is open.
fn is_service(alloc: Global, service: &ServiceRow) -> bool {
    service.state == ServiceState::Open
        && !service.is_recovered
        && has_digits(alloc, &service.identity, IDENTITY)
}

/// Whether it is the row of the one node.
fn is_node(alloc: Global, node: &NodeRow) -> bool {
    has_digits(alloc, node.endorsement.as_slice(), endorsement())
}

/// Whether rows of governance tell of the open service and its one node.
fn tells(alloc: Global, governed: &GovernedRows) -> bool {
    let counts = [
        governed.members.len(),
        governed.nodes.len(),
        governed.rules.len(),
    ];
    let service = match &governed.service {
        Some(service) => is_service(alloc, service),
        None => false,
    };
    let node = match governed.nodes.as_slice().first() {
        Some(node) => is_node(alloc, node),
        None => false,
    };
    counts == [1, 1, 7] && service && node
}

fn is_governed(alloc: Global, body: &Body) -> bool {
    match governed_rows(alloc, body.base, body.rows.as_slice()) {
        Ok(governed) => governed.seqno == body.base && tells(alloc, &governed),
        Err(_) => false,
    }
}

fn is_governed_at(alloc: Global, tail: &LedgerTail, seqno: u64) -> bool {
    match body_at(tail, seqno) {
        Some(body) => body.base == seqno && is_governed(alloc, &body),
        None => false,
    }
}

#[test]
fn the_rows_of_governance_are_read(rt: HostRuntime) -> Result<(), Fail> {
    let tail = whole(rt.alloc()).ok_or("no ledger")?;
    for seqno in [2, 9] {
        assert!(rt; is_governed_at(rt.alloc(), &tail, seqno), "{seqno}");
    }
    Ok(())
}

/// The evidence of a ledger cut to a seqno.
fn evidence_at(tail: &LedgerTail, seqno: u64) -> Option<Entry> {
    let mut signed = tail.copy().ok()?;
    if seqno < signed.base() || signed.ledger_len() < seqno {
        return None;
    }
    signed.cut(seqno);
    signed.evidence_entry(3).ok()
}

/// Whether the evidence behind a signature records this digest.
pub fn is_evident(alloc: Global, tail: &LedgerTail, row: (u64, usize, &[u8])) -> bool {
    let (seqno, _, digits) = row;
    match evidence_at(tail, seqno) {
        Some(entry) => match &entry.content {
            Content::Evidence(digest) => {
                (entry.view, entry.seqno) == (3, seqno.wrapping_add(1))
                    && has_digits(alloc, digest, digits)
            }
            _ => false,
        },
        None => false,
    }
}

#[test]
fn evidence_records_the_digests_that_are_owed(rt: HostRuntime) -> Result<(), Fail> {
    let tail = whole(rt.alloc()).ok_or("no ledger")?;
    for row in BODIES {
        assert!(rt; is_evident(rt.alloc(), &tail, *row));
    }
    Ok(())
}
