//! A load: a ledger of so many requests.

ghost use Rattle.std.specs.Prelude.{◌≡◌, ◌≤◌, None, IfOk};
ghost use Rattle.gl_ledger.specs.Audit.{audited};
ghost use Rattle.gl_ledger.specs.NodeKeys.{service_layers};
ghost use Rattle.gl_load.specs.Events.{events_up_to, load_ledger};
ghost use Rattle.gl_load.specs.Founding.{load_book, load_holding};
ghost use Rattle.gl_load.specs.Node.{IsAfter};
ghost use Rattle.gl_load.specs.Report.{report_of};

use crate::load_observer::LoadObserver;
use crate::memory_disk::MemoryDisk;
use crate::node::{node_at_start, take_request};
use crate::report::Report;
use crate::totals::report;
use gl_answers::ClientBook;
use gl_node::{KeptBook, Replica};
use rand_chacha::ChaCha8Rng;
use rand_core::SeedableRng;
use std::alloc::{AllocError, Global};

/// The most requests of a load: a node's key has a leaf for each hundred of them.
pub const LOAD_LIMIT: u32 = 100_000;

/// The node after all requests.
fn loaded_node<B: KeptBook + ClientBook, O: LoadObserver>(
    alloc: Global,
    count: u32,
    seed: &[u8; 32],
    book: B,
    load_observer: &mut O,
) -> Result<Replica<MemoryDisk, B>, AllocError>
    requires few { count ≤ 100000 }
    requires book { B.stands book (load_book seed.now) (load_holding seed.now) }
    ensures { IfOk result (λ node.
        IsAfter B.stands seed.now (events_up_to seed.now count count) node) }
{
    let mut node = node_at_start(alloc, seed, book)?;
    let mut words = ChaCha8Rng::from_seed(*seed);
    for done in 0..count {
        take_request(alloc, seed, &mut node, &mut words, count, done)?;
        load_observer.taken(done + 1);
    }
    Ok(node)
}

/// Makes a ledger of so many requests, audits it, and tells of it. The service is the one of this
/// seed, and the store is its node's as it begins, with the opening ledger. The node takes each
/// request over a disk in memory, and signs after each hundred of them and after the last. Fails
/// only where memory runs out: none of this is refused, and no entry breaks a rule.
pub fn load<B: KeptBook + ClientBook, O: LoadObserver>(
    alloc: Global,
    count: u32,
    seed: &[u8; 32],
    book: B,
    load_observer: &mut O,
) -> Result<Report, AllocError>
    requires few { count ≤ LOAD_LIMIT }
    requires book { B.stands book (load_book seed.now) (load_holding seed.now) }
    ensures report { IfOk result (λ report. report ≡ report_of (load_ledger seed.now count)) }
    ensures valid { IfOk result (λ report.
        audited service_layers (load_ledger seed.now count) ≡ None) }
{
    let node = loaded_node(alloc, count, seed, book, load_observer)?;
    report(alloc, KeptBook::ledger(&node.core().book))
}
