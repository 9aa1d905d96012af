//! A node that serves from its file over a link, until that ends.

ghost use Rattle.std.specs.Prelude.{◌≡◌, ◌⊎◌, ◌≤◌, ◌||◌, [], Err, None, Ok, IfOk, IsTrue, OnOk, is_ok};
ghost use Rattle.gl_journal.specs.Durable.{Durable, durable};
ghost use Rattle.gl_outside.specs.Disk.{Leaves};
ghost use Rattle.gl_outside.specs.Fault.{Rose};
ghost use Rattle.gl_serve.specs.Serves.{AskedAtMost, Serves, calls_after};
ghost use Rattle.gl_serve.specs.OverLink.{KeepsLeaves};
ghost use Rattle.gl_serve.specs.NodeWork.{serving_rules};
ghost use Rattle.gl_serve.specs.Types.{NodeSeen};

use crate::observer::Observer;
use crate::serving_node::ServingNode;
use crate::{ServeEnd, Serving, serve};
use gl_answers::ClientBook;
use gl_node::{KeptBook, Replica};
use gl_outside::{Disk, Link};
use std::alloc::Global;

/// Serves over a link, as the node of a file, until the link gives its end. It reports how many
/// payloads were in the grammar and how many frames were lost, and gives the disk back. After each
/// event the observer is told where the node stands.
pub fn serve_replica<L: Link, D: Disk, B: KeptBook + ClientBook, O: Observer>(
    alloc: Global,
    link: &mut L,
    replica: Replica<D, B>,
    observer: O,
    settings: &Serving<'_>,
) -> (Result<(u64, u64), ServeEnd>, D)
    requires ticks { 1 ≤ settings.now.ticks }
    requires going { replica.stopped ≡ None }

    // What came, what was done for it, and what was sent, in order.
    ensures serves { (last : NodeSeen D B) × (last.disk ≡ result.1)
        × Serves L.honest
        (serving_rules B.stands B.goes_on D.honest D.bytes D.past D.faults) settings.now
        replica (L.past link.old) (L.inward link.old).coming
        last (L.past link.new) (L.inward link.new).coming result.0 }

    // At every moment a stop leaves a file with its closed gate, the same key, and no fewer spent
    // leaves, where there is a ledger with the node's snapshot.
    ensures any_moment { IsTrue D.honest →
        B.has_ledger (B.base_snapshot replica.core.book) → (d : Durable) →
        durable B.goes_on (D.bytes replica.disk) ≡ Ok d →
        Leaves (KeepsLeaves B.goes_on d) (D.past replica.disk) (D.past result.1) }
    // The node stopped only where the disk failed.
    ensures disk_failed { result.0 ≡ Err ServeEnd.Stopped →
        Rose (D.faults replica.disk) (D.faults result.1) }

    ensures ended { (L.inward link.new).ended ≡ ((L.inward link.old).ended || is_ok result.0) }
    ensures all { IsTrue L.honest → OnOk result.0 ((L.inward link.new).coming ≡ []) }
    ensures failed { result.0 ≡ Err ServeEnd.LinkFailed →
        Rose (L.inward link.old).faults (L.inward link.new).faults }
    ensures quiet { (result.0 ≡ Err ServeEnd.LinkFailed → ⊥) →
        (L.inward link.new).faults ≡ (L.inward link.old).faults }
    ensures turns { result.0 ≡ Err ServeEnd.Turns →
        (L.inward link.new).calls ≡ calls_after settings.now.turns (L.inward link.old).calls }
    ensures asked { AskedAtMost settings.now.turns (L.inward link.old).calls
        (L.inward link.new).calls }
    ensures lost { IfOk result.0 (λ counts. (counts.1 ≡ 0)
        ⊎ Rose (L.send_faults link.old) (L.send_faults link.new)) }
{
    let mut node = ServingNode::new(replica, observer);
    // As it begins, the node stands for one of the rules, and its file keeps it, where there is a
    // ledger with its snapshot.
    let _core = node.replica().core();
    let _disk = node.replica().disk();
    let served = serve(alloc, link, &mut node, settings);
    (served, node.into_replica().into_disk())
}
