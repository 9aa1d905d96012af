//! What an event makes of a node alone.

ghost use Rattle.std.specs.Prelude.{◌≡◌, ◌≤◌, ◌<◌, ◌^◌, All, IsTrue, IfOk, IfErr, OnErr, map, true, ℕ};
ghost use Rattle.gl_entry.specs.Entry.{frame_bytes, is_entry};
ghost use Rattle.gl_replication.specs.Events.{AreFit, IsAccepted, is_request, rule_of};
ghost use Rattle.gl_election.specs.Bridge.{message_to};
ghost use Rattle.gl_election.specs.Elections.{position};
ghost use Rattle.gl_rules.specs.Identity.{NodeId as Id};
ghost use Rattle.gl_rules.specs.Log.{last_signature};
ghost use Rattle.gl_rules.specs.Message.{Append};
ghost use Rattle.gl_rules.specs.World.{on_message};
ghost use Rattle.gl_replication.specs.Standing.{At};
ghost use Rattle.gl_replication.specs.Stands.{KeepsAll, Refuses, Reports, Steps};
ghost use Rattle.gl_node.specs.Changes.{KeepsAboveBase};
ghost use Rattle.gl_node.specs.Frames.{EachGoesOn};
ghost use Rattle.gl_node.specs.Persistence.{HoldsAbove};

use crate::changed::held_count;
use crate::kept_book::KeptBook;
use gl_base::TxId;
use gl_entry::Entry;
use gl_replication::{Core, Done, Event, Refusal};

/// Up to which seqno the ledger stays as it is when a leader's entries are taken: no less than the
/// base.
pub(crate) fn kept_upto<B: KeptBook>(
    core: &Core<B>,
    view: u32,
    prev: TxId,
    entries: &[Entry],
) -> u64
    ensures signed { At B.stands core.now.book (λ b h. h.base ≤ last_signature b h.log) }
    ensures kept { Reports B.stands core.now (λ b x n. (from : Id) (commit : ℕ) →
        KeepsAboveBase result entries.now n (on_message b (message_to x from view
        (Append (position prev) entries.now commit)) n)) }
{
    let _last = core.book.last_signature();
    let kept = core.kept_upto(view, prev, entries);
    let base = core.book.base();
    if kept < base { base } else { kept }
}

/// What an event makes of a node whose ledger a file can keep, with what that ledger is then.
pub(crate) fn step_core<B: KeptBook>(
    core: &mut Core<B>,
    event: &Event<B>,
) -> Result<Done<B>, Refusal<B>>
    ensures steps { IfOk result
        (λ done. Steps B.stands (rule_of event.now) core.old done core.new) }
    ensures refused { IfErr result (λ why. Refuses B.stands (rule_of event.now) core.old why) }
    ensures err { OnErr result (KeepsAll B.stands core.old core.new) }
    ensures fit { All (λ e. IsTrue (is_entry e)) (B.held core.new.book).entries }
    ensures follow { EachGoesOn B.goes_on (B.held core.new.book).snapshot
        (map frame_bytes (B.held core.new.book).entries) }
    ensures above { HoldsAbove B.stands B.held B.snapshot_of core.new.book }
    ensures leaves { At B.stands core.new.book (λ b h. b.leaves h.me < 2 ^ 32) }
    ensures snapshot { B.base_snapshot core.new.book ≡ B.base_snapshot core.old.book }
    ensures sent { IfOk result (λ done. AreFit done.sent) }
    ensures accepted { IfOk result (λ done.
        is_request event.now ≡ true → IsAccepted B.fits done.outcome) }
{
    let came = core.step(event);
    let _count = held_count(&core.book);
    came
}
