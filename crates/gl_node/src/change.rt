//! What an event may change of what a file keeps of a node.

ghost use Rattle.std.specs.Prelude.{◌≡◌, true};
ghost use Rattle.gl_replication.specs.Events.{answer, brings_few, has_few_entries, rule_of};
ghost use Rattle.gl_node.specs.Changes.{BringsFew, MayChange};
ghost use Rattle.gl_rules.specs.Identity.{NodeId as Id};

use gl_base::TxId;
use gl_config::NodeId;
use gl_entry::Entry;
use gl_messages::{Body, Message};
use gl_replication::{Book, Event};

/// What an event may change of what a file keeps of a node.
#[derive(Clone, Copy, Debug)]
pub(crate) enum Change<'a> {
    /// Nothing.
    Nothing,
    /// The view and the vote, a tail of the ledger, which is cut off, and the reserved leaves.
    ElectionStep,
    /// The same, and entries of a leader of this view after this one.
    Entries {
        view: u32,
        prev: TxId,
        entries: &'a [Entry],
    },
    /// One entry more.
    Entry,
}

/// What a message may change at the node that it is for.
fn change_by<B: Book>(message: &Message) -> Change<'_>
    requires { brings_few message.now.body ≡ true }
    ensures change { (x : Id) → MayChange {Q = B.Request} {G = B.Gov} {R = B.Reads} {A = B.Response}
        {F = B.Refused} (answer message.now) x result }
    ensures few { BringsFew result }
{
    match &message.body {
        Body::Append { prev, entries, .. } => Change::Entries {
            view: message.view,
            prev: *prev,
            entries: entries.as_slice(),
        },
        Body::RequestVote { .. }
        | Body::VoteReply { .. }
        | Body::AppendReply { .. }
        | Body::ProposeVote => Change::ElectionStep,
    }
}

/// What an event may change at a node.
#[tactic(auto, unfolding(gl_rules::specs::Identity::same))]
pub(crate) fn change_of<'a, B: Book>(event: &'a Event<B>, me: &NodeId) -> Change<'a>
    requires { has_few_entries event.now ≡ true }
    ensures change { MayChange (rule_of event.now) me.now result }
    ensures few { BringsFew result }
{
    match event {
        Event::Replicate(_) | Event::Advance | Event::StepDown(_) => Change::Nothing,
        Event::Timeout | Event::Reserve => Change::ElectionStep,
        Event::Submit(_) | Event::Govern(_) | Event::Sign | Event::Evidence => Change::Entry,
        Event::Message(message) => {
            if message.to == *me {
                change_by::<B>(message)
            } else {
                Change::Nothing
            }
        }
    }
}
