//! A leader's entries to another node.

ghost use Rattle.std.specs.Prelude.{◌≡◌, ◌≤◌, ◌-◌, ◌&&◌, ◌||◌, not, length, if◌then◌else◌, IfOk, IfErr, OnErr};
ghost use Rattle.gl_rules.specs.Outcome.{refuse, NotPeer};
ghost use Rattle.gl_rules.specs.Replication.{is_peer, is_reached, next_of, replicate, send_append};
ghost use Rattle.gl_replication.specs.Events.{AreFit};
ghost use Rattle.gl_replication.specs.Stands.{KeepsAll, Refuses, Reports, Steps};

use crate::book::Book;
use crate::done::{Done, Outcome, Refusal};
use crate::node::Core;
use gl_base::{Sequence, TxId};
use gl_config::{Active, NodeId};
use gl_election::Role;
use gl_messages::{Body, Message};

/// Whether a seqno is reached, if there is one.
fn is_reached(seqno: Option<u64>, commit: u64) -> bool
    ensures { result ≡ is_reached seqno commit }
{
    match seqno {
        None => false,
        Some(seqno) => seqno <= commit,
    }
}

/// Another node that is active, or was removed and isn't marked yet.
fn is_to_have(is_me: bool, is_active: bool, is_removed: bool, is_marked: bool) -> bool
    ensures { result ≡ (not is_me && (is_active || (is_removed && not is_marked))) }
{
    !is_me && (is_active || (is_removed && !is_marked))
}

impl<B: Book> Core<B> {
    /// Whether another node is to have entries: one of an active configuration, or one that was
    /// removed and has no mark that is committed here.
    fn is_peer(&self, to: &NodeId) -> bool
        ensures { Reports B.stands self.now (λ b x n. result ≡ is_peer b x to.now n) }
    {
        let is_me = *to == self.book.me();
        let len = self.book.ledger_len();
        let is_active = Active::of(self.book.configurations(len), self.commit).holds(to);
        let is_removed = self.book.removal(to).is_some();
        let is_marked = is_reached(self.book.mark(to), self.commit);
        is_to_have(is_me, is_active, is_removed, is_marked)
    }

    /// The entries after a seqno, as many as one message carries.
    fn send_append(&mut self, to: NodeId, after: u64) -> Result<Done<B>, Refusal<B>>
        ensures steps { IfOk result (λ done.
            Steps B.stands (λ b x n. send_append b x to after n) self.old done self.new) }
        ensures refused { IfErr result (λ why.
            Refuses B.stands (λ b x n. send_append b x to after n) self.old why) }
        ensures err { OnErr result (KeepsAll B.stands self.old self.new) }
        ensures few { IfOk result (λ done. length done.sent ≤ 1) }
        ensures fits { IfOk result (λ done. AreFit done.sent) }
        ensures snapshot { B.base_snapshot self.new.book ≡ B.base_snapshot self.old.book }
    {
        let base = self.book.base();
        if after < base {
            return Err(Refusal::BelowBase(base));
        }
        let entries = match self.book.batch(after) {
            Err(_) => return Err(Refusal::NoMemory),
            Ok(entries) => entries,
        };
        let message = Message {
            from: self.book.me(),
            to,
            view: self.peer.view,
            body: Body::Append {
                prev: TxId {
                    view: self.book.view_at(after),
                    seqno: after,
                },
                commit: self.commit,
                entries: Sequence::from(entries),
            },
        };
        let mut sent = Vec::new(self.alloc);
        match sent.push(message) {
            Err(_) => Err(Refusal::NoMemory),
            Ok(()) => Ok(Done {
                outcome: Outcome::Done,
                sent: Sequence::from(sent),
            }),
        }
    }

    fn replicate_as_leader(&mut self, to: NodeId) -> Result<Done<B>, Refusal<B>>
        ensures steps { IfOk result (λ done. Steps B.stands (λ b x n. if is_peer b x to n
            then send_append b x to (next_of b n to - 1) n else refuse n NotPeer)
            self.old done self.new) }
        ensures refused { IfErr result (λ why. Refuses B.stands (λ b x n. if is_peer b x to n
            then send_append b x to (next_of b n to - 1) n else refuse n NotPeer) self.old why) }
        ensures err { OnErr result (KeepsAll B.stands self.old self.new) }
        ensures few { IfOk result (λ done. length done.sent ≤ 1) }
        ensures fits { IfOk result (λ done. AreFit done.sent) }
        ensures snapshot { B.base_snapshot self.new.book ≡ B.base_snapshot self.old.book }
    {
        if !self.is_peer(&to) {
            return Err(Refusal::NotPeer);
        }
        let after = self.next_of(&to).saturating_sub(1);
        self.send_append(to, after)
    }

    /// The leader sends a node the entries from its next seqno on, as many as one message carries.
    pub fn replicate(&mut self, to: NodeId) -> Result<Done<B>, Refusal<B>>
        ensures steps { IfOk result (λ done.
            Steps B.stands (λ b x n. replicate b x to n) self.old done self.new) }
        ensures refused { IfErr result (λ why.
            Refuses B.stands (λ b x n. replicate b x to n) self.old why) }
        ensures err { OnErr result (KeepsAll B.stands self.old self.new) }
        ensures few { IfOk result (λ done. length done.sent ≤ 1) }
        ensures fits { IfOk result (λ done. AreFit done.sent) }
        ensures snapshot { B.base_snapshot self.new.book ≡ B.base_snapshot self.old.book }
    {
        match self.peer.role {
            Role::Leader => self.replicate_as_leader(to),
            _ => Err(Refusal::NotPrimary(self.peer.view, self.peer.leader)),
        }
    }
}
