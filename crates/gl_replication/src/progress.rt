//! What a leader makes of the answers to its entries.

ghost use Rattle.std.specs.Prelude.{◌≡◌, ◌<◌, ◌+◌, ◌^◌, min, vec_len, vec_capacity, length, [], IfOk, IfErr, IfSome, OnOk, OnErr};
ghost use Rattle.gl_rules.specs.Message.{AppendReply};
ghost use Rattle.gl_rules.specs.World.{on_message};
ghost use Rattle.gl_election.specs.Bridge.{message_to};
ghost use Rattle.gl_rules.specs.Replication.{lower_next, next_of, update_match, update_progress};
ghost use Rattle.gl_replication.specs.Pairs.{Puts, index_of, tried};
ghost use Rattle.gl_replication.specs.Stands.{IsNoMemory, KeepsAll, Reports, Steps, Turns};

use crate::book::Book;
use crate::done::{Done, Refusal};
use crate::holders::held;
use crate::node::Core;
use gl_config::NodeId;
use std::alloc::AllocError;

/// The index of the first pair of a node.
#[tactic(auto, unfolding(gl_rules::specs::Identity::same))]
pub(crate) fn index_of(pairs: &[(NodeId, u64)], y: &NodeId) -> Option<usize>
    ensures value { result ≡ index_of pairs.now y.now }
    ensures within { IfSome result (λ index. index < length pairs.now) }
{
    match pairs.split_first() {
        None => None,
        Some((pair, rest)) => {
            if *y == pair.0 {
                return Some(0);
            }
            let index = index_of(rest, y)?;
            Some(index + 1)
        }
    }
}

/// The seqno that the first pair of a node has, if it has one.
#[tactic(auto, unfolding(gl_rules::specs::Identity::same))]
pub(crate) fn tried(pairs: &[(NodeId, u64)], y: &NodeId) -> Option<u64>
    ensures { result ≡ tried pairs.now y.now }
{
    match pairs.split_first() {
        None => None,
        Some((pair, rest)) => {
            if *y == pair.0 {
                return Some(pair.1);
            }
            tried(rest, y)
        }
    }
}

/// A node has this seqno then, and the others have what they had. There is room for one more.
pub(crate) fn set_seqno(pairs: &mut Vec<(NodeId, u64)>, y: NodeId, seqno: u64)
    requires { vec_len pairs.old < vec_capacity pairs.old }
    ensures { Puts pairs.old.items y seqno pairs.new.items }
{
    match index_of(pairs, &y) {
        Some(index) => pairs[index] = (y, seqno),
        None => pairs.push_reserved((y, seqno)),
    }
}

/// The seqno after this one, where the next one isn't before it.
fn one_after_at_most(next: u64, seqno: u64) -> u64
    ensures { result ≡ min next (seqno + 1) }
{
    if seqno < next { seqno + 1 } else { next }
}

impl<B: Book> Core<B> {
    /// Which seqno a node is sent next.
    pub(crate) fn next_of(&self, y: &NodeId) -> u64
        ensures { Reports B.stands self.now (λ b x n. result ≡ next_of b n y.now) }
    {
        tried(&self.next, y).unwrap_or(self.start)
    }

    /// A node holds the log up to this seqno.
    fn update_match(&mut self, y: NodeId, seqno: u64) -> Result<(), AllocError>
        requires { seqno < 2 ^ 40 }
        ensures ok { OnOk result (Turns B.stands (λ b n. update_match b y seqno n) self.old
            self.new) }
        ensures err { OnErr result (KeepsAll B.stands self.old self.new) }
        ensures snapshot { B.base_snapshot self.new.book ≡ B.base_snapshot self.old.book }
    {
        self.matched.reserve(1)?;
        self.next.reserve(1)?;
        let most = held(&self.matched, &y).max(seqno);
        let next = self.next_of(&y).max(most.saturating_add(1));
        set_seqno(&mut self.matched, y, most);
        set_seqno(&mut self.next, y, next);
        Ok(())
    }

    /// A node is tried from this seqno on again.
    fn lower_next(&mut self, y: NodeId, seqno: u64) -> Result<(), AllocError>
        ensures ok { OnOk result (Turns B.stands (λ b n. lower_next b y seqno n) self.old
            self.new) }
        ensures err { OnErr result (KeepsAll B.stands self.old self.new) }
        ensures snapshot { B.base_snapshot self.new.book ≡ B.base_snapshot self.old.book }
    {
        self.next.reserve(1)?;
        let least = held(&self.matched, &y).saturating_add(1);
        let next = least.max(one_after_at_most(self.next_of(&y), seqno));
        set_seqno(&mut self.next, y, next);
        Ok(())
    }

    /// What a reply in its view means to the leader: a node holds the log up to a seqno, or is
    /// tried from one on again.
    fn update_progress(&mut self, y: NodeId, ok: bool, seqno: u64) -> Result<Done<B>, Refusal<B>>
        ensures steps { IfOk result (λ done.
            Steps B.stands (λ b x n. update_progress b ok y seqno n) self.old done self.new) }
        ensures refused { IfErr result (λ why. IsNoMemory why) }
        ensures err { OnErr result (KeepsAll B.stands self.old self.new) }
        ensures quiet { IfOk result (λ done. done.sent ≡ []) }
        ensures snapshot { B.base_snapshot self.new.book ≡ B.base_snapshot self.old.book }
    {
        if !ok {
            return match self.lower_next(y, seqno) {
                Ok(()) => Ok(self.done()),
                Err(_) => Err(Refusal::NoMemory),
            };
        }
        if seqno > self.book.ledger_len() {
            return Ok(self.idle());
        }
        match self.update_match(y, seqno) {
            Ok(()) => Ok(self.done()),
            Err(_) => Err(Refusal::NoMemory),
        }
    }

    /// A node's reply to the leader's entries.
    pub fn on_append_reply(
        &mut self,
        from: NodeId,
        view: u32,
        ok: bool,
        seqno: u64,
    ) -> Result<Done<B>, Refusal<B>>
        ensures steps { IfOk result (λ done. Steps B.stands (λ b x n.
            on_message b (message_to x from view (AppendReply ok seqno)) n)
            self.old done self.new) }
        ensures refused { IfErr result (λ why. IsNoMemory why) }
        ensures err { OnErr result (KeepsAll B.stands self.old self.new) }
        ensures quiet { IfOk result (λ done. done.sent ≡ []) }
        ensures snapshot { B.base_snapshot self.new.book ≡ B.base_snapshot self.old.book }
    {
        if view > self.peer.view {
            self.update_view(view);
            return Ok(self.idle());
        }
        if self.leads_in(view) {
            return self.update_progress(from, ok, seqno);
        }
        Ok(self.idle())
    }
}
