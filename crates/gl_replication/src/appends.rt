//! A leader's entries at a node.

ghost use Rattle.std.specs.Prelude.{ℕ, ◌≡◌, ◌≤◌, ◌<◌, ◌+◌, ◌^◌, ◌&&◌, ◌==◌, nat_lt, [], if◌then◌else◌, map, take, drop, length, true, false, None, Ok, IfOk, IfErr, OnErr};
ghost use Rattle.gl_base.specs.Answers.{Fails};
ghost use Rattle.gl_rules.specs.Identity.{NodeId};
ghost use Rattle.gl_rules.specs.Message.{Append};
ghost use Rattle.gl_rules.specs.Node.{Follower};
ghost use Rattle.gl_rules.specs.World.{on_message};
ghost use Rattle.gl_rules.specs.Steps.{cut_to, one_more_cut, enter_view, update_view};
ghost use Rattle.gl_rules.specs.Replication.{checked_append, commit_after, become_follower, merge_if_matching, matching_prefix_len, highest_possible_match, merge_entries};
ghost use Rattle.gl_election.specs.Elections.{position};
ghost use Rattle.gl_election.specs.Bridge.{message_to, seen_message};
ghost use Rattle.gl_replication.specs.Events.{AreFit};
ghost use Rattle.gl_replication.specs.Standing.{At};
ghost use Rattle.gl_replication.specs.Stands.{Grows, KeepsAll, Refuses, Replies, Reports, Steps, Turns};
ghost use Rattle.gl_replication.specs.declared.done.Outcome.TheVariants as answers;
ghost use Rattle.gl_replication.specs.Replies.{KeepsUpTo, is_matching, is_leading, append_reply_to, following};

use crate::book::Book;
use crate::done::{Done, Outcome, Refusal};
use crate::node::Core;
use gl_base::{OrNoMemory, Sequence, TxId};
use gl_config::{NodeId, NodeSet};
use gl_election::Role;
use gl_entry::Entry;
use gl_messages::{Body, Message};
use std::alloc::AllocError;

#[tactic(auto, unfolding(gl_rules::specs::Steps::enter_view), using(crate::proofs::Prefixes::last))]
impl<B: Book> Core<B> {
    /// The length of the log once it is in this view.
    fn len_in_view(&self, view: u32) -> u64
        ensures limit { result < 2 ^ 40 }
        ensures base { At B.stands self.now.book (λ b h. h.base ≤ result) }
        ensures within { Reports B.stands self.now (λ b x n. result ≤ length n.log) }
        ensures value { Reports B.stands self.now (λ b x n. (update_view b view n).log ≡ take
            result n.log) }
    {
        if view > self.peer.view {
            return self.book.last_signature().seqno;
        }
        self.book.ledger_len()
    }

    /// A view that rises: no vote, no leader, and the log cut to its last signature.
    fn enter_view(&mut self, view: u32)
        ensures turns { Turns B.stands (λ b n. enter_view b view n) self.old self.new }
        ensures snapshot { B.base_snapshot self.new.book ≡ B.base_snapshot self.old.book }
    {
        let seqno = self.book.last_signature().seqno;
        self.cut_to(seqno);
        self.begin_view(view);
    }
}

impl<B: Book> Core<B> {
    /// A view begins: no vote, no leader. The log stays.
    pub(crate) fn begin_view(&mut self, view: u32)
        ensures turns { Turns B.stands (λ b n. record n {
          view = view;
          vote = None;
          role = Follower;
          leader = None;
          votes = [];
        }) self.old self.new }
        ensures snapshot { B.base_snapshot self.new.book ≡ B.base_snapshot self.old.book }
    {
        self.peer.view = view;
        self.peer.vote = None;
        self.peer.role = Role::Follower;
        self.peer.leader = None;
        self.peer.votes = NodeSet::new(Vec::new(self.alloc));
    }

    /// Whether the log up to a length has an entry of this view at this seqno, or the seqno is 0.
    #[tactic(auto, using(crate::proofs::Prefixes::matching))]
    fn is_matching(&self, len: u64, prev: TxId) -> bool
        ensures value { Reports B.stands self.now (λ b x n. len ≤ length n.log → result ≡
            is_matching b (take len n.log) (position prev)) }
        ensures within { result ≡ true → prev.seqno ≤ len }
    {
        prev.seqno == 0 || (prev.seqno <= len && self.book.view_at(prev.seqno) == prev.view)
    }

    /// How many of the entries the log up to a length holds after a seqno with their views.
    #[tactic(auto, using(crate::proofs::Prefixes::matching))]
    fn matching_prefix_len(&self, len: u64, prev: u64, entries: &[Entry]) -> usize
        ensures value { Reports B.stands self.now (λ b x n. len ≤ length n.log → result ≡
            matching_prefix_len b (drop prev (take len n.log)) entries.now) }
        ensures within { result ≤ length entries.now }
        ensures reach { prev ≤ len → prev + result ≤ len }
    {
        match entries.split_first() {
            None => 0,
            Some((e, rest)) => {
                if prev >= len || self.book.view_at(prev + 1) != self.book.view_of(e) {
                    return 0;
                }
                1 + self.matching_prefix_len(len, prev + 1, rest)
            }
        }
    }

    /// The greatest seqno up to this one, within a length, whose entry's view is at most this one,
    /// else 0.
    #[tactic(auto, using(crate::proofs::Prefixes::matching))]
    fn highest_possible_match(&self, len: u64, view: u32, upto: u64) -> u64
        ensures { Reports B.stands self.now (λ b x n. len ≤ length n.log → upto ≤ len → result ≡
            highest_possible_match b (take len n.log) view upto) }
    {
        let mut seqno = upto;
        while seqno > 0 {
            if self.book.view_at(seqno) <= view {
                return seqno;
            }
            seqno -= 1;
        }
        0
    }

    /// One answer to a leader's entries.
    fn append_reply(
        &self,
        to: NodeId,
        view: u32,
        ok: bool,
        seqno: u64,
    ) -> Result<Sequence<Message>, AllocError>
        ensures value { IfOk result (λ sent. Reports B.stands self.now (λ b x n. map seen_message
            sent ≡ append_reply_to x to view ok seqno)) }
        ensures few { IfOk result (λ sent. length sent ≤ 1) }
        ensures fits { IfOk result (λ sent. AreFit sent) }
    {
        let mut sent = Vec::new(self.alloc);
        sent.push(Message {
            from: self.book.me(),
            to,
            view,
            body: Body::AppendReply { ok, seqno },
        })?;
        Ok(Sequence::from(sent))
    }

    /// The view rises to this one, if it is lower.
    pub(crate) fn update_view(&mut self, view: u32)
        ensures turns { Turns B.stands (λ b n. update_view b view n) self.old self.new }
        ensures snapshot { B.base_snapshot self.new.book ≡ B.base_snapshot self.old.book }
    {
        if view > self.peer.view {
            self.enter_view(view);
        }
    }

    /// Follows the leader y of a view that is not below its own.
    fn become_follower(&mut self, y: NodeId, view: u32)
        ensures turns { Turns B.stands (λ b n. become_follower b y (update_view b view n)) self.old
            self.new }
        ensures snapshot { B.base_snapshot self.new.book ≡ B.base_snapshot self.old.book }
    {
        self.update_view(view);
        self.peer.role = Role::Follower;
        self.peer.leader = Some(y);
    }

    /// Commit rises with what is known after a message with this commit, whose last entry has this
    /// seqno.
    fn commit_after(&mut self, theirs: u64, seqno: u64)
        ensures turns { Turns B.stands (λ b n. record n { commit = commit_after b theirs seqno n })
            self.old self.new }
        ensures snapshot { B.base_snapshot self.new.book ≡ B.base_snapshot self.old.book }
    {
        let signed = self.book.signature_upto(theirs.min(seqno));
        self.commit = self.commit.max(self.book.known_commit()).max(signed);
    }

    /// A cut counts, where one was made.
    fn count_cut(&mut self, made: bool)
        ensures turns { Turns B.stands (λ b n. record n {
          cuts = if made then one_more_cut n.cuts else
              n.cuts;
        }) self.old self.new }
        ensures snapshot { B.base_snapshot self.new.book ≡ B.base_snapshot self.old.book }
    {
        if made {
            self.cuts = self.cuts.saturating_add(1);
        }
    }

    /// A follower of y in a view that is not below its own.
    fn follow_in_view(&mut self, y: NodeId, view: u32)
        ensures turns { Turns B.stands (λ b n. following y view n) self.old self.new }
        ensures snapshot { B.base_snapshot self.new.book ≡ B.base_snapshot self.old.book }
    {
        if view > self.peer.view {
            self.peer.view = view;
            self.peer.vote = None;
            self.peer.votes = NodeSet::new(Vec::new(self.alloc));
        }
        self.peer.role = Role::Follower;
        self.peer.leader = Some(y);
    }

    /// The log cut to a seqno, and these entries after it. All or nothing.
    fn append_after(&mut self, seqno: u64, entries: &[Entry]) -> Result<(), OrNoMemory<B::Refused>>
        requires base { At B.stands self.old.book (λ b h. h.base ≤ seqno) }
        ensures grown { IfOk result (λ r. Grows B.stands (λ b n l. checked_append b n.base (take
            seqno n.log) entries.now ≡ Ok l) (λ b n l. record n { log = l }) self.old self.new) }
        ensures refused { IfErr result (λ e. Reports B.stands self.old (λ b x n. Fails e
            (checked_append b n.base (take seqno n.log) entries.now))) }
        ensures err { OnErr result (KeepsAll B.stands self.old self.new) }
        ensures snapshot { B.base_snapshot self.new.book ≡ B.base_snapshot self.old.book }
    {
        self.book.replace_tail(seqno, entries)
    }

    /// The log cut to a seqno, and these entries after it; the view is entered, and y is its
    /// leader. All or nothing.
    fn replace_tail(
        &mut self,
        y: NodeId,
        view: u32,
        len: u64,
        seqno: u64,
        entries: &[Entry],
    ) -> Result<(), OrNoMemory<B::Refused>>
        requires within { seqno ≤ len }
        requires base { At B.stands self.old.book (λ b h. h.base ≤ seqno) }
        requires len { Reports B.stands self.old (λ b x n. (len ≤ length n.log) × ((update_view b
            view n).log ≡ take len n.log)) }
        ensures grown { IfOk result (λ r. Grows B.stands (λ b n l. checked_append b n.base (take
            seqno n.log) entries.now ≡ Ok l) (λ b n l. record (cut_to seqno (become_follower b y
            (update_view b view n))) { log = l }) self.old self.new) }
        ensures refused { IfErr result (λ e. Reports B.stands self.old (λ b x n. Fails e
            (checked_append b n.base (take seqno n.log) entries.now))) }
        ensures err { OnErr result (KeepsAll B.stands self.old self.new) }
        ensures snapshot { B.base_snapshot self.new.book ≡ B.base_snapshot self.old.book }
    {
        let before = self.book.ledger_len();
        match self.append_after(seqno, entries) {
            Err(why) => Err(why),
            Ok(()) => {
                self.count_cut(len < before);
                self.count_cut(seqno < len);
                self.follow_in_view(y, view);
                Ok(())
            }
        }
    }

    /// Whether a log of this length, not below the base, is cut at a seqno below commit.
    fn is_cut_below(&self, len: u64, seqno: u64) -> bool
        requires len { At B.stands self.now.book (λ b h. h.base ≤ len) }
        ensures value { Reports B.stands self.now (λ b x n.
            result ≡ (nat_lt seqno len && nat_lt seqno n.commit)) }
        ensures base { result ≡ false → At B.stands self.now.book (λ b h. h.base ≤ seqno) }
    {
        seqno < len && seqno < self.commit_from_base()
    }

    /// The entries up to a seqno are accept_entries: commit rises, and the leader is answered. The
    /// answer was made before.
    fn accept_entries(&mut self, seqno: u64, theirs: u64, sent: Sequence<Message>) -> Done<B>
        ensures replies { Replies B.stands (λ b x n. record n { commit = commit_after b theirs seqno n })
            sent self.old result self.new }
        ensures snapshot { B.base_snapshot self.new.book ≡ B.base_snapshot self.old.book }
    {
        self.commit_after(theirs, seqno);
        Done {
            outcome: Outcome::Done,
            sent,
        }
    }

    /// Entries after a seqno prev of a log in its view, of which it holds the first ones.
    fn merge_entries(
        &mut self,
        y: NodeId,
        view: u32,
        len: u64,
        prev: u64,
        entries: &[Entry],
        held: usize,
        theirs: u64,
    ) -> Result<Done<B>, Refusal<B>>
        requires within { (prev + held ≤ len) × (held ≤ length entries.now) × (len < 2 ^ 40) }
        requires view { self.old.peer.view ≤ view }
        requires base { At B.stands self.old.book (λ b h. h.base ≤ len) }
        requires len { Reports B.stands self.old (λ b x n. (len ≤ length n.log) × ((update_view b
            view n).log ≡ take len n.log)) }
        ensures steps { IfOk result (λ done. Steps B.stands (λ b x n. merge_entries b x y prev
            entries.now held theirs (become_follower b y (update_view b view n))) self.old done
            self.new) }
        ensures refused { IfErr result (λ why. Refuses B.stands (λ b x n. merge_entries b x y
            prev entries.now held theirs (become_follower b y (update_view b view n))) self.old
            why) }
        ensures err { OnErr result (KeepsAll B.stands self.old self.new) }
        ensures few { IfOk result (λ done. length done.sent ≤ 1) }
        ensures fits { IfOk result (λ done. AreFit done.sent) }
        ensures snapshot { B.base_snapshot self.new.book ≡ B.base_snapshot self.old.book }
    {
        let end = prev + entries.len() as u64;
        let sent = match self.append_reply(y, view, true, end) {
            Err(_) => return Err(Refusal::NoMemory),
            Ok(sent) => sent,
        };
        if held == entries.len() {
            self.become_follower(y, view);
            return Ok(self.accept_entries(end, theirs, sent));
        }
        let seqno = prev + held as u64;
        if self.is_cut_below(len, seqno) {
            return Err(Refusal::BelowCommit(self.commit, seqno));
        }
        match self.replace_tail(y, view, len, seqno, &entries[held..]) {
            Err(OrNoMemory::NoMemory) => Err(Refusal::NoMemory),
            Err(OrNoMemory::Fault(why)) => Err(Refusal::ByLedger(why)),
            Ok(()) => Ok(self.accept_entries(end, theirs, sent)),
        }
    }

    /// Entries at a node of a view not above the leader's that doesn't lead in it: after a seqno
    /// where the log has an entry of that view; else where to try next.
    fn merge_if_matching(
        &mut self,
        y: NodeId,
        view: u32,
        prev: TxId,
        entries: &[Entry],
        theirs: u64,
    ) -> Result<Done<B>, Refusal<B>>
        requires view { self.old.peer.view ≤ view }
        ensures steps { IfOk result (λ done. Steps B.stands (λ b x n. merge_if_matching b x y
            (position prev) entries.now theirs (become_follower b y (update_view b view n)))
            self.old done self.new) }
        ensures refused { IfErr result (λ why. Refuses B.stands (λ b x n. merge_if_matching b x y
            (position prev) entries.now theirs (become_follower b y (update_view b view n)))
            self.old why) }
        ensures err { OnErr result (KeepsAll B.stands self.old self.new) }
        ensures few { IfOk result (λ done. length done.sent ≤ 1) }
        ensures fits { IfOk result (λ done. AreFit done.sent) }
        ensures snapshot { B.base_snapshot self.new.book ≡ B.base_snapshot self.old.book }
    {
        let len = self.len_in_view(view);
        if self.is_matching(len, prev) {
            let held = self.matching_prefix_len(len, prev.seqno, entries);
            return self.merge_entries(y, view, len, prev.seqno, entries, held, theirs);
        }
        let seqno = self.highest_possible_match(
            len,
            prev.view,
            (prev.seqno.saturating_sub(1)).min(len),
        );
        match self.append_reply(y, view, false, seqno) {
            Err(_) => Err(Refusal::NoMemory),
            Ok(sent) => {
                self.become_follower(y, view);
                Ok(Done {
                    outcome: Outcome::Done,
                    sent,
                })
            }
        }
    }

    /// Nothing is done or sent.
    pub(crate) fn idle(&self) -> Done<B>
        ensures outcome { result.outcome ≡ answers.Idle }
        ensures quiet { result.sent ≡ [] }
    {
        Done {
            outcome: Outcome::Idle,
            sent: Sequence::from(Vec::new(self.alloc)),
        }
    }

    /// Nothing is sent.
    pub(crate) fn done(&self) -> Done<B>
        ensures outcome { result.outcome ≡ answers.Done }
        ensures quiet { result.sent ≡ [] }
    {
        Done {
            outcome: Outcome::Done,
            sent: Sequence::from(Vec::new(self.alloc)),
        }
    }

    /// Whether it leads in this view.
    pub(crate) fn leads_in(&self, view: u32) -> bool
        ensures { result ≡ ((self.now.peer.view == view) && is_leading self.now.peer.role) }
    {
        self.peer.view == view && matches!(self.peer.role, Role::Leader)
    }

    /// Up to which seqno the log stays as it is when a leader's entries are taken, by whomever they
    /// are sent.
    pub fn kept_upto(&self, view: u32, prev: TxId, entries: &[Entry]) -> u64
        ensures { Reports B.stands self.now
            (λ b x n. (from : NodeId) (commit : ℕ) → KeepsUpTo result
            entries.now n (on_message b (message_to x from view (Append (position prev)
            entries.now commit)) n)) }
    {
        if view < self.peer.view {
            return self.book.ledger_len();
        }
        if self.leads_in(view) {
            return self.book.ledger_len();
        }
        let len = self.len_in_view(view);
        if !self.is_matching(len, prev) {
            return len;
        }
        let held = self.matching_prefix_len(len, prev.seqno, entries);
        if held == entries.len() {
            return len;
        }
        prev.seqno + held as u64
    }

    /// A leader's entries to this node. Where they are refused, nothing has changed, the view
    /// neither.
    pub fn on_append(
        &mut self,
        from: NodeId,
        view: u32,
        prev: TxId,
        entries: &[Entry],
        commit: u64,
    ) -> Result<Done<B>, Refusal<B>>
        ensures steps { IfOk result (λ done. Steps B.stands (λ b x n. on_message b (message_to x
            from view (Append (position prev) entries.now commit)) n) self.old done self.new) }
        ensures refused { IfErr result (λ why. Refuses B.stands (λ b x n. on_message b
            (message_to x from view (Append (position prev) entries.now commit)) n) self.old why) }
        ensures err { OnErr result (KeepsAll B.stands self.old self.new) }
        ensures few { IfOk result (λ done. length done.sent ≤ 1) }
        ensures fits { IfOk result (λ done. AreFit done.sent) }
        ensures snapshot { B.base_snapshot self.new.book ≡ B.base_snapshot self.old.book }
    {
        if view < self.peer.view {
            return match self.append_reply(from, self.peer.view, false, 0) {
                Err(_) => Err(Refusal::NoMemory),
                Ok(sent) => Ok(Done {
                    outcome: Outcome::Done,
                    sent,
                }),
            };
        }
        if self.leads_in(view) {
            return Ok(self.idle());
        }
        self.merge_if_matching(from, view, prev, entries, commit)
    }
}
