//! How a node begins.

ghost use Rattle.std.specs.Prelude.{◌≡◌, ◌≤◌, []};
ghost use Rattle.gl_entry.specs.declared.entry.Entry.{Entry as Item};
ghost use Rattle.gl_rules.specs.Node.{Node};
ghost use Rattle.gl_rules.specs.Replication.{restart};
ghost use Rattle.gl_rules.specs.World.{Start, joiner, leader_at_start, starter};
ghost use Rattle.gl_replication.specs.Standing.{At};
ghost use Rattle.gl_replication.specs.Stands.{StandsFor, held_by};

use crate::book::Book;
use crate::leaves::Leaves;
use crate::node::Core;
use gl_base::FIRST_VIEW;
use gl_config::{NodeId, NodeSet};
use gl_election::{Peer, Role};
use std::alloc::Global;

impl<B: Book> Core<B> {
    /// A follower in this view, with this vote, commit and start, over a store. So many leaves of
    /// its key are reserved, and it signs with none of them.
    fn follower(
        alloc: Global,
        book: B,
        view: u32,
        vote: Option<NodeId>,
        commit: u64,
        spent: u64,
    ) -> Core<B>
        ensures stands { At B.stands book (λ b h. h.base ≤ commit → spent ≤ b.leaves h.me →
            StandsFor B.stands result b h.me (record joiner {
              view = view;
              vote = vote;
              log = h.log;
              base = h.base;
              commit = commit;
              reserved = spent;
              used = spent;
            })) }
        ensures book { result.book ≡ book }
    {
        Core {
            alloc,
            book,
            peer: Peer {
                view,
                vote,
                role: Role::Follower,
                leader: None,
                votes: NodeSet::new(Vec::new(alloc)),
            },
            leaves: Leaves {
                used: spent,
                reserved: spent,
            },
            commit,
            start: 1,
            cuts: 0,
            matched: Vec::new(alloc),
            next: Vec::new(alloc),
        }
    }

    /// A node that joins, over a store of no entries. So many leaves of its key were spent before.
    /// Takes no memory.
    pub fn joiner(alloc: Global, book: B, spent: u64) -> Core<B>
        ensures { At B.stands book (λ b h. h.base ≡ 0 → h.log ≡ [] → spent ≤ b.leaves h.me →
            StandsFor B.stands result b h.me (record joiner { reserved = spent; used = spent })) }
    {
        Core::follower(alloc, book, FIRST_VIEW, None, 0, spent)
    }

    /// A node that starts the service, over a store of the opening ledger: it has voted for the
    /// first node. So many leaves of its key were spent before. Takes no memory.
    pub fn starter(alloc: Global, book: B, first: NodeId, spent: u64) -> Core<B>
        ensures { At B.stands book (λ b h. (s : Start Item) → h.base ≡ 0 → h.log ≡ s.opening →
            s.first ≡ first → spent ≤ b.leaves h.me → StandsFor B.stands result b h.me
            (record (starter s) { reserved = spent; used = spent })) }
    {
        let commit = book.ledger_len();
        Core::follower(alloc, book, FIRST_VIEW, Some(first), commit, spent)
    }

    /// The node that signed the opening ledger, over a store of it: it leads. So many leaves of its
    /// key are spent, that of the opening's signature among them. Takes no memory.
    pub fn leader(alloc: Global, book: B, spent: u64) -> Core<B>
        requires leaves { At B.stands book (λ b h. spent ≤ b.leaves h.me) }
        ensures { At B.stands book (λ b h. (s : Start Item) → h.base ≡ 0 → h.log ≡ s.opening →
            s.first ≡ h.me → StandsFor B.stands result b h.me
            (record (leader_at_start s) { reserved = spent; used = spent })) }
    {
        let commit = book.ledger_len();
        let first = book.me();
        let mut core = Core::follower(alloc, book, FIRST_VIEW, Some(first), commit, spent);
        core.peer.role = Role::Leader;
        core.start = commit + 1;
        core
    }

    /// A node as a restart leaves it, over a store of the ledger that its file keeps: with the view
    /// and the vote of the file, and so many leaves reserved. Takes no memory.
    #[tactic(auto, unfolding(gl_rules::specs::Replication::restart))]
    pub fn reopened(
        alloc: Global,
        book: B,
        view: u32,
        vote: Option<NodeId>,
        reserved: u64,
    ) -> Core<B>
        ensures stands { At B.stands book (λ b h. (n : Node Item) → held_by h.me n ≡ h →
            n.view ≡ view → n.vote ≡ vote → n.reserved ≡ reserved → reserved ≤ b.leaves h.me →
            StandsFor B.stands result b h.me (restart b n).node) }
        ensures book { result.book ≡ book }
    {
        let commit = book.known_commit();
        Core::follower(alloc, book, view, vote, commit, reserved)
    }
}
