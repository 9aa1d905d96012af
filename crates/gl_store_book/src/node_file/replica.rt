//! The node of a file.

ghost use Rattle.std.specs.Prelude.{◌≡◌, ◌≢◌, ◌<◌, ◌≤◌, ◌^◌, ◌++◌, List, None, Ok, Err, ℕ, false, length, IsTrue, IsOk, IfOk, IfErr};
ghost use Rattle.gl_base.specs.declared.or_no_memory.OrNoMemory.{OrNoMemory};
ghost use Rattle.gl_entry.specs.declared.entry.Entry.{Entry as Item};
ghost use Rattle.gl_hss.specs.Types.{height};
ghost use Rattle.gl_outside.specs.Disk.{Leaves};
ghost use Rattle.gl_outside.specs.Fault.{Rose};
ghost use Rattle.gl_rules.specs.Replication.{restart};
ghost use Rattle.gl_rules.specs.Steps.{become_leader, lead_if};
ghost use Rattle.gl_rules.specs.World.{Start, joiner};
ghost use Rattle.gl_journal.specs.Durable.{leaf_count, OpensToOneOf};
ghost use Rattle.gl_journal.specs.Kept.{IsAtRest};
ghost use Rattle.gl_journal.specs.declared.fault.JournalFault.{JournalFault};
ghost use Rattle.gl_ledger.specs.LedgerBook.{ledger_book};
ghost use Rattle.gl_ledger.specs.NodeKeys.{NodeKeys, service_layers};
ghost use Rattle.gl_replication.specs.Stands.{Reports, StandsFor, Turns};
ghost use Rattle.gl_store_book.specs.AtOpening.{leads_at_opening, node_at_opening, opened_state, opening_size, restarted_node};
ghost use Rattle.gl_ledger_base.specs.Ledgers.{IsBase};
ghost use Rattle.gl_store_book.specs.BasedLedgers.{IsEncoded, body_of};
ghost use Rattle.gl_store_book.specs.Frames.{goes_on_ledger};
ghost use Rattle.gl_store_book.specs.NodeFile.{has_ledger, key_of, node_of, opened, seen_state};
ghost use Rattle.gl_store_book.specs.Replicas.{StandsForFile, StandsForKey};
ghost use Rattle.gl_store_book.specs.ServiceStart.{service_start, start_in};
ghost use Rattle.gl_store_book.specs.Stands.{Stands};
ghost use Rattle.gl_store_book.specs.ViewVotes.{IsOfOpening, IsTooLarge, IsViewVoteOf};
ghost use Rattle.gl_store_book.specs.declared.node_file.fault.OpeningFault.{OpeningFault};

use crate::book_ledger::BookLedger;
use crate::node_file::NodeFile;
use crate::node_file::fault::OpeningFault;
use crate::node_file::ledger_log::LedgerLog;
use crate::node_file::opening_batch::ViewVote;
use crate::node_file::opening_ledger::OpeningLedger;
use crate::node_file::persist::keep_start;
use crate::store_book::StoreBook;
use gl_base::OrNoMemory;
use gl_config::NodeId;
use gl_election::Role;
use gl_hss::LmsKey;
use gl_journal::Durable;
use gl_node::Replica;
use gl_outside::Disk;
use gl_replication::Core;
use std::alloc::{AllocError, Global};

/// What a file keeps of a node beside its key and its ledger.
#[derive(Clone, Copy, Debug)]
struct Seat {
    view: u32,
    vote: Option<NodeId>,
    reserved: u32,
}

/// The node of a file with this ledger, as a restart leaves it. Takes no memory.
fn restarted(
    alloc: Global,
    me: NodeId,
    key: LmsKey,
    ledger: BookLedger,
    seat: Seat,
) -> Core<StoreBook>
    requires { IsEncoded ledger.snapshot }
    ensures stands { (keys : NodeKeys) → keys.key_of me ≡ key →
        seat.reserved ≤ 2 ^ height key.types → (below : List Item) →
        IsBase service_layers (body_of ledger.snapshot) below →
        StandsFor Stands result (ledger_book service_layers keys) me
        (restart (ledger_book service_layers keys) (record joiner {
          view = seat.view;
          vote = seat.vote;
          log = below ++ ledger.entries;
          base = length below;
          reserved = seat.reserved;
        })).node }
    ensures snapshot { result.book.ledger.snapshot ≡ ledger.snapshot }
{
    let book = StoreBook {
        alloc,
        me,
        key,
        ledger,
        at_hand: None,
    };
    Core::reopened(alloc, book, seat.view, seat.vote, u64::from(seat.reserved))
}

/// The node leads, from the end of its ledger on.
fn begin_leading(core: &mut Core<StoreBook>)
    ensures turns { Turns Stands (λ b n. become_leader n) core.old core.new }
    ensures snapshot { core.new.book.ledger.snapshot ≡ core.old.book.ledger.snapshot }
{
    core.peer.role = Role::Leader;
    core.start = core.book.ledger.len() + 1;
    core.matched.clear();
    core.next.clear();
}

/// The same node, which leads if it is to.
fn leading_if(core: Core<StoreBook>, leads: bool) -> Core<StoreBook>
    ensures stands { Reports Stands core (λ b x n.
        StandsFor Stands result b x (lead_if b leads n)) }
    ensures snapshot { result.book.ledger.snapshot ≡ core.book.ledger.snapshot }
{
    let mut core = core;
    if leads {
        begin_leading(&mut core);
    }
    core
}

/// Whether the node of a file leads with an opening ledger that the first node signed.
#[tactic(auto, unfolding(gl_rules::specs::Identity::same))]
fn leads_at_opening(state: &Durable<LedgerLog>, me: &NodeId, opening: &OpeningLedger) -> bool
    requires { me.now ≡ node_of (seen_state state.now) }
    ensures { result ≡ leads_at_opening (service_start opening.now.ledger opening.now.first)
        (seen_state state.now) }
{
    match state.start {
        None => false,
        Some(leaves) => {
            state.reserved == leaves && !state.has_vote_record && *me == opening.first
        }
    }
}

/// The node of a file with an opening ledger, as it begins. Takes no memory.
fn opened_core(
    alloc: Global,
    state: &Durable<LedgerLog>,
    me: NodeId,
    key: LmsKey,
    opening: OpeningLedger,
    turn: ViewVote,
) -> Core<StoreBook>
    requires key { key ≡ key_of (seen_state state.now) }
    requires me { me ≡ node_of (seen_state state.now) }
    requires within { (seen_state state.now).reserved ≤ leaf_count (seen_state state.now) }
    requires turn { IsViewVoteOf (service_start opening.ledger opening.first) (seen_state state.now)
        turn }
    ensures stands { StandsForKey (seen_state state.now) result (λ b. node_at_opening b
        (service_start opening.ledger opening.first) (seen_state state.now)) }
    ensures snapshot { result.book.ledger.snapshot ≡ None }
{
    let leads = leads_at_opening(state, &me, &opening);
    prove!(opening.ledger.len() < 1 << 40);
    let seat = Seat {
        view: turn.view,
        vote: turn.vote,
        reserved: state.reserved,
    };
    let ledger = opening.ledger.into_ledger();
    leading_if(restarted(alloc, me, key, ledger, seat), leads)
}

impl<D: Disk + Drop> NodeFile<D> {
    /// The node of the file, as a restart leaves it: a follower of what the file keeps, behind its
    /// snapshot if it has one. One whose file keeps no ledger joins. Fails only where memory runs
    /// out, which it takes where there is no snapshot, and gives the disk back.
    pub fn reopen(self) -> Result<Replica<D, StoreBook>, (AllocError, D)>
        ensures stands { IfOk result (λ replica.
            StandsForFile self.state replica.core
            (λ b below. restarted_node b below self.state)) }
        ensures snapshot { IfOk result (λ replica.
            replica.core.book.ledger.snapshot ≡ self.state.snapshot) }
        ensures same { IfOk result (λ replica. replica.disk ≡ self.disk) }
        ensures serves { IfOk result (λ replica. replica.stopped ≡ None) }
        ensures err { IfErr result (λ e. e.1 ≡ self.disk) }
        ensures no_snapshot { IfErr result (λ e. self.state.snapshot ≡ None) }
    {
        let NodeFile {
            alloc,
            journal,
            state,
            key,
            me,
        } = self;
        let seat = Seat {
            view: state.view,
            vote: state.vote,
            reserved: state.reserved,
        };
        match state.log.into_ledger(alloc) {
            Ok(ledger) => Ok(Replica::new(restarted(alloc, me, key, ledger, seat), journal)),
            Err(error) => Err((error, journal.gated.disk)),
        }
    }

    /// The node of the file with the opening ledger whose frames the bytes are, one after the
    /// other. The file has no ledger, and keeps the opening one as one batch. The ledger is
    /// committed at the signature that opens the service. The node leads that signed it, where the
    /// file tells the start of a service, no leaf was spent since, and it keeps no vote; each other
    /// one follows. An error gives the disk back.
    pub fn begin(self, bytes: &[u8]) -> Result<Replica<D, StoreBook>, (OrNoMemory<OpeningFault>, D)>
        requires { has_ledger self.state ≡ false }

        ensures start { IfOk result (λ replica. IsOk (start_in bytes.now)) }
        ensures stands { (s : Start Item) → start_in bytes.now ≡ Ok s → IfOk result (λ replica.
            StandsForFile self.state replica.core (λ b below. node_at_opening b s self.state)) }
        ensures snapshot { IfOk result (λ replica. replica.core.book.ledger.snapshot ≡ None) }
        ensures serves { IfOk result (λ replica. replica.stopped ≡ None) }

        // The file keeps it then, whatever comes.
        ensures kept { IsTrue D.honest → (s : Start Item) → start_in bytes.now ≡ Ok s →
            IfOk result (λ replica.
            opened (D.bytes replica.disk) ≡ Ok (opened_state s self.state)) }
        ensures at_rest { IsTrue D.honest → (s : Start Item) → start_in bytes.now ≡ Ok s →
            IfOk result (λ replica. IsAtRest (D.bytes replica.disk) (D.past replica.disk)) }
        // At every moment each image that a stop may leave opens to the state before, or to this.
        ensures any_moment { IsTrue D.honest → (s : Start Item) → start_in bytes.now ≡ Ok s →
            IfOk result (λ replica.
            Leaves (OpensToOneOf goes_on_ledger self.state (opened_state s self.state))
            (D.past self.disk) (D.past replica.disk)) }
        ensures any_moment_err { IsTrue D.honest → (s : Start Item) → start_in bytes.now ≡ Ok s →
            IfErr result (λ e.
            Leaves (OpensToOneOf goes_on_ledger self.state (opened_state s self.state))
            (D.past self.disk) (D.past e.1)) }

        // It is refused exactly where the bytes are no opening ledger, or else where the batch is
        // too large.
        ensures not_opening { (seqno : ℕ) (back : D) →
            result ≡ Err (OrNoMemory.Fault (OpeningFault.NotOpening seqno), back) →
            start_in bytes.now ≡ Err seqno }
        ensures too_large { (size : ℕ) (back : D) →
            result ≡ Err (OrNoMemory.Fault (OpeningFault.TooLarge size), back) →
            IsTooLarge (start_in bytes.now) self.state size }
        ensures fits { (s : Start Item) → start_in bytes.now ≡ Ok s →
            IfOk result (λ replica. opening_size s self.state < 2 ^ 32) }
        ensures stays { IsTrue D.honest → (error : OrNoMemory OpeningFault) (back : D) →
            result ≡ Err (error, back) →
            error ≢ OrNoMemory.Fault (OpeningFault.Journal JournalFault.DiskFault) →
            (D.bytes back ≡ D.bytes self.disk) × (D.past back ≡ D.past self.disk) }

        ensures quiet { IfOk result (λ replica. D.faults replica.disk ≡ D.faults self.disk) }
        ensures disk_fault { (back : D) → result
            ≡ Err (OrNoMemory.Fault (OpeningFault.Journal JournalFault.DiskFault), back) →
            Rose (D.faults self.disk) (D.faults back) }
        // The disk is asked only once the bytes are read, and are an opening ledger.
        ensures opening_first { (back : D) → result
            ≡ Err (OrNoMemory.Fault (OpeningFault.Journal JournalFault.DiskFault), back) →
            IsOk (start_in bytes.now) }
        ensures no_disk_fault { (error : OrNoMemory OpeningFault) (back : D) →
            result ≡ Err (error, back) →
            error ≢ OrNoMemory.Fault (OpeningFault.Journal JournalFault.DiskFault) →
            D.faults back ≡ D.faults self.disk }
        ensures only { (fault : OpeningFault) (back : D) →
            result ≡ Err (OrNoMemory.Fault fault, back) → IsOfOpening fault }
    {
        let NodeFile {
            alloc,
            journal,
            state,
            key,
            me,
        } = self;
        let mut journal = journal;
        match keep_start(alloc, &mut journal, &state, &me, bytes) {
            Err(error) => Err((error, journal.gated.disk)),
            Ok((opening, turn)) => Ok(Replica::new(
                opened_core(alloc, &state, me, key, opening, turn),
                journal,
            )),
        }
    }
}
