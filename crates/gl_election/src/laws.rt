//! What holds of elections and the rules of consensus, as the contract of a function that does
//! nothing.

ghost use Rattle.std.specs.Prelude.{◌≡◌, ℕ, Bool};
ghost use Rattle.gl_base.specs.declared.tx_id.TxId.{TxId};
ghost use Rattle.gl_entry.specs.declared.entry.Entry.{Entry};
ghost use Rattle.gl_rules.specs.Identity.{NodeId};
ghost use Rattle.gl_rules.specs.Book.{Book};
ghost use Rattle.gl_rules.specs.Node.{Node};
ghost use Rattle.gl_rules.specs.Message.{RequestVote, VoteReply, ProposeVote};
ghost use Rattle.gl_rules.specs.Log.{signed_prefix};
ghost use Rattle.gl_rules.specs.Configuration.{active, others};
ghost use Rattle.gl_rules.specs.Elections.{timeout, step_down};
ghost use Rattle.gl_rules.specs.World.{on_message};
ghost use Rattle.gl_election.specs.declared.peer.Peer.{Peer};
ghost use Rattle.gl_election.specs.Elections.{position, at_timeout, at_request_vote, at_vote_reply, at_propose_vote, at_step_down};
ghost use Rattle.gl_election.specs.Bridge.{IsPeerOf, message_to, signed, last_of, step_of};

/// The rules of elections are what their turns make of a node's peer, over any ledger book: a
/// timeout, the three deliveries of an election, and a leader that steps down. The log is cut where
/// the view rises, and a new leader begins after it.
pub fn law_of_elections<Q, G, R, A, F>()
    ensures timeout { (book : Book Entry Q G R A F) (x : NodeId) (p : Peer) (n : Node Entry) →
        IsPeerOf p n → timeout book x n ≡ step_of book (at_timeout x (last_of book n)
        (active book (signed_prefix book n.log) n.commit) (others book x (signed book n)) p) n }
    ensures request_vote { (book : Book Entry Q G R A F) (x y : NodeId) (view : ℕ) (theirs : TxId) →
        (p : Peer) (n : Node Entry) → IsPeerOf p n →
        on_message book (message_to x y view (RequestVote (position theirs))) n
        ≡ step_of book (at_request_vote x (last_of book n) y view theirs p) n }
    ensures vote_reply { (book : Book Entry Q G R A F) (x y : NodeId) (view : ℕ) (granted : Bool) →
        (p : Peer) (n : Node Entry) → IsPeerOf p n →
        on_message book (message_to x y view (VoteReply granted)) n
        ≡ step_of book (at_vote_reply (active book n.log n.commit) y view granted p) n }
    ensures propose_vote { (book : Book Entry Q G R A F) (x y : NodeId) (view : ℕ) (p : Peer) →
        (n : Node Entry) → IsPeerOf p n →
        on_message book (message_to x y view ProposeVote) n
        ≡ step_of book (at_propose_vote x (last_of book n)
        (active book (signed_prefix book n.log) n.commit)
        (others book x (signed book n)) view p) n }
    ensures step_down { (book : Book Entry Q G R A F) (x y : NodeId) (p : Peer) (n : Node Entry) →
        IsPeerOf p n →
        step_down book x y n ≡ step_of book (at_step_down x (active book n.log n.commit) y p) n }
{}
