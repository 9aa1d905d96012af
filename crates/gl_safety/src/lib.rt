//! What the rules of consensus promise of every run: laws, and no code; and a small ledger that has
//! all that they ask.
//!
//! Begin with the law `is_safe`: the rules of consensus are safe, whatever happens.
#![tactic(auto)]

pub mod small_book;

ghost use Rattle.std.specs.Prelude.{List, ℕ, ◌≡◌};
ghost use Rattle.gl_rules.specs.Book.{Book};
ghost use Rattle.gl_rules.specs.Identity.{NodeId};
ghost use Rattle.gl_rules.specs.Outcome.{Refusal, Refused};
ghost use Rattle.gl_rules.specs.World.{Event, Start, World, happens};
ghost use Rattle.gl_rules.specs.Safety.{EachFollows, IsRetiring, IsSafe, IsService, LeadersMayRecord, LeadsByVote, LeavesAll, NeverConflicts, RetiresSafely, node_at};
ghost use Rattle.gl_safety.specs.Made.{EachIs, OpenedOrMade};

/// The rules of consensus are safe, whatever happens in whatever order: timeouts, lost, repeated
/// and late messages, several configurations that are not yet committed, restarts and snapshots
/// among it.
pub fn is_safe<E, Q, G, R, A, F>()
    ensures safe { (book : Book E Q G R A F) (s : Start E) → IsService book s →
        (events : List (Event Q G R)) → IsSafe book (EachFollows book) s events }
    ensures elections { (book : Book E Q G R A F) (s : Start E) → IsService book s →
        (events : List (Event Q G R)) → LeadsByVote book s events }
    ensures no_conflict { (book : Book E Q G R A F) (s : Start E) → IsService book s →
        (events : List (Event Q G R)) → NeverConflicts book s events }
    ensures may_record { (book : Book E Q G R A F) (s : Start E) → IsService book s →
        (events : List (Event Q G R)) → LeadersMayRecord book s events }
    ensures retirement { (book : Book E Q G R A F) (s : Start E) → IsService book s →
        IsRetiring book (EachFollows book) →
        (events : List (Event Q G R)) → RetiresSafely book s events }
    ensures refused { (book : Book E Q G R A F) (w : World E) (event : Event Q G R) →
        (why : Refusal F) →
        (happens book w event).outcome ≡ Refused why → LeavesAll w (happens book w event).world }
    ensures made { (book : Book E Q G R A F) (s : Start E) →
        (events : List (Event Q G R)) → (i : ℕ) → (x : NodeId) →
        EachIs (OpenedOrMade book s) (node_at book s events i x).log }
{}
