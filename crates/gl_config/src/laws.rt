//! What holds of the configurations of every ledger, as the contract of a function that does
//! nothing.

ghost use Rattle.std.specs.Prelude.{◌≡◌, ℕ, ◌≤◌, ◌<◌, List, length, take, AllPairs};
ghost use Rattle.gl_rules.specs.Book.{Book};
ghost use Rattle.gl_rules.specs.Configuration.{active, active_upto};
ghost use Rattle.gl_config.specs.Active.{active_of, sets_of, upto, configurations_of};

/// The active configurations of the rules are read off the list of a ledger's configurations, which
/// is in the order of their seqnos. A ledger that is cut has those at or below the cut.
pub fn law_of_configurations<E, Q, G, R, A, F>()
    ensures ascending { (book : Book E Q G R A F) (log : List E) →
        AllPairs (λ c d. c.seqno < d.seqno) (configurations_of book log) }
    ensures active { (book : Book E Q G R A F) (log : List E) (commit : ℕ) → commit ≤ length log →
        sets_of (active_of (configurations_of book log) commit) ≡ active book log commit }
    ensures active_upto { (book : Book E Q G R A F) (log : List E) (commit seqno : ℕ) →
        commit ≤ seqno → seqno ≤ length log →
        sets_of (upto seqno (active_of (configurations_of book log) commit))
        ≡ active_upto book log commit seqno }
    ensures cut { (book : Book E Q G R A F) (log : List E) (seqno : ℕ) → seqno ≤ length log →
        configurations_of book (take seqno log) ≡ upto seqno (configurations_of book log) }
{}
