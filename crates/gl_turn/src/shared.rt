//! A state that threads share, from its first day to its last.
ghost use Rattle.std.specs.Prelude.{◌≡◌, ◌≢◌, ◌∷◌, ℕ, List, [], Some, IfOk, IfErr};

use crate::pass::Pass;
use crate::view::{Key, View};
use atomic_table::{Refused, Table, TableRule};
use std::alloc::{AllocFailed, Global};
use std::snapshot::Snapshot;

// The words of the table: the next ticket to be drawn, the ticket whose turn it is, and how long
// the trail is, in its low 64 bits and from the first number on.
pub(crate) const TICKET: usize = 0;

pub(crate) const SERVING: usize = 1;

pub(crate) const COUNT: usize = 2;

/// A state that turns are taken on.
pub trait Stands: Drop {
    /// What a turn made, for the proofs alone.
    type Entry;

    // From a first number and a first state on, this trail ends in that state.
    ghost stands: { ℕ → Self → List Self.Entry → Self → Type 0 };
}

/// The rule that all passes keep.
pub(crate) struct Turns;

impl<S: Stands> TableRule<Option<S>, View<S, S::Entry>, Key<S>> for Turns {
    ghost use Rattle.gl_turn.specs.View.{newcomer};
    ghost use Rattle.gl_turn.specs.Lawful.{keeps_trail};

    ghost holds = { keeps_trail S.stands };

    ghost first = { λ key. newcomer key.start.value key.first };
}

/// A state that threads share, one turn at a time.
#[derive(Drop)]
pub struct Shared<S: Stands> {
    pub(crate) table: Table<Option<S>, View<S, S::Entry>, Key<S>, Turns, Global>,
    ghost sized: { (table.shared.table_id.words ≡ 3) × (table.shared.table_id.slots ≡ 1) },
}

/// A turn wasn't given back: the ticket whose turn it is, and the next one to be drawn.
#[derive(Clone, Copy, Debug, PartialEq, Eq)]
pub struct TurnOut {
    pub serving: u64,
    pub ticket: u64,
}

fn slot_of<S: Drop>(alloc: Global, state: S) -> Result<Vec<Option<S>>, S>
    ensures ok { IfOk result (λ slots. slots.items ≡ Some state ∷ []) }
    ensures back { IfErr result (λ x. x ≡ state) }
{
    let mut slots = Vec::new(alloc);
    match slots.push(Some(state)) {
        Ok(()) => Ok(slots),
        Err(AllocFailed { value: Some(state) }) => Err(state),
        Err(AllocFailed { value: None }) => unreachable!(),
    }
}

fn state_in<S: Drop>(mut slots: Vec<Option<S>>) -> S
    requires { (x : S) × (slots.items ≡ Some x ∷ []) }
    ensures { slots.items ≡ Some result ∷ [] }
{
    match slots.pop() {
        Some(Some(state)) => state,
        _ => unreachable!(),
    }
}

impl<S: Stands> Shared<S> {
    ghost use Rattle.gl_turn.specs.View.{IsKnown, newcomer};
    ghost use Rattle.gl_turn.specs.Lawful.{AtEnd, Ends};

    /// A state for threads to share, with the first pass. The trail begins with it.
    pub fn new(alloc: Global, state: S, first: u64) -> Result<(Shared<S>, Pass<S>), S>
        requires { S.stands first state [] state }
        ensures own { IfOk result (λ r. r.1.table_id ≡ r.0.table.shared.table_id) }
        ensures me { IfOk result (λ r. r.1.me ≡ (newcomer state first, [])) }
        ensures back { IfErr result (λ s. s ≡ state) }
    {
        let key = Key {
            start: Snapshot::of(&state),
            first,
        };
        let slots = slot_of(alloc, state)?;
        match Table::new(alloc, &[0, 0, first], slots, &key) {
            Ok((table, pass)) => Ok((Shared { table }, pass)),
            Err(Refused { slots }) => Err(state_in(slots)),
        }
    }

    /// The state, once all turns were given back.
    pub fn close(self, pass: Pass<S>) -> Result<S, TurnOut>
        requires own { pass.table_id ≡ self.table.shared.table_id }
        requires known { IsKnown pass.me }
        ensures state { IfOk result (λ x. Ends S.stands pass.me.0 x
            × ((n : ℕ) × AtEnd S.stands self.table.shared.key pass n n)) }
        ensures out { IfErr result (λ e.
            AtEnd S.stands self.table.shared.key pass e.serving e.ticket
            × (e.serving ≢ e.ticket)) }
    {
        let mut closed = self.table.close_with(pass);
        let (ticket, serving) = (closed.word(TICKET), closed.word(SERVING));
        let slot = closed.take(0);
        closed.free();
        if serving != ticket {
            return Err(TurnOut { serving, ticket });
        }
        match slot {
            Some(state) => Ok(state),
            None => unreachable!(),
        }
    }
}
