//! What a pass knows, and what the turns make.
ghost use Rattle.std.specs.Prelude.{List, []};

use std::collections::LinkedList;
use std::marker::Brand;
use std::snapshot::Snapshot;

/// Where a pass stands. No value of it is made.
pub enum Stage {
    /// It has no ticket.
    Idle,
    /// It waits for the turn of its ticket.
    Waits(u64),
    /// It is its ticket's turn.
    Turn(u64),
    /// Another pass took over what it knew.
    Spent,
}

/// What a pass knows. No value of it is made.
pub struct View<S, E> {
    /// The state that the trail begins with.
    pub start: Option<S>,
    /// The number that the trail begins with.
    pub first: u64,
    /// The trail, as far as it was seen.
    pub seen: LinkedList<E>,
    /// What was seen by the one of two joined passes that had seen less, until both are compared.
    pub less: LinkedList<E>,
    /// The places in the trail of what its own turns made, from 0.
    pub own: LinkedList<u64>,
    pub stage: Stage,
}

/// With what the trail begins.
#[derive(Drop)]
pub(crate) struct Key<S> {
    pub(crate) start: Snapshot<S>,
    pub(crate) first: u64,
}

/// What a turn made, for the proofs alone: a call at `Brand` picks it from its arguments.
pub(crate) trait Told<E> {
    ghost told: { List E };
}

impl<E> Told<E> for Brand {
    ghost told = { [] };
}
