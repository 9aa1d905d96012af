//! A turn: the state, and what was made in it.
ghost use Rattle.std.specs.Prelude.{◌≡◌, ◌++◌, ℕ, [], IfSome, IfNone};
ghost use types.Logic.{sem};
ghost use Rattle.gl_turn.specs.View.{HasState, IsIdle, IsSamePass, StandsFor, Takes, in_stage, raised};
ghost use Rattle.gl_turn.specs.declared.view.Stage.TheVariants.{Idle, Waits};

use crate::pass::Pass;
use crate::shared::{COUNT, SERVING, Shared, Stands, TICKET};
use crate::steps::{Count, Draw, HandOn, Look};
use crate::view::Told;
use std::marker::Brand;
use std::sync::Wait;
use std::thread;

impl<S: Stands> Shared<S> {
    // At the ticket's last value it doesn't return.
    fn draw<R: Wait>(&self, rt: &R, pass: &mut Pass<S>) -> u64
        requires own { pass.old.table_id ≡ self.now.table.shared.table_id }
        requires idle { IsIdle pass.old.me }
        ensures pass { IsSamePass pass.old pass.new }
        ensures ticket { pass.new.me ≡ (in_stage (Waits result) pass.old.me.0, []) }
    {
        let table = &self.table.shared;
        for _ in rt.forever() {
            let ticket = table.peek(TICKET);
            if ticket < u64::MAX {
                let found = table.compare_exchange::<Draw>(pass, TICKET, ticket, ticket + 1);
                if found == ticket {
                    return ticket;
                }
            }
            thread::yield_now();
        }
        unreachable!()
    }

    // The state, where it is the ticket's turn.
    fn look(&self, pass: &mut Pass<S>, ticket: u64) -> Option<S>
        requires own { pass.old.table_id ≡ self.now.table.shared.table_id }
        requires waits { (pass.old.me.0.stage ≡ Waits ticket) × (pass.old.me.1 ≡ []) }
        ensures pass { IsSamePass pass.old pass.new }
        ensures some { IfSome result (λ x. Takes S.stands pass.old.me x pass.new.me) }
        ensures none { IfNone result (pass.new.me ≡ pass.old.me) }
    {
        let table = &self.table.shared;
        if table.load::<Look<S>>(pass, SERVING) != ticket {
            return None;
        }
        table.exchange(pass, 0, None)
    }

    /// Waits for its turn, and takes the state.
    pub fn take<R: Wait>(&self, rt: &R, pass: &mut Pass<S>) -> S
        requires own { pass.old.table_id ≡ self.now.table.shared.table_id }
        requires idle { IsIdle pass.old.me }
        ensures pass { IsSamePass pass.old pass.new }
        ensures turn { Takes S.stands pass.old.me result pass.new.me }
    {
        let ticket = self.draw(rt, pass);
        for _ in rt.forever() {
            let serving = self.table.shared.peek(SERVING);
            if let Some(state) = self.look(pass, ticket) {
                return state;
            }
            self.table
                .shared
                .park(rt, SERVING, (serving % (1 << 32)) as u32);
        }
        unreachable!()
    }

    fn count<M: Told<S::Entry>>(&self, pass: &mut Pass<S>, state: &S, made: &[S::Entry])
        requires own { pass.old.table_id ≡ self.now.table.shared.table_id }
        requires turn { HasState pass.old.me }
        requires told { M.told ≡ made.now }
        requires stands { StandsFor S.stands pass.old.me.0
            (pass.old.me.0.seen ++ made.now) state.now }
        ensures pass { IsSamePass pass.old pass.new }
        ensures seen { pass.new.me ≡ (raised made.now pass.old.me.0, pass.old.me.1) }
    {
        self.table
            .shared
            .fetch_add::<Count<M>>(pass, COUNT, made.len() as u64);
    }

    /// Gives the state back, with what the turn made.
    pub fn give(&self, pass: &mut Pass<S>, state: S, made: &[S::Entry])
        requires own { pass.old.table_id ≡ self.now.table.shared.table_id }
        requires turn { HasState pass.old.me }
        requires stands { StandsFor S.stands pass.old.me.0 (pass.old.me.0.seen ++ made.now) state }
        ensures pass { IsSamePass pass.old pass.new }
        ensures seen { pass.new.me ≡ (in_stage Idle (raised made.now pass.old.me.0), []) }
    {
        self.count::<Brand>(pass, &state, made);
        self.table.shared.exchange(pass, 0, Some(state));
        self.table.shared.fetch_add::<HandOn>(pass, SERVING, 1);
        self.table.shared.wake_all(SERVING);
    }
}

/// The state, in the turn of a pass. Dropped without `give`, the turn is never given back.
#[derive(Drop)]
pub struct Turn<'a, S: Stands> {
    shared: &'a Shared<S>,
    pass: &'a mut Pass<S>,
    state: S,
    ghost own: { pass.now.table_id ≡ shared.now.table.shared.table_id },
}

impl<'a, S: Stands> Turn<'a, S> {
    ghost use Rattle.gl_turn.specs.Lends.{LendsState};

    /// Waits for the turn of the pass.
    pub fn take<R: Wait>(shared: &'a Shared<S>, rt: &R, pass: &'a mut Pass<S>) -> Turn<'a, S>
        requires own { pass.old.table_id ≡ shared.now.table.shared.table_id }
        requires idle { IsIdle pass.old.me }
        ensures same_pass { (result.pass.ghost_name ≡ pass.entry.ghost_name)
            × (result.shared.now ≡ shared.now) }
        ensures pass { IsSamePass pass.old result.pass.now }
        ensures turn { Takes S.stands pass.old.me result.state result.pass.now.me }
    {
        let state = shared.take(rt, pass);
        Turn {
            shared,
            pass,
            state,
        }
    }

    /// The state, to read and to change.
    pub fn state(&mut self) -> &mut S
        ensures* writes_back { sem 𝓛
            (LendsState S.row S.Entry.row ⟦<S as Stands>⟧ self.entry result) }
        ensures value { result.now ≡ self.old.state }
    {
        &mut self.state
    }

    /// Gives the state back, with what the turn made.
    pub fn give(self, made: &[S::Entry])
        requires turn { HasState self.pass.now.me }
        requires stands { StandsFor S.stands self.pass.now.me.0
            (self.pass.now.me.0.seen ++ made.now) self.state }
        ensures pass { IsSamePass self.entry.pass.now self.exit.1.0.now }
        ensures seen { self.exit.1.0.now.me
            ≡ (in_stage Idle (raised made.now self.entry.pass.now.me.0), []) }
    {
        let Turn {
            shared,
            pass,
            state,
        } = self;
        shared.give(pass, state, made);
    }

    /// Keeps the state: the turn is never given back.
    pub fn into_state(self) -> S
        ensures state { (result ≡ self.entry.state) × (self.exit.1.0.now ≡ self.entry.pass.now) }
    {
        let Turn { state, .. } = self;
        state
    }
}
