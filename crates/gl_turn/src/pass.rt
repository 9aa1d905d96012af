//! A pass: what a thread knows of a shared state, and how passes are cut and joined.
ghost use Rattle.std.specs.Prelude.{◌≡◌, ◌≤◌, ◌++◌, ℕ, []};
ghost use Rattle.gl_turn.specs.View.{IsIdle, IsKnown, IsPrefix, IsSamePass, heir, joined, longer, shorter, times};

use crate::shared::{Shared, Stands, TICKET};
use crate::steps::{Cut, Learn, Merge};
use crate::view::View;
use atomic_table::Seat;

/// What a thread knows of a shared state. It has no bytes.
pub type Pass<S> = Seat<Option<S>, View<S, <S as Stands>::Entry>>;

impl<S: Stands> Shared<S> {
    /// A pass for another thread, which has seen what this one has and made nothing yet.
    pub fn split(&self, pass: &mut Pass<S>) -> Pass<S>
        requires own { pass.old.table_id ≡ self.now.table.shared.table_id }
        requires known { IsKnown pass.old.me }
        ensures pass { IsSamePass pass.old pass.new × (pass.new.me ≡ pass.old.me) }
        ensures new { (result.table_id ≡ pass.old.table_id)
            × (result.me ≡ (heir pass.old.me.0, [])) }
    {
        self.table.shared.split_seat::<Cut>(pass)
    }

    /// Takes over what another pass has seen and made.
    pub fn join(&self, pass: &mut Pass<S>, other: Pass<S>)
        requires own { (pass.old.table_id ≡ self.now.table.shared.table_id)
            × (other.table_id ≡ self.now.table.shared.table_id) }
        requires idle { IsIdle pass.old.me × IsIdle other.me }
        ensures both { IsSamePass pass.old pass.new
            × (pass.new.me ≡ (joined pass.old.me.0 other.me.0, [])) }
        ensures begins { IsPrefix (shorter pass.old.me.0.seen other.me.0.seen)
            (longer pass.old.me.0.seen other.me.0.seen) }
        ensures once { (p : ℕ) → times p (pass.old.me.0.own ++ other.me.0.own) ≤ 1 }
    {
        self.table.shared.join_seat::<Merge>(pass, other);
        self.table.shared.load::<Learn>(pass, TICKET);
    }
}
