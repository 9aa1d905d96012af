//! A history that only clauses see.

ghost use Rattle.std.specs.Prelude.{◌≡◌, List, [], ◌∷◌, ◌++◌};
ghost use Rattle.std.specs.Borrow.{ftrue};

use std::marker::{Model, PhantomData};

/// What happened, in order. Only clauses read it: at run time it takes no memory and its methods do
/// nothing.
#[derive(Drop)]
pub struct History<T> {
    of: PhantomData<T>,
    pub ghost items: { List T },
}

impl<T> Model for History<T> {
    ghost also_owns = { λ _. ftrue };
}

impl<T> History<T> {
    /// Nothing has happened yet.
    pub fn new() -> History<T>
        ensures { result.items ≡ [] }
    {
        History { of: PhantomData }
    }

    /// With one thing more, the last so far.
    pub fn then(&self, next: &T) -> History<T>
        ensures { result.items ≡ self.now.items ++ next.now ∷ [] }
    {
        History { of: PhantomData }
    }
}
