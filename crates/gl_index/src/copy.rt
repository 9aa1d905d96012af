//! What holds memory of its own, once more. Each copy fails only where memory runs out.

ghost use Rattle.std.specs.Prelude.{◌≡◌, IfOk};

use std::alloc::{AllocError, Global};

/// What can be had once more, where there is memory for it.
pub trait Duplicate: Drop {
    /// The same once more.
    fn copy(&self, alloc: Global) -> Result<Self, AllocError>
        ensures { IfOk result (λ copy. copy ≡ self.now) };
}

/// All of a list once more.
pub fn copy_all<T: Duplicate>(alloc: Global, items: &[T]) -> Result<Vec<T>, AllocError>
    ensures { IfOk result (λ copy. copy.items ≡ items.now) }
{
    let mut out = Vec::new(alloc);
    for item in items {
        out.push(item.copy(alloc)?)?;
    }
    Ok(out)
}
