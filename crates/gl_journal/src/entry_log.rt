//! The entries of a ledger, as the records of a journal build them.

ghost use Rattle.std.specs.Prelude.{◌≡◌, ◌≤◌, ℕ, true, false, List, [], ◌∷◌, ◌++◌, length, take, Option, None, Some, Ok, IfOk};
ghost use Rattle.gl_journal.specs.Durable.{LogRules};
ghost use Rattle.gl_journal.specs.declared.installed.Installed.{Installed};

use crate::installed::Installed;
use std::alloc::{AllocError, Global};

/// The entries of a ledger from its base on. It says which frames go on it, and which bytes are a
/// snapshot's body: a store takes those that break no rule of the ledger, a `FrameLog` takes every
/// entry's and no snapshot.
pub trait EntryLog: Drop {
    // What it lets in.
    ghost goes_on: { LogRules };

    // The body of the snapshot that stands for the entries before its own, where there is one.
    ghost snapshot: { Self → Option (List ℕ) };

    // The frames of its entries.
    ghost frames: { Self → List (List ℕ) };

    /// No entry.
    fn new(alloc: Global) -> Self
        ensures none { frames result ≡ [] }
        ensures no_snapshot { snapshot result ≡ None };

    /// How many entries there are.
    fn len(&self) -> u64
        ensures { result ≡ length (frames self.now) };

    /// Adds the entry of a frame, and answers whether it goes on those before it.
    fn push(&mut self, alloc: Global, frame: &[u8]) -> Result<bool, AllocError>
        ensures added { result ≡ Ok true →
            (goes_on.appends (snapshot self.old) (frames self.old) frame.now ≡ true)
            × (frames self.new ≡ frames self.old ++ frame.now ∷ []) }
        ensures same { result ≡ Ok true → snapshot self.new ≡ snapshot self.old }
        ensures refused { result ≡ Ok false →
            goes_on.appends (snapshot self.old) (frames self.old) frame.now ≡ false };

    /// Takes away all entries but the first `len`.
    fn cut(&mut self, len: u64)
        requires { len ≤ length (frames self.old) }
        ensures kept { frames self.new ≡ take len (frames self.old) }
        ensures same { snapshot self.new ≡ snapshot self.old };

    /// Puts a snapshot's body before its entries, of which there are none yet, and answers what
    /// the body tells, where the bytes are one.
    fn install(&mut self, alloc: Global, body: &[u8]) -> Result<Option<Installed>, AllocError>
        requires { frames self.old ≡ [] }
        ensures told { IfOk result (λ found. found ≡ goes_on.installs body.now) }
        ensures installed { (at : Installed) → result ≡ Ok (Some at) →
            (frames self.new ≡ []) × (snapshot self.new ≡ Some body.now) };
}
