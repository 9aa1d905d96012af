//! What a call answers that may run out of memory beside its faults.

ghost use Rattle.std.specs.Prelude.{◌≡◌};
ghost use Rattle.gl_base.specs.declared.or_no_memory.OrNoMemory.TheVariants.{NoMemory};

use crate::fault::CutFault;
use std::alloc::{AllocError, AllocFailed};
use std::error::Error;
use std::fmt;

/// Memory ran out, or a fault of this kind.
///
/// A crate that has faults of its own writes `impl From<ItsFault> for OrNoMemory<ItsFault>` beside
/// them, and `From<CutFault>` and `From<CodeFault>` for `ItsFault` where it reads fields: `?` then
/// goes from each of these, and from what an allocation answers, to `OrNoMemory<ItsFault>`. What
/// another crate's call answers becomes it by `map_err(OrNoMemory::widen)`.
#[derive(Clone, Copy, Debug, Drop, PartialEq, Eq)]
pub enum OrNoMemory<F> {
    /// Memory ran out. This may come at any time, and nothing is changed.
    NoMemory,
    Fault(F),
}

impl<F> OrNoMemory<F> {
    ghost use Rattle.gl_base.specs.Answers.{Widens};

    /// The same as a fault of a wider kind.
    pub fn widen<G: From<F>>(self) -> OrNoMemory<G>
        ensures { Widens G.from_gives self result }
    {
        match self {
            OrNoMemory::NoMemory => OrNoMemory::NoMemory,
            OrNoMemory::Fault(fault) => OrNoMemory::Fault(G::from(fault)),
        }
    }
}

impl<F: fmt::Display> fmt::Display for OrNoMemory<F> {
    fn fmt<W: fmt::Write>(&self, f: &mut fmt::Formatter<W>) -> fmt::Result {
        match self {
            OrNoMemory::NoMemory => write!(f, "out of memory"),
            OrNoMemory::Fault(fault) => write!(f, "{fault}"),
        }
    }
}

impl<F: fmt::Debug + fmt::Display + Drop> Error for OrNoMemory<F> {}

impl<F: Drop> From<AllocError> for OrNoMemory<F> {
    ghost from_gives = { λ _ e. e ≡ NoMemory };

    fn from(_e: AllocError) -> OrNoMemory<F> {
        OrNoMemory::NoMemory
    }
}

impl<T: Drop, F: Drop> From<AllocFailed<T>> for OrNoMemory<F> {
    ghost from_gives = { λ _ e. e ≡ NoMemory };

    fn from(_e: AllocFailed<T>) -> OrNoMemory<F> {
        OrNoMemory::NoMemory
    }
}

impl<F: From<CutFault> + Drop> From<CutFault> for OrNoMemory<F> {
    ghost use Rattle.gl_base.specs.Answers.{IsFault};

    ghost from_gives = { λ fault e. IsFault e (F.from_gives fault) };

    fn from(fault: CutFault) -> OrNoMemory<F> {
        OrNoMemory::Fault(F::from(fault))
    }
}
