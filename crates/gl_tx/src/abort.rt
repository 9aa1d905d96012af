//! Why a request is aborted.

ghost use Rattle.std.specs.Prelude.{◌≡◌};
ghost use Rattle.gl_base.specs.declared.or_no_memory.OrNoMemory.TheVariants.{Fault};

use gl_base::OrNoMemory;
use thiserror::Error;

/// Why an operation fails.
#[derive(Clone, Copy, Debug, PartialEq, Eq, Error)]
pub enum Cause {
    /// A map's name doesn't begin with `public:`.
    #[error("a map is not public")]
    NotPublic,
    /// A map is a table of governance, `public:ccf.gov.`, or of the service itself,
    /// `public:ccf.internal.` (CCF documentation, "Builtin Maps").
    #[error("a map is reserved")]
    Reserved,
    /// The value that is to be added to has not 8 bytes.
    #[error("the value is no number of 8 bytes")]
    NotNumber,
    /// The sum passes 64 bits.
    #[error("the sum passes 64 bits")]
    Overflow,
    /// The key has another value than the one that is expected.
    #[error("the key has another value")]
    Check,
    /// The value that is to be followed is no key: it has no byte, or more than 1,024.
    #[error("the value is no key")]
    BadKey,
}

impl Cause {
    ghost use Rattle.std.specs.Prelude.{◌≡◌};
    ghost use Rattle.gl_tx.specs.Abort.{number_of};

    /// The number by which a program tells the cause, from 1.
    pub fn number(self) -> u8
        ensures { result ≡ number_of self }
    {
        match self {
            Cause::NotPublic => 1,
            Cause::Reserved => 2,
            Cause::NotNumber => 3,
            Cause::Overflow => 4,
            Cause::Check => 5,
            Cause::BadKey => 6,
        }
    }
}

/// The first operation of a request that failed. The whole request then writes nothing.
#[derive(Clone, Copy, Debug, PartialEq, Eq, Error)]
#[error("operation {operation}: {cause}")]
pub struct Abort {
    /// Which operation it is, counted from 1.
    pub operation: u8,
    /// Why it failed.
    pub cause: Cause,
}

impl From<Cause> for OrNoMemory<Cause> {
    ghost from_gives = { λ cause e. e ≡ Fault cause };

    fn from(cause: Cause) -> OrNoMemory<Cause> {
        OrNoMemory::Fault(cause)
    }
}

impl From<Abort> for OrNoMemory<Abort> {
    ghost from_gives = { λ abort e. e ≡ Fault abort };

    fn from(abort: Abort) -> OrNoMemory<Abort> {
        OrNoMemory::Fault(abort)
    }
}
