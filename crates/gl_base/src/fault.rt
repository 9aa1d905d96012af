//! Why bytes are not the encoding of a value.

ghost use Rattle.std.specs.Prelude.{◌≡◌};
ghost use Rattle.gl_base.specs.declared.fault.CodeFault.TheVariants.{Cut};

use crate::or_no_memory::OrNoMemory;
use thiserror::Error;

/// Why a field could not be read. A place is counted from the first of all the bytes, from 0.
#[derive(Clone, Copy, Debug, PartialEq, Eq, Error)]
pub enum CutFault {
    /// The bytes end at `at`, before the field does.
    #[error("the bytes end at {at}")]
    Short { at: usize },
    /// The length that begins at `at` is above its limit.
    #[error("the length {len} at {at} is above its limit")]
    TooLong { at: usize, len: u64 },
    /// The byte at `at` is no visible ASCII character.
    #[error("the byte at {at} is not text")]
    NotText { at: usize },
}

/// Why bytes are not the encoding of a value: the first fault from the left. A place is counted
/// from the first of all the bytes, from 0.
#[derive(Clone, Copy, Debug, PartialEq, Eq, Error)]
pub enum CodeFault {
    /// A field could not be read.
    #[error("a field could not be read")]
    Cut(CutFault),
    /// Bytes are left over after the value; the first of them stands at `at`.
    #[error("bytes are left over from {at} on")]
    Trailing { at: usize },
    /// What the field that begins at `at` holds is not allowed there: a count or a tag out of its
    /// range, or a length below its least.
    #[error("the field at {at} holds what is not allowed")]
    Value { at: usize },
}

impl From<CutFault> for CodeFault {
    ghost from_gives = { λ fault code. code ≡ Cut fault };

    fn from(fault: CutFault) -> CodeFault {
        CodeFault::Cut(fault)
    }
}

impl<F: From<CodeFault> + Drop> From<CodeFault> for OrNoMemory<F> {
    ghost use Rattle.gl_base.specs.Answers.{IsFault};

    ghost from_gives = { λ fault e. IsFault e (F.from_gives fault) };

    fn from(fault: CodeFault) -> OrNoMemory<F> {
        OrNoMemory::Fault(F::from(fault))
    }
}
