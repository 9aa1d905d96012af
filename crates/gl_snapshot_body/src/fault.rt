//! Why bytes are not the body of a snapshot.

ghost use Rattle.std.specs.Prelude.{◌≡◌};
ghost use Rattle.gl_base.specs.declared.or_no_memory.OrNoMemory.TheVariants.{Fault};
ghost use Rattle.gl_snapshot_body.specs.Parsing.{place_of};

use gl_base::{CodeFault, CutFault, OrNoMemory};
use thiserror::Error;

/// Bytes are no body: the first fault from the left stands at `at`, counted on from the place of
/// the first byte.
#[derive(Clone, Copy, Debug, PartialEq, Eq, Error)]
#[error("the body has a fault at {at}")]
pub struct ShapeFault {
    pub at: usize,
}

impl From<CodeFault> for ShapeFault {
    ghost from_gives = { λ fault shape. shape ≡ record { at = place_of fault } };

    fn from(fault: CodeFault) -> ShapeFault {
        let at = match fault {
            CodeFault::Cut(CutFault::Short { at })
            | CodeFault::Cut(CutFault::TooLong { at, .. })
            | CodeFault::Cut(CutFault::NotText { at })
            | CodeFault::Trailing { at }
            | CodeFault::Value { at } => at,
        };
        ShapeFault { at }
    }
}
