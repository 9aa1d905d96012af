//! Why a key file can't be begun or opened, or gives no leaf.

ghost use Rattle.std.specs.Prelude.{◌≡◌};
ghost use Rattle.gl_base.specs.declared.or_no_memory.OrNoMemory.TheVariants.{Fault};
ghost use Rattle.gl_keyfile.specs.declared.fault.KeyFileFault.TheVariants as faults;

use gl_base::OrNoMemory;
use gl_journal::{JournalFault, KeyKind};
use thiserror::Error;

/// Why a key file can't be begun or opened, or gives no leaf.
#[derive(Clone, Copy, Debug, PartialEq, Eq, Error)]
pub enum KeyFileFault {
    /// The file is no journal, or can't be kept.
    #[error("{0}")]
    Journal(JournalFault),
    /// The file has a key of another kind than the one that is wanted.
    #[error("the key is of the kind {got:?}, not {want:?}")]
    KeyKind { want: KeyKind, got: KeyKind },
    /// All leaves of the key are spent, so many as `reserved`: 2^h of RFC 8554, section 5.1.
    #[error("all {reserved} leaves of the key are spent")]
    KeyExhausted { reserved: u32 },
}

impl From<JournalFault> for KeyFileFault {
    ghost from_gives = { λ fault wider. wider ≡ faults.Journal fault };

    fn from(fault: JournalFault) -> KeyFileFault {
        KeyFileFault::Journal(fault)
    }
}

impl From<KeyFileFault> for OrNoMemory<KeyFileFault> {
    ghost from_gives = { λ fault e. e ≡ Fault fault };

    fn from(fault: KeyFileFault) -> OrNoMemory<KeyFileFault> {
        OrNoMemory::Fault(fault)
    }
}
