//! What stands in the way of an attempt that finishes.

ghost use Rattle.std.specs.Prelude.{◌≡◌};
ghost use Rattle.gl_base.specs.declared.or_no_memory.OrNoMemory.TheVariants.{Fault};
ghost use Rattle.gl_attempt.specs.declared.conflict.TxFault.TheVariants.{Aborted};

use crate::notes::{Note, Reads};
use gl_base::{Bytes, OrNoMemory};
use gl_tx::Abort;
use gl_vmaps::Tables;
use std::alloc::{AllocError, Global};
use thiserror::Error;

/// A key that was read has been written since.
#[derive(Debug, Drop, Error)]
#[error("what was read at length {began} was written at {changed}")]
pub struct Conflict {
    /// The key, or the name of the map where the number of a map's keys was read.
    pub key: Bytes,
    /// The length of the ledger when the attempt began.
    pub began: u64,
    /// The place that wrote the key last.
    pub changed: u64,
}

/// Entries have been cut away since.
#[derive(Clone, Copy, Debug, PartialEq, Eq, Error)]
#[error("entries were cut away: {seen} cuts, and now {now}")]
pub struct RolledBack {
    /// The count of cuts when the attempt began.
    pub seen: u64,
    /// The count of cuts now.
    pub now: u64,
}

/// Why an attempt did not finish. Nothing was written.
#[derive(Debug, Drop, Error)]
pub enum TxFault {
    #[error("{0}")]
    Conflict(Conflict),
    #[error("{0}")]
    RolledBack(RolledBack),
    /// An operation failed.
    #[error("{0}")]
    Aborted(Abort),
}

impl From<Abort> for TxFault {
    ghost from_gives = { λ abort fault. fault ≡ Aborted abort };

    fn from(abort: Abort) -> TxFault {
        TxFault::Aborted(abort)
    }
}

impl From<TxFault> for OrNoMemory<TxFault> {
    ghost from_gives = { λ fault e. e ≡ Fault fault };

    fn from(fault: TxFault) -> OrNoMemory<TxFault> {
        OrNoMemory::Fault(fault)
    }
}

impl RolledBack {
    ghost use Rattle.std.specs.Prelude.{◌≡◌, None, Some, if◌then◌else◌};
    ghost use Rattle.gl_attempt.specs.Attempt.{is_rolled_back, rolled_back_between};

    /// Whether entries were cut away between two counts of cuts. At its last value a count tells
    /// nothing, as it stays there.
    pub fn between(seen: u64, now: u64) -> Option<Self>
        ensures { result ≡
            (if is_rolled_back seen now then Some (rolled_back_between seen now) else None) }
    {
        if seen != now || now == u64::MAX {
            Some(RolledBack { seen, now })
        } else {
            None
        }
    }
}

impl Note {
    ghost use Rattle.std.specs.Prelude.{◌≡◌};
    ghost use Rattle.gl_attempt.specs.Attempt.{versioned_of, changed_at, key_read};

    /// Which place last wrote what the note is of, 0 where none did.
    fn changed_at(&self, tables: &Tables) -> u64
        ensures { result ≡ changed_at (versioned_of tables.now) self.now }
    {
        match self {
            Note::Row { map, key, .. } => tables.version_of(map.as_slice(), key.as_slice()),
            Note::Map { map, .. } => tables.map_version(map.as_slice()),
        }
    }

    /// The note's key, or the name of its map where a map was read.
    fn key(&self) -> &[u8]
        ensures { result.now ≡ key_read self.now }
    {
        match self {
            Note::Row { key, .. } => key.as_slice(),
            Note::Map { map, .. } => map.as_slice(),
        }
    }
}

impl Reads {
    ghost use Rattle.std.specs.Prelude.{◌≡◌, IfOk};
    ghost use Rattle.gl_attempt.specs.Attempt.{versioned_of, conflict_of};

    /// The first that was written above a length of the ledger, if one was.
    pub fn conflict(
        &self,
        alloc: Global,
        began: u64,
        tables: &Tables,
    ) -> Result<Option<Conflict>, AllocError>
        ensures { IfOk result (λ conflict.
            conflict ≡ conflict_of began (versioned_of tables.now) self.now) }
    {
        for note in self.as_slice() {
            let changed = note.changed_at(tables);
            if began < changed {
                return Ok(Some(Conflict {
                    key: Bytes::from(Vec::from_slice(alloc, note.key())?),
                    began,
                    changed,
                }));
            }
        }
        Ok(None)
    }
}
