//! Parts of a snapshot, as whoever asks gets it one after the other.

ghost use Rattle.std.specs.Prelude.{◌≤◌, IfOk, IfSome, length};
ghost use Rattle.gl_base.specs.Bytes.{mebibyte};
ghost use Rattle.gl_answers.specs.Snapshots.{Gives};
ghost use Rattle.gl_replication.specs.Stands.{Reports};
ghost use Rattle.gl_rules.specs.Replication.{snapshot_of};

use crate::client_book::ClientBook;
use gl_base::Bytes;
use gl_replication::Core;
use std::alloc::AllocError;

/// A part of the bytes of a snapshot.
#[derive(Debug, Drop)]
pub struct Part {
    /// How many bytes the snapshot has.
    pub total: u64,
    /// Those from an offset on: 1 MiB, or all that are left.
    pub bytes: Bytes,
}

/// The part from an offset in bytes on of the snapshot that a node offers, if it offers one.
pub fn part_of_snapshot<B: ClientBook>(
    core: &Core<B>,
    offset: u64,
) -> Result<Option<Part>, AllocError>
    ensures part { IfOk result (λ part. Reports B.stands core.now
        (λ b x n. Gives n offset (snapshot_of b n) part)) }
    ensures sized { IfOk result (λ part. IfSome part (λ p. length p.bytes ≤ mebibyte)) }
{
    match core.snapshot_evidence() {
        None => Ok(None),
        Some(evidence) => core
            .book
            .snapshot_part(core.committed_len(), evidence, offset),
    }
}
