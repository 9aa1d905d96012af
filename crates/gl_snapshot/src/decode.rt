//! A snapshot read from bytes.

ghost use Rattle.std.specs.Prelude.{◌≡◌, ◌+◌, ◌^◌, ◌<◌, ◌≤◌, Ok, IfOk, length};
ghost use Rattle.gl_base.specs.Answers.{Answers};
ghost use Rattle.gl_gov_rules.specs.GovernedRows.{governed_rows};
ghost use Rattle.gl_snapshot.specs.Snapshot.{IsSnapshot, file_bytes};
ghost use Rattle.gl_snapshot.specs.Parsing.{part_at, snapshot_at, decoded};
ghost use Rattle.gl_snapshot.specs.declared.snapshot.Snapshot.{Snapshot as SnapshotValue};

use crate::body::{GovernedBody, fault_at, read_governed_body};
use crate::entry::read_evidence;
use crate::receipt::read_receipt_text;
use crate::snapshot::{GovernedSnapshot, Snapshot};
use gl_base::{CodeFault, Cut, OrNoMemory};
use gl_snapshot_body::{SNAPSHOT_LIMIT, ShapeFault};
use std::alloc::Global;

/// The longest that four bytes can tell.
pub(crate) const NO_LIMIT: u64 = 0xffff_ffff;

/// Reads the bytes of a part after their length, and gives the place of the length.
#[tactic(auto, using(gl_entry::proofs::Places::string_at_place), unfolding(crate::specs::Parsing::part_at))]
fn read_part<'a>(cut: &mut Cut<'a>, limit: u64) -> Result<(usize, &'a [u8]), OrNoMemory<ShapeFault>>
    ensures exact { Answers (λ part. (part.1.now, cut.new)) result (part_at limit cut.old) }
    ensures place { IfOk result (λ part. part.0 ≡ cut.old.at) }
    ensures within { IfOk result (λ part. part.0 + 4 + length part.1.now < 2 ^ 64) }
{
    match cut.bytes(32, limit) {
        Ok(bytes) => Ok((cut.at() - bytes.len() - 4, bytes)),
        Err(fault) => Err(OrNoMemory::Fault(ShapeFault::from(CodeFault::Cut(fault)))),
    }
}

#[tactic(auto, unfolding(crate::specs::Parsing::snapshot_at))]
fn read_parts(alloc: Global, cut: &mut Cut<'_>) -> Result<GovernedSnapshot, OrNoMemory<ShapeFault>>
    ensures exact { Answers (λ read. (read.snapshot, cut.new)) result (snapshot_at cut.old) }
    ensures governed { IfOk result (λ read.
        governed_rows read.snapshot.body.base read.snapshot.body.rows ≡ Ok read.governed) }
{
    let (place, bytes) = read_part(cut, SNAPSHOT_LIMIT)?;
    let GovernedBody { body, governed } = read_governed_body(alloc, place + 4, bytes)?;
    let (place, text) = read_part(cut, NO_LIMIT)?;
    let receipt = read_receipt_text(alloc, place, text)?;
    let (place, frame) = read_part(cut, NO_LIMIT)?;
    let entry = read_evidence(alloc, body.base, place, frame)?;
    let snapshot = Snapshot {
        body,
        receipt,
        entry,
    };
    Ok(GovernedSnapshot { snapshot, governed })
}

fn read_all(alloc: Global, bytes: &[u8]) -> Result<GovernedSnapshot, OrNoMemory<ShapeFault>>
    ensures exact { Answers (λ read. read.snapshot) result (decoded bytes.now) }
    ensures governed { IfOk result (λ read.
        governed_rows read.snapshot.body.base read.snapshot.body.rows ≡ Ok read.governed) }
{
    let mut cut = Cut::new(bytes);
    let read = read_parts(alloc, &mut cut)?;
    if !cut.rest().is_empty() {
        return Err(fault_at(cut.at()));
    }
    Ok(read)
}

impl Snapshot {
    /// The snapshot that is all of the bytes, with its rows of governance as values, or the place
    /// of the first fault from the left.
    pub fn decode(alloc: Global, bytes: &[u8]) -> Result<GovernedSnapshot, OrNoMemory<ShapeFault>>
        // What is read is encoded so.
        ensures found { IfOk result (λ read.
            IsSnapshot read.snapshot × (bytes.now ≡ file_bytes read.snapshot)) }
        // What is encoded so is read, unless memory runs out.
        ensures only { (s : SnapshotValue) → IsSnapshot s → bytes.now ≡ file_bytes s →
            Answers (λ read. read.snapshot) result (Ok s) }
        // Which fault it is.
        ensures exact { Answers (λ read. read.snapshot) result (decoded bytes.now) }
        // The rows are those of the body.
        ensures governed { IfOk result (λ read.
            governed_rows read.snapshot.body.base read.snapshot.body.rows ≡ Ok read.governed) }
    {
        read_all(alloc, bytes)
    }
}
