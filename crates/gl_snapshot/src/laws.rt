//! What holds of the bytes of every snapshot, as the contract of a function that does nothing.

ghost use Rattle.std.specs.Prelude.{◌≡◌, ℕ, List, Ok, true};
ghost use Rattle.gl_base.specs.Bytes.{are_bytes};
ghost use Rattle.gl_snapshot.specs.Snapshot.{IsSnapshot, file_bytes};
ghost use Rattle.gl_snapshot.specs.Parsing.{decoded};
ghost use Rattle.gl_snapshot.specs.declared.snapshot.Snapshot.{Snapshot};

/// The bytes of a snapshot are read as that snapshot. Bytes that are read as a snapshot are the
/// bytes of it: so a snapshot has one spelling.
pub fn law_of_snapshots()
    ensures read { (s : Snapshot) → IsSnapshot s → decoded (file_bytes s) ≡ Ok s }
    ensures only { (bytes : List ℕ) (s : Snapshot) → are_bytes bytes ≡ true →
        decoded bytes ≡ Ok s → IsSnapshot s × (bytes ≡ file_bytes s) }
{}
