//! What holds of the bytes of every body, as the contract of a function that does nothing.

ghost use Rattle.std.specs.Prelude.{◌≡◌, ◌++◌, ◌≤◌, ℕ, List, [], Ok, length, drop, true};
ghost use Rattle.std.specs.List.{flat_map};
ghost use Rattle.gl_base.specs.Bytes.{are_bytes};
ghost use Rattle.gl_snapshot_body.specs.Body.{row_bytes, body_bytes, row_place, is_body};
ghost use Rattle.gl_snapshot_body.specs.Parsing.{shape_of};
ghost use Rattle.gl_snapshot_body.specs.declared.body.Body.{Body};

/// The bytes of a body whose fields are in their ranges are read as that body. Bytes that are read
/// as a body are the bytes of it, and its fields are in their ranges: so a body has one spelling.
/// Fewer bytes than all of a body's are never read as one. Its rows stand at their places.
pub fn law_of_bodies()
    ensures read { (at : ℕ) (b : Body) → is_body b ≡ true → shape_of at (body_bytes b) ≡ Ok b }
    ensures only { (at : ℕ) (bytes : List ℕ) (b : Body) → are_bytes bytes ≡ true →
        shape_of at bytes ≡ Ok b → (is_body b ≡ true) × (bytes ≡ body_bytes b) }
    ensures whole { (at : ℕ) (prefix rest : List ℕ) (b c : Body) → is_body b ≡ true →
        are_bytes prefix ≡ true → prefix ++ rest ≡ body_bytes b → shape_of at prefix ≡ Ok c →
        rest ≡ [] }
    ensures places { (b : Body) (index : ℕ) → index ≤ length b.rows →
        drop (row_place 0 b index) (body_bytes b) ≡ flat_map row_bytes (drop index b.rows) }
{}
