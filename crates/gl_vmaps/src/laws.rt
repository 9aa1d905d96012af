//! What holds of all tables at a base, as the contracts of functions that do nothing.

ghost use Rattle.std.specs.Prelude.{◌≡◌, ℕ, List, [], ◌++◌, IsTrue};
ghost use Rattle.gl_vmaps.specs.Kept.{Kept, versions_of, value_of, tables_of, count_of};
ghost use Rattle.gl_vmaps.specs.Rows.{row_writes, are_ascending, tables_with, rows_over, above, AreRowsOf, AreUpTo, AreAbove};
ghost use Rattle.gl_vmaps.specs.Standing.{versions_in};
ghost use Rattle.gl_vmaps.specs.Tables.{Tables, value_in, size_of, wrote_all};
ghost use Rattle.gl_vmaps.specs.Versions.{Placed, placed_at, written_by, version_in, map_version_in};
ghost use Rattle.gl_vmaps.specs.declared.row.Row.{Row};
ghost use Rattle.gl_vmaps.specs.declared.write.Write.{Write};

/// Tables at a base answer for every list of writes up to the base that makes their rows: values
/// and sizes are those of that list with the later writes, versions are the places above the base.
pub fn law_of_base()
    ensures values { (rows : List Row) (qs ps : List Placed) → AreRowsOf rows (written_by qs) →
        (map key : List ℕ) → value_in (written_by (qs ++ ps)) map key ≡
        value_in (written_by (placed_at 0 (row_writes rows) ++ ps)) map key }
    ensures sizes { (rows : List Row) (qs ps : List Placed) → AreRowsOf rows (written_by qs) →
        (map : List ℕ) → size_of (written_by (qs ++ ps)) map ≡
        size_of (written_by (placed_at 0 (row_writes rows) ++ ps)) map }
    ensures versions { (rows : List Row) (base : ℕ) (qs ps : List Placed) →
        AreUpTo base qs → AreAbove base ps →
        (map key : List ℕ) → version_in (above base (qs ++ ps)) map key ≡
        version_in (placed_at 0 (row_writes rows) ++ ps) map key }
    ensures map_versions { (rows : List Row) (base : ℕ) (qs ps : List Placed) →
        AreUpTo base qs → AreAbove base ps →
        (map : List ℕ) → map_version_in (above base (qs ++ ps)) map ≡
        map_version_in (placed_at 0 (row_writes rows) ++ ps) map }
{}

/// Tables at a base made of the rows of others answer as those do: values and sizes are the same.
/// And tables determine their rows: no two ascending lists are those of the same tables.
pub fn law_of_rows()
    ensures values { (cut fresh : Kept) (rows : List Row) → AreRowsOf rows (tables_of cut) →
        ((map key : List ℕ) → versions_of fresh map key ≡
        versions_in (placed_at 0 (row_writes rows)) map key) →
        (map key : List ℕ) → value_of fresh map key ≡ value_of cut map key }
    ensures sizes { (cut fresh : Kept) (rows : List Row) → AreRowsOf rows (tables_of cut) →
        ((map key : List ℕ) → versions_of fresh map key ≡
        versions_in (placed_at 0 (row_writes rows)) map key) →
        (map : List ℕ) → count_of fresh map ≡ count_of cut map }
    ensures determined { (rows others : List Row) (tables : Tables) →
        IsTrue (are_ascending rows) → IsTrue (are_ascending others) →
        AreRowsOf rows tables → AreRowsOf others tables → rows ≡ others }
{}

/// The rows that writes leave of rows in order are in order, and those of the tables that the
/// writes make of the tables with the rows. No writes leave the rows as they were, and writes one
/// after another leave what the later ones leave of the rows that the first left.
pub fn law_of_rows_over()
    ensures ascending { (rows : List Row) (ws : List Write) → IsTrue (are_ascending rows) →
        IsTrue (are_ascending (rows_over rows ws)) }
    ensures values { (rows : List Row) (ws : List Write) → IsTrue (are_ascending rows) →
        AreRowsOf (rows_over rows ws) (wrote_all (tables_with rows) ws) }
    ensures nothing { (rows : List Row) → rows_over rows [] ≡ rows }
    ensures append { (rows : List Row) (ws vs : List Write) → IsTrue (are_ascending rows) →
        rows_over rows (ws ++ vs) ≡ rows_over (rows_over rows ws) vs }
{}
