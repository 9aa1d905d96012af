//! What the bytes of a ledger file encode, as the contract of a function that does nothing.

ghost use Rattle.std.specs.Prelude.{◌≡◌, ℕ, List, None, true};
ghost use Rattle.std.specs.List.{flat_map, list_all};
ghost use Rattle.gl_base.specs.Bytes.{are_bytes};
ghost use Rattle.gl_entry.specs.Entry.{frame_bytes, is_entry};
ghost use Rattle.gl_entry.specs.declared.entry.Entry.{Entry};
ghost use Rattle.gl_entry.specs.LedgerFile.{ledger_file, no_entries, with_entries};

/// The entries of a file are those that its bytes encode: each fits the format of entries; a file
/// in which no bytes are left over is the frames of its entries, one after the other, and nothing
/// else; and the frames of any such entries are a file with these entries.
pub fn law_of_ledger_files()
    ensures entries { (bytes : List ℕ) → are_bytes bytes ≡ true →
        list_all is_entry (ledger_file bytes).entries ≡ true }
    ensures encoded { (bytes : List ℕ) → are_bytes bytes ≡ true →
        (ledger_file bytes).fault ≡ None →
        flat_map frame_bytes (ledger_file bytes).entries ≡ bytes }
    ensures read { (ledger : List Entry) → list_all is_entry ledger ≡ true →
        ledger_file (flat_map frame_bytes ledger) ≡ with_entries ledger (no_entries None) }
{}
