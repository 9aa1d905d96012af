//! Tables over ordered maps: to each map its rows, to each row its versions.

ghost use Rattle.std.specs.Prelude.{◌≡◌, ◌≤◌, ◌<◌, ◌^◌, None, IsTrue, IfSome, length, reverse};
ghost use Rattle.std.specs.List.{last_or};
ghost use Rattle.std.specs.Option.{option_copied};
ghost use Rattle.gl_vmaps.specs.Name.{is_value};
ghost use Rattle.gl_vmaps.specs.Chains.{maps_by, rows_in, found_in, present};

use crate::journal::{
    Maps, Written, copy_journal, copy_maps, ends_above, maps_of_rows, newest_of, pop_last,
    push_writes, put_rows, settle_first, starts_up_to,
};
use crate::row::{KeptRows, RowSink, Rows};
use crate::table::Version;
use crate::write::Writes;
use std::alloc::{AllocError, Global};
use std::collections::{BTreeMap, VecDeque};
use std::marker::Model;

/// The tables that write sets at their places make: to each map's name its keys and values, and the
/// place that last wrote each key. A value or a version is found in the logarithm of the numbers of
/// maps and keys, a size and a map's version in that of the number of maps; a write set is applied,
/// and taken back, in the time of its writes.
#[derive(Debug, Drop)]
pub struct Tables {
    base: u64,
    compacted: u64,
    maps: Maps,
    journal: VecDeque<Written>,
    alloc: Global,
}

impl Model for Tables {
    ghost use Rattle.gl_vmaps.specs.Kept.{Kept, kept_code};

    ghost Value = { Kept };

    ghost coded = { kept_code };

    ghost use Rattle.std.specs.Prelude.{reverse};
    ghost use Rattle.gl_vmaps.specs.Chains.{maps_by};
    ghost use Rattle.gl_vmaps.specs.Journal.{IsTidy, AreNamed, IsJournal};

    ghost view = { λ t. record {
      base = t.base;
      compacted = t.compacted;
      maps = maps_by t.maps.entries;
    } };

    ghost invariant = { λ t. record {
      tidy : IsTidy (maps_by t.maps.entries);
      named : AreNamed (maps_by t.maps.entries);
      undone : IsJournal t.compacted (maps_by t.maps.entries) (reverse t.journal.items);
    } };
}

/// The last version of a row, if it has one.
fn last_version<'a>(maps: &'a Maps, map: &[u8], key: &[u8]) -> Option<&'a Version>
    ensures { option_copied result ≡
        last_or None (found_in (maps_by maps.now.entries) map.now key.now) }
{
    match maps.get(map) {
        None => None,
        Some(table) => table.last(key),
    }
}

/// The number of rows of a map that have a value.
fn count_in(maps: &Maps, map: &[u8]) -> u64
    ensures value { result ≡ present (rows_in (maps_by maps.now.entries) map.now) }
    ensures few { result < 2 ^ 63 }
{
    match maps.get(map) {
        None => 0,
        Some(table) => table.size(),
    }
}

/// The version's value, if it has one.
fn value_in(version: &Version) -> Option<&[u8]>
    ensures value { option_copied result ≡ version.now.value }
    ensures limit { IfSome result (λ value. IsTrue (is_value value.now)) }
{
    version.value.as_ref().map(|value| value.as_slice())
}

impl Tables {
    ghost use Rattle.std.specs.Prelude.{◌≡◌, ℕ, ◌<◌, ◌≤◌, ◌^◌, List, [], ◌++◌, IsTrue, IfSome, IfOk, OnOk, OnErr};
    ghost use Rattle.gl_vmaps.specs.Name.{is_value};
    ghost use Rattle.gl_vmaps.specs.Rows.{row_writes, are_ascending, tables_with, rows_over, AreRowsOf, HasPut};
    ghost use Rattle.gl_vmaps.specs.Kept.{Kept, versions_of, value_of, has_row, tables_of, count_of, version_of, map_version_of};
    ghost use Rattle.gl_vmaps.specs.Standing.{versions_in, value_up_to, StandsFor, HasApplied, HasCut, HasCompacted};
    ghost use Rattle.gl_vmaps.specs.Tables.{value_in, has_key, size_of};
    ghost use Rattle.gl_vmaps.specs.Versions.{Placed, placed_at, written_by, version_in, map_version_in, up_to, writes_up_to};
    ghost use Rattle.gl_vmaps.specs.declared.row.Row.{Row};

    /// Tables without a row.
    pub fn new(alloc: Global) -> Self
        ensures base { result.base ≡ 0 }
        ensures compacted { result.compacted ≡ 0 }
        ensures stands { StandsFor result [] }
    {
        Tables {
            base: 0,
            compacted: 0,
            maps: BTreeMap::new(alloc),
            journal: VecDeque::new(alloc),
            alloc,
        }
    }

    /// Tables that begin at a base, with these rows. Their versions are 0 until an entry writes
    /// them. Fails only where memory runs out.
    pub fn at_base(alloc: Global, base: u64, rows: Rows) -> Result<Self, AllocError>
        ensures base { IfOk result (λ tables. tables.base ≡ base) }
        ensures compacted { IfOk result (λ tables. tables.compacted ≡ base) }
        ensures rows { IfOk result (λ tables. (map key : List ℕ) → versions_of tables map key ≡
            versions_in (placed_at 0 (row_writes rows)) map key) }
        ensures stands { IfOk result (λ tables. StandsFor tables (placed_at 0 (row_writes rows))) }
    {
        Ok(Tables {
            base,
            compacted: base,
            maps: maps_of_rows(alloc, rows.into_vec())?,
            journal: VecDeque::new(alloc),
            alloc,
        })
    }

    /// The value of a key in a map, if the map has that key.
    pub fn get(&self, map: &[u8], key: &[u8]) -> Option<&[u8]>
        ensures value { option_copied result ≡ value_of self.now map.now key.now }
        ensures limit { IfSome result (λ value. IsTrue (is_value value.now)) }
        ensures stands { (ps : List Placed) → StandsFor self.now ps →
            option_copied result ≡ value_in (written_by ps) map.now key.now }
    {
        match last_version(&self.maps, map, key) {
            None => None,
            Some(version) => value_in(version),
        }
    }

    /// Whether the map has the key.
    pub fn has(&self, map: &[u8], key: &[u8]) -> bool
        ensures value { result ≡ has_row self.now map.now key.now }
        ensures stands { (ps : List Placed) → StandsFor self.now ps →
            result ≡ has_key (written_by ps) map.now key.now }
    {
        self.get(map, key).is_some()
    }

    /// The number of keys that the map has.
    pub fn size(&self, map: &[u8]) -> u64
        ensures value { result ≡ count_of self.now map.now }
        ensures few { result < 2 ^ 63 }
        ensures stands { (ps : List Placed) → StandsFor self.now ps →
            result ≡ size_of (written_by ps) map.now }
    {
        count_in(&self.maps, map)
    }

    /// The greatest place above the base whose write set names the key, 0 where none does.
    pub fn version_of(&self, map: &[u8], key: &[u8]) -> u64
        ensures value { result ≡ version_of self.now map.now key.now }
        ensures stands { (ps : List Placed) → StandsFor self.now ps →
            result ≡ version_in ps map.now key.now }
    {
        match last_version(&self.maps, map, key) {
            None => 0,
            Some(version) => version.place,
        }
    }

    /// The greatest version of the map's keys.
    pub fn map_version(&self, map: &[u8]) -> u64
        ensures value { result ≡ map_version_of self.now map.now }
        ensures stands { (ps : List Placed) → StandsFor self.now ps →
            result ≡ map_version_in ps map.now }
    {
        newest_of(&self.maps, map)
    }

    /// Applies the write set of the entry at a place, which is above the base and above all places
    /// so far. Running out of memory leaves the tables as they were.
    pub fn apply(&mut self, seqno: u64, writes: &Writes) -> Result<(), AllocError>
        requires base { self.old.base < seqno }
        requires above { (map key : List ℕ) → version_of self.old map key < seqno }
        ensures ok { OnOk result (HasApplied self.old seqno writes.now self.new) }
        ensures stands { OnOk result ((ps : List Placed) → StandsFor self.old ps →
            StandsFor self.new (ps ++ placed_at seqno writes.now)) }
        ensures err { OnErr result (self.new ≡ self.old) }
    {
        let writes = writes.as_slice();
        push_writes(self.alloc, &mut self.maps, &mut self.journal, seqno, writes)?;
        Ok(())
    }

    /// Takes back what the entries above a place wrote, which is not below the compacted one. Takes
    /// no memory.
    pub fn cut(&mut self, to: u64)
        requires { self.old.compacted ≤ to }
        ensures exact { HasCut self.old to self.new }
        ensures stands { (ps : List Placed) → StandsFor self.old ps →
            StandsFor self.new (up_to to ps) }
    {
        while ends_above(&self.journal, to) {
            pop_last(&mut self.maps, &mut self.journal);
        }
    }

    /// Lets go of what no cut above a place needs: of each row its versions at or below the place
    /// but for the last one. Takes no memory.
    pub fn compact(&mut self, to: u64)
        ensures exact { HasCompacted self.old to self.new }
        ensures stands { (ps : List Placed) → StandsFor self.old ps → StandsFor self.new ps }
    {
        while starts_up_to(&self.journal, to) {
            settle_first(&mut self.maps, &mut self.journal);
        }
        self.compacted = self.compacted.max(to);
    }

    /// Puts the rows after the entries up to a place, which is not below the compacted one, in
    /// their order. Takes no memory but what the sink takes, and fails only where the sink does.
    pub fn each_row<S: RowSink>(&self, to: u64, sink: &mut S) -> Result<(), AllocError>
        requires { self.now.compacted ≤ to }
        ensures value { OnOk result (HasPut (value_up_to self.now to)
            (λ rows. S.took sink.old rows sink.new)) }
        ensures cut { OnOk result ((cut : Kept) → HasCut self.now to cut →
            HasPut (value_in (tables_of cut)) (λ rows. S.took sink.old rows sink.new)) }
        ensures stands { OnOk result ((ps : List Placed) → StandsFor self.now ps →
            HasPut (value_in (written_by (up_to to ps))) (λ rows. S.took sink.old rows sink.new)) }
        ensures behind { OnOk result ((before : List Row) (ps : List Placed) →
            IsTrue (are_ascending before) →
            StandsFor self.now (placed_at 0 (row_writes before) ++ ps) →
            S.took sink.old (rows_over before (writes_up_to to ps)) sink.new) }
    {
        put_rows(sink, &self.maps, to)
    }

    /// The rows after the entries up to a place, which is not below the compacted one: what a
    /// snapshot at the place holds. Fails only where memory runs out.
    pub fn rows(&self, to: u64) -> Result<Rows, AllocError>
        requires { self.now.compacted ≤ to }
        ensures value { IfOk result (λ rows. (map key : List ℕ) →
            value_in (tables_with rows) map key ≡ value_up_to self.now to map key) }
        ensures cut { IfOk result (λ rows. (cut : Kept) → HasCut self.now to cut →
            AreRowsOf rows (tables_of cut)) }
        ensures stands { IfOk result (λ rows. (ps : List Placed) → StandsFor self.now ps →
            AreRowsOf rows (written_by (up_to to ps))) }
        ensures behind { IfOk result (λ rows. (before : List Row) (ps : List Placed) →
            IsTrue (are_ascending before) →
            StandsFor self.now (placed_at 0 (row_writes before) ++ ps) →
            rows ≡ rows_over before (writes_up_to to ps)) }
    {
        let mut kept = KeptRows {
            alloc: self.alloc,
            items: Vec::new(self.alloc),
        };
        self.each_row(to, &mut kept)?;
        Ok(Rows::of(kept.items))
    }

    /// Tables of their own with the same rows and versions. Fails only where memory runs out.
    pub fn copy(&self) -> Result<Self, AllocError>
        ensures { IfOk result (λ tables. tables ≡ self.now) }
    {
        Ok(Tables {
            base: self.base,
            compacted: self.compacted,
            maps: copy_maps(self.alloc, &self.maps)?,
            journal: copy_journal(self.alloc, &self.journal)?,
            alloc: self.alloc,
        })
    }
}
