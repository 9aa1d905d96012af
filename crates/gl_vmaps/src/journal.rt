//! The rows of all maps, and what was written to them and can still be taken back.

ghost use Rattle.std.specs.Prelude.{◌≡◌, ◌≤◌, ◌-◌, ◌∷◌, [], ◌++◌, ℕ, List, IsTrue, IfOk, OnOk, OnErr, take, drop, length, reverse};
ghost use Rattle.std.specs.FinMap as finite;
ghost use Rattle.gl_vmaps.specs.Chains.{maps_by, rows_in, found_in, with_versions, without_last, newest_place, trimmed};
ghost use Rattle.gl_vmaps.specs.Kept.{last_value};
ghost use Rattle.gl_vmaps.specs.Rows.{row_writes, HasPut};
ghost use Rattle.gl_vmaps.specs.Standing.{versions_up_to};
ghost use Rattle.gl_vmaps.specs.Journal.{is_first_up_to, settled_first, is_last_above, CanPop, popped_last, IsTidy, AreNamed, IsInOrder, AreFresh, pushed, written, pushed_maps, pushed_journal};

use crate::name::{Key, MapName};
use crate::row::{Row, RowSink};
use crate::table::{Table, Version};
use crate::write::Write;
use std::alloc::{AllocError, Global};
use std::collections::{BTreeMap, VecDeque};

/// To each map's name its rows. A map has one at least.
pub(crate) type Maps = BTreeMap<Vec<u8>, Table>;

/// A row that an entry wrote.
#[derive(Debug, Drop)]
pub(crate) struct Written {
    pub(crate) place: u64,
    pub(crate) map: MapName,
    pub(crate) key: Key,
    /// The version of the map before.
    pub(crate) before: u64,
}

/// The greatest version of a map's rows, 0 where it has none.
pub(crate) fn newest_of(maps: &Maps, map: &[u8]) -> u64
    ensures { result ≡ newest_place (rows_in (maps_by maps.now.entries) map.now) }
{
    match maps.get(map) {
        None => 0,
        Some(table) => table.newest(),
    }
}

/// Adds a version after those of a row. Running out of memory leaves the maps as they were.
pub(crate) fn push_version(
    maps: &mut Maps,
    alloc: Global,
    map: &[u8],
    key: &[u8],
    version: Version,
) -> Result<(), AllocError>
    requires { newest_place (rows_in (maps_by maps.old.entries) map.now) ≤ version.place }
    ensures ok { OnOk result (let old = maps_by maps.old.entries in
        maps_by maps.new.entries ≡
        with_versions old map.now key.now (found_in old map.now key.now ++ version ∷ [])) }
    ensures err { OnErr result (maps_by maps.new.entries ≡ maps_by maps.old.entries) }
{
    match maps.get_mut(map) {
        Some(table) => table.push(alloc, key, version)?,
        None => {
            let mut table = Table::new(alloc);
            table.push(alloc, key, version)?;
            maps.insert(Vec::from_slice(alloc, map)?, table)?;
        }
    }
    Ok(())
}

/// Takes back the last version of a row, and reports whether the map has no row left.
fn shorten(maps: &mut Maps, map: &[u8], key: &[u8], before: u64) -> bool
    requires { let old = maps_by maps.old.entries in before ≡ newest_place (rows_in
        (with_versions old map.now key.now (without_last (found_in old map.now key.now))) map.now) }
    ensures maps { let old = maps_by maps.old.entries in maps_by maps.new.entries ≡
        with_versions old map.now key.now (without_last (found_in old map.now key.now)) }
    ensures emptied { IsTrue result → rows_in (maps_by maps.new.entries) map.now ≡ finite.empty }
{
    match maps.get_mut(map) {
        None => false,
        Some(table) => {
            table.pop(key, before);
            table.is_empty()
        }
    }
}

/// Takes back the last version of a row, and the map with its only row.
pub(crate) fn pop_version(maps: &mut Maps, map: &[u8], key: &[u8], before: u64)
    requires { let old = maps_by maps.old.entries in before ≡ newest_place (rows_in
        (with_versions old map.now key.now (without_last (found_in old map.now key.now))) map.now) }
    ensures { let old = maps_by maps.old.entries in maps_by maps.new.entries ≡
        with_versions old map.now key.now (without_last (found_in old map.now key.now)) }
{
    if shorten(maps, map, key, before) {
        let _ = maps.remove(map);
    }
}

/// Lets go of the first version of a row, if another stands after it and it is below a place.
pub(crate) fn trim_version(maps: &mut Maps, map: &[u8], key: &[u8], place: u64)
    ensures { let old = maps_by maps.old.entries in maps_by maps.new.entries ≡
        with_versions old map.now key.now (trimmed place (found_in old map.now key.now)) }
{
    match maps.get_mut(map) {
        None => {}
        Some(table) => table.trim(key, place),
    }
}

/// Whether the last write is above a place.
pub(crate) fn ends_above(journal: &VecDeque<Written>, place: u64) -> bool
    ensures { result ≡ is_last_above place (reverse journal.now.items) }
{
    match journal.back() {
        None => false,
        Some(last) => place < last.place,
    }
}

/// Takes back what was written last.
pub(crate) fn pop_last(maps: &mut Maps, journal: &mut VecDeque<Written>)
    requires { CanPop (maps_by maps.old.entries) (reverse journal.old.items) }
    ensures maps { maps_by maps.new.entries ≡
        popped_last (maps_by maps.old.entries) (reverse journal.old.items) }
    ensures journal { reverse journal.new.items ≡ drop 1 (reverse journal.old.items) }
    ensures shorter { length journal.new.items ≡ length journal.old.items - 1 }
{
    if let Some(last) = journal.pop_back() {
        pop_version(maps, last.map.as_slice(), last.key.as_slice(), last.before);
    }
}

/// Whether the first write is at or below a place.
pub(crate) fn starts_up_to(journal: &VecDeque<Written>, place: u64) -> bool
    ensures { result ≡ is_first_up_to place journal.now.items }
{
    match journal.front() {
        None => false,
        Some(first) => first.place <= place,
    }
}

/// Settles what was written first: its row lets go of the version before, and it can't be taken
/// back any more.
pub(crate) fn settle_first(maps: &mut Maps, journal: &mut VecDeque<Written>)
    ensures maps { maps_by maps.new.entries ≡
        settled_first (maps_by maps.old.entries) journal.old.items }
    ensures journal { journal.new.items ≡ drop 1 journal.old.items }
    ensures shorter { length journal.new.items ≡ length journal.old.items - 1 }
{
    if let Some(first) = journal.pop_front() {
        trim_version(
            maps,
            first.map.as_slice(),
            first.key.as_slice(),
            first.place,
        );
    }
}

/// Adds a write at a place. Running out of memory leaves all as it was.
fn push_write(
    alloc: Global,
    maps: &mut Maps,
    journal: &mut VecDeque<Written>,
    place: u64,
    write: &Write,
) -> Result<(), AllocError>
    requires { newest_place (rows_in (maps_by maps.old.entries) write.now.map) ≤ place }
    ensures maps { OnOk result (maps_by maps.new.entries ≡
        pushed (maps_by maps.old.entries) place write.now) }
    ensures journal { OnOk result (reverse journal.new.items ≡
        written (maps_by maps.old.entries) place write.now ∷ reverse journal.old.items) }
    ensures err { OnErr result (maps_by maps.new.entries ≡ maps_by maps.old.entries) }
    ensures kept { OnErr result (reverse journal.new.items ≡ reverse journal.old.items) }
{
    let Write { map, key, value } = write.copy(alloc)?;
    let before = newest_of(maps, map.as_slice());
    journal.reserve(1)?;
    let version = Version { place, value };
    push_version(maps, alloc, map.as_slice(), key.as_slice(), version)?;
    journal.push_back_reserved(Written {
        place,
        map,
        key,
        before,
    });
    Ok(())
}

/// Adds the writes of a set at a place. Running out of memory leaves all as it was.
pub(crate) fn push_writes(
    alloc: Global,
    maps: &mut Maps,
    journal: &mut VecDeque<Written>,
    place: u64,
    writes: &[Write],
) -> Result<(), AllocError>
    requires tidy { IsTidy (maps_by maps.old.entries) }
    requires fresh { AreFresh (maps_by maps.old.entries) place writes.now }
    ensures maps { OnOk result (maps_by maps.new.entries ≡
        pushed_maps (maps_by maps.old.entries) place writes.now) }
    ensures journal { OnOk result (reverse journal.new.items ≡
        pushed_journal (maps_by maps.old.entries) (reverse journal.old.items) place writes.now) }
    ensures err { OnErr result (maps_by maps.new.entries ≡ maps_by maps.old.entries) }
    ensures kept { OnErr result (reverse journal.new.items ≡ reverse journal.old.items) }
{
    let Some((first, rest)) = writes.split_first() else {
        return Ok(());
    };
    push_write(alloc, maps, journal, place, first)?;
    match push_writes(alloc, maps, journal, place, rest) {
        Ok(()) => Ok(()),
        Err(e) => {
            pop_last(maps, journal);
            Err(e)
        }
    }
}

/// The same maps in memory of their own. Fails only where memory runs out.
pub(crate) fn copy_maps(alloc: Global, maps: &Maps) -> Result<Maps, AllocError>
    ensures { IfOk result (λ copy. maps_by copy.entries ≡ maps_by maps.now.entries) }
{
    let mut copy = BTreeMap::new(alloc);
    for (map, table) in maps {
        let map = Vec::from_slice(alloc, map)?;
        let table = table.copy(alloc)?;
        copy.insert(map, table)?;
    }
    Ok(copy)
}

/// The same journal in memory of its own. Fails only where memory runs out.
pub(crate) fn copy_journal(
    alloc: Global,
    journal: &VecDeque<Written>,
) -> Result<VecDeque<Written>, AllocError>
    ensures { IfOk result (λ copy. copy.items ≡ journal.now.items) }
{
    let mut copy = VecDeque::new(alloc);
    for written in journal.iter() {
        copy.push_back(Written {
            place: written.place,
            map: written.map.copy(alloc)?,
            key: written.key.copy(alloc)?,
            before: written.before,
        })?;
    }
    Ok(copy)
}

/// Maps with these rows, each with one version at place 0.
pub(crate) fn maps_of_rows(alloc: Global, rows: Vec<Row>) -> Result<Maps, AllocError>
    ensures maps { IfOk result (λ maps. maps_by maps.entries ≡
        pushed_maps finite.empty 0 (row_writes rows.items)) }
    ensures named { IfOk result (λ maps. AreNamed (maps_by maps.entries)) }
{
    let mut maps = BTreeMap::new(alloc);
    for row in rows {
        let version = Version {
            place: 0,
            value: Some(row.value),
        };
        push_version(
            &mut maps,
            alloc,
            row.map.as_slice(),
            row.key.as_slice(),
            version,
        )?;
    }
    Ok(maps)
}

/// Puts the rows that all maps had at a place, each with its value, in their order. Fails only
/// where the sink does.
pub(crate) fn put_rows<S: RowSink>(sink: &mut S, maps: &Maps, to: u64) -> Result<(), AllocError>
    requires { (name key : List ℕ) →
        IsInOrder name key (found_in (maps_by maps.now.entries) name key) }
    ensures { OnOk result (HasPut (λ name key.
        last_value (versions_up_to to (found_in (maps_by maps.now.entries) name key)))
        (λ rows. S.took sink.old rows sink.new)) }
{
    for (map, table) in maps {
        table.put_rows(sink, map, to)?;
    }
    Ok(())
}
