//! Tables that are compacted and then cut, and their rows at a place, worked out by hand.

ghost use Rattle.std.specs.Prelude.{ℕ, List, ◌≡◌, ◌≤◌, ◌<◌, IfOk};
ghost use Rattle.gl_vmaps.specs.Kept.{version_of};

use gl_vmaps::{Key, MapName, Tables, Value, Write, Writes};
use std::alloc::{AllocError, Global};
use std::test::Fail;

fn map_name(alloc: Global, map: &[u8]) -> Result<MapName, Fail> {
    let map = MapName::new(Vec::from_slice(alloc, map)?).ok_or("no name of a map")?;
    Ok(map)
}

fn value(alloc: Global, value: &[u8]) -> Result<Value, Fail> {
    let value = Value::new(Vec::from_slice(alloc, value)?).ok_or("no value")?;
    Ok(value)
}

/// A row set to a value.
fn set(alloc: Global, map: &[u8], key: &[u8], to: &[u8]) -> Result<Write, Fail> {
    let key = Key::new(Vec::from_slice(alloc, key)?).ok_or("no key")?;
    Ok(Write {
        map: map_name(alloc, map)?,
        key,
        value: Some(value(alloc, to)?),
    })
}

/// A row removed.
fn removed(alloc: Global, map: &[u8], key: &[u8]) -> Result<Write, Fail> {
    let key = Key::new(Vec::from_slice(alloc, key)?).ok_or("no key")?;
    Ok(Write {
        map: map_name(alloc, map)?,
        key,
        value: None,
    })
}

fn has_value(tables: &Tables, map: &[u8], key: &[u8], value: &[u8]) -> bool {
    match tables.get(map, key) {
        None => false,
        Some(held) => held == value,
    }
}

/// One more entry, after which others may come.
fn apply(tables: &mut Tables, place: u64, writes: &Writes) -> Result<(), AllocError>
    requires base { tables.old.base < place }
    requires above { (map key : List ℕ) → version_of tables.old map key < place }
    ensures base { tables.new.base ≡ tables.old.base }
    ensures compacted { tables.new.compacted ≡ tables.old.compacted }
    ensures last { (map key : List ℕ) → version_of tables.new map key ≤ place }
{
    tables.apply(place, writes)
}

/// The place that last wrote a key of public:x, and whether the map has it.
fn seen(tables: &Tables, key: &[u8]) -> (u64, bool) {
    let x = b"public:x".as_slice();
    (tables.version_of(x, key), tables.has(x, key))
}

/// Writes a = 01 at place 1, b = 02 at 2, and the removal of a at 3.
pub(crate) fn three_writes(alloc: Global) -> Result<Tables, Fail>
    ensures { IfOk result (λ tables. tables.compacted ≡ 0) }
{
    let mut tables = Tables::new(alloc);
    let mut writes = Writes::new(alloc);
    writes.put(set(alloc, b"public:x", b"a", b"\x01")?)?;
    apply(&mut tables, 1, &writes)?;
    let mut writes = Writes::new(alloc);
    writes.put(set(alloc, b"public:x", b"b", b"\x02")?)?;
    apply(&mut tables, 2, &writes)?;
    let mut writes = Writes::new(alloc);
    writes.put(removed(alloc, b"public:x", b"a")?)?;
    apply(&mut tables, 3, &writes)?;
    Ok(tables)
}

#[test]
fn cuts_to_the_compacted_place(rt: HostRuntime) -> Result<(), Fail> {
    let mut tables = three_writes(rt.alloc())?;
    tables.compact(2);
    tables.cut(2);
    assert!(rt; (seen(&tables, b"a"), seen(&tables, b"b")) == ((1, true), (2, true)));
    assert!(rt; has_value(&tables, b"public:x", b"a", b"\x01"));
    assert!(rt; tables.size(b"public:x") == 2);
    Ok(())
}

#[test]
fn keeps_the_version_of_a_removal(rt: HostRuntime) -> Result<(), Fail> {
    let mut tables = three_writes(rt.alloc())?;
    tables.compact(3);
    assert!(rt; seen(&tables, b"a") == (3, false));
    assert!(rt; (tables.map_version(b"public:x"), tables.size(b"public:x")) == (3, 1));
    Ok(())
}

#[test]
fn gives_the_rows_of_a_place(rt: HostRuntime) -> Result<(), Fail> {
    let tables = three_writes(rt.alloc())?;
    let wanted: [(&[u8], &[u8]); 2] = [(b"a", b"\x01"), (b"b", b"\x02")];
    let rows = tables.rows(2)?;
    assert!(rt; rows.as_slice().len() == wanted.len());
    for (row, (key, value)) in rows.as_slice().iter().zip(wanted) {
        assert!(rt; row.map.as_slice() == b"public:x".as_slice());
        assert!(rt; row.key.as_slice() == key);
        assert!(rt; row.value.as_slice() == value);
    }
    let last = tables.rows(3)?;
    assert!(rt; last.as_slice().len() == 1);
    for row in last.as_slice() {
        assert!(rt; row.key.as_slice() == b"b".as_slice());
        assert!(rt; row.value.as_slice() == b"\x02".as_slice());
    }
    let begun = Tables::at_base(rt.alloc(), 2, rows)?;
    assert!(rt; has_value(&begun, b"public:x", b"a", b"\x01"));
    assert!(rt; begun.size(b"public:x") == 2);
    Ok(())
}
