//! The writes of an entry, as bytes both ways.

ghost use Rattle.std.specs.Prelude.{◌≡◌, ◌++◌, None, IfOk, OnOk, IsTrue};
ghost use Rattle.std.specs.List.{flat_map};
ghost use Rattle.std.specs.Option.{option_copied};
ghost use Rattle.gl_base.specs.Answers.{Answers};
ghost use Rattle.gl_base.specs.Row.{optional_value_at};
ghost use Rattle.gl_vmaps.specs.Writes.{is_ordered};
ghost use Rattle.gl_entry.specs.Entry.{write_bytes};
ghost use Rattle.gl_entry.specs.Parsing.{part, row_of, is_after, removal_of, write_at, writes_from, writes_at};

use crate::fault::EntryFault;
use gl_base::{CodeFault, Cut, OrNoMemory, put_key, put_map_name, put_optional_value, put_u32};
use gl_vmaps::{Key, MapName, VALUE_LIMIT, Value, Write, Writes};
use std::alloc::{AllocError, Global};
use std::cmp::Ordering;

/// Writes a write: its map, its key, and the new value or none.
fn put_write(out: &mut Vec<u8>, write: &Write) -> Result<(), AllocError>
    ensures { OnOk result (out.new.items ≡ out.old.items ++ write_bytes write.now) }
{
    put_map_name(out, write.map.as_slice())?;
    put_key(out, write.key.as_slice())?;
    match &write.value {
        None => put_optional_value(out, None),
        Some(value) => put_optional_value(out, Some(value.as_slice())),
    }
}

pub(crate) fn put_writes(out: &mut Vec<u8>, writes: &[Write]) -> Result<(), AllocError>
    ensures { OnOk result (out.new.items ≡ out.old.items ++ flat_map write_bytes writes.now) }
{
    for write in writes {
        put_write(out, write)?;
    }
    Ok(())
}

/// What the field that begins at this place holds is not allowed there.
pub(crate) fn refused(at: usize) -> OrNoMemory<EntryFault>
    ensures { result ≡ OrNoMemory.Fault (EntryFault.Code (CodeFault.Value at)) }
{
    OrNoMemory::Fault(EntryFault::Code(CodeFault::Value { at }))
}

fn is_after(before: Option<&Write>, map: &MapName, key: &Key) -> bool
    ensures { result ≡
        is_after (row_of (option_copied before.entry)) (removal_of map.now key.now) }
{
    match before {
        None => true,
        Some(before) => {
            let order = before
                .map
                .as_slice()
                .cmp(map.as_slice())
                .then(before.key.as_slice().cmp(key.as_slice()));
            order == Ordering::Less
        }
    }
}

fn read_value(alloc: Global, cut: &mut Cut<'_>) -> Result<Option<Value>, OrNoMemory<EntryFault>>
    ensures { Answers (λ value. (value, cut.new)) result (part (optional_value_at 65536 cut.old)) }
{
    match cut.optional_value(VALUE_LIMIT as u64)? {
        None => Ok(None),
        Some(value) => Ok(Some(Value::from_slice(alloc, value)?)),
    }
}

/// Reads the write with this number, which stands after the one before it.
#[tactic(auto, unfolding(crate::specs::Parsing::write_at))]
fn read_write(
    alloc: Global,
    cut: &mut Cut<'_>,
    number: u32,
    before: Option<&Write>,
) -> Result<Write, OrNoMemory<EntryFault>>
    ensures { Answers (λ write. (write, cut.new)) result
        (write_at number (row_of (option_copied before.entry)) cut.old) }
{
    let map = MapName::from_slice(alloc, cut.map_name()?)?;
    let key = Key::from_slice(alloc, cut.key()?)?;
    if !is_after(before, &map, &key) {
        return Err(OrNoMemory::Fault(EntryFault::Writes { index: number }));
    }
    let value = read_value(alloc, cut)?;
    Ok(Write { map, key, value })
}

fn read_rows(
    alloc: Global,
    cut: &mut Cut<'_>,
    count: u32,
) -> Result<Vec<Write>, OrNoMemory<EntryFault>>
    ensures exact { Answers (λ writes. (writes.items, cut.new)) result
        (writes_from 1 None count cut.old) }
    ensures ordered { IfOk result (λ writes. IsTrue (is_ordered writes.items)) }
{
    let mut writes = Vec::new(alloc);
    for index in 0..count {
        let write = read_write(alloc, cut, index + 1, writes.last())?;
        writes.push(write)?;
    }
    Ok(writes)
}

/// Reads the writes after their count.
#[tactic(auto, unfolding(crate::specs::Parsing::writes_at))]
pub(crate) fn read_writes(
    alloc: Global,
    cut: &mut Cut<'_>,
    may_write: bool,
) -> Result<Writes, OrNoMemory<EntryFault>>
    ensures { Answers (λ writes. (writes, cut.new)) result (writes_at may_write cut.old) }
{
    let place = cut.at();
    let count = cut.u32()?;
    if !may_write && count != 0 {
        return Err(refused(place));
    }
    Ok(Writes::of(read_rows(alloc, cut, count)?))
}
