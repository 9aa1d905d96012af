//! The write set that turns some rows into others.

ghost use Rattle.std.specs.Prelude.{◌≡◌, IfOk, OnOk, map, filter};
ghost use Rattle.std.specs.Option.{option_copied};
ghost use Rattle.gl_vmaps.specs.LastWrite.{last_write};
ghost use Rattle.gl_vmaps.specs.Versions.{is_to_row};
ghost use Rattle.gl_vmaps.specs.Tables.{same_value};
ghost use Rattle.gl_vmaps.specs.Changes.{row_in, is_changed, is_gone, removal_of, set_from, changes};

use gl_vmaps::{Write, Writes};
use std::alloc::{AllocError, Global};

fn is_to_row(write: &Write, map: &[u8], key: &[u8]) -> bool
    ensures { result ≡ is_to_row map.now key.now write.now }
{
    map == write.map.as_slice() && key == write.key.as_slice()
}

fn last_write<'a>(rows: &'a [Write], map: &[u8], key: &[u8]) -> Option<&'a Write>
    ensures { option_copied result ≡ last_write map.now key.now rows.now }
{
    rows.iter().rev().find(|write| is_to_row(write, map, key))
}

/// What a write sets its row to, if it does.
fn value_of(write: &Write) -> Option<&[u8]>
    ensures { option_copied result ≡ write.now.value }
{
    write.value.as_ref().map(|value| value.as_slice())
}

/// The value of a row among these, if it is there.
fn row_in<'a>(rows: &'a [Write], map: &[u8], key: &[u8]) -> Option<&'a [u8]>
    ensures { option_copied result ≡ row_in rows.now map.now key.now }
{
    match last_write(rows, map, key) {
        None => None,
        Some(write) => value_of(write),
    }
}

fn same_value(one: Option<&[u8]>, other: Option<&[u8]>) -> bool
    ensures { result ≡ same_value (option_copied one.entry) (option_copied other.entry) }
{
    match one {
        None => other.is_none(),
        Some(one) => match other {
            None => false,
            Some(other) => one == other,
        },
    }
}

fn is_changed(before: &[Write], write: &Write) -> bool
    ensures { result ≡ is_changed before.now write.now }
{
    let there = row_in(before, write.map.as_slice(), write.key.as_slice());
    !same_value(there, value_of(write))
}

fn is_gone(after: &[Write], write: &Write) -> bool
    ensures { result ≡ is_gone after.now write.now }
{
    row_in(after, write.map.as_slice(), write.key.as_slice()).is_none()
}

fn removal_of(alloc: Global, write: &Write) -> Result<Write, AllocError>
    ensures { IfOk result (λ removal. removal ≡ removal_of write.now) }
{
    Ok(Write {
        map: write.map.copy(alloc)?,
        key: write.key.copy(alloc)?,
        value: None,
    })
}

/// Puts the rows whose bytes are new or changed.
fn put_changed(
    alloc: Global,
    writes: &mut Writes,
    before: &[Write],
    after: &[Write],
) -> Result<(), AllocError>
    ensures { OnOk result (writes.new
        ≡ set_from writes.old (filter (is_changed before.now) after.now)) }
{
    for write in after {
        if is_changed(before, write) {
            writes.put(write.copy(alloc)?)?;
        }
    }
    Ok(())
}

/// Puts the removals of the rows that are gone.
fn put_removals(
    alloc: Global,
    writes: &mut Writes,
    before: &[Write],
    after: &[Write],
) -> Result<(), AllocError>
    ensures { OnOk result (writes.new
        ≡ set_from writes.old (map removal_of (filter (is_gone after.now) before.now))) }
{
    for write in before {
        if is_gone(after, write) {
            writes.put(removal_of(alloc, write)?)?;
        }
    }
    Ok(())
}

/// The write set that turns the rows before into those after.
#[tactic(auto, using(crate::proofs::Putting::puts))]
pub fn changes(alloc: Global, before: &Writes, after: &Writes) -> Result<Writes, AllocError>
    ensures { IfOk result (λ writes. writes ≡ changes before.now after.now) }
{
    let (before, after) = (before.as_slice(), after.as_slice());
    let mut writes = Writes::new(alloc);
    put_changed(alloc, &mut writes, before, after)?;
    put_removals(alloc, &mut writes, before, after)?;
    Ok(writes)
}
