//! What a run asks for next, with what is noted so far.

ghost use Rattle.std.specs.Prelude.{◌≡◌, ◌+◌, ◌<◌, ◌≤◌, List, [], length, IfOk, OnOk, if◌then◌else◌};
ghost use Rattle.std.specs.Option.{option_copied};
ghost use Rattle.gl_tx.specs.Sees.{seen_after};
ghost use Rattle.gl_tx.specs.Run.{perform_result, with_writes};
ghost use Rattle.gl_attempt.specs.Asks.{row_asks, key_asks, rows_written, allowed_asks, asks_of, asks_after, asks_from, first_unnoted, sees_by, next_ask};
ghost use Rattle.gl_tx.specs.declared.request.Operation.{Operation};
ghost use Rattle.gl_attempt.specs.declared.notes.Ask.TheVariants as asks;

use crate::notes::{Ask, Reads};
use gl_base::OrNoMemory;
use gl_tx::{Operation, Overlay, Performed, Request, bar_on, perform};
use gl_vmaps::{Key, MapName, Write};
use std::alloc::{AllocError, Global};

/// A row, unless it is noted, or the request wrote it itself.
fn row_ask(
    alloc: Global,
    overlay: &Overlay<'_, Reads>,
    map: &MapName,
    key: &Key,
) -> Result<Option<Ask>, AllocError>
    ensures { IfOk result (λ ask.
        ask ≡ first_unnoted overlay.now.base.now (row_asks overlay.now.writes map.now key.now)) }
{
    if overlay.wrote(map.as_slice(), key.as_slice())
        || overlay.base.has_row(map.as_slice(), key.as_slice())
    {
        return Ok(None);
    }
    Ok(Some(Ask::Row {
        map: map.copy(alloc)?,
        key: key.copy(alloc)?,
    }))
}

/// The row that a value is the key of, if it is one.
fn key_ask(
    alloc: Global,
    overlay: &Overlay<'_, Reads>,
    target: &MapName,
    value: Option<&[u8]>,
) -> Result<Option<Ask>, AllocError>
    ensures { IfOk result (λ ask.
        ask ≡ first_unnoted overlay.now.base.now
        (key_asks overlay.now.writes target.now (option_copied value.entry))) }
{
    let Some(value) = value else {
        return Ok(None);
    };
    match Key::new(Vec::from_slice(alloc, value)?) {
        None => Ok(None),
        Some(key) => row_ask(alloc, overlay, target, &key),
    }
}

fn follow_ask(
    alloc: Global,
    overlay: &Overlay<'_, Reads>,
    map: &MapName,
    key: &Key,
    target: &MapName,
) -> Result<Option<Ask>, AllocError>
    ensures { IfOk result (λ ask.
        ask ≡ first_unnoted overlay.now.base.now
        (allowed_asks (Operation.Follow map.now key.now target.now)
        (sees_by overlay.now.base.now) overlay.now.writes)) }
{
    match row_ask(alloc, overlay, map, key)? {
        Some(ask) => Ok(Some(ask)),
        None => {
            let value = overlay.get(map.as_slice(), key.as_slice());
            key_ask(alloc, overlay, target, value)
        }
    }
}

/// The first row of a map that the request wrote and that isn't noted.
fn written_ask(
    alloc: Global,
    overlay: &Overlay<'_, Reads>,
    map: &MapName,
) -> Result<Option<Ask>, AllocError>
    ensures { IfOk result (λ ask.
        ask ≡ first_unnoted overlay.now.base.now (rows_written map.now overlay.now.writes)) }
{
    for write in overlay.writes.as_slice() {
        if write.is_to_map(map.as_slice())
            && !overlay.base.has_row(map.as_slice(), write.key.as_slice())
        {
            return Ok(Some(Ask::Row {
                map: map.copy(alloc)?,
                key: write.key.copy(alloc)?,
            }));
        }
    }
    Ok(None)
}

fn size_ask(
    alloc: Global,
    overlay: &Overlay<'_, Reads>,
    map: &MapName,
) -> Result<Option<Ask>, AllocError>
    ensures { IfOk result (λ ask.
        ask ≡ first_unnoted overlay.now.base.now
        (allowed_asks (Operation.Size map.now)
        (sees_by overlay.now.base.now) overlay.now.writes)) }
{
    if overlay.base.has_map(map.as_slice()) {
        written_ask(alloc, overlay, map)
    } else {
        Ok(Some(Ask::Map {
            map: map.copy(alloc)?,
        }))
    }
}

/// What an operation asks for first of what isn't noted, where it may be.
fn allowed_ask(
    alloc: Global,
    overlay: &Overlay<'_, Reads>,
    operation: &Operation,
) -> Result<Option<Ask>, AllocError>
    ensures { IfOk result (λ ask.
        ask ≡ first_unnoted overlay.now.base.now
        (allowed_asks operation.now (sees_by overlay.now.base.now) overlay.now.writes)) }
{
    match operation {
        Operation::Get { map, key }
        | Operation::Has { map, key }
        | Operation::Remove { map, key }
        | Operation::Add { map, key, .. }
        | Operation::Check { map, key, .. } => row_ask(alloc, overlay, map, key),
        Operation::Put { .. } => Ok(None),
        Operation::Follow { map, key, target } => follow_ask(alloc, overlay, map, key, target),
        Operation::Size { map } => size_ask(alloc, overlay, map),
    }
}

/// What an operation asks for first of what isn't noted.
fn operation_ask(
    alloc: Global,
    overlay: &Overlay<'_, Reads>,
    operation: &Operation,
) -> Result<Option<Ask>, AllocError>
    ensures { IfOk result (λ ask.
        ask ≡ first_unnoted overlay.now.base.now
        (asks_of operation.now (sees_by overlay.now.base.now) overlay.now.writes)) }
{
    match bar_on(operation) {
        Some(_) => Ok(None),
        None => allowed_ask(alloc, overlay, operation),
    }
}

/// Performs an operation on what is noted, and adds what it writes. Whether the run goes on after
/// it.
fn step(
    alloc: Global,
    overlay: &mut Overlay<'_, Reads>,
    operation: &Operation,
) -> Result<bool, AllocError>
    requires { length overlay.old.writes < 64 }
    ensures rest { let sees = sees_by overlay.old.base.now in let writes = overlay.old.writes in
        IfOk result (λ goes. (rest : List Operation) →
        asks_after (λ done. asks_from rest sees (with_writes writes done.write))
        (perform_result operation.now (seen_after sees writes))
        ≡ (if goes then asks_from rest sees overlay.new.writes else [])) }
    ensures same { OnOk result (overlay.new.base.now ≡ overlay.old.base.now) }
    ensures few { OnOk result (length overlay.new.writes ≤ length overlay.old.writes + 1) }
{
    match perform(alloc, overlay, operation) {
        Ok(Performed { write, .. }) => {
            if let Some(write) = write {
                overlay.put(write)?;
            }
            Ok(true)
        }
        Err(OrNoMemory::NoMemory) => Err(AllocError),
        Err(OrNoMemory::Fault(_)) => Ok(false),
    }
}

/// What the run on what is noted asks for next.
pub(crate) fn next_ask(
    alloc: Global,
    request: &Request,
    reads: &Reads,
) -> Result<Option<Ask>, AllocError>
    ensures { IfOk result (λ ask. ask ≡ next_ask request.now reads.now) }
{
    let mut overlay = Overlay::new(alloc, reads);
    for operation in request.as_slice() {
        match operation_ask(alloc, &overlay, operation)? {
            Some(ask) => return Ok(Some(ask)),
            None => {
                if !step(alloc, &mut overlay, operation)? {
                    return Ok(None);
                }
            }
        }
    }
    Ok(None)
}
