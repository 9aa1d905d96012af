//! The operations of a request, as words.

ghost use Rattle.std.specs.Prelude.{◌≡◌, ◌<◌, None, MatchOption, IfSome, length};
ghost use Rattle.std.specs.Option.{option_copied, option_map};
ghost use Rattle.gl_base.specs.Answers.{Answers};
ghost use Rattle.gl_lines.specs.Groups.{group_before};
ghost use Rattle.gl_lines.specs.Parts.{bytes_of};
ghost use Rattle.gl_lines.specs.Operations.{row_of, put_of, add_of, check_of, follow_of, arity, operation_of_two, operation_of_three, size_of, operation_of, groups_of, operations_of};

use crate::fault::LineFault;
use crate::names::{expected_of, key_of, map_of, value_of};
use crate::numbers::amount_of;
use gl_base::OrNoMemory;
use gl_tx::Operation;
use gl_vmaps::{Key, MapName};
use std::alloc::Global;

#[tactic(auto, unfolding(crate::specs::Operations::row_of))]
fn row_of(alloc: Global, map: &[u8], key: &[u8]) -> Result<(MapName, Key), OrNoMemory<LineFault>>
    ensures { Answers (λ x. (x.0, x.1)) result (row_of map.now key.now) }
{
    let map = map_of(alloc, map)?;
    let key = key_of(alloc, key)?;
    Ok((map, key))
}

#[tactic(auto, unfolding(crate::specs::Operations::put_of))]
fn put_of(
    alloc: Global,
    map: &[u8],
    key: &[u8],
    value: &[u8],
) -> Result<Operation, OrNoMemory<LineFault>>
    ensures { Answers (λ x. x) result (put_of map.now key.now value.now) }
{
    let (map, key) = row_of(alloc, map, key)?;
    let value = value_of(alloc, value)?;
    Ok(Operation::Put { map, key, value })
}

#[tactic(auto, unfolding(crate::specs::Operations::add_of))]
fn add_of(
    alloc: Global,
    map: &[u8],
    key: &[u8],
    amount: &[u8],
) -> Result<Operation, OrNoMemory<LineFault>>
    ensures { Answers (λ x. x) result (add_of map.now key.now amount.now) }
{
    let (map, key) = row_of(alloc, map, key)?;
    let amount = amount_of(amount)?;
    Ok(Operation::Add { map, key, amount })
}

#[tactic(auto, unfolding(crate::specs::Operations::check_of))]
fn check_of(
    alloc: Global,
    map: &[u8],
    key: &[u8],
    expected: &[u8],
) -> Result<Operation, OrNoMemory<LineFault>>
    ensures { Answers (λ x. x) result (check_of map.now key.now expected.now) }
{
    let (map, key) = row_of(alloc, map, key)?;
    let expected = expected_of(alloc, expected)?;
    Ok(Operation::Check { map, key, expected })
}

#[tactic(auto, unfolding(crate::specs::Operations::follow_of))]
fn follow_of(
    alloc: Global,
    map: &[u8],
    key: &[u8],
    target: &[u8],
) -> Result<Operation, OrNoMemory<LineFault>>
    ensures { Answers (λ x. x) result (follow_of map.now key.now target.now) }
{
    let (map, key) = row_of(alloc, map, key)?;
    let target = map_of(alloc, target)?;
    Ok(Operation::Follow { map, key, target })
}

fn size_of(alloc: Global, name: &[u8], map: &[u8]) -> Result<Operation, OrNoMemory<LineFault>>
    ensures { Answers (λ x. x) result (size_of name.now map.now) }
{
    if name == b"size".as_slice() {
        let map = map_of(alloc, map)?;
        Ok(Operation::Size { map })
    } else {
        Err(OrNoMemory::Fault(LineFault::NoReading))
    }
}

fn operation_of_two(name: &[u8], map: MapName, key: Key) -> Result<Operation, LineFault>
    ensures { result ≡ operation_of_two name.now (map, key) }
{
    if name == b"get".as_slice() {
        Ok(Operation::Get { map, key })
    } else if name == b"has".as_slice() {
        Ok(Operation::Has { map, key })
    } else if name == b"remove".as_slice() {
        Ok(Operation::Remove { map, key })
    } else {
        Err(LineFault::NoReading)
    }
}

fn operation_of_three(
    alloc: Global,
    name: &[u8],
    map: &[u8],
    key: &[u8],
    last: &[u8],
) -> Result<Operation, OrNoMemory<LineFault>>
    ensures { Answers (λ x. x) result (operation_of_three name.now map.now key.now last.now) }
{
    if name == b"put".as_slice() {
        put_of(alloc, map, key, last)
    } else if name == b"add".as_slice() {
        add_of(alloc, map, key, last)
    } else if name == b"check".as_slice() {
        check_of(alloc, map, key, last)
    } else if name == b"follow".as_slice() {
        follow_of(alloc, map, key, last)
    } else {
        Err(OrNoMemory::Fault(LineFault::NoReading))
    }
}

/// The operation of a name and the words after it.
#[tactic(auto, unfolding(crate::specs::Operations::operation_of))]
fn operation_of(alloc: Global, words: &[&[u8]]) -> Result<Operation, OrNoMemory<LineFault>>
    ensures { Answers (λ x. x) result (operation_of (bytes_of words.now)) }
{
    match words {
        [name, map] => size_of(alloc, name, map),
        [name, map, key] => {
            let (map, key) = row_of(alloc, map, key)?;
            Ok(operation_of_two(name, map, key)?)
        }
        [name, map, key, last] => operation_of_three(alloc, name, map, key, last),
        _ => Err(OrNoMemory::Fault(LineFault::NoReading)),
    }
}

/// How many words stand after the name of an operation. `None` where it names none.
fn arity(name: &[u8]) -> Option<usize>
    ensures { result ≡ arity name.now }
{
    if name == b"get".as_slice() || name == b"has".as_slice() || name == b"remove".as_slice() {
        Some(2)
    } else if name == b"put".as_slice()
        || name == b"add".as_slice()
        || name == b"check".as_slice()
        || name == b"follow".as_slice()
    {
        Some(3)
    } else if name == b"size".as_slice() {
        Some(1)
    } else {
        None
    }
}

/// The words of the first operation, and the words after the semicolon that follows them, if one
/// does. `None` where the words are those of no operations.
fn first_group<'a, 'b>(words: &'a [&'b [u8]]) -> Option<(&'a [&'b [u8]], Option<&'a [&'b [u8]]>)>
    ensures group { MatchOption result
        (groups_of (bytes_of words.now) ≡ None)
        (λ x. groups_of (bytes_of words.now)
        ≡ group_before (bytes_of x.0.now) (option_map bytes_of (option_copied x.1))) }
    ensures fewer { IfSome result (λ x. IfSome x.1 (λ rest. length rest.now < length words.now)) }
{
    let (name, _) = words.split_first()?;
    let count = arity(name)?;
    if words.len() <= count {
        return None;
    }
    let (group, suffix) = words.split_at(count + 1);
    match suffix.split_first() {
        None => Some((group, None)),
        Some((semicolon, rest)) if *semicolon == b";".as_slice() => Some((group, Some(rest))),
        Some(_) => None,
    }
}

/// The operations that words encode, with a semicolon between two.
pub(crate) fn operations_of(
    alloc: Global,
    words: &[&[u8]],
) -> Result<Vec<Operation>, OrNoMemory<LineFault>>
    ensures { Answers (λ all. all.items) result (operations_of (bytes_of words.now)) }
{
    // Most requests have one operation.
    let mut operations = Vec::with_capacity(alloc, 1)?;
    let mut left = Some(words);
    while let Some(words) = left {
        let (group, suffix) = match first_group(words) {
            Some(first) => first,
            None => return Err(OrNoMemory::Fault(LineFault::NoReading)),
        };
        match operation_of(alloc, group) {
            Ok(operation) => operations.push(operation)?,
            Err(stop) => return Err(stop),
        }
        left = suffix;
    }
    Ok(operations)
}
