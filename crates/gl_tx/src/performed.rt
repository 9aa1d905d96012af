//! One operation of a request.

ghost use Rattle.std.specs.Prelude.{◌≡◌, ◌+◌, None, Some, Ok, IsTrue, IfOk};
ghost use Rattle.std.specs.Option.{ForSome, option_copied};
ghost use Rattle.gl_base.specs.Answers.{Answers};
ghost use Rattle.gl_base.specs.LittleEndian.{little_endian};
ghost use Rattle.gl_vmaps.specs.Name.{is_value};
ghost use Rattle.gl_tx.specs.Sees.{has_key, seen_after};
ghost use Rattle.gl_tx.specs.Run.{yes_or_no, value_or_none, add_result, check_result, follow_result, bar_on_map, bar_on, answer_only, answer_and_write, on_seen, perform_result};
ghost use Rattle.gl_vmaps.specs.Tables.{same_value};
ghost use Rattle.gl_tx.specs.Performs.{key_of, number_in, sum_of};

use crate::abort::Cause;
use crate::lookup::Lookup;
use crate::overlay::Overlay;
use crate::request::{Answer, Operation};
use gl_base::{OrNoMemory, put_u64};
use gl_vmaps::{Key, MapName, Value, Write};
use std::alloc::{AllocError, Global};

/// What an operation that was done comes to.
#[derive(Debug, Drop)]
pub struct Performed {
    /// What the operation answers.
    pub answer: Answer,
    /// The write that it makes, if it makes one.
    pub write: Option<Write>,
}

/// Why no request may name a map, if there is a reason.
fn bar_on_map(map: &[u8]) -> Option<Cause>
    ensures { result ≡ bar_on_map map.now }
{
    if !map.starts_with(b"public:".as_slice()) {
        Some(Cause::NotPublic)
    } else if map.starts_with(b"public:ccf.gov.".as_slice())
        || map.starts_with(b"public:ccf.internal.".as_slice())
    {
        Some(Cause::Reserved)
    } else {
        None
    }
}

/// Why an operation fails before it looks at any table, if it does: that of the first of its maps
/// that no request may name.
pub fn bar_on(operation: &Operation) -> Option<Cause>
    ensures { result ≡ bar_on operation.now }
{
    match operation {
        Operation::Get { map, .. }
        | Operation::Has { map, .. }
        | Operation::Put { map, .. }
        | Operation::Remove { map, .. }
        | Operation::Add { map, .. }
        | Operation::Check { map, .. }
        | Operation::Size { map } => bar_on_map(map.as_slice()),
        Operation::Follow { map, target, .. } => {
            bar_on_map(map.as_slice()).or(bar_on_map(target.as_slice()))
        }
    }
}

/// An answer, and nothing written.
fn answer_only(answer: Answer) -> Performed
    ensures { answer_only answer ≡ Ok result }
{
    Performed {
        answer,
        write: None,
    }
}

/// An answer, and a row set to a value or removed.
fn answer_and_write(
    alloc: Global,
    answer: Answer,
    map: &MapName,
    key: &Key,
    value: Option<Value>,
) -> Result<Performed, AllocError>
    ensures { IfOk result (λ done. answer_and_write answer map.now key.now value ≡ Ok done) }
{
    let write = Write {
        map: map.copy(alloc)?,
        key: key.copy(alloc)?,
        value,
    };
    Ok(Performed {
        answer,
        write: Some(write),
    })
}

fn yes_or_no(yes: bool) -> Answer
    ensures { result ≡ yes_or_no yes }
{
    if yes { Answer::Yes } else { Answer::No }
}

fn value_or_none(alloc: Global, value: Option<&[u8]>) -> Result<Answer, AllocError>
    requires { ForSome value (λ value. IsTrue (is_value value.now)) }
    ensures { IfOk result (λ answer. answer ≡ value_or_none (option_copied value.entry)) }
{
    match value {
        None => Ok(Answer::None),
        Some(value) => Ok(Answer::Value(Value::of(Vec::from_slice(alloc, value)?))),
    }
}

/// The number that a row holds: 8 bytes, the lowest first. An absent row counts as 0.
fn number_in(value: Option<&[u8]>) -> Result<u64, Cause>
    ensures { result ≡ number_in (option_copied value.entry) }
{
    match value {
        None => Ok(0),
        Some(value) => match value.as_array::<8>() {
            None => Err(Cause::NotNumber),
            Some(bytes) => Ok(u64::from_le_bytes(*bytes)),
        },
    }
}

fn get<L: Lookup>(
    alloc: Global,
    overlay: &Overlay<'_, L>,
    map: &MapName,
    key: &Key,
) -> Result<Performed, OrNoMemory<Cause>>
    ensures { let sees = seen_after (L.sees overlay.now.base.now) overlay.now.writes in
        Answers (λ done. done) result (answer_only (value_or_none (sees.value map.now key.now))) }
{
    let value = overlay.get(map.as_slice(), key.as_slice());
    Ok(answer_only(value_or_none(alloc, value)?))
}

fn has<L: Lookup>(overlay: &Overlay<'_, L>, map: &MapName, key: &Key) -> Performed
    ensures { let sees = seen_after (L.sees overlay.now.base.now) overlay.now.writes in
        answer_only (yes_or_no (has_key sees map.now key.now)) ≡ Ok result }
{
    answer_only(yes_or_no(overlay.has(map.as_slice(), key.as_slice())))
}

fn put(
    alloc: Global,
    map: &MapName,
    key: &Key,
    value: &Value,
) -> Result<Performed, OrNoMemory<Cause>>
    ensures { Answers (λ done. done) result
        (answer_and_write Answer.Done map.now key.now (Some value.now)) }
{
    let value = value.copy(alloc)?;
    Ok(answer_and_write(alloc, Answer::Done, map, key, Some(value))?)
}

fn remove<L: Lookup>(
    alloc: Global,
    overlay: &Overlay<'_, L>,
    map: &MapName,
    key: &Key,
) -> Result<Performed, OrNoMemory<Cause>>
    ensures { let sees = seen_after (L.sees overlay.now.base.now) overlay.now.writes in
        Answers (λ done. done) result
        (answer_and_write (yes_or_no (has_key sees map.now key.now)) map.now key.now None) }
{
    let there = overlay.has(map.as_slice(), key.as_slice());
    Ok(answer_and_write(alloc, yes_or_no(there), map, key, None)?)
}

/// The value that encodes a number: 8 bytes, the lowest first.
fn value_of(alloc: Global, number: u64) -> Result<Value, AllocError>
    ensures { IfOk result (λ value. value ≡ little_endian 8 number) }
{
    let mut bytes = Vec::new(alloc);
    put_u64(&mut bytes, number)?;
    Ok(Value::of(bytes))
}

fn sum_of(number: u64, amount: u64) -> Result<u64, Cause>
    ensures { result ≡ sum_of (number + amount) }
{
    number.checked_add(amount).ok_or(Cause::Overflow)
}

fn add<L: Lookup>(
    alloc: Global,
    overlay: &Overlay<'_, L>,
    map: &MapName,
    key: &Key,
    amount: u64,
) -> Result<Performed, OrNoMemory<Cause>>
    ensures { let sees = seen_after (L.sees overlay.now.base.now) overlay.now.writes in
        Answers (λ done. done) result
        (add_result map.now key.now amount (sees.value map.now key.now)) }
{
    let number = number_in(overlay.get(map.as_slice(), key.as_slice()))?;
    let sum = sum_of(number, amount)?;
    let value = value_of(alloc, sum)?;
    Ok(answer_and_write(alloc, Answer::Number(sum), map, key, Some(value))?)
}

/// Whether the value, or its absence, is the one that is expected.
fn same_value(expected: Option<&Value>, value: Option<&[u8]>) -> bool
    ensures { result ≡ same_value (option_copied expected.entry) (option_copied value.entry) }
{
    match (expected, value) {
        (None, None) => true,
        (Some(expected), Some(value)) => expected.as_slice() == value,
        _ => false,
    }
}

fn check<L: Lookup>(
    overlay: &Overlay<'_, L>,
    map: &MapName,
    key: &Key,
    expected: Option<&Value>,
) -> Result<Performed, OrNoMemory<Cause>>
    ensures { let sees = seen_after (L.sees overlay.now.base.now) overlay.now.writes in
        Answers (λ done. done) result (check_result
        (same_value (option_copied expected.entry) (sees.value map.now key.now))) }
{
    let value = overlay.get(map.as_slice(), key.as_slice());
    if same_value(expected, value) {
        Ok(answer_only(Answer::Done))
    } else {
        Err(OrNoMemory::Fault(Cause::Check))
    }
}

/// The key that a value is, if it is one.
fn key_of(alloc: Global, value: &[u8]) -> Result<Key, OrNoMemory<Cause>>
    ensures { Answers (λ key. key) result (key_of value.now) }
{
    match Key::new(Vec::from_slice(alloc, value)?) {
        Some(key) => Ok(key),
        None => Err(OrNoMemory::Fault(Cause::BadKey)),
    }
}

fn follow<L: Lookup>(
    alloc: Global,
    overlay: &Overlay<'_, L>,
    map: &MapName,
    key: &Key,
    target: &MapName,
) -> Result<Performed, OrNoMemory<Cause>>
    ensures { let sees = seen_after (L.sees overlay.now.base.now) overlay.now.writes in
        Answers (λ done. done) result (follow_result sees target.now (sees.value map.now key.now)) }
{
    match overlay.get(map.as_slice(), key.as_slice()) {
        None => Ok(answer_only(Answer::None)),
        Some(value) => {
            let key = key_of(alloc, value)?;
            get(alloc, overlay, target, &key)
        }
    }
}

fn size<L: Lookup>(overlay: &Overlay<'_, L>, map: &MapName) -> Performed
    ensures { let sees = seen_after (L.sees overlay.now.base.now) overlay.now.writes in
        answer_only (Answer.Number (sees.size map.now)) ≡ Ok result }
{
    answer_only(Answer::Number(overlay.size(map.as_slice())))
}

/// Performs an operation on maps that it may name.
fn perform_allowed<L: Lookup>(
    alloc: Global,
    overlay: &Overlay<'_, L>,
    operation: &Operation,
) -> Result<Performed, OrNoMemory<Cause>>
    ensures { let sees = seen_after (L.sees overlay.now.base.now) overlay.now.writes in
        Answers (λ done. done) result (on_seen sees operation.now) }
{
    match operation {
        Operation::Get { map, key } => get(alloc, overlay, map, key),
        Operation::Has { map, key } => Ok(has(overlay, map, key)),
        Operation::Put { map, key, value } => put(alloc, map, key, value),
        Operation::Remove { map, key } => remove(alloc, overlay, map, key),
        Operation::Add { map, key, amount } => add(alloc, overlay, map, key, *amount),
        Operation::Check { map, key, expected } => check(overlay, map, key, expected.as_ref()),
        Operation::Follow { map, key, target } => follow(alloc, overlay, map, key, target),
        Operation::Size { map } => Ok(size(overlay, map)),
    }
}

/// What an operation answers and writes on what it sees, or why it fails. The write is for the
/// caller to put after what the next operation sees.
pub fn perform<L: Lookup>(
    alloc: Global,
    overlay: &Overlay<'_, L>,
    operation: &Operation,
) -> Result<Performed, OrNoMemory<Cause>>
    ensures { let sees = seen_after (L.sees overlay.now.base.now) overlay.now.writes in
        Answers (λ done. done) result (perform_result operation.now sees) }
{
    match bar_on(operation) {
        Some(cause) => Err(OrNoMemory::Fault(cause)),
        None => perform_allowed(alloc, overlay, operation),
    }
}
