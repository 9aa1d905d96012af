//! Requests and replies read from bytes.

ghost use Rattle.std.specs.Prelude.{◌≡◌, List, IsTrue, IfOk, Ok};
ghost use Rattle.gl_base.specs.Answers.{Answers};
ghost use Rattle.gl_base.specs.Row.{map_name_at, key_at, value_at, optional_value_at};
ghost use Rattle.gl_vmaps.specs.Name.{value_limit};
ghost use Rattle.gl_tx.specs.Request.{is_request, is_reply, request_bytes, reply_bytes};
ghost use Rattle.gl_tx.specs.Parsing.{row_at, get_at, has_at, put_at, remove_at, add_at, check_at, follow_at, size_at, operation_at, operations_at, count_at, request_at, request_of, answer_at, answers_at, reply_at, reply_of};
ghost use Rattle.gl_tx.specs.declared.request.Operation.{Operation};
ghost use Rattle.gl_tx.specs.declared.request.Answer.{Answer};

use crate::request::{Answer, Operation, Reply, Request};
use gl_base::{CodeFault, Cut, OrNoMemory};
use gl_vmaps::{Key, MapName, VALUE_LIMIT, Value};
use std::alloc::Global;

fn read_map(alloc: Global, cut: &mut Cut<'_>) -> Result<MapName, OrNoMemory<CodeFault>>
    ensures { Answers (λ map. (map, cut.new)) result (map_name_at cut.old) }
{
    let name = cut.map_name()?;
    Ok(MapName::from_slice(alloc, name)?)
}

fn read_key(alloc: Global, cut: &mut Cut<'_>) -> Result<Key, OrNoMemory<CodeFault>>
    ensures { Answers (λ key. (key, cut.new)) result (key_at cut.old) }
{
    let key = cut.key()?;
    Ok(Key::from_slice(alloc, key)?)
}

fn read_value(alloc: Global, cut: &mut Cut<'_>) -> Result<Value, OrNoMemory<CodeFault>>
    ensures { Answers (λ value. (value, cut.new)) result (value_at value_limit cut.old) }
{
    let value = cut.value(VALUE_LIMIT as u64)?;
    Ok(Value::from_slice(alloc, value)?)
}

fn read_optional_value(
    alloc: Global,
    cut: &mut Cut<'_>,
) -> Result<Option<Value>, OrNoMemory<CodeFault>>
    ensures { Answers (λ value. (value, cut.new)) result
        (optional_value_at value_limit cut.old) }
{
    match cut.optional_value(VALUE_LIMIT as u64)? {
        None => Ok(None),
        Some(value) => Ok(Some(Value::from_slice(alloc, value)?)),
    }
}

/// Reads a map's name and a key.
#[tactic(auto, unfolding(crate::specs::Parsing::row_at))]
fn read_row(alloc: Global, cut: &mut Cut<'_>) -> Result<(MapName, Key), OrNoMemory<CodeFault>>
    ensures { Answers (λ row. (row, cut.new)) result (row_at cut.old) }
{
    let map = read_map(alloc, cut)?;
    let key = read_key(alloc, cut)?;
    Ok((map, key))
}

#[tactic(auto, unfolding(crate::specs::Parsing::get_at))]
fn read_get(alloc: Global, cut: &mut Cut<'_>) -> Result<Operation, OrNoMemory<CodeFault>>
    ensures { Answers (λ operation. (operation, cut.new)) result (get_at cut.old) }
{
    let (map, key) = read_row(alloc, cut)?;
    Ok(Operation::Get { map, key })
}

#[tactic(auto, unfolding(crate::specs::Parsing::has_at))]
fn read_has(alloc: Global, cut: &mut Cut<'_>) -> Result<Operation, OrNoMemory<CodeFault>>
    ensures { Answers (λ operation. (operation, cut.new)) result (has_at cut.old) }
{
    let (map, key) = read_row(alloc, cut)?;
    Ok(Operation::Has { map, key })
}

#[tactic(auto, unfolding(crate::specs::Parsing::put_at))]
fn read_put(alloc: Global, cut: &mut Cut<'_>) -> Result<Operation, OrNoMemory<CodeFault>>
    ensures { Answers (λ operation. (operation, cut.new)) result (put_at cut.old) }
{
    let (map, key) = read_row(alloc, cut)?;
    let value = read_value(alloc, cut)?;
    Ok(Operation::Put { map, key, value })
}

#[tactic(auto, unfolding(crate::specs::Parsing::remove_at))]
fn read_remove(alloc: Global, cut: &mut Cut<'_>) -> Result<Operation, OrNoMemory<CodeFault>>
    ensures { Answers (λ operation. (operation, cut.new)) result (remove_at cut.old) }
{
    let (map, key) = read_row(alloc, cut)?;
    Ok(Operation::Remove { map, key })
}

#[tactic(auto, unfolding(crate::specs::Parsing::add_at))]
fn read_add(alloc: Global, cut: &mut Cut<'_>) -> Result<Operation, OrNoMemory<CodeFault>>
    ensures { Answers (λ operation. (operation, cut.new)) result (add_at cut.old) }
{
    let (map, key) = read_row(alloc, cut)?;
    let amount = cut.u64()?;
    Ok(Operation::Add { map, key, amount })
}

#[tactic(auto, unfolding(crate::specs::Parsing::check_at))]
fn read_check(alloc: Global, cut: &mut Cut<'_>) -> Result<Operation, OrNoMemory<CodeFault>>
    ensures { Answers (λ operation. (operation, cut.new)) result (check_at cut.old) }
{
    let (map, key) = read_row(alloc, cut)?;
    let expected = read_optional_value(alloc, cut)?;
    Ok(Operation::Check { map, key, expected })
}

#[tactic(auto, unfolding(crate::specs::Parsing::follow_at))]
fn read_follow(alloc: Global, cut: &mut Cut<'_>) -> Result<Operation, OrNoMemory<CodeFault>>
    ensures { Answers (λ operation. (operation, cut.new)) result (follow_at cut.old) }
{
    let (map, key) = read_row(alloc, cut)?;
    let target = read_map(alloc, cut)?;
    Ok(Operation::Follow { map, key, target })
}

#[tactic(auto, unfolding(crate::specs::Parsing::size_at))]
fn read_size(alloc: Global, cut: &mut Cut<'_>) -> Result<Operation, OrNoMemory<CodeFault>>
    ensures { Answers (λ operation. (operation, cut.new)) result (size_at cut.old) }
{
    let map = read_map(alloc, cut)?;
    Ok(Operation::Size { map })
}

/// Reads a tag, and the operation after it.
#[tactic(auto, unfolding(crate::specs::Parsing::operation_at))]
fn read_operation(alloc: Global, cut: &mut Cut<'_>) -> Result<Operation, OrNoMemory<CodeFault>>
    ensures { Answers (λ operation. (operation, cut.new)) result (operation_at cut.old) }
{
    let place = cut.at();
    match cut.u8()? {
        1 => read_get(alloc, cut),
        2 => read_has(alloc, cut),
        3 => read_put(alloc, cut),
        4 => read_remove(alloc, cut),
        5 => read_add(alloc, cut),
        6 => read_check(alloc, cut),
        7 => read_follow(alloc, cut),
        8 => read_size(alloc, cut),
        _ => Err(OrNoMemory::Fault(CodeFault::Value { at: place })),
    }
}

fn read_operations(
    alloc: Global,
    count: u16,
    cut: &mut Cut<'_>,
) -> Result<Vec<Operation>, OrNoMemory<CodeFault>>
    ensures { Answers (λ operations. (operations.items, cut.new)) result
        (operations_at count cut.old) }
{
    let mut operations = Vec::new(alloc);
    for _ in 0..count {
        operations.push(read_operation(alloc, cut)?)?;
    }
    Ok(operations)
}

/// Reads a count from 1 to 64.
#[tactic(auto, unfolding(crate::specs::Parsing::count_at))]
fn read_count(cut: &mut Cut<'_>) -> Result<u16, OrNoMemory<CodeFault>>
    ensures { Answers (λ count. (count, cut.new)) result (count_at cut.old) }
{
    let place = cut.at();
    let count = cut.u16()?;
    if count < 1 || count > 64 {
        return Err(OrNoMemory::Fault(CodeFault::Value { at: place }));
    }
    Ok(count)
}

#[tactic(auto, unfolding(crate::specs::Parsing::request_at))]
fn read_request(alloc: Global, cut: &mut Cut<'_>) -> Result<Vec<Operation>, OrNoMemory<CodeFault>>
    ensures { Answers (λ operations. (operations.items, cut.new)) result (request_at cut.old) }
{
    let count = read_count(cut)?;
    read_operations(alloc, count, cut)
}

fn read_whole_request(alloc: Global, bytes: &[u8]) -> Result<Request, OrNoMemory<CodeFault>>
    ensures { Answers (λ request. request) result (request_of bytes.now) }
{
    let mut cut = Cut::new(bytes);
    let operations = read_request(alloc, &mut cut)?;
    cut.end()?;
    Ok(Request::of(operations))
}

impl Request {
    /// The request that the bytes encode, all of them.
    pub fn decode(alloc: Global, bytes: &[u8]) -> Result<Self, OrNoMemory<CodeFault>>
        // What is read is encoded so.
        ensures found { IfOk result (λ request.
            IsTrue (is_request request) × (bytes.now ≡ request_bytes request)) }
        // What is encoded so is read, unless memory runs out.
        ensures only { (operations : List Operation) → IsTrue (is_request operations) →
            bytes.now ≡ request_bytes operations →
            Answers (λ request. request) result (Ok operations) }
        // Which fault it is.
        ensures exact { Answers (λ request. request) result (request_of bytes.now) }
    {
        read_whole_request(alloc, bytes)
    }
}

#[tactic(auto, unfolding(crate::specs::Parsing::answer_at))]
fn read_answer(alloc: Global, cut: &mut Cut<'_>) -> Result<Answer, OrNoMemory<CodeFault>>
    ensures { Answers (λ answer. (answer, cut.new)) result (answer_at cut.old) }
{
    let place = cut.at();
    match cut.u8()? {
        0 => Ok(Answer::Done),
        1 => Ok(Answer::None),
        2 => Ok(Answer::Value(read_value(alloc, cut)?)),
        3 => Ok(Answer::No),
        4 => Ok(Answer::Yes),
        5 => Ok(Answer::Number(cut.u64()?)),
        _ => Err(OrNoMemory::Fault(CodeFault::Value { at: place })),
    }
}

fn read_answers(
    alloc: Global,
    count: u16,
    cut: &mut Cut<'_>,
) -> Result<Vec<Answer>, OrNoMemory<CodeFault>>
    ensures { Answers (λ answers. (answers.items, cut.new)) result (answers_at count cut.old) }
{
    let mut answers = Vec::new(alloc);
    for _ in 0..count {
        answers.push(read_answer(alloc, cut)?)?;
    }
    Ok(answers)
}

#[tactic(auto, unfolding(crate::specs::Parsing::reply_at))]
fn read_reply(alloc: Global, cut: &mut Cut<'_>) -> Result<Vec<Answer>, OrNoMemory<CodeFault>>
    ensures { Answers (λ answers. (answers.items, cut.new)) result (reply_at cut.old) }
{
    let count = read_count(cut)?;
    read_answers(alloc, count, cut)
}

fn read_whole_reply(alloc: Global, bytes: &[u8]) -> Result<Reply, OrNoMemory<CodeFault>>
    ensures { Answers (λ reply. reply) result (reply_of bytes.now) }
{
    let mut cut = Cut::new(bytes);
    let answers = read_reply(alloc, &mut cut)?;
    cut.end()?;
    Ok(Reply::of(answers))
}

impl Reply {
    /// The reply that the bytes encode, all of them.
    pub fn decode(alloc: Global, bytes: &[u8]) -> Result<Self, OrNoMemory<CodeFault>>
        // What is read is encoded so.
        ensures found { IfOk result (λ reply.
            IsTrue (is_reply reply) × (bytes.now ≡ reply_bytes reply)) }
        // What is encoded so is read, unless memory runs out.
        ensures only { (answers : List Answer) → IsTrue (is_reply answers) →
            bytes.now ≡ reply_bytes answers →
            Answers (λ reply. reply) result (Ok answers) }
        // Which fault it is.
        ensures exact { Answers (λ reply. reply) result (reply_of bytes.now) }
    {
        read_whole_reply(alloc, bytes)
    }
}
