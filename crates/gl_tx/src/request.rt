//! What an application asks of the tables, and what it is answered.

ghost use Rattle.std.specs.Prelude.{◌≡◌, IsTrue, IfOk};
ghost use Rattle.std.specs.List.{list_all};
ghost use Rattle.gl_tx.specs.Request.{is_row, is_operation, is_answer};

use gl_vmaps::{Key, MapName, Value};
use std::alloc::{AllocError, Global};
use std::marker::Model;

/// One step of a request, on the tables that earlier steps left. Only maps that are public and not
/// reserved may be named.
#[derive(Debug, Drop)]
pub enum Operation {
    /// Asks for the value of a key.
    Get {
        map: MapName,
        key: Key,
    },
    /// Asks whether a map has a key.
    Has {
        map: MapName,
        key: Key,
    },
    /// Sets the value of a key, also where it has that value already.
    Put {
        map: MapName,
        key: Key,
        value: Value,
    },
    /// Removes a key, and reports whether it was there.
    Remove {
        map: MapName,
        key: Key,
    },
    /// Adds to a number of 8 bytes, the lowest first, and tells the sum. An absent key counts as 0.
    Add {
        map: MapName,
        key: Key,
        amount: u64,
    },
    /// Fails unless the key has this value, or none.
    Check {
        map: MapName,
        key: Key,
        expected: Option<Value>,
    },
    /// Asks for the value whose key in the map `target` is the value of this key.
    Follow {
        map: MapName,
        key: Key,
        target: MapName,
    },
    /// Asks for the number of keys of a map.
    Size {
        map: MapName,
    },
}

fn is_row(map: &MapName, key: &Key) -> bool
    ensures value { result ≡ is_row map.now key.now }
    ensures always { IsTrue result }
{
    MapName::is_valid(map.as_slice()) && Key::is_valid(key.as_slice())
}

/// A map's name and a key in memory of their own.
fn copy_row(alloc: Global, map: &MapName, key: &Key) -> Result<(MapName, Key), AllocError>
    ensures { IfOk result (λ row. row ≡ (map.now, key.now)) }
{
    Ok((map.copy(alloc)?, key.copy(alloc)?))
}

impl Operation {
    ghost use Rattle.std.specs.Prelude.{◌≡◌, IsTrue, IfOk};
    ghost use Rattle.gl_tx.specs.Request.{is_operation};

    /// Whether the names, the key and the value are within their limits, as they always are.
    fn is_valid(&self) -> bool
        ensures value { result ≡ is_operation self.now }
        ensures always { IsTrue result }
    {
        match self {
            Operation::Get { map, key }
            | Operation::Has { map, key }
            | Operation::Remove { map, key } => is_row(map, key),
            Operation::Put { map, key, value } => {
                is_row(map, key) && Value::is_valid(value.as_slice())
            }
            Operation::Add { map, key, amount } => {
                let _any = *amount;
                is_row(map, key)
            }
            Operation::Check { map, key, expected } => {
                is_row(map, key)
                    && expected
                        .as_ref()
                        .is_none_or(|value| Value::is_valid(value.as_slice()))
            }
            Operation::Follow { map, key, target } => {
                is_row(map, key) && MapName::is_valid(target.as_slice())
            }
            Operation::Size { map } => MapName::is_valid(map.as_slice()),
        }
    }

    /// The same operation in memory of its own. Fails only where memory runs out.
    pub fn copy(&self, alloc: Global) -> Result<Self, AllocError>
        ensures { IfOk result (λ operation. operation ≡ self.now) }
    {
        match self {
            Operation::Get { map, key } => {
                let (map, key) = copy_row(alloc, map, key)?;
                Ok(Operation::Get { map, key })
            }
            Operation::Has { map, key } => {
                let (map, key) = copy_row(alloc, map, key)?;
                Ok(Operation::Has { map, key })
            }
            Operation::Put { map, key, value } => {
                let (map, key) = copy_row(alloc, map, key)?;
                let value = value.copy(alloc)?;
                Ok(Operation::Put { map, key, value })
            }
            Operation::Remove { map, key } => {
                let (map, key) = copy_row(alloc, map, key)?;
                Ok(Operation::Remove { map, key })
            }
            Operation::Add { map, key, amount } => {
                let (map, key) = copy_row(alloc, map, key)?;
                Ok(Operation::Add {
                    map,
                    key,
                    amount: *amount,
                })
            }
            Operation::Check { map, key, expected } => {
                let (map, key) = copy_row(alloc, map, key)?;
                let expected = match expected {
                    None => None,
                    Some(value) => Some(value.copy(alloc)?),
                };
                Ok(Operation::Check { map, key, expected })
            }
            Operation::Follow { map, key, target } => {
                let (map, key) = copy_row(alloc, map, key)?;
                let target = target.copy(alloc)?;
                Ok(Operation::Follow { map, key, target })
            }
            Operation::Size { map } => Ok(Operation::Size {
                map: map.copy(alloc)?,
            }),
        }
    }
}

fn are_operations(operations: &[Operation]) -> bool
    ensures value { result ≡ list_all is_operation operations.now }
    ensures always { IsTrue result }
{
    operations.iter().all(|operation| operation.is_valid())
}

/// What an operation answers.
#[derive(Debug, Drop)]
pub enum Answer {
    /// The operation was done, and has nothing to tell.
    Done,
    /// There is no value.
    None,
    Value(Value),
    No,
    Yes,
    Number(u64),
}

impl Answer {
    ghost use Rattle.std.specs.Prelude.{◌≡◌, IsTrue, IfOk};
    ghost use Rattle.gl_tx.specs.Request.{is_answer};

    /// Whether the value is within its limit, as it always is.
    fn is_valid(&self) -> bool
        ensures value { result ≡ is_answer self.now }
        ensures always { IsTrue result }
    {
        match self {
            Answer::Value(value) => Value::is_valid(value.as_slice()),
            Answer::Number(number) => {
                let _any = *number;
                true
            }
            Answer::Done | Answer::None | Answer::No | Answer::Yes => true,
        }
    }

    /// The same answer in memory of its own. Fails only where memory runs out.
    pub fn copy(&self, alloc: Global) -> Result<Self, AllocError>
        ensures { IfOk result (λ answer. answer ≡ self.now) }
    {
        match self {
            Answer::Done => Ok(Answer::Done),
            Answer::None => Ok(Answer::None),
            Answer::Value(value) => Ok(Answer::Value(value.copy(alloc)?)),
            Answer::No => Ok(Answer::No),
            Answer::Yes => Ok(Answer::Yes),
            Answer::Number(number) => Ok(Answer::Number(*number)),
        }
    }
}

fn are_answers(answers: &[Answer]) -> bool
    ensures value { result ≡ list_all is_answer answers.now }
    ensures always { IsTrue result }
{
    answers.iter().all(|answer| answer.is_valid())
}

/// A request of an application: 1 to 64 operations, run in order.
#[derive(Debug, Drop)]
pub struct Request {
    operations: Vec<Operation>,
}

impl Model for Request {
    ghost use Rattle.std.specs.Prelude.{List, IsTrue};
    ghost use Rattle.gl_tx.specs.Request.{is_request};
    ghost use Rattle.gl_tx.specs.declared.request.Operation.{Operation};

    ghost Value = { List Operation };

    ghost view = { λ r. r.operations.items };

    ghost invariant = { λ r. IsTrue (is_request r.operations.items) };
}

impl Request {
    ghost use Rattle.std.specs.Prelude.{◌≡◌, ◌↔◌, IsTrue, IsSome, IfSome, IfOk, length};
    ghost use Rattle.gl_tx.specs.Request.{is_count, is_request};

    /// The request of these operations. `None` where there are none, or more than 64.
    pub fn new(operations: Vec<Operation>) -> Option<Self>
        ensures valid { IsSome result ↔ IsTrue (is_count (length operations.items)) }
        ensures value { IfSome result (λ request. request ≡ operations.items) }
    {
        if operations.is_empty() || operations.len() > 64 {
            None
        } else {
            Some(Request::of(operations))
        }
    }

    /// The request of operations that are known to be few enough.
    pub(crate) fn of(operations: Vec<Operation>) -> Self
        requires { IsTrue (is_count (length operations.items)) }
        ensures { result ≡ operations.items }
    {
        prove!(are_operations(&operations));
        Request { operations }
    }

    /// The same request in memory of its own. Fails only where memory runs out.
    pub fn copy(&self, alloc: Global) -> Result<Self, AllocError>
        ensures { IfOk result (λ request. request ≡ self.now) }
    {
        let mut operations = Vec::new(alloc);
        for operation in &self.operations {
            operations.push(operation.copy(alloc)?)?;
        }
        Ok(Request { operations })
    }

    /// The operations, in order.
    pub fn as_slice(&self) -> &[Operation]
        ensures value { result.now ≡ self.now }
        ensures valid { IsTrue (is_request self.now) }
    {
        &self.operations
    }
}

/// What a request answers: one answer for each of its 1 to 64 operations, in order.
#[derive(Debug, Drop)]
pub struct Reply {
    answers: Vec<Answer>,
}

impl Model for Reply {
    ghost use Rattle.std.specs.Prelude.{List, IsTrue};
    ghost use Rattle.gl_tx.specs.Request.{is_reply};
    ghost use Rattle.gl_tx.specs.declared.request.Answer.{Answer};

    ghost Value = { List Answer };

    ghost view = { λ r. r.answers.items };

    ghost invariant = { λ r. IsTrue (is_reply r.answers.items) };
}

impl Reply {
    ghost use Rattle.std.specs.Prelude.{◌≡◌, ◌↔◌, IsTrue, IsSome, IfSome, IfOk, length};
    ghost use Rattle.gl_tx.specs.Request.{is_count, is_reply};

    /// The reply of these answers. `None` where there are none, or more than 64.
    pub fn new(answers: Vec<Answer>) -> Option<Self>
        ensures valid { IsSome result ↔ IsTrue (is_count (length answers.items)) }
        ensures value { IfSome result (λ reply. reply ≡ answers.items) }
    {
        if answers.is_empty() || answers.len() > 64 {
            None
        } else {
            Some(Reply::of(answers))
        }
    }

    /// The reply of answers that are known to be few enough.
    pub(crate) fn of(answers: Vec<Answer>) -> Self
        requires { IsTrue (is_count (length answers.items)) }
        ensures { result ≡ answers.items }
    {
        prove!(are_answers(&answers));
        Reply { answers }
    }

    /// The same reply in memory of its own. Fails only where memory runs out.
    pub fn copy(&self, alloc: Global) -> Result<Self, AllocError>
        ensures { IfOk result (λ reply. reply ≡ self.now) }
    {
        let mut answers = Vec::new(alloc);
        for answer in &self.answers {
            answers.push(answer.copy(alloc)?)?;
        }
        Ok(Reply { answers })
    }

    /// The answers, in the order of the operations.
    pub fn as_slice(&self) -> &[Answer]
        ensures value { result.now ≡ self.now }
        ensures valid { IsTrue (is_reply self.now) }
    {
        &self.answers
    }
}
