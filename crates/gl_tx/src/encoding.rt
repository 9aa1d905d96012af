//! The bytes of requests and replies. Numbers have their least significant byte first, and bytes of
//! no fixed length stand after their length.

ghost use Rattle.std.specs.Prelude.{◌≡◌, ◌<◌, ◌^◌, ◌∷◌, ◌++◌, length, OnOk, IfOk};
ghost use Rattle.std.specs.List.{flat_map};
ghost use Rattle.std.specs.Option.{option_copied};
ghost use Rattle.gl_base.specs.Row.{map_name_bytes, key_bytes, optional_value_bytes};
ghost use Rattle.gl_tx.specs.Request.{operation_bytes, request_bytes, answer_bytes, reply_bytes};

use crate::request::{Answer, Operation, Reply, Request};
use gl_base::{put_key, put_map_name, put_optional_value, put_u16, put_u64, put_value};
use gl_vmaps::{Key, MapName, Value};
use std::alloc::{AllocError, Global};

/// A byte 0 where no value is expected, and else a byte 1 and the value.
fn put_expected(out: &mut Vec<u8>, expected: Option<&Value>) -> Result<(), AllocError>
    ensures { OnOk result (out.new.items
        ≡ out.old.items ++ optional_value_bytes (option_copied expected.entry)) }
{
    put_optional_value(out, expected.map(|value| value.as_slice()))
}

/// Writes a tag, a map's name and a key.
fn put_row(out: &mut Vec<u8>, tag: u8, map: &MapName, key: &Key) -> Result<(), AllocError>
    ensures { OnOk result (out.new.items
        ≡ out.old.items ++ ((tag ∷ map_name_bytes map.now) ++ key_bytes key.now)) }
{
    out.push(tag)?;
    put_map_name(out, map.as_slice())?;
    put_key(out, key.as_slice())
}

fn put_operation(out: &mut Vec<u8>, operation: &Operation) -> Result<(), AllocError>
    ensures { OnOk result (out.new.items ≡ out.old.items ++ operation_bytes operation.now) }
{
    match operation {
        Operation::Get { map, key } => put_row(out, 1, map, key),
        Operation::Has { map, key } => put_row(out, 2, map, key),
        Operation::Put { map, key, value } => {
            put_row(out, 3, map, key)?;
            put_value(out, value.as_slice())
        }
        Operation::Remove { map, key } => put_row(out, 4, map, key),
        Operation::Add { map, key, amount } => {
            put_row(out, 5, map, key)?;
            put_u64(out, *amount)
        }
        Operation::Check { map, key, expected } => {
            put_row(out, 6, map, key)?;
            put_expected(out, expected.as_ref())
        }
        Operation::Follow { map, key, target } => {
            put_row(out, 7, map, key)?;
            put_map_name(out, target.as_slice())
        }
        Operation::Size { map } => {
            out.push(8)?;
            put_map_name(out, map.as_slice())
        }
    }
}

fn put_operations(out: &mut Vec<u8>, operations: &[Operation]) -> Result<(), AllocError>
    ensures { OnOk result (out.new.items
        ≡ out.old.items ++ flat_map operation_bytes operations.now) }
{
    for operation in operations {
        put_operation(out, operation)?;
    }
    Ok(())
}

fn put_answer(out: &mut Vec<u8>, answer: &Answer) -> Result<(), AllocError>
    ensures { OnOk result (out.new.items ≡ out.old.items ++ answer_bytes answer.now) }
{
    match answer {
        Answer::Done => out.push(0)?,
        Answer::None => out.push(1)?,
        Answer::Value(value) => {
            out.push(2)?;
            put_value(out, value.as_slice())?;
        }
        Answer::No => out.push(3)?,
        Answer::Yes => out.push(4)?,
        Answer::Number(number) => {
            out.push(5)?;
            put_u64(out, *number)?;
        }
    }
    Ok(())
}

fn put_answers(out: &mut Vec<u8>, answers: &[Answer]) -> Result<(), AllocError>
    ensures { OnOk result (out.new.items ≡ out.old.items ++ flat_map answer_bytes answers.now) }
{
    for answer in answers {
        put_answer(out, answer)?;
    }
    Ok(())
}

impl Request {
    /// The request's bytes. They are fewer than 2^32.
    pub fn encode(&self, alloc: Global) -> Result<Vec<u8>, AllocError>
        ensures bytes { IfOk result (λ bytes. bytes.items ≡ request_bytes self.now) }
        ensures few { IfOk result (λ bytes. length bytes.items < 2 ^ 32) }
    {
        let operations = self.as_slice();
        let mut out = Vec::new(alloc);
        put_u16(&mut out, operations.len() as u16)?;
        put_operations(&mut out, operations)?;
        Ok(out)
    }
}

impl Reply {
    /// The reply's bytes. They are fewer than 2^32.
    pub fn encode(&self, alloc: Global) -> Result<Vec<u8>, AllocError>
        ensures bytes { IfOk result (λ bytes. bytes.items ≡ reply_bytes self.now) }
        ensures few { IfOk result (λ bytes. length bytes.items < 2 ^ 32) }
    {
        let answers = self.as_slice();
        let mut out = Vec::new(alloc);
        put_u16(&mut out, answers.len() as u16)?;
        put_answers(&mut out, answers)?;
        Ok(out)
    }
}
