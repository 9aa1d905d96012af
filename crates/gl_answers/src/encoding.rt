//! The bytes of a refusal's values.

ghost use Rattle.std.specs.Prelude.{◌≡◌, ◌+◌, ◌*◌, ◌≤◌, ◌++◌, length, IfOk, OnOk};
ghost use Rattle.gl_base.specs.Field.{with_u32_length};
ghost use Rattle.gl_base.specs.LittleEndian.{little_endian};
ghost use Rattle.gl_answers.specs.Encoding.{most_bytes, value_bytes, values_bytes};

use crate::value::Value;
use gl_base::{put_field, put_u64};
use std::alloc::{AllocError, Global};

/// What was written before memory ran out stays.
fn put_number(out: &mut Vec<u8>, number: u64) -> Result<(), AllocError>
    ensures put { OnOk result (out.new.items ≡ out.old.items ++ little_endian 8 number) }
    ensures within { OnOk result (length out.new.items ≤ length out.old.items + most_bytes) }
{
    put_u64(out, number)
}

/// Bytes after their length. What was written before memory ran out stays.
fn put_sized(out: &mut Vec<u8>, bytes: &[u8]) -> Result<(), AllocError>
    requires { length bytes.now ≤ 32 }
    ensures put { OnOk result (out.new.items ≡ out.old.items ++ with_u32_length bytes.now) }
    ensures within { OnOk result (length out.new.items ≤ length out.old.items + most_bytes) }
{
    put_field(out, 32, bytes)
}

fn put_value(out: &mut Vec<u8>, value: &Value) -> Result<(), AllocError>
    ensures put { OnOk result (out.new.items ≡ out.old.items ++ value_bytes value.now) }
    ensures within { OnOk result (length out.new.items ≤ length out.old.items + most_bytes) }
{
    match value {
        Value::Number(number) => put_number(out, *number),
        Value::Digest(digest) => put_sized(out, digest),
        Value::Leader(Some(leader)) => put_sized(out, leader),
        Value::Leader(None) => put_sized(out, &[]),
    }
}

/// The bytes of values, one after the other: 36 at most for each of them.
pub fn values_bytes(alloc: Global, values: &[Value]) -> Result<Vec<u8>, AllocError>
    ensures bytes { IfOk result (λ bytes. bytes.items ≡ values_bytes values.now) }
    ensures within { IfOk result (λ bytes.
        length bytes.items ≤ length values.now * most_bytes) }
{
    let mut out = Vec::new(alloc);
    for value in values {
        put_value(&mut out, value)?;
    }
    Ok(out)
}
