//! A map's name, a key and a value, written after what a list of bytes holds. Running out of memory
//! leaves the list as it was.

ghost use Rattle.std.specs.Prelude.{◌≡◌, ◌++◌, ◌^◌, ◌<◌, ◌≤◌, length, OnOk, OnErr};
ghost use Rattle.std.specs.Option.{ForSome, option_copied};
ghost use Rattle.gl_base.specs.Row.{map_name_limit, key_limit, map_name_bytes, key_bytes, value_bytes, optional_value_bytes};

use crate::put::{put_field, undo_on_err};
use std::alloc::AllocError;

/// A map's name after its length of one byte.
pub fn put_map_name(out: &mut Vec<u8>, name: &[u8]) -> Result<(), AllocError>
    requires { length name.now ≤ map_name_limit }
    ensures put { OnOk result (out.new.items ≡ out.old.items ++ map_name_bytes name.now) }
    ensures kept { OnErr result (out.new.items ≡ out.old.items) }
{
    put_field(out, 8, name)
}

/// A key after its length of two bytes.
pub fn put_key(out: &mut Vec<u8>, key: &[u8]) -> Result<(), AllocError>
    requires { length key.now ≤ key_limit }
    ensures put { OnOk result (out.new.items ≡ out.old.items ++ key_bytes key.now) }
    ensures kept { OnErr result (out.new.items ≡ out.old.items) }
{
    put_field(out, 16, key)
}

/// A value after its length of four bytes.
pub fn put_value(out: &mut Vec<u8>, value: &[u8]) -> Result<(), AllocError>
    requires { length value.now < 2 ^ 32 }
    ensures put { OnOk result (out.new.items ≡ out.old.items ++ value_bytes value.now) }
    ensures kept { OnErr result (out.new.items ≡ out.old.items) }
{
    put_field(out, 32, value)
}

/// A byte 0 where there is no value, and else a byte 1 and the value.
pub fn put_optional_value(out: &mut Vec<u8>, value: Option<&[u8]>) -> Result<(), AllocError>
    requires { ForSome value (λ v. length v.now < 2 ^ 32) }
    ensures put { OnOk result
        (out.new.items ≡ out.old.items ++ optional_value_bytes (option_copied value.entry)) }
    ensures kept { OnErr result (out.new.items ≡ out.old.items) }
{
    match value {
        None => Ok(out.push(0)?),
        Some(value) => {
            let before = out.len();
            out.push(1)?;
            let written = put_value(out, value);
            undo_on_err(out, before, written)
        }
    }
}
