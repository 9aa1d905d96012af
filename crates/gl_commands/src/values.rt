//! The values of faults.

ghost use Rattle.std.specs.Prelude.{◌≡◌, ◌++◌, OnOk, codes, decimal};
ghost use Rattle.hex.specs.Hex.{encode_lower};
ghost use Rattle.gl_commands.specs.Texts.{bad_action_text, form_text, nodes_text, path_text};

use gl_base::{FormsFault, Pointer};
use itoa::Buffer;
use std::alloc::{AllocError, Global};

/// A number in decimal.
pub fn put_number(out: &mut Vec<u8>, n: u64) -> Result<(), AllocError>
    ensures { OnOk result (out.new.items ≡ out.old.items ++ decimal n) }
{
    out.extend_from_slice(Buffer::new().format(n).as_bytes())
}

/// Two numbers, a space between them.
pub fn put_numbers(out: &mut Vec<u8>, first: u64, second: u64) -> Result<(), AllocError>
    ensures { OnOk result (out.new.items
        ≡ out.old.items ++ (decimal first ++ codes " " ++ decimal second)) }
{
    put_number(out, first)?;
    out.extend_from_slice(b" ")?;
    put_number(out, second)
}

/// Bytes in lower-case hexadecimal.
pub fn put_hex(alloc: Global, out: &mut Vec<u8>, bytes: &[u8]) -> Result<(), AllocError>
    ensures { OnOk result (out.new.items ≡ out.old.items ++ encode_lower bytes.now) }
{
    out.extend_from_slice(hex::encode(alloc, bytes)?.as_bytes())
}

/// A JSON pointer (RFC 6901), and that of the whole text as a full stop.
fn put_path(out: &mut Vec<u8>, path: &Pointer) -> Result<(), AllocError>
    ensures { OnOk result (out.new.items ≡ out.old.items ++ path_text path.now) }
{
    match path.as_slice() {
        [] => out.extend_from_slice(b"."),
        path => out.extend_from_slice(path),
    }
}

/// Why JSON isn't what was wanted.
pub fn put_form(out: &mut Vec<u8>, fault: &FormsFault) -> Result<(), AllocError>
    ensures { OnOk result (out.new.items ≡ out.old.items ++ form_text fault.now) }
{
    match fault {
        FormsFault::NotJson => out.extend_from_slice(b"NotJson"),
        FormsFault::Shape { path } => {
            out.extend_from_slice(b"Shape ")?;
            put_path(out, path)
        }
        FormsFault::Hex { path } => {
            out.extend_from_slice(b"Hex ")?;
            put_path(out, path)
        }
    }
}

/// Two digests, a space between them.
pub(crate) fn put_digests(
    alloc: Global,
    out: &mut Vec<u8>,
    want: &[u8; 32],
    got: &[u8; 32],
) -> Result<(), AllocError>
    ensures { OnOk result (out.new.items
        ≡ out.old.items ++ (encode_lower want.now ++ codes " " ++ encode_lower got.now)) }
{
    put_hex(alloc, out, want)?;
    out.extend_from_slice(b" ")?;
    put_hex(alloc, out, got)
}

/// A name with a space after it, and a number.
pub fn put_named(out: &mut Vec<u8>, name: &str, n: u64) -> Result<(), AllocError>
    ensures { OnOk result (out.new.items ≡ out.old.items ++ (name.now ++ decimal n)) }
{
    out.extend_from_slice(name.as_bytes())?;
    put_number(out, n)
}

/// The identifier of a first node that is wanted, and that of the key that was found.
pub fn put_nodes(
    alloc: Global,
    out: &mut Vec<u8>,
    want: &[u8; 32],
    got: &[u8; 32],
) -> Result<(), AllocError>
    ensures { OnOk result (out.new.items ≡ out.old.items ++ nodes_text want.now got.now) }
{
    out.extend_from_slice(b"NotFirstNode ")?;
    put_digests(alloc, out, want, got)
}

/// That the action of a proposal with this number is bad, and the number of the cause. 0 stands for
/// what founds a service.
pub fn put_bad_action(out: &mut Vec<u8>, index: u64, cause: u8) -> Result<(), AllocError>
    ensures { OnOk result (out.new.items ≡ out.old.items ++ bad_action_text index cause) }
{
    out.extend_from_slice(b"BadAction ")?;
    put_numbers(out, index, u64::from(cause))
}
