//! Where a JSON text differs from the form that is wanted.

ghost use Rattle.std.specs.Prelude.{◌≡◌, ◌++◌, ◌∷◌, [], OnOk, OnErr, take, vec_len};
ghost use Rattle.gl_base.specs.Json.{escaped_byte, escaped, member_of, item_of};
ghost use Rattle.gl_base.specs.declared.or_no_memory.OrNoMemory.TheVariants.{Fault};

use crate::or_no_memory::OrNoMemory;
use crate::put::undo_on_err;
use itoa::Buffer;
use std::alloc::{AllocError, Global};
use std::marker::Model;
use thiserror::Error;

/// The path of a value in a JSON text: a JSON pointer (RFC 6901), which contracts see as its text.
#[derive(Debug, Drop)]
pub struct Pointer {
    text: Vec<u8>,
}

impl Model for Pointer {
    ghost use Rattle.std.specs.Prelude.{ℕ, List};

    ghost Value = { List ℕ };

    ghost view = { λ p. p.text.items };
}

fn put_escaped_byte(out: &mut Vec<u8>, byte: u8) -> Result<(), AllocError>
    ensures put { OnOk result (out.new.items ≡ out.old.items ++ escaped_byte byte) }
    ensures kept { OnErr result (out.new.items ≡ out.old.items) }
{
    match byte {
        b'~' => out.extend_from_slice(b"~0"),
        b'/' => out.extend_from_slice(b"~1"),
        other => Ok(out.push(other)?),
    }
}

/// Writes a name with `~` as `~0` and `/` as `~1` (RFC 6901, section 3). What was written before
/// memory ran out stays.
fn put_escaped(out: &mut Vec<u8>, name: &[u8]) -> Result<(), AllocError>
    ensures put { OnOk result (out.new.items ≡ out.old.items ++ escaped name.now) }
    ensures prefix { take (vec_len out.old) out.new.items ≡ out.old.items }
{
    for byte in name {
        put_escaped_byte(out, *byte)?;
    }
    Ok(())
}

fn put_member(out: &mut Vec<u8>, name: &[u8]) -> Result<(), AllocError>
    ensures put { OnOk result (out.new.items ≡ member_of out.old.items name.now) }
    ensures prefix { take (vec_len out.old) out.new.items ≡ out.old.items }
{
    out.push(b'/')?;
    put_escaped(out, name)
}

fn put_item(out: &mut Vec<u8>, index: u64) -> Result<(), AllocError>
    ensures put { OnOk result (out.new.items ≡ item_of out.old.items index) }
    ensures prefix { take (vec_len out.old) out.new.items ≡ out.old.items }
{
    let mut buffer = Buffer::new();
    out.push(b'/')?;
    out.extend_from_slice(buffer.format(index).as_bytes())
}

impl Pointer {
    /// The pointer of the whole text, which is empty.
    pub fn new(alloc: Global) -> Pointer
        ensures { result ≡ [] }
    {
        Pointer {
            text: Vec::new(alloc),
        }
    }

    /// The text.
    pub fn as_slice(&self) -> &[u8]
        ensures { result.now ≡ self.now }
    {
        &self.text
    }

    /// Goes on to a member of the object that it points to.
    pub fn push_member(&mut self, name: &[u8]) -> Result<(), AllocError>
        ensures put { OnOk result (self.new ≡ member_of self.old name.now) }
        ensures kept { OnErr result (self.new ≡ self.old) }
    {
        let before = self.text.len();
        let written = put_member(&mut self.text, name);
        undo_on_err(&mut self.text, before, written)
    }

    /// Goes on to an element, counted from 0, of the array that it points to.
    pub fn push_item(&mut self, index: u64) -> Result<(), AllocError>
        ensures put { OnOk result (self.new ≡ item_of self.old index) }
        ensures kept { OnErr result (self.new ≡ self.old) }
    {
        let before = self.text.len();
        let written = put_item(&mut self.text, index);
        undo_on_err(&mut self.text, before, written)
    }
}

impl PartialEq for Pointer {
    ghost use Rattle.std.specs.Prelude.{nat_eq};
    ghost use Rattle.std.specs.Cmp.Lexicographic.{pointwise};
    ghost use Rattle.std.specs.Cmp.Rules.{comparing};
    ghost use Rattle.std.proofs.Common.{rules};

    ghost eq = { pointwise nat_eq };

    ghost laws = { Prim.search (comparing, rules) };

    fn eq(&self, other: &Pointer) -> bool {
        self.text == other.text
    }
}

impl Eq for Pointer {
    ghost use Rattle.std.specs.Cmp.Rules.{comparing};
    ghost use Rattle.std.proofs.Common.{rules};

    ghost laws = { Prim.search (comparing, rules) };
}

/// Why a text is not the JSON form of a value.
#[derive(Debug, Drop, PartialEq, Eq, Error)]
pub enum FormsFault {
    /// The text is no JSON.
    #[error("the text is no JSON")]
    NotJson,
    /// The value at this path has another shape: another type, a member too few or too many, or a
    /// number out of its range.
    #[error("a value has another shape")]
    Shape { path: Pointer },
    /// The text at this path is not lower-case hexadecimal of its length.
    #[error("a text is not the hexadecimal that is wanted")]
    Hex { path: Pointer },
}

impl From<FormsFault> for OrNoMemory<FormsFault> {
    ghost from_gives = { λ fault e. e ≡ Fault fault };

    fn from(fault: FormsFault) -> OrNoMemory<FormsFault> {
        OrNoMemory::Fault(fault)
    }
}
