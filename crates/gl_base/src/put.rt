//! Fields written after what a list of bytes holds. Numbers are written with their least
//! significant byte first. Running out of memory leaves the list as it was.

ghost use Rattle.std.specs.Prelude.{◌≡◌, [], ◌∷◌, ◌++◌, ◌^◌, ◌<◌, take, OnOk, OnErr};
ghost use Rattle.gl_base.specs.LittleEndian.{little_endian};
ghost use Rattle.gl_base.specs.Code.{flag_byte};
ghost use Rattle.gl_base.specs.Field.{IsWidth, FitsWidth, field_encoding};

use std::alloc::AllocError;

#[tactic(auto, unfolding(crate::specs::LittleEndian::little_endian))]
pub fn put_u8(out: &mut Vec<u8>, value: u8) -> Result<(), AllocError>
    ensures put { OnOk result (out.new.items ≡ out.old.items ++ little_endian 1 value) }
    ensures kept { OnErr result (out.new.items ≡ out.old.items) }
{
    out.push(value)?;
    Ok(())
}

#[tactic(auto, unfolding(crate::specs::LittleEndian::little_endian))]
pub fn put_u16(out: &mut Vec<u8>, value: u16) -> Result<(), AllocError>
    ensures put { OnOk result (out.new.items ≡ out.old.items ++ little_endian 2 value) }
    ensures kept { OnErr result (out.new.items ≡ out.old.items) }
{
    out.extend_from_slice(&value.to_le_bytes())
}

#[tactic(auto, unfolding(crate::specs::LittleEndian::little_endian))]
pub fn put_u32(out: &mut Vec<u8>, value: u32) -> Result<(), AllocError>
    ensures put { OnOk result (out.new.items ≡ out.old.items ++ little_endian 4 value) }
    ensures kept { OnErr result (out.new.items ≡ out.old.items) }
{
    out.extend_from_slice(&value.to_le_bytes())
}

/// A byte 0 for no, or 1 for yes.
pub fn put_flag(out: &mut Vec<u8>, value: bool) -> Result<(), AllocError>
    ensures put { OnOk result (out.new.items ≡ out.old.items ++ flag_byte value ∷ []) }
    ensures kept { OnErr result (out.new.items ≡ out.old.items) }
{
    out.push(if value { 1 } else { 0 })?;
    Ok(())
}

/// A number of six bytes.
#[tactic(auto, unfolding(crate::specs::LittleEndian::little_endian))]
pub fn put_u48(out: &mut Vec<u8>, value: u64) -> Result<(), AllocError>
    requires { value < 2 ^ 48 }
    ensures put { OnOk result (out.new.items ≡ out.old.items ++ little_endian 6 value) }
    ensures kept { OnErr result (out.new.items ≡ out.old.items) }
{
    let bytes = value.to_le_bytes();
    let (low, _) = bytes.split_at(6);
    out.extend_from_slice(low)
}

#[tactic(auto, unfolding(crate::specs::LittleEndian::little_endian))]
pub fn put_u64(out: &mut Vec<u8>, value: u64) -> Result<(), AllocError>
    ensures put { OnOk result (out.new.items ≡ out.old.items ++ little_endian 8 value) }
    ensures kept { OnErr result (out.new.items ≡ out.old.items) }
{
    out.extend_from_slice(&value.to_le_bytes())
}

/// The bytes alone, without their length.
pub fn put_bytes(out: &mut Vec<u8>, value: &[u8]) -> Result<(), AllocError>
    ensures put { OnOk result (out.new.items ≡ out.old.items ++ value.now) }
    ensures kept { OnErr result (out.new.items ≡ out.old.items) }
{
    out.extend_from_slice(value)
}

/// Takes back what was written after the first `before` bytes, if that failed.
pub(crate) fn undo_on_err(
    out: &mut Vec<u8>,
    before: usize,
    written: Result<(), AllocError>,
) -> Result<(), AllocError>
    ensures same { result ≡ written }
    ensures ok { OnOk written (out.new.items ≡ out.old.items) }
    ensures err { OnErr written (out.new.items ≡ take before out.old.items) }
{
    if written.is_err() {
        out.truncate(before);
    }
    written
}

/// Writes bytes after those of their length.
fn put_sized(out: &mut Vec<u8>, len: &[u8], bytes: &[u8]) -> Result<(), AllocError>
    ensures put { OnOk result (out.new.items ≡ out.old.items ++ (len.now ++ bytes.now)) }
    ensures kept { OnErr result (out.new.items ≡ out.old.items) }
{
    let before = out.len();
    out.extend_from_slice(len)?;
    let written = out.extend_from_slice(bytes);
    undo_on_err(out, before, written)
}

/// Bytes after their length of `width` bits (8, 16 or 32). With the width 0 there is no length.
#[tactic(auto, unfolding(crate::specs::LittleEndian::little_endian))]
pub fn put_field(out: &mut Vec<u8>, width: u32, value: &[u8]) -> Result<(), AllocError>
    requires width { IsWidth width }
    requires fits { FitsWidth width value.now }
    ensures put { OnOk result (out.new.items ≡ out.old.items ++ field_encoding width value.now) }
    ensures kept { OnErr result (out.new.items ≡ out.old.items) }
{
    match width {
        0 => put_bytes(out, value),
        8 => put_sized(out, &[value.len() as u8], value),
        16 => put_sized(out, &(value.len() as u16).to_le_bytes(), value),
        _ => put_sized(out, &(value.len() as u32).to_le_bytes(), value),
    }
}
