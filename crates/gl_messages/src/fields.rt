//! The fields that messages are made of.

ghost use Rattle.std.specs.Prelude.{◌≡◌, ◌++◌, ◌≤◌, length, OnOk};
ghost use Rattle.gl_base.specs.Bytes.{mebibyte};
ghost use Rattle.gl_base.specs.Field.{with_u32_length};
ghost use Rattle.gl_base.specs.Answers.{Answers};
ghost use Rattle.gl_messages.specs.Fields.{sized_at, id_bytes, id_at, tag_at};

use gl_base::{Bytes, CodeFault, Cut, MEBIBYTE, OrNoMemory, TxId, put_field, put_u32, put_u64};
use std::alloc::{AllocError, Global};

#[tactic(auto, unfolding(crate::specs::Fields::sized_at))]
pub(crate) fn read_sized(alloc: Global, cut: &mut Cut<'_>) -> Result<Bytes, OrNoMemory<CodeFault>>
    ensures { Answers (λ bytes. (bytes, cut.new)) result (sized_at cut.old) }
{
    let bytes = cut.bytes(32, MEBIBYTE)?;
    Ok(Bytes::from(Vec::from_slice(alloc, bytes)?))
}

#[tactic(auto, unfolding(crate::specs::Fields::id_at))]
pub(crate) fn read_id(cut: &mut Cut<'_>) -> Result<TxId, OrNoMemory<CodeFault>>
    ensures { Answers (λ id. (id, cut.new)) result (id_at cut.old) }
{
    let view = cut.u32()?;
    let seqno = cut.u64()?;
    Ok(TxId { view, seqno })
}

/// Reads a tag from `least` to `most`.
#[tactic(auto, unfolding(crate::specs::Fields::tag_at))]
pub(crate) fn read_tag(cut: &mut Cut<'_>, least: u8, most: u8) -> Result<u8, OrNoMemory<CodeFault>>
    ensures { Answers (λ tag. (tag, cut.new)) result (tag_at least most cut.old) }
{
    let place = cut.at();
    let tag = cut.u8()?;
    if least <= tag && tag <= most {
        Ok(tag)
    } else {
        Err(OrNoMemory::Fault(CodeFault::Value { at: place }))
    }
}

/// Writes bytes after their length. What was written before memory ran out stays.
pub(crate) fn put_sized(out: &mut Vec<u8>, bytes: &Bytes) -> Result<(), AllocError>
    requires { length bytes.now ≤ mebibyte }
    ensures { OnOk result (out.new.items ≡ out.old.items ++ with_u32_length bytes.now) }
{
    put_field(out, 32, bytes.as_slice())
}

/// Writes a view and a place. What was written before memory ran out stays.
pub(crate) fn put_id(out: &mut Vec<u8>, id: TxId) -> Result<(), AllocError>
    ensures { OnOk result (out.new.items ≡ out.old.items ++ id_bytes id) }
{
    put_u32(out, id.view)?;
    put_u64(out, id.seqno)
}
