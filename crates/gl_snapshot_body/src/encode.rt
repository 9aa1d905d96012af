//! The bytes of a body, written after what a list of bytes holds.

ghost use Rattle.std.specs.Prelude.{◌≡◌, ◌++◌, ◌^◌, ◌<◌, List, OnOk, OnErr, IsTrue, length, take};
ghost use Rattle.std.specs.List.{flat_map};
ghost use Rattle.gl_base.specs.LittleEndian.{little_endian};
ghost use Rattle.gl_snapshot_body.specs.Body.{start_bytes, counted_bytes, row_bytes, head_bytes, body_bytes, body_with, is_counted};
ghost use Rattle.gl_vmaps.specs.declared.row.Row.{Row as RowValue};

use crate::body::{Body, BodyHead, Digest, ViewStart};
use gl_base::{put_bytes, put_key, put_map_name, put_u32, put_u64, put_value};
use gl_vmaps::Row;
use std::alloc::AllocError;

// Where memory runs out, what the list held before still stands at its start.

#[tactic(auto, using(crate::proofs::Begun::begun))]
fn put_start(out: &mut Vec<u8>, start: &ViewStart) -> Result<(), AllocError>
    ensures put { OnOk result (out.new.items ≡ out.old.items ++ start_bytes start.now) }
    ensures begun { OnErr result (take (length out.old.items) out.new.items ≡ out.old.items) }
{
    put_u32(out, start.view)?;
    put_u64(out, start.seqno)
}

#[tactic(auto, using(crate::proofs::Begun::begun))]
fn put_starts(out: &mut Vec<u8>, starts: &[ViewStart]) -> Result<(), AllocError>
    ensures put { OnOk result (out.new.items ≡ out.old.items ++ flat_map start_bytes starts.now) }
    ensures begun { OnErr result (take (length out.old.items) out.new.items ≡ out.old.items) }
{
    for start in starts {
        put_start(out, start)?;
    }
    Ok(())
}

#[tactic(auto, using(crate::proofs::Begun::begun))]
fn put_digests(out: &mut Vec<u8>, peaks: &[Digest]) -> Result<(), AllocError>
    ensures put { OnOk result (out.new.items ≡ out.old.items ++ flat_map (λ peak. peak) peaks.now) }
    ensures begun { OnErr result (take (length out.old.items) out.new.items ≡ out.old.items) }
{
    for peak in peaks {
        put_bytes(out, peak)?;
    }
    Ok(())
}

#[tactic(auto, using(crate::proofs::Begun::begun))]
fn put_row(out: &mut Vec<u8>, row: &Row) -> Result<(), AllocError>
    ensures put { OnOk result (out.new.items ≡ out.old.items ++ row_bytes row.now) }
    ensures begun { OnErr result (take (length out.old.items) out.new.items ≡ out.old.items) }
{
    put_map_name(out, row.map.as_slice())?;
    put_key(out, row.key.as_slice())?;
    put_value(out, row.value.as_slice())
}

#[tactic(auto, using(crate::proofs::Begun::begun))]
fn put_rows(out: &mut Vec<u8>, rows: &[Row]) -> Result<(), AllocError>
    ensures put { OnOk result (out.new.items ≡ out.old.items ++ flat_map row_bytes rows.now) }
    ensures begun { OnErr result (take (length out.old.items) out.new.items ≡ out.old.items) }
{
    for row in rows {
        put_row(out, row)?;
    }
    Ok(())
}

#[tactic(auto, using(crate::proofs::Begun::begun))]
fn put_numbers(out: &mut Vec<u8>, head: &BodyHead<'_>) -> Result<(), AllocError>
    ensures put { OnOk result (out.new.items ≡ out.old.items
        ++ (little_endian 8 head.now.base ++ little_endian 4 head.now.view
        ++ little_endian 8 head.now.commit)) }
    ensures begun { OnErr result (take (length out.old.items) out.new.items ≡ out.old.items) }
{
    put_u64(out, head.base)?;
    put_u32(out, head.view)?;
    put_u64(out, head.commit)
}

/// Writes the starts of the views after their count.
#[tactic(auto, using(crate::proofs::Begun::begun))]
fn put_views(out: &mut Vec<u8>, views: &[ViewStart]) -> Result<(), AllocError>
    requires { length views.now < 2 ^ 32 }
    ensures put { OnOk result
        (out.new.items ≡ out.old.items ++ counted_bytes start_bytes views.now) }
    ensures begun { OnErr result (take (length out.old.items) out.new.items ≡ out.old.items) }
{
    put_u32(out, views.len() as u32)?;
    put_starts(out, views)
}

/// Writes the peaks after their count.
#[tactic(auto, using(crate::proofs::Begun::begun))]
fn put_peaks(out: &mut Vec<u8>, peaks: &[Digest]) -> Result<(), AllocError>
    requires { length peaks.now < 2 ^ 32 }
    ensures put { OnOk result
        (out.new.items ≡ out.old.items ++ counted_bytes (λ peak. peak) peaks.now) }
    ensures begun { OnErr result (take (length out.old.items) out.new.items ≡ out.old.items) }
{
    put_u32(out, peaks.len() as u32)?;
    put_digests(out, peaks)
}

/// Writes what stands before so many rows.
#[tactic(auto, using(crate::proofs::Begun::begun_twice))]
pub(crate) fn put_head(out: &mut Vec<u8>, head: &BodyHead<'_>, count: u32) -> Result<(), AllocError>
    requires views { length head.now.views.now < 2 ^ 32 }
    requires peaks { length head.now.peaks.now < 2 ^ 32 }
    ensures put { OnOk result ((rows : List RowValue) → length rows ≡ count →
        out.new.items ≡ out.old.items ++ head_bytes (body_with head.now rows)) }
    ensures begun { OnErr result (take (length out.old.items) out.new.items ≡ out.old.items) }
{
    put_numbers(out, head)?;
    put_views(out, head.views)?;
    put_peaks(out, head.peaks)?;
    put_u32(out, count)
}

#[tactic(auto, using(crate::proofs::Begun::begun))]
fn put_all(out: &mut Vec<u8>, body: &Body) -> Result<(), AllocError>
    requires { IsTrue (is_counted body.now) }
    ensures put { OnOk result (out.new.items ≡ out.old.items ++ body_bytes body.now) }
    ensures begun { OnErr result (take (length out.old.items) out.new.items ≡ out.old.items) }
{
    put_head(out, &body.head(), body.rows.as_slice().len() as u32)?;
    put_rows(out, body.rows.as_slice())
}

/// Writes the bytes of a body, for which the list grows once. Running out of memory leaves it as it
/// was.
pub fn put_body(out: &mut Vec<u8>, body: &Body) -> Result<(), AllocError>
    requires { IsTrue (is_counted body.now) }
    ensures put { OnOk result (out.new.items ≡ out.old.items ++ body_bytes body.now) }
    ensures kept { OnErr result (out.new.items ≡ out.old.items) }
{
    out.reserve(body.body_len() as usize)?;
    let before = out.len();
    let written = put_all(out, body);
    if written.is_err() {
        out.truncate(before);
    }
    written
}
