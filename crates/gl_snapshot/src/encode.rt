//! The bytes of a snapshot.

ghost use Rattle.std.specs.Prelude.{◌≡◌, ◌++◌, ◌&&◌, ◌^◌, ◌<◌, ◌≤◌, IfOk, IsTrue, OnOk, length, nat_le, option_map};
ghost use Rattle.gl_base.specs.Field.{with_u32_length};
ghost use Rattle.gl_entry.specs.Entry.{frame_bytes, is_entry};
ghost use Rattle.gl_snapshot_body.specs.Body.{body_bytes, is_counted, snapshot_limit};
ghost use Rattle.gl_snapshot.specs.Snapshot.{spelled};

use crate::decode::NO_LIMIT;
use crate::snapshot::Snapshot;
use gl_base::{put_field, put_u32};
use gl_entry::Entry;
use gl_receipt::write_receipt;
use gl_snapshot_body::{Body, SNAPSHOT_LIMIT, put_body};
use std::alloc::{AllocError, Global};

/// Whether the body can be encoded, and is within its limit.
fn body_fits(body: &Body) -> bool
    ensures { result ≡ (is_counted body.now
        && nat_le (length (body_bytes body.now)) snapshot_limit) }
{
    body.is_counted() && body.body_len() <= SNAPSHOT_LIMIT
}

/// Writes the bytes of a body after their length.
fn put_sized_body(out: &mut Vec<u8>, body: &Body) -> Result<(), AllocError>
    requires counted { IsTrue (is_counted body.now) }
    requires within { length (body_bytes body.now) ≤ snapshot_limit }
    ensures { OnOk result (out.new.items ≡ out.old.items ++ with_u32_length (body_bytes body.now)) }
{
    put_u32(out, body.body_len() as u32)?;
    put_body(out, body)
}

/// The three parts, for which memory is taken once.
#[tactic(auto, using(crate::proofs::Sizes::frame_within))]
fn parts(alloc: Global, body: &Body, text: &[u8], entry: &Entry) -> Result<Vec<u8>, AllocError>
    requires counted { IsTrue (is_counted body.now) }
    requires within { length (body_bytes body.now) ≤ snapshot_limit }
    requires text { length text.now < 2 ^ 32 }
    requires entry { IsTrue (is_entry entry.now) }
    ensures { IfOk result (λ bytes. bytes.items ≡ with_u32_length (body_bytes body.now)
        ++ with_u32_length text.now ++ with_u32_length (frame_bytes entry.now)) }
{
    let frame = entry.encode(alloc)?;
    let mut out = Vec::new(alloc);
    out.reserve(12 + body.body_len() as usize + text.len() + frame.len())?;
    put_sized_body(&mut out, body)?;
    put_field(&mut out, 32, text)?;
    put_field(&mut out, 32, &frame)?;
    Ok(out)
}

impl Snapshot {
    /// The bytes of the snapshot. There are none where a part can't be encoded: where four bytes
    /// don't hold a count of the body or the length of the receipt's text, where the body is above
    /// its limit, or where the entry isn't in the form of the frames.
    pub fn spell(&self, alloc: Global) -> Result<Option<Vec<u8>>, AllocError>
        ensures { IfOk result (λ bytes. option_map (λ b. b.items) bytes ≡ spelled self.now) }
    {
        if !body_fits(&self.body) || !self.entry.fits() {
            return Ok(None);
        }
        let text = write_receipt(alloc, &self.receipt)?;
        if text.len() as u64 > NO_LIMIT {
            return Ok(None);
        }
        Ok(Some(parts(alloc, &self.body, &text, &self.entry)?))
    }
}
