//! The digest of a body, of which no bytes are kept.

ghost use Rattle.std.specs.Prelude.{◌≡◌, ◌++◌, length};
ghost use Rattle.std.specs.List.{flat_map};
ghost use Rattle.sha2.specs.Sha256.{sha256};
ghost use Rattle.gl_base.specs.LittleEndian.{little_endian};
ghost use Rattle.gl_snapshot_body.specs.Digest.{Feeds};
ghost use Rattle.gl_snapshot_body.specs.Body.{start_bytes, counted_bytes, row_bytes, body_bytes};

use gl_entry::Digest;
use gl_snapshot_body::{Body, ViewStart, feed_row};
use gl_vmaps::Row;
use sha2::{Digest as _, Sha256};

/// Feeds the lower four bytes of a length or a count: all of it, where a body fits its format.
#[tactic(auto, unfolding(gl_base::specs::LittleEndian::little_endian))]
fn feed_len(hasher: &mut Sha256, len: usize)
    ensures { Feeds hasher.old hasher.new (little_endian 4 len) }
{
    let [a, b, c, d, ..] = (len as u64).to_le_bytes();
    hasher.update(&[a, b, c, d]);
}

#[tactic(auto, unfolding(gl_base::specs::LittleEndian::little_endian))]
fn feed_u32(hasher: &mut Sha256, number: u32)
    ensures { Feeds hasher.old hasher.new (little_endian 4 number) }
{
    hasher.update(&number.to_le_bytes());
}

#[tactic(auto, unfolding(gl_base::specs::LittleEndian::little_endian))]
fn feed_u64(hasher: &mut Sha256, number: u64)
    ensures { Feeds hasher.old hasher.new (little_endian 8 number) }
{
    hasher.update(&number.to_le_bytes());
}

fn feed_start(hasher: &mut Sha256, start: &ViewStart)
    ensures { Feeds hasher.old hasher.new (start_bytes start.now) }
{
    feed_u32(hasher, start.view);
    feed_u64(hasher, start.seqno);
}

fn feed_starts(hasher: &mut Sha256, starts: &[ViewStart])
    ensures { Feeds hasher.old hasher.new (flat_map start_bytes starts.now) }
{
    for start in starts {
        feed_start(hasher, start);
    }
}

/// Feeds the starts of the views after their count.
fn feed_views(hasher: &mut Sha256, views: &[ViewStart])
    ensures { Feeds hasher.old hasher.new (counted_bytes start_bytes views.now) }
{
    feed_len(hasher, views.len());
    feed_starts(hasher, views);
}

fn feed_digests(hasher: &mut Sha256, peaks: &[Digest])
    ensures { Feeds hasher.old hasher.new (flat_map (λ peak. peak) peaks.now) }
{
    for peak in peaks {
        hasher.update(peak);
    }
}

/// Feeds the peaks after their count.
fn feed_peaks(hasher: &mut Sha256, peaks: &[Digest])
    ensures { Feeds hasher.old hasher.new (counted_bytes (λ peak. peak) peaks.now) }
{
    feed_len(hasher, peaks.len());
    feed_digests(hasher, peaks);
}

fn feed_all(hasher: &mut Sha256, rows: &[Row])
    ensures { Feeds hasher.old hasher.new (flat_map row_bytes rows.now) }
{
    for row in rows {
        feed_row(
            hasher,
            row.map.as_slice(),
            row.key.as_slice(),
            row.value.as_slice(),
        );
    }
}

/// Feeds the rows after their count.
fn feed_rows(hasher: &mut Sha256, rows: &[Row])
    ensures { Feeds hasher.old hasher.new (counted_bytes row_bytes rows.now) }
{
    feed_len(hasher, rows.len());
    feed_all(hasher, rows);
}

fn feed_numbers(hasher: &mut Sha256, body: &Body)
    ensures { Feeds hasher.old hasher.new
        (little_endian 8 body.now.base ++ little_endian 4 body.now.view
        ++ little_endian 8 body.now.commit) }
{
    feed_u64(hasher, body.base);
    feed_u32(hasher, body.view);
    feed_u64(hasher, body.commit);
}

/// The SHA-256 digest of the bytes of a body. Takes no memory. Of a body with a count that four
/// bytes don't hold, the lower four bytes of the count stand in them.
pub fn body_digest(body: &Body) -> Digest
    ensures { result ≡ sha256 (body_bytes body.now) }
{
    let mut hasher = Sha256::new();
    feed_numbers(&mut hasher, body);
    feed_views(&mut hasher, body.views.as_slice());
    feed_peaks(&mut hasher, body.peaks.as_slice());
    feed_rows(&mut hasher, body.rows.as_slice());
    hasher.finalize()
}
