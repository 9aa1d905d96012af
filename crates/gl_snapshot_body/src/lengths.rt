//! How many bytes bodies have, and where their rows stand, of which none are made.

ghost use Rattle.std.specs.Prelude.{◌≡◌, ◌+◌, ◌*◌, ◌^◌, ◌<◌, ◌≤◌, ◌&&◌, List, IsTrue, length, nat_lt, take};
ghost use Rattle.std.specs.List.{flat_map};
ghost use Rattle.gl_snapshot_body.specs.Body.{row_bytes, head_bytes, body_bytes, body_with, is_counted, row_place};
ghost use Rattle.gl_vmaps.specs.Name.{is_map_name, is_key, is_value};
ghost use Rattle.gl_vmaps.specs.declared.row.Row.{Row as RowValue};

use crate::body::{Body, BodyHead, Digest};
use gl_vmaps::Row;

// A map's name has at most 128 bytes, a key 1024 and a value 65,536.
#[tactic(auto, using(crate::proofs::Sizes::field_size))]
pub(crate) fn fields_len(map: &[u8], key: &[u8], value: &[u8]) -> u64
    requires map { IsTrue (is_map_name map.now) }
    requires key { IsTrue (is_key key.now) }
    requires value { IsTrue (is_value value.now) }
    ensures exact { result ≡
        length (row_bytes (record { map = map.now; key = key.now; value = value.now })) }
    ensures least { 1 ≤ result }
    ensures limit { result ≤ 66695 }
{
    (map.len() + key.len()) as u64 + value.len() as u64 + 7
}

fn row_len(row: &Row) -> u64
    ensures exact { result ≡ length (row_bytes row.now) }
    ensures limit { result ≤ 66695 }
{
    fields_len(row.map.as_slice(), row.key.as_slice(), row.value.as_slice())
}

fn rows_len(rows: &[Row]) -> u64
    requires { length rows.now < 2 ^ 32 }
    ensures exact { result ≡ length (flat_map row_bytes rows.now) }
    ensures limit { result ≤ length rows.now * 66695 }
{
    let mut len = 0;
    for row in rows {
        len += row_len(row);
    }
    len
}

fn peaks_len(peaks: &[Digest]) -> u64
    requires { length peaks.now < 2 ^ 32 }
    ensures exact { result ≡ length (flat_map (λ peak. peak) peaks.now) }
    ensures limit { result ≤ length peaks.now * 32 }
{
    let mut len = 0;
    for peak in peaks {
        len += peak.as_slice().len() as u64;
    }
    len
}

#[tactic(auto, using(crate::proofs::Sizes::head_size))]
pub(crate) fn head_len(head: &BodyHead<'_>) -> u64
    requires views { length head.now.views.now < 2 ^ 32 }
    requires peaks { length head.now.peaks.now < 2 ^ 32 }
    ensures exact { (rows : List RowValue) →
        result ≡ length (head_bytes (body_with head.now rows)) }
    ensures limit { result < 2 ^ 48 }
{
    32 + head.views.len() as u64 * 12 + peaks_len(head.peaks)
}

/// Whether four bytes hold this count.
fn is_count(count: usize) -> bool
    ensures { result ≡ nat_lt count (2 ^ 32) }
{
    (count as u64) < 1 << 32
}

impl<'a> BodyHead<'a> {
    /// Whether four bytes hold each of the counts, of views and peaks.
    pub(crate) fn is_counted(&self) -> bool
        ensures { result ≡
            (nat_lt (length self.now.views.now) (2 ^ 32)
            && nat_lt (length self.now.peaks.now) (2 ^ 32)) }
    {
        is_count(self.views.len()) && is_count(self.peaks.len())
    }
}

impl Body {
    /// Whether four bytes hold each of the counts, of views, peaks and rows.
    pub fn is_counted(&self) -> bool
        ensures { result ≡ is_counted self.now }
    {
        is_count(self.views.len())
            && is_count(self.peaks.len())
            && is_count(self.rows.as_slice().len())
    }

    /// How many bytes the body has.
    pub fn body_len(&self) -> u64
        requires { IsTrue (is_counted self.now) }
        ensures exact { result ≡ length (body_bytes self.now) }
        ensures limit { result < 2 ^ 50 }
    {
        head_len(&self.head()) + rows_len(self.rows.as_slice())
    }

    /// The place of the row with this index, counted from 0, where the body begins at a place. With
    /// the number of the rows as index, it is the place at which the body ends.
    pub fn row_place(&self, at: usize, index: usize) -> usize
        requires counted { IsTrue (is_counted self.now) }
        requires index { index ≤ length self.now.rows }
        requires fits { at + length (body_bytes self.now) < 2 ^ 64 }
        ensures { result ≡ row_place at self.now index }
    {
        at + head_len(&self.head()) as usize + rows_len(&self.rows.as_slice()[..index]) as usize
    }
}
