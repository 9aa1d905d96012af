//! The digest of a body, of which neither the bytes nor the rows stand in memory.

ghost use Rattle.std.specs.Prelude.{◌≡◌, ◌++◌, ◌<◌, ◌≤◌, ◌*◌, ◌^◌, length, IsTrue, IfOk};
ghost use Rattle.std.specs.List.{flat_map};
ghost use Rattle.sha2.specs.Sha256.{sha256};
ghost use Rattle.gl_base.specs.Answers.{Answers};
ghost use Rattle.gl_base.specs.Row.{map_name_limit, key_limit, map_name_bytes, key_bytes, value_bytes};
ghost use Rattle.gl_vmaps.specs.Name.{is_map_name, is_key, is_value};
ghost use Rattle.gl_snapshot_body.specs.Body.{row_bytes, body_bytes, body_with};
ghost use Rattle.gl_snapshot_body.specs.Digest.{digest_within, ForRows, Counted, Feeds};
ghost use Rattle.gl_snapshot_body.specs.Sinks.{counted_nothing, counted_further, fed_nothing, fed_further};

use crate::body::{BodyHead, Digest, SNAPSHOT_LIMIT};
use crate::encode::put_head;
use crate::lengths::{fields_len, head_len};
use gl_base::OrNoMemory;
use gl_vmaps::{RowSink, Tables};
use sha2::{Digest as _, Sha256};
use std::alloc::{AllocError, Global};

/// How many rows there are, and how many bytes they have.
#[derive(Drop)]
struct RowCount {
    rows: u64,
    bytes: u64,
    ghost least: { rows ≤ bytes },
    ghost limit: { bytes ≤ rows * 66695 },
    ghost held: { rows ≤ 2 ^ 47 },
}

/// More rows than a process can address bytes.
const ROW_LIMIT: u64 = 1 << 47;

impl RowSink for RowCount {
    ghost took = { λ old rows new. Counted (old.rows, old.bytes) rows (new.rows, new.bytes) };

    ghost nothing = { λ s. counted_nothing (s.rows, s.bytes) };

    ghost further = { λ s t u rows more first then. counted_further
        (s.rows, s.bytes) (t.rows, t.bytes) (u.rows, u.bytes) rows more first then };

    /// Counts a row. More than 2^47 rows have no place in memory.
    fn put(&mut self, map: &[u8], key: &[u8], value: &[u8]) -> Result<(), AllocError> {
        if self.rows >= ROW_LIMIT {
            return Err(AllocError);
        }
        self.rows += 1;
        self.bytes += fields_len(map, key, value);
        Ok(())
    }
}

#[tactic(auto, unfolding(gl_base::specs::LittleEndian::little_endian))]
fn feed_map_name(hasher: &mut Sha256, name: &[u8])
    requires { length name.now ≤ map_name_limit }
    ensures { Feeds hasher.old hasher.new (map_name_bytes name.now) }
{
    hasher.update(&[name.len() as u8]);
    hasher.update(name);
}

#[tactic(auto, unfolding(gl_base::specs::LittleEndian::little_endian))]
fn feed_key(hasher: &mut Sha256, key: &[u8])
    requires { length key.now ≤ key_limit }
    ensures { Feeds hasher.old hasher.new (key_bytes key.now) }
{
    hasher.update(&(key.len() as u16).to_le_bytes());
    hasher.update(key);
}

#[tactic(auto, unfolding(gl_base::specs::LittleEndian::little_endian))]
fn feed_value(hasher: &mut Sha256, value: &[u8])
    requires { length value.now < 2 ^ 32 }
    ensures { Feeds hasher.old hasher.new (value_bytes value.now) }
{
    hasher.update(&(value.len() as u32).to_le_bytes());
    hasher.update(value);
}

/// Feeds the bytes of a row.
pub fn feed_row(hasher: &mut Sha256, map: &[u8], key: &[u8], value: &[u8])
    requires map { IsTrue (is_map_name map.now) }
    requires key { IsTrue (is_key key.now) }
    requires value { IsTrue (is_value value.now) }
    ensures { Feeds hasher.old hasher.new
        (row_bytes (record { map = map.now; key = key.now; value = value.now })) }
{
    feed_map_name(hasher, map);
    feed_key(hasher, key);
    feed_value(hasher, value);
}

/// A hasher of the bytes of rows.
#[derive(Drop)]
struct RowHasher {
    hasher: Sha256,
}

impl RowSink for RowHasher {
    ghost took = { λ old rows new.
        Feeds old.hasher new.hasher (flat_map row_bytes rows) };

    ghost nothing = { λ s. fed_nothing s.hasher };

    ghost further = { λ s t u rows more first then.
        fed_further s.hasher t.hasher u.hasher rows more first then };

    fn put(&mut self, map: &[u8], key: &[u8], value: &[u8]) -> Result<(), AllocError> {
        feed_row(&mut self.hasher, map, key, value);
        Ok(())
    }
}

/// How many rows tables have at a place, and how many bytes these have.
fn count_rows(tables: &Tables, to: u64) -> Result<RowCount, AllocError>
    requires { tables.now.compacted ≤ to }
    ensures { IfOk result (λ count. ForRows tables.now to (λ rows.
        Counted (0, 0) rows (count.rows, count.bytes))) }
{
    let mut count = RowCount { rows: 0, bytes: 0 };
    tables.each_row(to, &mut count)?;
    Ok(count)
}

/// The digest of these bytes and those of the rows of tables at a place, after them.
fn digest_after(head: &[u8], tables: &Tables, to: u64) -> Result<Digest, AllocError>
    requires { tables.now.compacted ≤ to }
    ensures { IfOk result (λ digest. ForRows tables.now to (λ rows.
        digest ≡ sha256 (head.now ++ flat_map row_bytes rows))) }
{
    let mut sink = RowHasher {
        hasher: Sha256::new(),
    };
    sink.hasher.update(head);
    tables.each_row(to, &mut sink)?;
    Ok(sink.hasher.finalize())
}

/// The digest of the body with these fields and the rows of tables at a place, which is not below
/// the compacted one; or how many bytes the body has, where no snapshot has so many. A body with
/// 2^47 rows or 2^32 views has no place in memory. Takes the time of the rows twice, and the memory
/// of the other fields.
pub fn digest_of_body(
    alloc: Global,
    head: &BodyHead<'_>,
    tables: &Tables,
    to: u64,
) -> Result<Digest, OrNoMemory<u64>>
    requires { tables.now.compacted ≤ to }
    ensures { ForRows tables.now to (λ rows.
        Answers (λ digest. digest) result (digest_within (body_bytes (body_with head.now rows)))) }
{
    if !head.is_counted() {
        return Err(OrNoMemory::NoMemory);
    }
    let count = count_rows(tables, to)?;
    let size = head_len(head) + count.bytes;
    if size > SNAPSHOT_LIMIT {
        return Err(OrNoMemory::Fault(size));
    }
    let mut bytes = Vec::new(alloc);
    // Each row has a byte at least, so that four bytes hold their count.
    put_head(&mut bytes, head, count.rows as u32)?;
    Ok(digest_after(&bytes, tables, to)?)
}
