//! The records of a journal, and their bytes.

ghost use Rattle.std.specs.Prelude.{◌≡◌, ◌+◌, ◌^◌, ◌<◌, ◌≤◌, [], ◌∷◌, ◌++◌, length, vec_len, vec_capacity, IfSome};
ghost use Rattle.gl_base.specs.LittleEndian.{little_endian};
ghost use Rattle.gl_journal.specs.Gates.{body_of};
ghost use Rattle.gl_journal.specs.Records.{Key as KeyOf, Vote, key_kind_tag, types_tag, vote_bytes, record_bytes, record_body, records_bytes, IsRecord, AreRecords};
ghost use Rattle.gl_journal.specs.RecordView.{record_value, record_values};

use crate::key::{Key, KeyKind};
use gl_entry::NodeId;
use gl_hss::Types;

/// A record of a journal. The bytes of an entry's frame and of a snapshot stand elsewhere.
#[derive(Clone, Copy, Debug)]
pub enum Record<'a> {
    /// The key, which is the first record alone.
    Key(Key),
    /// The view that the node is in, and the node that it voted for there.
    Vote { view: u32, vote: Option<NodeId> },
    /// The entries after a place were taken away.
    Cut { to: u64 },
    /// An entry was appended.
    Append { frame: &'a [u8] },
    /// So many leaves of the key are spent or reserved.
    Signer { reserved: u32 },
    /// A snapshot takes the place of the entries up to its own.
    Install { body: &'a [u8] },
    /// The start of a service spent so many leaves.
    Start { leaves: u32 },
}

impl Key {
    /// How many bytes the body of its record has.
    fn body_len(&self) -> u64
        ensures bytes { result ≡ length (record_body (KeyOf self.now)) }
        ensures value { result ≡ 34 }
    {
        2 + self.seed.len() as u64
    }

    /// How many bytes its record has.
    #[tactic(auto, unfolding(gl_base::specs::LittleEndian::little_endian))]
    pub(crate) fn record_len(&self) -> u64
        ensures bytes { result ≡ length (record_bytes (KeyOf self.now)) }
        ensures small { result < 2 ^ 32 }
    {
        5 + self.body_len()
    }
}

/// How many bytes a view and a vote have.
fn vote_len(vote: &Option<NodeId>) -> u64
    ensures { result ≡ 4 + length (vote_bytes vote.now) }
{
    match vote {
        None => 5,
        Some(id) => 5 + id.as_slice().len() as u64,
    }
}

impl Record<'_> {
    /// How many bytes its body has.
    #[tactic(auto, unfolding(gl_base::specs::LittleEndian::little_endian))]
    fn body_len(&self) -> u64
        ensures { result ≡ length (record_body (record_value self.now)) }
    {
        match self {
            Record::Key(key) => key.body_len(),
            Record::Vote { vote, .. } => vote_len(vote),
            Record::Cut { .. } => 8,
            Record::Append { frame } => frame.len() as u64,
            Record::Signer { .. } | Record::Start { .. } => 4,
            Record::Install { body } => body.len() as u64,
        }
    }
}

/// How many bytes the records of a batch have, if a u64 has room for that number.
pub fn batch_len(records: &[Record<'_>]) -> Option<u64>
    ensures { IfSome result (λ len. len ≡ length (records_bytes (record_values records.now))) }
{
    let mut len: u64 = 0;
    for one in records {
        len = len.checked_add(5)?.checked_add(one.body_len())?;
    }
    Some(len)
}

/// Bytes after others that have room for them.
fn put_all(out: &mut Vec<u8>, bytes: &[u8])
    requires { vec_len out.old + length bytes.now ≤ vec_capacity out.old }
    ensures put { out.new.items ≡ out.old.items ++ bytes.now }
    ensures len { vec_len out.new ≡ vec_len out.old + length bytes.now }
    ensures room { vec_capacity out.old ≤ vec_capacity out.new }
{
    match out.extend_from_slice(bytes) {
        Ok(()) => {}
        Err(_) => {}
    }
}

/// A batch of no record yet: four bytes for its length, in memory that was taken before.
pub(crate) fn begin_batch(out: &mut Vec<u8>)
    requires { 4 ≤ vec_capacity out.old }
    ensures begun { out.new.items ≡ 0 ∷ 0 ∷ 0 ∷ 0 ∷ [] }
    ensures len { vec_len out.new ≡ 4 }
    ensures room { vec_capacity out.old ≤ vec_capacity out.new }
{
    out.clear();
    put_all(out, &[0; 4]);
}

/// The kind of a record, and the length of its body.
#[tactic(auto, unfolding(gl_base::specs::LittleEndian::little_endian))]
fn put_head(out: &mut Vec<u8>, kind: u8, len: usize)
    requires room { vec_len out.old + 5 ≤ vec_capacity out.old }
    requires small { len < 2 ^ 32 }
    ensures put { out.new.items ≡ out.old.items ++ kind ∷ little_endian 4 len }
    ensures len { vec_len out.new ≡ vec_len out.old + 5 }
    ensures room { vec_capacity out.old ≤ vec_capacity out.new }
{
    put_all(out, &[kind]);
    put_all(out, &(len as u32).to_le_bytes());
}

/// A record of this kind whose body is these bytes.
fn put_body(out: &mut Vec<u8>, kind: u8, body: &[u8])
    requires room { vec_len out.old + 5 + length body.now ≤ vec_capacity out.old }
    requires small { length body.now < 2 ^ 32 }
    ensures put { out.new.items ≡ out.old.items ++ kind ∷ body_of body.now }
    ensures room { vec_capacity out.old ≤ vec_capacity out.new }
{
    put_head(out, kind, body.len());
    put_all(out, body);
}

#[tactic(auto, unfolding(gl_base::specs::LittleEndian::little_endian))]
fn put_vote(out: &mut Vec<u8>, view: u32, vote: &Option<NodeId>)
    requires room { vec_len out.old + length (record_bytes (Vote view vote.now))
        ≤ vec_capacity out.old }
    ensures put { out.new.items ≡ out.old.items ++ record_bytes (Vote view vote.now) }
    ensures fields { IsRecord (Vote view vote.now) }
    ensures room { vec_capacity out.old ≤ vec_capacity out.new }
{
    match vote {
        None => {
            put_head(out, 2, 5);
            put_all(out, &view.to_le_bytes());
            put_all(out, &[0]);
        }
        Some(id) => {
            put_head(out, 2, 37);
            put_all(out, &view.to_le_bytes());
            put_all(out, &[1]);
            put_all(out, id);
        }
    }
}

#[tactic(auto, unfolding(gl_base::specs::LittleEndian::little_endian))]
fn place_bytes(place: u64) -> [u8; 8]
    ensures { result ≡ little_endian 8 place }
{
    place.to_le_bytes()
}

#[tactic(auto, unfolding(gl_base::specs::LittleEndian::little_endian))]
fn count_bytes(count: u32) -> [u8; 4]
    ensures { result ≡ little_endian 4 count }
{
    count.to_le_bytes()
}

impl KeyKind {
    fn tag(self) -> u8
        ensures { result ≡ key_kind_tag self }
    {
        match self {
            KeyKind::Service => 1,
            KeyKind::Node => 2,
            KeyKind::Member => 3,
        }
    }
}

fn types_tag(types: Types) -> u8
    ensures { result ≡ types_tag types }
{
    match types {
        Types::H5W4 => 1,
        Types::H5W8 => 2,
        Types::H10W4 => 3,
        Types::H10W8 => 4,
    }
}

pub(crate) fn put_key(out: &mut Vec<u8>, key: &Key)
    requires room { vec_len out.old + length (record_bytes (KeyOf key.now))
        ≤ vec_capacity out.old }
    ensures put { out.new.items ≡ out.old.items ++ record_bytes (KeyOf key.now) }
    ensures fields { IsRecord (KeyOf key.now) }
    ensures room { vec_capacity out.old ≤ vec_capacity out.new }
{
    put_head(out, 1, 34);
    put_all(out, &[key.kind.tag(), types_tag(key.types)]);
    put_all(out, &key.seed);
}

/// A record after others, in memory that was taken before.
#[tactic(auto, unfolding(gl_base::specs::LittleEndian::little_endian))]
fn put_record(out: &mut Vec<u8>, one: &Record<'_>)
    requires room { vec_len out.old + length (record_bytes (record_value one.now))
        ≤ vec_capacity out.old }
    requires small { length (record_body (record_value one.now)) < 2 ^ 32 }
    ensures put { out.new.items ≡ out.old.items ++ record_bytes (record_value one.now) }
    ensures fields { IsRecord (record_value one.now) }
    ensures room { vec_capacity out.old ≤ vec_capacity out.new }
{
    match one {
        Record::Key(key) => put_key(out, key),
        Record::Vote { view, vote } => put_vote(out, *view, vote),
        Record::Cut { to } => put_body(out, 3, &place_bytes(*to)),
        Record::Append { frame } => put_body(out, 4, frame),
        Record::Signer { reserved } => put_body(out, 5, &count_bytes(*reserved)),
        Record::Install { body } => put_body(out, 6, body),
        Record::Start { leaves } => put_body(out, 7, &count_bytes(*leaves)),
    }
}

/// The records of a batch, in memory that was taken before.
pub(crate) fn put_records(out: &mut Vec<u8>, records: &[Record<'_>])
    requires room { vec_len out.old + length (records_bytes (record_values records.now))
        ≤ vec_capacity out.old }
    requires small { length (records_bytes (record_values records.now)) < 2 ^ 32 }
    ensures put { out.new.items ≡ out.old.items ++ records_bytes (record_values records.now) }
    ensures fields { AreRecords (record_values records.now) }
    ensures room { vec_capacity out.old ≤ vec_capacity out.new }
{
    for one in records {
        put_record(out, one);
    }
}
