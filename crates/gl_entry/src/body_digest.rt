//! The digest of an entry's body, of which no bytes are kept.

ghost use Rattle.std.specs.Prelude.{◌≡◌, ◌++◌, ◌<◌, ◌^◌, length};
ghost use Rattle.std.specs.List.{flat_map};
ghost use Rattle.std.specs.Option.{option_copied};
ghost use Rattle.sha2.specs.Sha256.{sha256};
ghost use Rattle.gl_base.specs.LittleEndian.{little_endian};
ghost use Rattle.gl_base.specs.Field.{with_u32_length};
ghost use Rattle.gl_base.specs.Row.{optional_value_bytes};
ghost use Rattle.gl_entry.specs.Entry.{write_bytes, body_bytes, content_bytes, signature_bytes};
ghost use Rattle.gl_entry.specs.Leaf.{Feeds};

use crate::contents::{kind_tag, signature_size};
use crate::entry::{Content, Digest, Entry, Signature};
use gl_vmaps::{Value, Write};
use sha2::{Digest as _, Sha256};

/// Feeds the lower four bytes of a length or a count: all of it, where an entry fits its format.
#[tactic(auto, unfolding(gl_base::specs::LittleEndian::little_endian))]
fn feed_len(hasher: &mut Sha256, len: usize)
    ensures { Feeds hasher.old hasher.new (little_endian 4 len) }
{
    let [a, b, c, d, ..] = (len as u64).to_le_bytes();
    hasher.update(&[a, b, c, d]);
}

/// Feeds bytes after their length.
fn feed_sized(hasher: &mut Sha256, bytes: &[u8])
    ensures { Feeds hasher.old hasher.new (with_u32_length bytes.now) }
{
    feed_len(hasher, bytes.len());
    hasher.update(bytes);
}

/// Feeds what a signature records after its length.
#[tactic(auto, unfolding(gl_base::specs::LittleEndian::little_endian))]
fn feed_signature(hasher: &mut Sha256, signature: &Signature)
    ensures { Feeds hasher.old hasher.new (with_u32_length (signature_bytes signature.now)) }
{
    feed_len(hasher, signature_size(signature));
    hasher.update(&signature.node);
    hasher.update(&signature.commit.to_le_bytes());
    hasher.update(&signature.root);
    feed_sized(hasher, signature.signature.as_slice());
}

fn feed_content(hasher: &mut Sha256, content: &Content)
    ensures { Feeds hasher.old hasher.new (with_u32_length (content_bytes content.now)) }
{
    match content {
        Content::Governance(request) | Content::Application(request) => {
            feed_sized(hasher, request.as_slice());
        }
        Content::Signature(signature) => feed_signature(hasher, signature),
        Content::Evidence(digest) => feed_sized(hasher, digest),
    }
}

fn feed_value(hasher: &mut Sha256, value: Option<&Value>)
    ensures { Feeds hasher.old hasher.new (optional_value_bytes (option_copied value.entry)) }
{
    match value {
        None => hasher.update(&[0]),
        Some(value) => {
            hasher.update(&[1]);
            feed_sized(hasher, value.as_slice());
        }
    }
}

#[tactic(auto, unfolding(gl_base::specs::LittleEndian::little_endian))]
fn feed_write(hasher: &mut Sha256, write: &Write)
    ensures { Feeds hasher.old hasher.new (write_bytes write.now) }
{
    let (map, key) = (write.map.as_slice(), write.key.as_slice());
    hasher.update(&[map.len() as u8]);
    hasher.update(map);
    hasher.update(&(key.len() as u16).to_le_bytes());
    hasher.update(key);
    feed_value(hasher, write.value.as_ref());
}

fn feed_writes(hasher: &mut Sha256, writes: &[Write])
    ensures { Feeds hasher.old hasher.new (flat_map write_bytes writes.now) }
{
    for write in writes {
        feed_write(hasher, write);
    }
}

impl Entry {
    /// The SHA-256 digest of the body's bytes. Takes no memory. Of an entry that doesn't fit its
    /// format the lower four bytes of each length and count stand in the body.
    #[tactic(auto, unfolding(gl_base::specs::LittleEndian::little_endian))]
    pub fn body_digest(&self) -> Digest
        ensures { result ≡ sha256 (body_bytes self.now) }
    {
        let writes = self.writes.as_slice();
        let mut hasher = Sha256::new();
        hasher.update(&self.view.to_le_bytes());
        hasher.update(&self.seqno.to_le_bytes());
        hasher.update(&[kind_tag(&self.content)]);
        feed_content(&mut hasher, &self.content);
        feed_len(&mut hasher, writes.len());
        feed_writes(&mut hasher, writes);
        hasher.update(&self.claims);
        hasher.finalize()
    }
}

/// The SHA-256 digest of the bytes of writes after their count, as they stand in a body. Takes no
/// memory.
pub fn writes_digest(writes: &[Write]) -> Digest
    ensures { result
        ≡ sha256 (little_endian 4 (length writes.now) ++ flat_map write_bytes writes.now) }
{
    let mut hasher = Sha256::new();
    feed_len(&mut hasher, writes.len());
    feed_writes(&mut hasher, writes);
    hasher.finalize()
}
