//! How many bytes entries have, of which none are made.

ghost use Rattle.std.specs.Prelude.{◌≡◌, ◌*◌, ◌^◌, ◌<◌, ◌≤◌, length, true};
ghost use Rattle.std.specs.List.{flat_map};
ghost use Rattle.std.specs.Option.{option_copied};
ghost use Rattle.gl_base.specs.Bytes.{are_bytes, is_digest};
ghost use Rattle.gl_base.specs.Row.{optional_value_bytes};
ghost use Rattle.gl_entry.specs.Entry.{write_bytes, signature_bytes, content_bytes, body_bytes, frame_size, is_recorded_signature, is_content};

use crate::entry::{Content, Digest, Entry, Signature};
use gl_vmaps::{Value, Write};

// Each number in a list of the type is a byte: here that is said of the list that contracts see.
fn bytes_len(bytes: &[u8]) -> u64
    ensures len { result ≡ length bytes.now }
    ensures bytes { are_bytes bytes.now ≡ true }
{
    bytes.len() as u64
}

fn digest_len(digest: &Digest) -> u64
    ensures len { result ≡ length digest.now }
    ensures fits { is_digest digest.now ≡ true }
{
    digest.as_slice().len() as u64
}

#[tactic(auto, using(crate::proofs::Sizes::signature_size))]
fn signature_len(signature: &Signature) -> u64
    ensures len { result ≡ length (signature_bytes signature.now) }
    ensures fits { is_recorded_signature signature.now ≡ true }
{
    let digests = digest_len(&signature.node) + digest_len(&signature.root);
    digests + bytes_len(signature.signature.as_slice()) + 12
}

/// How many bytes the content has. Its fields are in their ranges, as its type has it.
pub(crate) fn content_len(content: &Content) -> u64
    ensures len { result ≡ length (content_bytes content.now) }
    ensures fits { is_content content.now ≡ true }
{
    match content {
        Content::Governance(request) | Content::Application(request) => {
            bytes_len(request.as_slice())
        }
        Content::Signature(signature) => signature_len(signature),
        Content::Evidence(digest) => digest_len(digest),
    }
}

#[tactic(auto, using(crate::proofs::Sizes::field_size))]
fn value_len(value: Option<&Value>) -> u64
    ensures exact { result ≡ length (optional_value_bytes (option_copied value.entry)) }
    ensures limit { result ≤ 65541 }
{
    match value {
        None => 1,
        Some(value) => value.as_slice().len() as u64 + 5,
    }
}

// A map's name has at most 128 bytes, a key 1024 and a value 65,536.
#[tactic(auto, using(crate::proofs::Sizes::field_size))]
fn write_len(write: &Write) -> u64
    ensures exact { result ≡ length (write_bytes write.now) }
    ensures limit { result ≤ 66696 }
{
    let row = write.map.as_slice().len() + write.key.as_slice().len() + 3;
    row as u64 + value_len(write.value.as_ref())
}

fn writes_len(writes: &[Write]) -> u64
    requires { length writes.now < 2 ^ 32 }
    ensures exact { result ≡ length (flat_map write_bytes writes.now) }
    ensures limit { result ≤ length writes.now * 66696 }
{
    let mut len = 0;
    for write in writes {
        len += write_len(write);
    }
    len
}

impl Entry {
    /// How many bytes the body has.
    #[tactic(auto, using(crate::proofs::Sizes::field_size))]
    pub fn body_len(&self) -> u64
        requires recorded { length (content_bytes self.now.content) < 2 ^ 32 }
        requires writes { length self.now.writes < 2 ^ 32 }
        ensures exact { result ≡ length (body_bytes self.now) }
        ensures limit { result < 2 ^ 49 }
    {
        let fixed = 21 + self.claims.len() as u64;
        fixed + content_len(&self.content) + writes_len(self.writes.as_slice())
    }

    /// How many bytes the frame has.
    pub fn frame_len(&self) -> u64
        requires recorded { length (content_bytes self.now.content) < 2 ^ 32 }
        requires writes { length self.now.writes < 2 ^ 32 }
        ensures { result ≡ frame_size self.now }
    {
        8 + self.body_len()
    }
}
