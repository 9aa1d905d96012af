//! Whether an entry is one that a ledger may hold.

ghost use Rattle.std.specs.Prelude.{◌≡◌, ◌&&◌, ◌||◌, nat_le, length, true};
ghost use Rattle.std.specs.List.{list_all};
ghost use Rattle.gl_vmaps.specs.Writes.{is_write, is_ordered};
ghost use Rattle.gl_entry.specs.Entry.{body_bytes, body_limit, is_content, may_write, may_claim, are_no_writes, is_no_digest, is_entry};
ghost use Rattle.gl_base.specs.Bytes.{is_digest};

use crate::body::{is_no_digest, may_claim, may_write};
use crate::entry::{BODY_LIMIT, Content, Digest, Entry};
use crate::lengths::content_len;
use gl_vmaps::Writes;

/// Whether an entry of this content may have these writes.
fn may_have_writes(content: &Content, writes: &Writes) -> bool
    ensures value { result ≡ (may_write content.now || are_no_writes writes.now) }
    ensures limits { list_all is_write writes.now ≡ true }
    ensures ordered { is_ordered writes.now ≡ true }
{
    let writes = writes.as_slice();
    may_write(content) || writes.is_empty()
}

/// Whether an entry of this content may have these claims.
fn may_have_claims(content: &Content, claims: &Digest) -> bool
    ensures value { result ≡ (may_claim content.now || is_no_digest claims.now) }
    ensures digest { is_digest claims.now ≡ true }
{
    may_claim(content) || is_no_digest(claims)
}

impl Entry {
    /// Whether its body has at most 1 MiB.
    fn is_small(&self) -> bool
        ensures value { result ≡ nat_le (length (body_bytes self.now)) body_limit }
        ensures content { is_content self.now.content ≡ true }
    {
        if content_len(&self.content) > BODY_LIMIT {
            return false;
        }
        if self.writes.as_slice().len() as u64 > BODY_LIMIT {
            return false;
        }
        self.body_len() <= BODY_LIMIT
    }

    /// Whether it is in the form of the frames: only a request writes, only that of an application
    /// has claims, and the body has at most 1 MiB.
    pub fn fits(&self) -> bool
        ensures { result ≡ is_entry self.now }
    {
        prove!(self.view <= u32::MAX && self.seqno <= u64::MAX);
        let small = self.is_small();
        let writes = may_have_writes(&self.content, &self.writes);
        let claims = may_have_claims(&self.content, &self.claims);
        if !small {
            return false;
        }
        if !writes {
            return false;
        }
        claims
    }
}
