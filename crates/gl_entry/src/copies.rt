//! Entries in memory of their own. A copy fails only where memory runs out.

ghost use Rattle.std.specs.Prelude.{◌≡◌, IfOk};

use crate::contents::bytes_of;
use crate::entry::{Content, Entry, Signature};
use std::alloc::{AllocError, Global};

impl Signature {
    /// The same signature in memory of its own.
    pub fn copy(&self, alloc: Global) -> Result<Self, AllocError>
        ensures { IfOk result (λ signature. signature ≡ self.now) }
    {
        Ok(Signature {
            node: self.node,
            commit: self.commit,
            root: self.root,
            signature: bytes_of(alloc, self.signature.as_slice())?,
        })
    }
}

impl Content {
    /// The same content in memory of its own.
    pub fn copy(&self, alloc: Global) -> Result<Self, AllocError>
        ensures { IfOk result (λ content. content ≡ self.now) }
    {
        match self {
            Content::Governance(request) => {
                Ok(Content::Governance(bytes_of(alloc, request.as_slice())?))
            }
            Content::Application(request) => {
                Ok(Content::Application(bytes_of(alloc, request.as_slice())?))
            }
            Content::Signature(signature) => Ok(Content::Signature(signature.copy(alloc)?)),
            Content::Evidence(digest) => Ok(Content::Evidence(*digest)),
        }
    }
}

impl Entry {
    /// The same entry in memory of its own.
    pub fn copy(&self, alloc: Global) -> Result<Self, AllocError>
        ensures { IfOk result (λ e. e ≡ self.now) }
    {
        Ok(Entry {
            view: self.view,
            seqno: self.seqno,
            content: self.content.copy(alloc)?,
            writes: self.writes.copy(alloc)?,
            claims: self.claims,
        })
    }
}
