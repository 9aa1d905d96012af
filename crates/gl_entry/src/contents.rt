//! What an entry records, as bytes both ways. Numbers have their least significant byte first, and
//! bytes of no fixed length stand after their length.

ghost use Rattle.std.specs.Prelude.{◌≡◌, ◌+◌, ◌++◌, ◌^◌, ◌<◌, length, IfOk, OnOk};
ghost use Rattle.gl_base.specs.Answers.{Answers};
ghost use Rattle.gl_base.specs.Cut.{Gives, bytes_at};
ghost use Rattle.gl_base.specs.Code.{whole_at};
ghost use Rattle.gl_base.specs.Field.{with_u32_length};
ghost use Rattle.gl_entry.specs.Entry.{kind_tag, recorded_commit, signature_bytes, content_bytes};
ghost use Rattle.gl_entry.specs.Parsing.{signature_at, evidence_at, content_of};

use crate::entry::{BODY_LIMIT, Content, Digest, Signature};
use gl_base::{
    Bytes, CodeFault, Cut, CutFault, OrNoMemory, put_bytes, put_field, put_u32, put_u64,
};
use std::alloc::{AllocError, Global};

pub(crate) fn kind_tag(content: &Content) -> u8
    ensures { result ≡ kind_tag content.now }
{
    match content {
        Content::Governance(_) => 1,
        Content::Application(_) => 2,
        Content::Signature(_) => 3,
        Content::Evidence(_) => 4,
    }
}

impl Content {
    /// The commit that a signature records, 0 for any other entry.
    pub fn recorded_commit(&self) -> u64
        ensures { result ≡ recorded_commit self.now }
    {
        match self {
            Content::Signature(signature) => signature.commit,
            _ => 0,
        }
    }
}

/// How many bytes a signature records.
#[tactic(auto, using(crate::proofs::Sizes::signature_size))]
pub(crate) fn signature_size(signature: &Signature) -> usize
    ensures { result ≡ length (signature_bytes signature.now) }
{
    let (node, root) = (signature.node.as_slice(), signature.root.as_slice());
    node.len() + root.len() + signature.signature.as_slice().len() + 12
}

/// The same as it stands in an entry that fits its format.
pub(crate) fn signature_len(signature: &Signature) -> u32
    requires { length (signature_bytes signature.now) < 2 ^ 32 }
    ensures { result ≡ length (signature_bytes signature.now) }
{
    signature_size(signature) as u32
}

/// Writes what a signature records after its length.
#[tactic(auto, using(crate::proofs::Sizes::signature_size))]
fn put_signature(out: &mut Vec<u8>, signature: &Signature) -> Result<(), AllocError>
    requires { length (signature_bytes signature.now) < 2 ^ 32 }
    ensures { OnOk result (out.new.items ≡
        out.old.items ++ with_u32_length (signature_bytes signature.now)) }
{
    put_u32(out, signature_len(signature))?;
    put_bytes(out, &signature.node)?;
    put_u64(out, signature.commit)?;
    put_bytes(out, &signature.root)?;
    put_field(out, 32, signature.signature.as_slice())?;
    Ok(())
}

/// Writes what an entry records after its length.
pub(crate) fn put_content(out: &mut Vec<u8>, content: &Content) -> Result<(), AllocError>
    requires { length (content_bytes content.now) < 2 ^ 32 }
    ensures { OnOk result (out.new.items ≡
        out.old.items ++ with_u32_length (content_bytes content.now)) }
{
    match content {
        Content::Governance(request) | Content::Application(request) => {
            put_field(out, 32, request.as_slice())
        }
        Content::Signature(signature) => put_signature(out, signature),
        Content::Evidence(digest) => put_field(out, 32, digest),
    }
}

/// The same bytes in memory of their own.
pub(crate) fn bytes_of(alloc: Global, bytes: &[u8]) -> Result<Bytes, AllocError>
    ensures { IfOk result (λ copy. copy ≡ bytes.now) }
{
    Ok(Bytes::from(Vec::from_slice(alloc, bytes)?))
}

pub(crate) fn read_digest(cut: &mut Cut<'_>) -> Result<Digest, CutFault>
    ensures { Gives (λ digest. digest) result cut.old cut.new (bytes_at 32 cut.old) }
{
    let mut digest = [0; 32];
    digest.copy_from_slice(cut.bytes(0, 32)?);
    Ok(digest)
}

#[tactic(auto, unfolding(crate::specs::Parsing::signature_at))]
fn read_signature(alloc: Global, cut: &mut Cut<'_>) -> Result<Content, OrNoMemory<CodeFault>>
    ensures { Answers (λ content. (content, cut.new)) result (signature_at cut.old) }
{
    let node = read_digest(cut)?;
    let commit = cut.u64()?;
    let root = read_digest(cut)?;
    let signature = bytes_of(alloc, cut.bytes(32, BODY_LIMIT)?)?;
    Ok(Content::Signature(Signature {
        node,
        commit,
        root,
        signature,
    }))
}

#[tactic(auto, unfolding(crate::specs::Parsing::evidence_at))]
fn read_evidence(cut: &mut Cut<'_>) -> Result<Content, CodeFault>
    ensures { Gives (λ content. content) result cut.old cut.new (evidence_at cut.old) }
{
    Ok(Content::Evidence(read_digest(cut)?))
}

fn signature_of(alloc: Global, place: usize, bytes: &[u8]) -> Result<Content, OrNoMemory<CodeFault>>
    requires { place + length bytes.now < 2 ^ 64 }
    ensures { Answers (λ content. content) result (whole_at signature_at place bytes.now) }
{
    let mut cut = Cut::new_at(bytes, place);
    let content = read_signature(alloc, &mut cut)?;
    cut.end()?;
    Ok(content)
}

fn evidence_of(place: usize, bytes: &[u8]) -> Result<Content, OrNoMemory<CodeFault>>
    requires { place + length bytes.now < 2 ^ 64 }
    ensures { Answers (λ content. content) result (whole_at evidence_at place bytes.now) }
{
    let mut cut = Cut::new_at(bytes, place);
    let content = read_evidence(&mut cut)?;
    cut.end()?;
    Ok(content)
}

/// What an entry of this kind, 1 to 4, records, from all of the bytes of its request, the first of
/// which stands at this place.
#[tactic(auto, unfolding(crate::specs::Parsing::content_of))]
pub(crate) fn content_of(
    alloc: Global,
    kind: u8,
    place: usize,
    bytes: &[u8],
) -> Result<Content, OrNoMemory<CodeFault>>
    requires { place + length bytes.now < 2 ^ 64 }
    ensures { Answers (λ content. content) result (content_of kind place bytes.now) }
{
    match kind {
        1 => Ok(Content::Governance(bytes_of(alloc, bytes)?)),
        2 => Ok(Content::Application(bytes_of(alloc, bytes)?)),
        3 => signature_of(alloc, place, bytes),
        _ => evidence_of(place, bytes),
    }
}
