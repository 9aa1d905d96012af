//! The body of an entry, as bytes both ways.

ghost use Rattle.std.specs.Prelude.{◌≡◌, ◌+◌, ◌^◌, ◌<◌, length, IfOk};
ghost use Rattle.gl_base.specs.Answers.{Answers};
ghost use Rattle.gl_base.specs.Cut.{Gives, string_at};
ghost use Rattle.gl_entry.specs.Entry.{body_limit, content_bytes, body_bytes, is_no_digest, may_write, may_claim};
ghost use Rattle.gl_entry.specs.Parsing.{kind_at, content_at, claims_at, body_at};

use crate::contents::{content_of, kind_tag, put_content, read_digest};
use crate::entry::{BODY_LIMIT, Content, Digest, Entry};
use crate::fault::EntryFault;
use crate::writes::{put_writes, read_writes, refused};
use gl_base::{Cut, CutFault, OrNoMemory, put_bytes, put_u32, put_u64, same_bytes};
use std::alloc::{AllocError, Global};

impl Entry {
    /// The bytes of the body.
    pub fn body(&self, alloc: Global) -> Result<Vec<u8>, AllocError>
        requires recorded { length (content_bytes self.now.content) < 2 ^ 32 }
        requires writes { length self.now.writes < 2 ^ 32 }
        ensures { IfOk result (λ bytes. bytes.items ≡ body_bytes self.now) }
    {
        let writes = self.writes.as_slice();
        let mut out = Vec::new(alloc);
        put_u32(&mut out, self.view)?;
        put_u64(&mut out, self.seqno)?;
        out.push(kind_tag(&self.content))?;
        put_content(&mut out, &self.content)?;
        put_u32(&mut out, writes.len() as u32)?;
        put_writes(&mut out, writes)?;
        put_bytes(&mut out, &self.claims)?;
        Ok(out)
    }
}

#[tactic(auto, unfolding(crate::specs::Parsing::kind_at))]
fn read_kind(cut: &mut Cut<'_>) -> Result<u8, OrNoMemory<EntryFault>>
    ensures { Answers (λ kind. (kind, cut.new)) result (kind_at cut.old) }
{
    let kind = cut.u8()?;
    if 1 <= kind && kind <= 4 {
        Ok(kind)
    } else {
        Err(OrNoMemory::Fault(EntryFault::Kind))
    }
}

/// Reads the bytes of what an entry records, and gives the place of the first of them.
#[tactic(auto, using(crate::proofs::Places::string_at_place))]
fn read_request<'a>(cut: &mut Cut<'a>) -> Result<(usize, &'a [u8]), CutFault>
    ensures exact { Gives (λ request. request.1.now) result cut.old cut.new
        (string_at 4 body_limit cut.old) }
    ensures place { IfOk result (λ request. request.0 ≡ cut.old.at + 4) }
    ensures within { IfOk result (λ request. request.0 + length request.1.now < 2 ^ 64) }
{
    let request = cut.bytes(32, BODY_LIMIT)?;
    Ok((cut.at() - request.len(), request))
}

#[tactic(auto, unfolding(crate::specs::Parsing::content_at))]
fn read_content(alloc: Global, cut: &mut Cut<'_>) -> Result<Content, OrNoMemory<EntryFault>>
    ensures { Answers (λ content. (content, cut.new)) result (content_at cut.old) }
{
    let kind = read_kind(cut)?;
    let (place, request) = read_request(cut)?;
    Ok(content_of(alloc, kind, place, request).map_err(OrNoMemory::widen)?)
}

pub(crate) fn is_no_digest(digest: &Digest) -> bool
    ensures { result ≡ is_no_digest digest.now }
{
    same_bytes(digest, &[0; 32])
}

#[tactic(auto, unfolding(crate::specs::Parsing::claims_at))]
fn read_claims(cut: &mut Cut<'_>, may_claim: bool) -> Result<Digest, OrNoMemory<EntryFault>>
    ensures { Answers (λ claims. (claims, cut.new)) result (claims_at may_claim cut.old) }
{
    let place = cut.at();
    let claims = read_digest(cut)?;
    if !may_claim && !is_no_digest(&claims) {
        return Err(refused(place));
    }
    Ok(claims)
}

pub(crate) fn may_write(content: &Content) -> bool
    ensures { result ≡ may_write content.now }
{
    matches!(content, Content::Governance(_) | Content::Application(_))
}

pub(crate) fn may_claim(content: &Content) -> bool
    ensures { result ≡ may_claim content.now }
{
    matches!(content, Content::Application(_))
}

/// Reads a body.
#[tactic(auto, unfolding(crate::specs::Parsing::body_at))]
pub(crate) fn read_body(alloc: Global, cut: &mut Cut<'_>) -> Result<Entry, OrNoMemory<EntryFault>>
    ensures { Answers (λ entry. (entry, cut.new)) result (body_at cut.old) }
{
    let view = cut.u32()?;
    let seqno = cut.u64()?;
    let content = read_content(alloc, cut)?;
    let writes = read_writes(alloc, cut, may_write(&content))?;
    let claims = read_claims(cut, may_claim(&content))?;
    Ok(Entry {
        view,
        seqno,
        content,
        writes,
        claims,
    })
}
