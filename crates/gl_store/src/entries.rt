//! The entries that a store makes.

ghost use Rattle.std.specs.Prelude.{◌≡◌, ◌+◌, ◌≤◌, ◌<◌, ◌^◌, ℕ, List, true, length, None, Err, IfOk, IfSome, IfNone, OnOk};
ghost use Rattle.sha2.specs.Sha256.{sha256};
ghost use Rattle.gl_base.specs.TxId.{last_seqno};
ghost use Rattle.gl_tx.specs.Request.{is_request, request_bytes, reply_bytes};
ghost use Rattle.gl_tx.specs.declared.request.Answer.{Answer};
ghost use Rattle.gl_entry.specs.Entry.{is_entry, body_bytes, body_limit, content_bytes, no_digest};
ghost use Rattle.gl_entry.specs.declared.entry.Entry as made;
ghost use Rattle.gl_requests.specs.Ranges as ranges;
ghost use Rattle.gl_requests.specs.Encoding as requests_encoded;
ghost use Rattle.gl_ledger.specs.Ledger.{within_limits_after};
ghost use Rattle.gl_ledger.specs.declared.response.Rejection.TheVariants.{ByStore};
ghost use Rattle.gl_ledger.specs.Makers.{governed_within_after};
ghost use Rattle.gl_ledger.specs.Past.{Past};

use gl_base::{Bytes, LAST_SEQNO, MEBIBYTE};
use gl_entry::{Content, Digest, Entry};
use gl_ledger::Refusal;
use gl_requests::GovernanceRequest;
use gl_tx::Request;
use gl_vmaps::Writes;
use sha2::{Digest as _, Sha256};
use std::alloc::{AllocError, Global};

/// The digest field of an entry that has none.
pub const NO_DIGEST: Digest = [0; 32];

/// The entry of a request of governance with these writes. One whose request or writes are 2^32 or
/// more has no place in memory.
pub(crate) fn governance_entry(
    alloc: Global,
    view: u32,
    seqno: u64,
    request: &GovernanceRequest,
    writes: Writes,
) -> Result<Entry, AllocError>
    requires { ranges.is_request request.now ≡ true }
    ensures made { IfOk result (λ entry. entry ≡ record {
      view = view;
      seqno = seqno;
      content = Content.Governance (requests_encoded.request_bytes request.now);
      writes = writes;
      claims = no_digest;
    }) }
    ensures recorded { IfOk result (λ entry. length (content_bytes entry.content) < 2 ^ 32) }
    ensures written { IfOk result (λ entry. length entry.writes < 2 ^ 32) }
    ensures fits { IfOk result (λ entry.
        length (body_bytes entry) ≤ body_limit → is_entry entry ≡ true) }
{
    let recorded = request.encode(alloc)?;
    if recorded.len() >= 1 << 32 || writes.as_slice().len() >= 1 << 32 {
        return Err(AllocError);
    }
    Ok(Entry {
        view,
        seqno,
        content: Content::Governance(Bytes::from(recorded)),
        writes,
        claims: NO_DIGEST,
    })
}

/// The entry of a request that ran with these writes and this reply.
pub(crate) fn application_entry(
    alloc: Global,
    view: u32,
    seqno: u64,
    request: &Request,
    writes: Writes,
    reply: &[u8],
) -> Result<Entry, AllocError>
    requires { length writes ≤ 64 }
    ensures request { OnOk result (is_request request.now ≡ true) }
    ensures made { IfOk result (λ entry. entry ≡ record {
      view = view;
      seqno = seqno;
      content = Content.Application (request_bytes request.now);
      writes = writes;
      claims = sha256 reply.now;
    }) }
    ensures recorded { IfOk result (λ entry. length (content_bytes entry.content) < 2 ^ 32) }
    ensures fits { IfOk result (λ entry.
        length (body_bytes entry) ≤ body_limit → is_entry entry ≡ true) }
{
    prove!(request.as_slice().len() <= 64);
    let recorded = Bytes::from(request.encode(alloc)?);
    prove!(writes.as_slice().len() <= 64);
    Ok(Entry {
        view,
        seqno,
        content: Content::Application(recorded),
        writes,
        claims: Sha256::digest(reply),
    })
}

/// The first limit that an entry without a reply passes: the size of its body, its seqno.
pub(crate) fn governance_limit_passed(body_len: u64, seqno: u64) -> Option<Refusal>
    ensures body { IfNone result (body_len ≤ body_limit) }
    ensures seqno { IfNone result (seqno ≤ last_seqno) }
    ensures expected { IfSome result (λ refusal. (p : Past)
        (g : GovernanceRequest) (e : made.Entry) →
        body_len ≡ length (body_bytes e) → seqno ≡ p.len + 1 →
        governed_within_after p g e ≡ Err (ByStore refusal)) }
{
    if body_len > MEBIBYTE {
        Some(Refusal::TooLarge { size: body_len })
    } else if seqno > LAST_SEQNO {
        Some(Refusal::SeqnoLimit)
    } else {
        None
    }
}

/// The first limit that an entry passes: the size of its body, that of its reply, its seqno.
pub(crate) fn limit_passed(body_len: u64, reply: &[u8], seqno: u64) -> Option<Refusal>
    ensures body { IfNone result (body_len ≤ body_limit) }
    ensures reply { IfNone result (length reply.now ≤ body_limit) }
    ensures seqno { IfNone result (seqno ≤ last_seqno) }
    ensures expected { IfSome result (λ refusal.
        (len : ℕ) (e : made.Entry) (answers : List Answer) →
        body_len ≡ length (body_bytes e) → reply.now ≡ reply_bytes answers → seqno ≡ len + 1 →
        within_limits_after len e answers ≡ Err refusal) }
{
    let reply_len = reply.len() as u64;
    if body_len > MEBIBYTE {
        Some(Refusal::TooLarge { size: body_len })
    } else if reply_len > MEBIBYTE {
        Some(Refusal::TooLarge { size: reply_len })
    } else if seqno > LAST_SEQNO {
        Some(Refusal::SeqnoLimit)
    } else {
        None
    }
}
