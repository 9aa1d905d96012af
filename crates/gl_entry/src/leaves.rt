//! The leaves of entries in the Merkle tree of their ledger. None of this takes memory but the text
//! of the evidence.

ghost use Rattle.std.specs.Prelude.{◌≡◌, ◌≢◌, ◌↔◌, ◌<◌, ◌++◌, ℕ, List, codes, IsTrue, IfOk, IfSome, IfNone};
ghost use Rattle.sha2.specs.Sha256.{sha256};
ghost use Rattle.hex.specs.Hex.{encode_lower};
ghost use Rattle.gl_base.specs.TxId.{text_of};
ghost use Rattle.gl_entry.specs.Entry.{body_bytes};
ghost use Rattle.gl_entry.specs.Leaf.{evidence_digest, evidence_text, leaf_of_components, leaf_of};

use crate::entry::{Digest, Entry};
use gl_base::{TxId, put_bytes, same_bytes};
use itoa::Buffer;
use sha2::{Digest as _, Sha256};
use std::alloc::{AllocError, Global};

#[tactic(auto, unfolding(gl_base::specs::LittleEndian::little_endian))]
fn evidence_digest(identity: &[u8; 60], id: TxId) -> Digest
    ensures { result ≡ evidence_digest identity.now id }
{
    let mut hasher = Sha256::new();
    hasher.update(identity);
    hasher.update(&id.view.to_le_bytes());
    hasher.update(&id.seqno.to_le_bytes());
    hasher.finalize()
}

/// The commit evidence of a transaction of the service with this key: `ce:`, the identifier, `:`,
/// and in hexadecimal the digest of the key, the view in 4 bytes and the place in 8. A receipt
/// discloses it (CCF documentation, "Receipts").
pub fn evidence(alloc: Global, identity: &[u8; 60], id: TxId) -> Result<Vec<u8>, AllocError>
    ensures { IfOk result (λ text. text.items ≡ evidence_text identity.now id) }
{
    let digest = evidence_digest(identity, id);
    let mut text = Vec::new(alloc);
    put_bytes(&mut text, b"ce:")?;
    id.push_text(&mut text)?;
    text.push(b':')?;
    put_bytes(&mut text, hex::encode(alloc, digest.as_slice())?.as_bytes())?;
    Ok(text)
}

/// The digest of the key and the identifier, in hexadecimal.
fn evidence_digits(identity: &[u8; 60], id: TxId) -> [u8; 64]
    ensures { result ≡ encode_lower (evidence_digest identity.now id) }
{
    let mut digits = [0; 64];
    hex::encode_to_slice(evidence_digest(identity, id).as_slice(), &mut digits).unwrap();
    digits
}

/// What stands after the piece at the start of the text, if it does stand there.
fn suffix<'a>(text: &'a [u8], piece: &[u8]) -> Option<&'a [u8]>
    ensures some { IfSome result (λ rest. text.now ≡ piece.now ++ rest.now) }
    ensures none { IfNone result ((rest : List ℕ) → text.now ≢ piece.now ++ rest) }
{
    text.strip_prefix(piece)
}

/// What stands after the text of the identifier.
fn after_id<'a>(text: &'a [u8], id: TxId) -> Option<&'a [u8]>
    ensures some { IfSome result (λ rest. text.now ≡ text_of id ++ rest.now) }
    ensures none { IfNone result ((rest : List ℕ) → text.now ≢ text_of id ++ rest) }
{
    let mut buffer = Buffer::new();
    let rest = suffix(text, buffer.format(id.view).as_bytes())?;
    let rest = suffix(rest, b".")?;
    suffix(rest, buffer.format(id.seqno).as_bytes())
}

/// What stands after `ce:`, the identifier and `:`.
fn after_evidence_id<'a>(text: &'a [u8], id: TxId) -> Option<&'a [u8]>
    ensures some { IfSome result (λ rest.
        text.now ≡ codes "ce:" ++ text_of id ++ codes ":" ++ rest.now) }
    ensures none { IfNone result ((rest : List ℕ) →
        text.now ≢ codes "ce:" ++ text_of id ++ codes ":" ++ rest) }
{
    let rest = suffix(text, b"ce:")?;
    let rest = after_id(rest, id)?;
    suffix(rest, b":")
}

/// Whether the text is the commit evidence of this transaction of the service with this key. Takes
/// no memory.
pub fn is_evidence(text: &[u8], identity: &[u8; 60], id: TxId) -> bool
    ensures { IsTrue result ↔ (text.now ≡ evidence_text identity.now id) }
{
    match after_evidence_id(text, id) {
        None => false,
        Some(digits) => same_bytes(digits, &evidence_digits(identity, id)),
    }
}

/// The digest of the commit evidence's text. Takes no memory.
pub fn commit_evidence_digest(identity: &[u8; 60], id: TxId) -> Digest
    ensures { result ≡ sha256 (evidence_text identity.now id) }
{
    let digits = evidence_digits(identity, id);
    let mut buffer = Buffer::new();
    let mut hasher = Sha256::new();
    hasher.update(b"ce:");
    hasher.update(buffer.format(id.view).as_bytes());
    hasher.update(b".");
    hasher.update(buffer.format(id.seqno).as_bytes());
    hasher.update(b":");
    hasher.update(&digits);
    hasher.finalize()
}

/// The leaf of an entry whose body and commit evidence have these digests, and which has these
/// claims (CCF documentation, "Receipts"). Takes no memory.
pub fn leaf_of_components(body: &Digest, evidence: &Digest, claims: &Digest) -> Digest
    ensures { result ≡ leaf_of_components body.now evidence.now claims.now }
{
    let mut hasher = Sha256::new();
    hasher.update(body);
    hasher.update(evidence);
    hasher.update(claims);
    hasher.finalize()
}

/// The leaf of an entry whose body has this digest.
fn leaf_of_digest(identity: &[u8; 60], entry: &Entry, body: &Digest) -> Digest
    requires { body.now ≡ sha256 (body_bytes entry.now) }
    ensures { result ≡ leaf_of identity.now entry.now }
{
    let id = TxId {
        view: entry.view,
        seqno: entry.seqno,
    };
    leaf_of_components(body, &commit_evidence_digest(identity, id), &entry.claims)
}

/// The leaf of an entry whose body has these bytes, in the tree of the service with this key.
pub fn leaf_of_body(identity: &[u8; 60], entry: &Entry, body: &[u8]) -> Digest
    requires { body.now ≡ body_bytes entry.now }
    ensures { result ≡ leaf_of identity.now entry.now }
{
    leaf_of_digest(identity, entry, &Sha256::digest(body))
}

/// The leaf of an entry in the tree of the service with this key. Takes no memory.
pub fn leaf(entry: &Entry, identity: &[u8; 60]) -> Digest
    ensures { result ≡ leaf_of identity.now entry.now }
{
    leaf_of_digest(identity, entry, &entry.body_digest())
}
