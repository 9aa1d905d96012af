//! The signature that opens the service again.

ghost use Rattle.std.specs.Prelude.{◌≡◌, ◌<◌, ◌≤◌, ◌+◌, ◌^◌, ◌↔◌, [], Some, length, IsTrue, IfOk};
ghost use Rattle.gl_base.specs.TxId.{last_seqno};
ghost use Rattle.gl_hss.specs.Types.{height};
ghost use Rattle.gl_hss.specs.Signer.{hss_signature, signature_size};
ghost use Rattle.gl_entry.specs.Entry.{body_bytes, body_limit};
ghost use Rattle.gl_ledger.specs.Ledger.{message_after, signature_entry};
ghost use Rattle.gl_recovery.specs.ExpectedOutput.{IsFirstKey, first_endorsement, id_of};

use gl_base::Bytes;
use gl_entry::{Content, Entry, Signature, signed_message};
use gl_hss::{HssSigner, LmsKey, SignFault};
use gl_requests::{NewNode, NodeId};
use gl_store::Store;
use gl_vmaps::Writes;
use sha2::{Digest, Sha256};
use std::alloc::{AllocError, Global};

/// Whether a key is that of the first node, if there is one: who starts a recovery signs for it.
pub fn is_first_key(by: &LmsKey, nodes: &[NewNode]) -> bool
    ensures { IsTrue result ↔ IsFirstKey by.now nodes.now }
{
    match nodes.first() {
        None => true,
        Some(node) => node.key == by.public(),
    }
}

/// The endorsement of the first node.
pub(crate) fn first_endorsement(alloc: Global, nodes: &[NewNode]) -> Result<Vec<u8>, AllocError>
    ensures { IfOk result (λ bytes. bytes.items ≡ first_endorsement nodes.now) }
{
    let Some(node) = nodes.first() else {
        return Ok(Vec::new(alloc));
    };
    Vec::from_slice(alloc, node.endorsement.as_slice())
}

/// The identifier of the node with this key.
pub(crate) fn id_of(by: &LmsKey) -> NodeId
    ensures { result ≡ id_of by.now }
{
    Sha256::digest(&by.public())
}

/// The HSS signature of a message by a leaf of a key with this endorsement.
fn hss_signature(
    by: LmsKey,
    endorsement: Vec<u8>,
    leaf: u32,
    message: &[u8],
) -> Result<Vec<u8>, AllocError>
    requires { leaf < 2 ^ height by.types }
    ensures bytes { IfOk result (λ signature. signature.items
        ≡ hss_signature by (Some endorsement.items) leaf message.now) }
    ensures size { IfOk result (λ signature. length signature.items
        ≡ signature_size by.types (Some endorsement.items)) }
{
    let mut signer = HssSigner::new(by, Some(endorsement), leaf);
    if signer.reserve().is_err() {
        unreachable!();
    }
    match signer.signature(message) {
        Ok(signature) => Ok(signature),
        Err(SignFault::NoMemory) => Err(AllocError),
        Err(SignFault::NotReserved { .. }) => unreachable!(),
    }
}

/// The entry of a signature after the ledger, by a leaf of a node's key with this endorsement. It
/// records its own seqno, as one does that opens a service.
pub(crate) fn opening_entry(
    alloc: Global,
    store: &Store,
    view: u32,
    by: LmsKey,
    endorsement: Vec<u8>,
    leaf: u32,
) -> Result<Entry, AllocError>
    requires some { 0 < length store.now.ledger }
    requires left { length store.now.ledger < last_seqno }
    requires leaf { leaf < 2 ^ height by.types }
    requires short { length endorsement.items ≤ 2 ^ 16 }
    ensures made { IfOk result (λ entry. entry ≡ signature_entry (id_of by)
        (hss_signature by (Some endorsement.items) leaf
        (message_after store.now.ledger view (length store.now.ledger + 1)))
        store.now.ledger view (length store.now.ledger + 1)) }
    ensures small { IfOk result (λ entry. length (body_bytes entry) ≤ body_limit) }
{
    let node = id_of(&by);
    let root = store.root();
    let seqno = store.ledger_len() + 1;
    let message = signed_message(&root, view, seqno, seqno);
    let signature = hss_signature(by, endorsement, leaf, &message)?;
    Ok(Entry {
        view,
        seqno,
        content: Content::Signature(Signature {
            node,
            commit: seqno,
            root,
            signature: Bytes::from(signature),
        }),
        writes: Writes::new(alloc),
        claims: [0; 32],
    })
}
