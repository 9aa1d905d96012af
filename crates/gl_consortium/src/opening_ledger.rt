//! The opening of a service.

ghost use Rattle.std.specs.Prelude.{◌≡◌, ◌<◌, ◌≤◌, ◌^◌, [], ◌∷◌, None, Some, length, true, IfOk, OnOk};
ghost use Rattle.gl_base.specs.Answers.{Answers};
ghost use Rattle.gl_hss.specs.Signer.{hss_signature};
ghost use Rattle.gl_hss.specs.Types.{height};
ghost use Rattle.gl_merkle.specs.Tree.{root_of};
ghost use Rattle.gl_entry.specs.Entry.{frame_bytes};
ghost use Rattle.gl_entry.specs.SignedMessage.{signed_message};
ghost use Rattle.gl_requests.specs.Ranges.{is_genesis};
ghost use Rattle.gl_gov_rules.specs.History.{no_history};
ghost use Rattle.gl_gov_rules.specs.Refusals.{genesis_refusal};
ghost use Rattle.gl_ledger.specs.Ledger.{genesis_entry};
ghost use Rattle.gl_ledger.specs.Tree.{leaves_of};
ghost use Rattle.gl_consortium.specs.ExpectedOutput.{first_endorsement, first_id, founding_fault, id_of, is_accepted, is_first_node, opening_bytes, opening_entry};
ghost use Rattle.gl_consortium.specs.Faults.{IsOfFounding};

use crate::fault::SigningFault;
use crate::leaf::hss_signature;
use gl_base::{Bytes, FIRST_VIEW, OrNoMemory, put_bytes};
use gl_entry::{Content, Digest, Entry, Signature, signed_message};
use gl_gov_decisions::refusal;
use gl_gov_rules::{GovernanceRefusal, History};
use gl_hss::LmsKey;
use gl_requests::{Genesis, GovernanceRequest, NewNode, NodeId};
use gl_store::Store;
use gl_vmaps::Writes;
use sha2::{Digest as _, Sha256};
use std::alloc::{AllocError, Global};

/// The seqno of the signature that opens a service, which is the commit that it records.
const OPENING_SEQNO: u64 = 2;

/// The identifier of the first node, zero bytes where there is none.
fn first_id(nodes: &[NewNode]) -> NodeId
    ensures { result ≡ first_id nodes.now }
{
    match nodes.first() {
        Some(node) => node.id(),
        None => [0; 32],
    }
}

/// The endorsement of the first node.
fn first_endorsement(alloc: Global, nodes: &[NewNode]) -> Result<Vec<u8>, AllocError>
    ensures { IfOk result (λ bytes. bytes.items ≡ first_endorsement nodes.now) }
{
    let Some(node) = nodes.first() else {
        return Ok(Vec::new(alloc));
    };
    Vec::from_slice(alloc, node.endorsement.as_slice())
}

/// The identifier of the node with this key.
fn id_of(by: &LmsKey) -> NodeId
    ensures { result ≡ id_of by.now }
{
    Sha256::digest(&by.public())
}

/// Refuses a key that isn't that of the first node.
pub(crate) fn check_first_node(by: &LmsKey, nodes: &[NewNode]) -> Result<(), SigningFault>
    ensures { result ≡ is_first_node by.now nodes.now }
{
    let want = first_id(nodes);
    let got = id_of(by);
    if want == got {
        Ok(())
    } else {
        Err(SigningFault::NotFirstNode { want, got })
    }
}

/// Why a genesis is refused.
fn founding_fault(why: GovernanceRefusal) -> SigningFault
    requires { IsOfFounding why }
    ensures { result ≡ founding_fault why }
{
    match why {
        GovernanceRefusal::BadAction { index, cause } => SigningFault::BadAction { index, cause },
        GovernanceRefusal::Signature => SigningFault::Signature,
        _ => unreachable!(),
    }
}

/// Refuses a genesis that isn't accepted after no request.
#[tactic(auto, unfolding(crate::specs::ExpectedOutput::is_accepted))]
pub(crate) fn check_accepted(
    alloc: Global,
    genesis: &Genesis,
) -> Result<(), OrNoMemory<SigningFault>>
    requires fits { is_genesis genesis.now ≡ true }
    ensures exact { Answers (λ u. u) result (is_accepted genesis.now) }
    ensures accepted { OnOk result (genesis_refusal no_history genesis.now ≡ None) }
{
    let request = GovernanceRequest::Genesis(genesis.copy(alloc)?);
    match refusal(alloc, &History::new(alloc), 1, &request)? {
        Some(why) => Err(OrNoMemory::Fault(founding_fault(why))),
        None => Ok(()),
    }
}

/// The entry of the signature that opens a service.
fn opening_entry(alloc: Global, node: NodeId, root: Digest, signature: Vec<u8>) -> Entry
    ensures { result ≡ opening_entry node root signature.items }
{
    Entry {
        view: FIRST_VIEW,
        seqno: OPENING_SEQNO,
        content: Content::Signature(Signature {
            node,
            commit: OPENING_SEQNO,
            root,
            signature: Bytes::from(signature),
        }),
        writes: Writes::new(alloc),
        claims: [0; 32],
    }
}

/// The frame of the entry that founds a service, and the root of the tree with its leaf.
#[derive(Drop)]
struct FirstFrame {
    bytes: Vec<u8>,
    root: Digest,
}

/// The first frame of a genesis that is accepted.
fn first_frame(alloc: Global, genesis: Genesis) -> Result<FirstFrame, AllocError>
    requires fits { is_genesis genesis ≡ true }
    requires accepted { genesis_refusal no_history genesis ≡ None }
    ensures bytes { IfOk result (λ first.
        first.bytes.items ≡ frame_bytes (genesis_entry genesis)) }
    ensures root { IfOk result (λ first.
        first.root ≡ root_of (leaves_of (genesis_entry genesis ∷ []))) }
{
    let mut store = Store::new(alloc)?;
    store.found(genesis)?;
    let bytes = store.entries()[0].encode(alloc)?;
    Ok(FirstFrame {
        bytes,
        root: store.root(),
    })
}

/// The frame of the signature that opens a service, over a root, by a leaf of a key with this
/// endorsement.
fn signature_frame(
    alloc: Global,
    by: LmsKey,
    leaf: u32,
    endorsement: Vec<u8>,
    root: Digest,
) -> Result<Vec<u8>, AllocError>
    requires leaf { leaf < 2 ^ height by.types }
    requires short { length endorsement.items ≤ 2508 }
    ensures { IfOk result (λ frame. frame.items ≡ frame_bytes (opening_entry (id_of by) root
        (hss_signature by (Some endorsement.items) leaf (signed_message root 2 2 2)))) }
{
    let node = id_of(&by);
    let message = signed_message(&root, FIRST_VIEW, OPENING_SEQNO, OPENING_SEQNO);
    let signature = hss_signature(by, Some(endorsement), leaf, &message)?;
    opening_entry(alloc, node, root, signature).encode(alloc)
}

/// The frames of the opening ledger of a genesis that is accepted, signed by a leaf of a key.
#[tactic(auto, unfolding(crate::specs::ExpectedOutput::opening_bytes))]
pub(crate) fn opening_bytes(
    alloc: Global,
    by: LmsKey,
    leaf: u32,
    genesis: Genesis,
) -> Result<Vec<u8>, AllocError>
    requires leaf { leaf < 2 ^ height by.types }
    requires fits { is_genesis genesis ≡ true }
    requires accepted { genesis_refusal no_history genesis ≡ None }
    ensures { IfOk result (λ reported. reported.items ≡ opening_bytes by leaf genesis) }
{
    let endorsement = first_endorsement(alloc, genesis.nodes.as_slice())?;
    let FirstFrame { bytes, root } = first_frame(alloc, genesis)?;
    let mut reported = bytes;
    let opening = signature_frame(alloc, by, leaf, endorsement, root)?;
    put_bytes(&mut reported, &opening)?;
    Ok(reported)
}
