//! Nodes whose endorsements were verified, so that these aren't hashed with each signature.

ghost use Rattle.std.specs.Prelude.{◌≡◌, ◌↔◌, IsTrue, IfSome, IfNone, Contains};
ghost use Rattle.gl_ledger.specs.NodeKeys.{node_signature_fault, signer_fault};
ghost use Rattle.gl_audit.specs.Known.{Knows, Learns};
ghost use Rattle.gl_audit.specs.declared.known_nodes.KnownNode.{KnownNode};

use gl_entry::NodeId;
use gl_gov_rules::RecordedNode;
use gl_hss::{EndorsedKey, HssFault, last_key, verify_below};
use gl_ledger::node_signature_fault;
use gl_requests::{HssPublicKey, LmsPublicKey, NewNode};
use sha2::{Digest, Sha256};
use std::alloc::Global;

/// A node's identifier, and its key, whose endorsement was verified.
#[derive(Drop)]
struct KnownNode {
    node: NodeId,
    key: EndorsedKey,
}

impl KnownNode {
    /// It is this node, endorsed by this identity.
    fn is_of(&self, identity: &HssPublicKey, node: &NodeId) -> bool
        ensures { IsTrue result ↔ Knows identity.now node.now self.now }
    {
        self.node == *node && self.key.identity() == identity
    }
}

/// Nodes whose endorsements were verified. They are kept for speed alone: no answer depends on
/// which they are.
#[derive(Drop)]
pub struct KnownNodes {
    nodes: Vec<KnownNode>,
}

/// The node's key, if its endorsement is valid and there is memory.
fn endorsed_key(alloc: Global, identity: &HssPublicKey, node: &NewNode) -> Option<EndorsedKey>
    ensures identity { IfSome result (λ known. known.identity ≡ identity.now) }
    ensures key { IfSome result (λ known. known.key ≡ node.now.key) }
    ensures endorsement { IfSome result (λ known. known.signature ≡ node.now.endorsement) }
{
    let endorsement = Vec::from_slice(alloc, node.endorsement.as_slice()).ok()?;
    EndorsedKey::new(*identity, node.key, endorsement).ok()
}

/// Why the key that signed isn't the node's, whose identifier is its digest.
fn signer_fault(node: &NodeId, signer: Result<LmsPublicKey, HssFault>) -> Option<HssFault>
    ensures { result ≡ signer_fault node.now signer }
{
    let found = match signer {
        Ok(key) => Sha256::digest(&key),
        Err(fault) => return Some(fault),
    };
    if found == *node {
        None
    } else {
        Some(HssFault::Root {
            want: *node,
            got: found,
        })
    }
}

impl KnownNodes {
    /// None yet.
    pub fn new(alloc: Global) -> Self {
        KnownNodes {
            nodes: Vec::new(alloc),
        }
    }

    /// The node's key as this identity endorsed it.
    fn key_of(&self, identity: &HssPublicKey, node: &NodeId) -> Option<&EndorsedKey>
        ensures endorsed { IfSome result (λ key. key.now.identity ≡ identity.now) }
        ensures unknown { IfNone result ((known : KnownNode) →
            Contains self.now.nodes.items known → Knows identity.now node.now known → ⊥) }
    {
        match self.nodes.iter().find(|known| known.is_of(identity, node)) {
            None => None,
            Some(known) => Some(&known.key),
        }
    }

    /// The fault that `node_signature_fault` tells. The endorsement of a known node isn't hashed
    /// again.
    pub(crate) fn signature_fault(
        &self,
        identity: &HssPublicKey,
        node: &NodeId,
        message: &[u8],
        signature: &[u8],
    ) -> Option<HssFault>
        ensures { result
            ≡ node_signature_fault identity.now node.now message.now signature.now }
    {
        let Some(known) = self.key_of(identity, node) else {
            return node_signature_fault(identity, node, message, signature);
        };
        match verify_below(known, message, signature) {
            Ok(()) => signer_fault(node, last_key(identity, signature)),
            Err(fault) => Some(fault),
        }
    }

    /// Knows a node from now on, if the endorsement that was recorded is valid and there is memory.
    pub(crate) fn learn(&mut self, identity: &HssPublicKey, node: &RecordedNode)
        ensures { Learns identity.now node.now.id self.old.nodes.items self.new.nodes.items }
    {
        if self.key_of(identity, &node.id).is_some() {
            return;
        }
        let alloc = *self.nodes.allocator();
        if let Some(key) = endorsed_key(alloc, identity, &node.node) {
            let _ = self.nodes.push(KnownNode { node: node.id, key });
        }
    }
}
