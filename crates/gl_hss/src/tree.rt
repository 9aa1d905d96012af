//! Trees of one-time keys, LMS (section 5).

ghost use Rattle.std.specs.Prelude.{◌≡◌, ◌*◌, length};
ghost use Rattle.gl_hss.specs.Ots.{key_candidate};
ghost use Rattle.gl_hss.specs.Tree.{leaf_node, inner_node, parent, climb, root_candidate, IsKey, IsSignature};
ghost use Rattle.gl_hss.specs.Lent.{key_of, signature_of};

use crate::bytes::{block, u32str};
use crate::lms::{LmsPublicKey, LmsSignature};
use crate::ots::{digits, key_of_chains, message_digest};
use sha2::{Digest, Sha256};

// Which use of the hash it is (section 7.1).
const D_LEAF: [u8; 2] = [0x82, 0x82];

const D_INTR: [u8; 2] = [0x83, 0x83];

// The node of a leaf with this one-time public key.
#[tactic(auto, unfolding(crate::specs::Tree::leaf_node))]
pub(crate) fn leaf_node(identifier: &[u8], node: u32, key: &[u8; 32]) -> [u8; 32]
    ensures { result ≡ leaf_node identifier.now node key.now }
{
    let mut hasher = Sha256::new();
    hasher.update(identifier);
    hasher.update(u32str(node));
    hasher.update(D_LEAF);
    hasher.update(key);
    hasher.finalize()
}

// The node above these two.
#[tactic(auto, unfolding(crate::specs::Tree::inner_node))]
pub(crate) fn inner_node(
    identifier: &[u8],
    node: u32,
    left: &[u8; 32],
    right: &[u8; 32],
) -> [u8; 32]
    ensures { result ≡ inner_node identifier.now node left.now right.now }
{
    let mut hasher = Sha256::new();
    hasher.update(identifier);
    hasher.update(u32str(node));
    hasher.update(D_INTR);
    hasher.update(left);
    hasher.update(right);
    hasher.finalize()
}

// The node above `node`, which is a right child where its number is odd.
#[tactic(auto, unfolding(crate::specs::Tree::parent))]
fn parent(identifier: &[u8], node: u32, sibling: &[u8; 32], value: &[u8; 32]) -> [u8; 32]
    ensures { result ≡ parent identifier.now node sibling.now value.now }
{
    if node % 2 == 1 {
        inner_node(identifier, node / 2, sibling, value)
    } else {
        inner_node(identifier, node / 2, value, sibling)
    }
}

// The value `levels` above `node`, by the siblings in a path.
fn climb(identifier: &[u8], path: &[u8], node: u32, levels: u32, value: [u8; 32]) -> [u8; 32]
    requires { length path.now ≡ 32 * levels }
    ensures { result ≡ climb identifier.now path.now node levels value }
{
    let mut value = value;
    let mut node = node;
    for i in 0..levels {
        value = parent(identifier, node, &block(path, i as usize), &value);
        node /= 2;
    }
    value
}

// The one-time public key that a signature of the message leads to.
#[tactic(auto, unfolding(crate::specs::Ots::key_candidate))]
fn key_candidate(key: &LmsPublicKey<'_>, signature: &LmsSignature<'_>, message: &[u8]) -> [u8; 32]
    requires key { IsKey (key_of key.now) }
    requires signature { IsSignature key.now.types (signature_of signature.now) }
    ensures { result ≡ key_candidate key.now.types key.now.identifier.now signature.now.leaf
        signature.now.randomizer.now signature.now.chains.now message.now }
{
    let q = signature.leaf;
    let digest = message_digest(key.identifier, q, signature.randomizer, message);
    let digits = digits(key.types, &digest);
    key_of_chains(key.types, key.identifier, q, &digits, signature.chains)
}

/// Tc: the root that the signature of the message leads to (section 5.4.2, algorithm 6a).
///
/// The signature is valid exactly if that is the root of the key.
#[tactic(auto, unfolding(crate::specs::Tree::root_candidate))]
pub fn root_candidate(
    key: &LmsPublicKey<'_>,
    signature: &LmsSignature<'_>,
    message: &[u8],
) -> [u8; 32]
    requires key { IsKey (key_of key.now) }
    requires signature { IsSignature key.now.types (signature_of signature.now) }
    ensures { result ≡ root_candidate key.now.types key.now.identifier.now
        (signature_of signature.now) message.now }
{
    let node = key.types.leaf_count() + signature.leaf;
    let one_time_key = key_candidate(key, signature, message);
    let leaf = leaf_node(key.identifier, node, &one_time_key);
    climb(
        key.identifier,
        signature.path,
        node,
        key.types.height(),
        leaf,
    )
}
