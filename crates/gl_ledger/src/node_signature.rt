//! Whether a node signed.

ghost use Rattle.std.specs.Prelude.{◌≡◌, Ok};
ghost use Rattle.gl_ledger.specs.NodeKeys.{node_signature_fault, signer_fault};

use gl_entry::NodeId;
use gl_hss::{HssFault, last_key, verify};
use gl_requests::{HssPublicKey, LmsPublicKey};
use sha2::{Digest, Sha256};

/// Why the key isn't the node's, whose identifier is its key's digest.
fn signer_fault(node: &NodeId, key: &LmsPublicKey) -> Option<HssFault>
    ensures { result ≡ signer_fault node.now (Ok key.now) }
{
    let found = Sha256::digest(key);
    if found == *node {
        None
    } else {
        Some(HssFault::Root {
            want: *node,
            got: found,
        })
    }
}

/// Why the bytes are no signature of a message by a node, in a service with this key: the first
/// fault of the signature under the service's key (RFC 8554, section 6.3), or else `Root` with the
/// node's identifier and the digest of the key that signed.
pub fn node_signature_fault(
    identity: &HssPublicKey,
    node: &NodeId,
    message: &[u8],
    signature: &[u8],
) -> Option<HssFault>
    ensures fault { result
        ≡ node_signature_fault identity.now node.now message.now signature.now }
{
    if let Err(fault) = verify(identity, message, signature) {
        return Some(fault);
    }
    match last_key(identity, signature) {
        Ok(key) => signer_fault(node, &key),
        Err(fault) => Some(fault),
    }
}
