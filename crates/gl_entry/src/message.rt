//! The message that a node signs.

ghost use Rattle.std.specs.Prelude.{◌≡◌};
ghost use Rattle.gl_entry.specs.SignedMessage.{signed_message};

use crate::entry::Digest;

/// What a node signs in a signature entry: the root of the Merkle tree over all earlier entries,
/// and the entry's view, its place and the commit that it records, each number with the low byte
/// first.
pub fn signed_message(root: &Digest, view: u32, seqno: u64, commit: u64) -> [u8; 52]
    ensures { result ≡ signed_message root.now view seqno commit }
{
    let mut message = [0; 52];
    let (prefix, rest) = message.split_at_mut(32);
    prefix.copy_from_slice(root);
    let (prefix, rest) = rest.split_at_mut(4);
    prefix.copy_from_slice(&view.to_le_bytes());
    let (prefix, rest) = rest.split_at_mut(8);
    prefix.copy_from_slice(&seqno.to_le_bytes());
    rest.copy_from_slice(&commit.to_le_bytes());
    message
}
