//! Whether a signature leads to the root of the key that it is to be by (section 5.4.2).

ghost use Rattle.std.specs.Prelude.{◌≡◌, ◌<◌};
ghost use Rattle.gl_hss.specs.Tree.{IsKey, IsSignature};
ghost use Rattle.gl_hss.specs.Lent.{key_of, signature_of};
ghost use Rattle.gl_hss.specs.Order.{has_root, one_level};

use crate::fault::HssFault;
use crate::fields::{ends, signature_at};
use crate::{LmsPublicKey, LmsSignature, root_candidate};

// The root that the signature leads to is the key's.
#[tactic(auto, unfolding(crate::specs::Order::has_root))]
pub(crate) fn has_root(
    key: &LmsPublicKey<'_>,
    signature: &LmsSignature<'_>,
    message: &[u8],
) -> Result<(), HssFault>
    requires key { IsKey (key_of key.now) }
    requires signature { IsSignature key.now.types (signature_of signature.now) }
    ensures { result ≡ has_root (key_of key.now) (signature_of signature.now) message.now }
{
    let got = root_candidate(key, signature, message);
    if got.as_slice() == key.root {
        Ok(())
    } else {
        let mut want = [0; 32];
        want.copy_from_slice(key.root);
        Err(HssFault::Root { want, got })
    }
}

// Verifies an LMS signature of the message, which stands from this place on and ends the bytes.
#[tactic(auto, unfolding(crate::specs::Order::one_level))]
pub(crate) fn one_level(
    key: &LmsPublicKey<'_>,
    message: &[u8],
    bytes: &[u8],
    at: usize,
) -> Result<(), HssFault>
    requires key { IsKey (key_of key.now) }
    requires place { at < 65536 }
    ensures { result ≡ one_level (key_of key.now) message.now bytes.now at }
{
    let len = at + key.types.signature_len();
    let last = signature_at(key.types, bytes, at, len)?;
    ends(bytes, len)?;
    has_root(key, &last, message)
}
