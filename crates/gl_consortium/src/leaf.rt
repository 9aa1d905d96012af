//! The leaf of a key that signs.

ghost use Rattle.std.specs.Prelude.{◌≡◌, ◌<◌, ◌^◌, length, IfOk, OnOk};
ghost use Rattle.gl_hss.specs.Types.{height};
ghost use Rattle.gl_hss.specs.Signer.{endorsement_of, hss_signature, signature_size};
ghost use Rattle.gl_consortium.specs.ExpectedOutput.{has_leaf, private_key};

use crate::fault::SigningFault;
use gl_hss::{HssSigner, LmsKey, SignFault, Types};
use gl_journal::Key;
use std::alloc::{AllocError, Global};

/// Refuses a key of these types that has no leaf with this number.
pub(crate) fn check_leaf(types: Types, leaf: u32) -> Result<(), SigningFault>
    ensures exact { result ≡ has_leaf types leaf }
    ensures below { OnOk result (leaf < 2 ^ height types) }
{
    if types.leaf_count() <= leaf {
        return Err(SigningFault::KeyExhausted { reserved: leaf });
    }
    Ok(())
}

/// The private key that grows from the seed of a key. It takes as many digests as `LmsKey::make`.
pub(crate) fn private_key(alloc: Global, key: &Key) -> Result<LmsKey, AllocError>
    ensures { IfOk result (λ by. by ≡ private_key key.now) }
{
    LmsKey::make(alloc, key.seed, key.types)
}

/// The HSS signature of a message by a leaf of a key: of two levels with an endorsement, else of
/// one.
pub(crate) fn hss_signature(
    by: LmsKey,
    endorsement: Option<Vec<u8>>,
    leaf: u32,
    message: &[u8],
) -> Result<Vec<u8>, AllocError>
    requires { leaf < 2 ^ height by.types }
    ensures bytes { IfOk result (λ signature. signature.items
        ≡ hss_signature by (endorsement_of endorsement) leaf message.now) }
    ensures size { IfOk result (λ signature. length signature.items
        ≡ signature_size by.types (endorsement_of endorsement)) }
{
    let mut signer = HssSigner::new(by, endorsement, leaf);
    if signer.reserve().is_err() {
        unreachable!();
    }
    match signer.signature(message) {
        Ok(signature) => Ok(signature),
        Err(SignFault::NoMemory) => Err(AllocError),
        Err(SignFault::NotReserved { .. }) => unreachable!(),
    }
}
