//! A member's request.

ghost use Rattle.std.specs.Prelude.{◌≡◌, ◌<◌, ◌≤◌, ◌^◌, length, drop, true, IfOk};
ghost use Rattle.gl_hss.specs.Types.{height};
ghost use Rattle.gl_requests.specs.Ranges.{is_act};
ghost use Rattle.gl_consortium.specs.ExpectedOutput.{request_line};

use crate::leaf::hss_signature;
use gl_base::{Bytes, put_bytes, put_u32};
use gl_hss::LmsKey;
use gl_requests::{HssPublicKey, MemberAct, MemberRequest};
use std::alloc::{AllocError, Global};

/// After so many bytes of what a member signs the request's own begin: a word of 7 bytes and the
/// service's key stand before them.
const REQUEST_AT: usize = 67;

/// The request's own bytes, of those that a member signs.
fn own_bytes(message: &[u8]) -> &[u8]
    requires { 67 ≤ length message.now }
    ensures { result.now ≡ drop 67 message.now }
{
    &message[REQUEST_AT..]
}

/// The bytes of a member's request, signed by a leaf of its key: those that are signed after the
/// word and the service's key, and the signature after its length.
#[tactic(auto, unfolding(crate::specs::ExpectedOutput::request_line))]
pub(crate) fn request_bytes(
    alloc: Global,
    by: LmsKey,
    leaf: u32,
    identity: &HssPublicKey,
    member: u8,
    act: MemberAct,
) -> Result<Vec<u8>, AllocError>
    requires leaf { leaf < 2 ^ height by.types }
    requires fits { is_act act ≡ true }
    ensures { IfOk result (λ reported. reported.items
        ≡ request_line by leaf identity.now member act) }
{
    let unsigned = MemberRequest {
        member,
        act,
        signature: Bytes::from(Vec::new(alloc)),
    };
    let message = unsigned.signed_bytes(alloc, identity)?;
    let signature = hss_signature(by, None, leaf, &message)?;
    let mut reported = Vec::from_slice(alloc, own_bytes(&message))?;
    put_u32(&mut reported, signature.len() as u32)?;
    put_bytes(&mut reported, &signature)?;
    Ok(reported)
}
