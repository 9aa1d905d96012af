//! Which signatures of members and which endorsements of nodes are valid (RFC 8554, section 6.3).

ghost use Rattle.std.specs.Prelude.{◌≡◌, true, IfOk};
ghost use Rattle.gl_requests.specs.Ranges.{is_act};
ghost use Rattle.gl_gov_rules.specs.Signatures.{is_signed, is_endorsed};

use gl_hss::bytes::number_at;
use gl_requests::{HssPublicKey, LmsPublicKey, MemberRequest};
use std::alloc::{AllocError, Global};

/// Whether a member's request is signed under its key, which has one level, in the service with
/// this key.
#[tactic(auto, unfolding(gl_gov_rules::specs::Signatures::is_signed))]
pub(crate) fn is_signed(
    alloc: Global,
    key: &HssPublicKey,
    identity: &[u8],
    request: &MemberRequest,
) -> Result<bool, AllocError>
    requires fits { is_act request.now.act ≡ true }
    ensures signed { IfOk result (λ signed. signed ≡ is_signed key.now identity.now request.now) }
{
    let message = request.signed_bytes(alloc, identity)?;
    let verdict = gl_hss::verify(key, &message, request.signature.as_slice());
    Ok(number_at(key, 0) == 1 && verdict.is_ok())
}

/// Whether the service with this key, which has two levels, endorses a node's key.
#[tactic(auto, unfolding(gl_gov_rules::specs::Signatures::is_endorsed))]
pub(crate) fn is_endorsed(identity: &HssPublicKey, key: &LmsPublicKey, endorsement: &[u8]) -> bool
    ensures { result ≡ is_endorsed identity.now key.now endorsement.now }
{
    gl_hss::verify_endorsement(identity, key, endorsement).is_ok()
}
