//! What is wrong with a member's share of the recovery secret.

ghost use Rattle.std.specs.Prelude.{◌≡◌, ◌++◌, ◌∷◌, [], ◌&&◌, nat_eq, IfOk};
ghost use Rattle.std.specs.List.{list_any};
ghost use Rattle.gl_base.specs.Bytes.{same_bytes};
ghost use Rattle.sha2.specs.Sha256.{sha256};
ghost use Rattle.gl_shares.specs.Joining.{joined};
ghost use Rattle.gl_requests.specs.declared.genesis.ShareDigest as a_digest;
ghost use Rattle.gl_gov_rules.specs.Service.{dealing, service_state};
ghost use Rattle.gl_gov_rules.specs.Refusals.{waiting_refusal, is_dealt, secret_refusal, has_given, share_refusal};

use crate::changes::is_complete;
use gl_gov_rules::{GovernanceRefusal, History};
use gl_requests::{Digest, ServiceState, ShareDigest};
use gl_shares::{Share, join};
use sha2::{Digest as _, Sha256};
use std::alloc::{AllocError, Global};

/// Whether the service doesn't wait for shares.
fn waiting_refusal(state: Option<ServiceState>) -> Option<GovernanceRefusal>
    ensures { result ≡ waiting_refusal state }
{
    match state {
        None => None,
        Some(ServiceState::WaitingForRecoveryShares) => None,
        Some(state) => Some(GovernanceRefusal::ServiceState { state }),
    }
}

/// Whether the member's share is among these.
fn has_given(member: u8, given: &[Share]) -> bool
    ensures { result ≡ list_any (has_given member) given.now }
{
    given.iter().any(|share| share.member == member)
}

/// Whether one of these is the digest of the member's share.
fn is_digest_among(member: u8, digest: &Digest, shares: &[ShareDigest]) -> bool
    ensures { result ≡ list_any
        (λ (s : a_digest.ShareDigest). nat_eq s.member member && same_bytes s.digest digest.now)
        shares.now }
{
    shares
        .iter()
        .any(|share| share.member == member && share.digest == *digest)
}

/// Whether the digest is the one that the dealing in force has for the member.
fn is_dealt(past: &History, member: u8, digest: &Digest) -> bool
    ensures { result ≡ is_dealt member digest.now (dealing past.now) }
{
    match past.dealing() {
        None => false,
        Some(dealing) => is_digest_among(member, digest, dealing.shares.as_slice()),
    }
}

/// Whether the digest isn't the one that the dealing in force has of its secret.
fn secret_refusal(past: &History, got: Digest) -> Option<GovernanceRefusal>
    ensures { result ≡ secret_refusal got (dealing past.now) }
{
    match past.dealing() {
        None => None,
        Some(dealing) => {
            let want = dealing.secret_digest;
            if want == got {
                None
            } else {
                Some(GovernanceRefusal::Secret { want, got })
            }
        }
    }
}

/// Whether the shares that were given, with one more, join to another secret than was dealt.
fn joined_refusal(
    past: &History,
    mut shares: Vec<Share>,
    last: Share,
) -> Result<Option<GovernanceRefusal>, AllocError>
    ensures { IfOk result (λ why.
        why ≡ secret_refusal (sha256 (joined (shares.items ++ last ∷ []))) (dealing past.now)) }
{
    shares.push(last)?;
    Ok(secret_refusal(past, Sha256::digest(&join(&shares))))
}

/// What is wrong with a share: the service doesn't wait for shares, the member has given its own,
/// this isn't the one that was dealt to it, or it completes the threshold with a wrong secret.
#[tactic(auto, unfolding(gl_gov_rules::specs::Refusals::share_refusal))]
pub(crate) fn share_refusal(
    alloc: Global,
    past: &History,
    member: u8,
    value: &[u8; 32],
) -> Result<Option<GovernanceRefusal>, AllocError>
    ensures { IfOk result (λ why. why ≡ share_refusal past.now member value.now) }
{
    if let Some(why) = waiting_refusal(past.service_state()) {
        return Ok(Some(why));
    }
    let given = past.shares_given(alloc)?;
    if has_given(member, &given) {
        return Ok(Some(GovernanceRefusal::KnownShare { member }));
    }
    let digest = Sha256::digest(value);
    if !is_dealt(past, member, &digest) {
        return Ok(Some(GovernanceRefusal::WrongShare { digest }));
    }
    if is_complete(past, &given) {
        let value = *value;
        joined_refusal(past, given, Share { member, value })
    } else {
        Ok(None)
    }
}
