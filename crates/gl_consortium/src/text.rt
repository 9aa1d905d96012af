//! The text that tells a dealing.

ghost use Rattle.std.specs.Prelude.{◌≡◌, ◌≤◌, ◌++◌, [], true, Ok, IfOk, OnOk, decimal, flat_map, map};
ghost use Rattle.hex.specs.Hex.{encode_lower};
ghost use Rattle.gl_consortium.specs.Dealt.{action_text, deal_text, dealing_of, dealt, digest_of, share_line};
ghost use Rattle.gl_consortium.specs.Members.{can_deal};
ghost use Rattle.gl_forms.specs.Actions.{action_in};
ghost use Rattle.gl_forms.specs.Text.{from_text};
ghost use Rattle.gl_requests.specs.declared.action.Action.TheVariants.{SetRecoveryThreshold};

use crate::members::member_bytes;
use crate::tree::write_dealing;
use gl_base::Sequence;
use gl_requests::{Dealing, ShareDigest};
use gl_shares::{Share, deal};
use itoa::Buffer;
use sha2::{Digest as _, Sha256};
use std::alloc::{AllocError, Global};

fn share_digests(alloc: Global, shares: &[Share]) -> Result<Vec<ShareDigest>, AllocError>
    ensures { IfOk result (λ digests. digests.items ≡ map digest_of shares.now) }
{
    let mut digests = Vec::new(alloc);
    for share in shares {
        digests.push(ShareDigest {
            member: share.member,
            digest: Sha256::digest(&share.value),
        })?;
    }
    Ok(digests)
}

/// The dealing of a secret with these shares.
fn dealing_of(
    alloc: Global,
    threshold: u8,
    secret: &[u8; 32],
    shares: &[Share],
) -> Result<Dealing, AllocError>
    ensures { IfOk result (λ dealing. dealing ≡ dealing_of threshold secret.now shares.now) }
{
    Ok(Dealing {
        threshold,
        secret_digest: Sha256::digest(secret),
        shares: Sequence::from(share_digests(alloc, shares)?),
    })
}

/// A member's number, and the member's share in lower-case hexadecimal.
fn put_share(alloc: Global, out: &mut Vec<u8>, share: &Share) -> Result<(), AllocError>
    ensures { OnOk result (out.new.items ≡ out.old.items ++ share_line share.now) }
{
    out.extend_from_slice(Buffer::new().format(share.member).as_bytes())?;
    out.extend_from_slice(b" ")?;
    out.extend_from_slice(hex::encode(alloc, &share.value)?.as_bytes())?;
    out.extend_from_slice(b"\n")
}

fn put_shares(alloc: Global, out: &mut Vec<u8>, shares: &[Share]) -> Result<(), AllocError>
    ensures { OnOk result (out.new.items ≡ out.old.items ++ flat_map share_line shares.now) }
{
    for share in shares {
        put_share(alloc, out, share)?;
    }
    Ok(())
}

/// The shares of a secret.
fn dealt(
    alloc: Global,
    threshold: u64,
    numbers: &[u64],
    secret: &[u8; 32],
    seed: [u8; 32],
) -> Result<Vec<Share>, AllocError>
    requires { can_deal threshold numbers.now ≡ true }
    ensures { IfOk result (λ shares.
        shares.items ≡ dealt threshold numbers.now secret.now seed) }
{
    let members = member_bytes(alloc, numbers)?;
    deal(alloc, secret, threshold as u8, &members, seed)
}

/// Deals a secret among the members with these numbers, so that the shares of `threshold` of them
/// give it. The coefficients are drawn from the seed.
///
/// The text has a line with the JSON of the action that sets the dealing, and then for each member
/// a line with the number and the share, which is the member's secret.
#[tactic(auto, unfolding(crate::specs::Dealt::deal_text))]
pub fn deal_text(
    alloc: Global,
    threshold: u64,
    numbers: &[u64],
    secret: &[u8; 32],
    seed: [u8; 32],
) -> Result<Vec<u8>, AllocError>
    requires { can_deal threshold numbers.now ≡ true }
    ensures text { IfOk result (λ text.
        text.items ≡ deal_text threshold (dealt threshold numbers.now secret.now seed) secret.now) }

    // The first line is read as the action that sets the dealing.
    ensures reads_back { OnOk result (
        (let dealing = dealing_of threshold secret.now
        (dealt threshold numbers.now secret.now seed) in
        from_text (action_in []) (action_text dealing) ≡ Ok (SetRecoveryThreshold dealing))) }
{
    let shares = dealt(alloc, threshold, numbers, secret, seed)?;
    let dealing = dealing_of(alloc, threshold as u8, secret, &shares)?;
    let mut text = write_dealing(alloc, &dealing)?;
    text.push(b'\n')?;
    put_shares(alloc, &mut text, &shares)?;
    Ok(text)
}
