//! The recovery secret of a service, dealt among its members.

ghost use Rattle.std.specs.Prelude.{◌≡◌, ◌≤◌, map, IfOk};
ghost use Rattle.gl_world.specs.Founding.{numbers_from, digest_of, dealing_of};

use crate::keys::word_digest;
use crate::settings::Settings;
use gl_base::Sequence;
use gl_requests::{Dealing, ShareDigest};
use gl_shares::{Share, deal};
use sha2::{Digest, Sha256};
use std::alloc::{AllocError, Global};

/// The members' numbers, from 1.
fn member_numbers(alloc: Global, settings: &Settings) -> Result<Vec<u8>, AllocError>
    ensures { IfOk result (λ numbers. numbers.items ≡ numbers_from 1 settings.now.members) }
{
    let mut numbers = Vec::new(alloc);
    for i in 0..settings.members {
        numbers.push(i + 1)?;
    }
    Ok(numbers)
}

fn share_digests(alloc: Global, shares: &[Share]) -> Result<Vec<ShareDigest>, AllocError>
    ensures { IfOk result (λ digests. digests.items ≡ map digest_of shares.now) }
{
    let mut digests = Vec::new(alloc);
    for share in shares {
        digests.push(ShareDigest {
            member: share.member,
            digest: Sha256::digest(&share.value),
        })?;
    }
    Ok(digests)
}

/// Deals the recovery secret among all members. One share suffices.
pub fn dealing(alloc: Global, settings: &Settings) -> Result<Dealing, AllocError>
    requires { 1 ≤ settings.now.members }
    ensures { IfOk result (λ dealing. dealing ≡ dealing_of settings.now) }
{
    let secret = word_digest(b"secret", &settings.seed);
    let seed = word_digest(b"deal", &settings.seed);
    let numbers = member_numbers(alloc, settings)?;
    let shares = deal(alloc, &secret, 1, &numbers, seed)?;
    Ok(Dealing {
        threshold: 1,
        secret_digest: Sha256::digest(&secret),
        shares: Sequence::from(share_digests(alloc, &shares)?),
    })
}
