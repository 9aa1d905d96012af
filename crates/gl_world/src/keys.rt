//! Keys and digests from seeds.

ghost use Rattle.std.specs.Prelude.{◌≡◌, ◌++◌, IfOk};
ghost use Rattle.sha2.specs.Sha256.{sha256};
ghost use Rattle.gl_base.specs.LittleEndian.{little_endian};
ghost use Rattle.gl_hss.specs.Levels.{level_count};
ghost use Rattle.gl_world.specs.Keys.{private_key, hss_key, member_seed, node_seed, service_seed};

use crate::settings::Settings;
use gl_entry::Digest;
use gl_hss::{HssPublic, Levels, LmsKey, Types};
use gl_requests::HssPublicKey;
use sha2::{Digest as _, Sha256};
use std::alloc::{AllocError, Global};

/// The digest of a word and a seed.
pub(crate) fn word_digest(word: &[u8], seed: &[u8]) -> Digest
    ensures { result ≡ sha256 (word.now ++ seed.now) }
{
    let mut hasher = Sha256::new();
    hasher.update(word);
    hasher.update(seed);
    hasher.finalize()
}

/// The digest of a word, a number and a seed.
#[tactic(auto, unfolding(gl_base::specs::LittleEndian::little_endian))]
fn numbered_digest(word: &[u8], number: u32, seed: &[u8]) -> Digest
    ensures { result ≡ sha256 (word.now ++ little_endian 4 number ++ seed.now) }
{
    let mut hasher = Sha256::new();
    hasher.update(word);
    hasher.update(&number.to_le_bytes());
    hasher.update(seed);
    hasher.finalize()
}

/// The seed of a node's key.
pub fn node_seed(settings: &Settings, number: u8) -> Digest
    ensures { result ≡ node_seed settings.now number }
{
    numbered_digest(b"node", u32::from(number), &settings.seed)
}

/// The seed of a member's key.
pub(crate) fn member_seed(settings: &Settings, number: u8) -> Digest
    ensures { result ≡ member_seed settings.now number }
{
    numbered_digest(b"mem", u32::from(number), &settings.seed)
}

/// The key that grows from a seed. Its tree takes some 35,000 digests.
pub fn private_key(alloc: Global, seed: &Digest) -> Result<LmsKey, AllocError>
    ensures { IfOk result (λ key. key ≡ private_key seed.now) }
{
    LmsKey::make(alloc, *seed, Types::H5W4)
}

/// The key of a service.
pub fn service_key(alloc: Global, settings: &Settings) -> Result<LmsKey, AllocError>
    ensures private_key { IfOk result (λ key. key ≡ private_key (service_seed settings.now)) }
{
    private_key(alloc, &word_digest(b"svc", &settings.seed))
}

/// The HSS key of a seed, with so many levels.
pub fn hss_key(alloc: Global, levels: Levels, seed: &Digest) -> Result<HssPublicKey, AllocError>
    ensures { IfOk result (λ key. key ≡ hss_key (level_count levels) seed.now) }
{
    Ok(private_key(alloc, seed)?.hss_public(levels))
}
