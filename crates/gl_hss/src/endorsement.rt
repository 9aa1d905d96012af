//! Endorsements: a key of two levels signs the keys that sign for it (section 6.2).

ghost use Rattle.std.specs.Prelude.{◌≡◌, ◌↔◌, ◌+◌, ◌-◌, ◌≤◌, length, Err, IsOk, IfOk, OnOk, IfErr};
ghost use Rattle.std.specs.Bool.{OnTrue};
ghost use Rattle.gl_hss.specs.Bytes.{bytes_at};
ghost use Rattle.gl_hss.specs.Hss.{IsEndorsed};
ghost use Rattle.gl_hss.specs.Order.{endorsement_verdict};

use crate::bytes::{bytes_at, number_at};
use crate::fault::HssFault;
use crate::fields::top_key;
use crate::levels::HSS_KEY_LEN;
use crate::root::one_level;
use crate::{LMS_KEY_LEN, MAX_LMS_SIGNATURE_LEN};
use std::alloc::AllocError;
use std::marker::Model;

// What verifying an endorsement answers: nothing, or the first fault.
#[tactic(auto, unfolding(crate::specs::Order::endorsement_verdict))]
fn endorsement_verdict(
    identity: &[u8; HSS_KEY_LEN],
    key: &[u8; LMS_KEY_LEN],
    endorsement: &[u8],
) -> Result<(), HssFault>
    ensures { result ≡ endorsement_verdict identity.now key.now endorsement.now }
{
    let levels = number_at(identity, 0);
    if levels != 2 {
        return Err(HssFault::Levels {
            want: 2,
            got: levels,
        });
    }
    let top = top_key(identity)?;
    one_level(&top, key, endorsement, 0)
}

/// Whether the bytes are an endorsement of the key by the identity, an HSS public key of two
/// levels: the LMS signature of the key's 56 bytes that stands in the upper level of what the key
/// signs.
///
/// As in `verify` the first fault from left to right is answered: the place in `Types` counts in
/// the identity for its own types (4 or 8), else in the endorsement. What the 56 bytes encode isn't
/// looked at.
pub fn verify_endorsement(
    identity: &[u8; HSS_KEY_LEN],
    key: &[u8; LMS_KEY_LEN],
    endorsement: &[u8],
) -> Result<(), HssFault>
    ensures valid { IsOk result ↔ IsEndorsed identity.now key.now endorsement.now }
    ensures first_fault { result ≡ endorsement_verdict identity.now key.now endorsement.now }
    ensures most { OnOk result (length endorsement.now ≤ MAX_LMS_SIGNATURE_LEN) }
{
    endorsement_verdict(identity, key, endorsement)
}

/// A key whose endorsement was verified. `verify_below` hashes no such endorsement again.
#[derive(Drop)]
pub struct EndorsedKey {
    identity: [u8; HSS_KEY_LEN],
    key: [u8; LMS_KEY_LEN],
    signature: Vec<u8>,
}

impl Model for EndorsedKey {
    ghost use Rattle.gl_hss.specs.Hss.{IsEndorsed};
    ghost use Rattle.gl_hss.specs.Endorsement.{Endorsement};

    ghost Value = { Endorsement };

    ghost view = { λ e.
        record { identity = e.identity; key = e.key; signature = e.signature.items } };

    ghost invariant = { λ e. IsEndorsed e.identity e.key e.signature.items };
}

impl EndorsedKey {
    /// The key, if the bytes are its endorsement by the identity.
    pub fn new(
        identity: [u8; HSS_KEY_LEN],
        key: [u8; LMS_KEY_LEN],
        endorsement: Vec<u8>,
    ) -> Result<EndorsedKey, HssFault>
        ensures ok { IfOk result (λ e.
            e ≡ record { identity = identity; key = key; signature = endorsement.items }) }
        ensures valid { IsOk result ↔ IsEndorsed identity key endorsement.items }
        ensures first_fault { IfErr result (λ f.
            endorsement_verdict identity key endorsement.items ≡ Err f) }
        ensures most { OnOk result (length endorsement.items ≤ MAX_LMS_SIGNATURE_LEN) }
    {
        verify_endorsement(&identity, &key, &endorsement)?;
        Ok(EndorsedKey {
            identity,
            key,
            signature: endorsement,
        })
    }

    /// The HSS public key that endorses.
    pub fn identity(&self) -> &[u8; HSS_KEY_LEN]
        ensures { result.now ≡ self.now.identity }
    {
        &self.identity
    }

    /// The LMS public key that is endorsed.
    pub fn key(&self) -> &[u8; LMS_KEY_LEN]
        ensures value { result.now ≡ self.now.key }
        ensures valid { IsEndorsed self.now.identity self.now.key self.now.signature }
    {
        &self.key
    }

    /// The endorsement.
    pub fn signature(&self) -> &[u8]
        ensures { result.now ≡ self.now.signature }
    {
        &self.signature
    }

    /// The same key once more.
    pub fn copy(&self) -> Result<EndorsedKey, AllocError>
        ensures { IfOk result (λ e. e ≡ self.now) }
    {
        Ok(EndorsedKey {
            identity: self.identity,
            key: self.key,
            signature: Vec::from_slice(*self.signature.allocator(), &self.signature)?,
        })
    }

    // The upper level of the signature, whose key stands from place `at` on, is this endorsement.
    pub(crate) fn stands_in(
        &self,
        identity: &[u8; HSS_KEY_LEN],
        signature: &[u8],
        at: usize,
    ) -> bool
        requires low { 4 ≤ at }
        requires room { at + 56 ≤ length signature.now }
        ensures identity { OnTrue result (identity.now ≡ self.now.identity) }
        ensures signature { OnTrue result (bytes_at signature.now 4 (at - 4) ≡ self.now.signature) }
        ensures key { OnTrue result (bytes_at signature.now at 56 ≡ self.now.key) }
        ensures valid { IsEndorsed self.now.identity self.now.key self.now.signature }
    {
        self.identity == *identity
            && bytes_at(signature, 4, at - 4) == self.signature.as_slice()
            && bytes_at(signature, at, LMS_KEY_LEN) == self.key.as_slice()
    }
}
