//! A signer that uses each leaf once.

ghost use Rattle.std.specs.Prelude.{◌≡◌, ◌↔◌, ◌<◌, ◌≤◌, ◌^◌, ◌+◌, ◌++◌, List, ℕ, [], length, Option, Some, None, Ok, Err, IfOk, OnOk, OnErr, IfErr, IsErr};
ghost use Rattle.gl_hss.specs.Types.{height};
ghost use Rattle.gl_hss.specs.Tree.{IsKey};
ghost use Rattle.gl_hss.specs.Secrets.{public_of};
ghost use Rattle.gl_hss.specs.Signer.{Signer, signer_of, levels_above, hss_signature, signature_size, StandsUnder, Refuses};
ghost use Rattle.gl_hss.specs.Hss.{IsValid, HasLeaf};

use crate::bytes::u32str;
use crate::{LMS_KEY_LEN, LmsKey};
use std::alloc::AllocError;
use std::marker::Model;
use thiserror::Error;

/// Every leaf of the key is reserved.
#[derive(Clone, Copy, Debug, PartialEq, Eq, Error)]
#[error("all {reserved} leaves are reserved")]
pub struct KeyExhausted {
    pub reserved: u32,
}

/// Why nothing was signed.
#[derive(Clone, Copy, Debug, PartialEq, Eq, Error)]
pub enum SignFault {
    /// Every leaf that was reserved is used.
    #[error("all {reserved} reserved leaves are used")]
    NotReserved { reserved: u32 },
    /// There is no memory for the signature.
    #[error("out of memory")]
    NoMemory,
}

/// A key that signs with one leaf after another, each once.
///
/// A leaf is reserved before it is used. So whoever writes `reserved` down before a signature goes
/// out, and begins there after a stop, never uses a leaf twice.
#[derive(Drop)]
pub struct HssSigner {
    key: LmsKey,
    endorsement: Option<Vec<u8>>,
    reserved: u32,
    used: u32,
}

impl Model for HssSigner {
    ghost use Rattle.std.specs.Prelude.{◌≤◌, ◌^◌};
    ghost use Rattle.gl_hss.specs.Types.{height};
    ghost use Rattle.gl_hss.specs.Signer.{Signer, signer_of};

    ghost Value = { Signer };

    ghost view = { λ s. signer_of s.key s.endorsement s.reserved s.used };

    ghost invariant = { λ s. (s.used ≤ s.reserved) × (s.reserved ≤ 2 ^ height s.key.types) };
}

impl HssSigner {
    /// A signer that has used the first `reserved` leaves of the key.
    ///
    /// With an endorsement, an LMS signature of the key's 56 bytes by the key above, the signatures
    /// have two levels, without one a single level.
    pub fn new(key: LmsKey, endorsement: Option<Vec<u8>>, reserved: u32) -> HssSigner
        requires { reserved ≤ 2 ^ height key.types }
        ensures { result ≡ signer_of key endorsement reserved reserved }
    {
        HssSigner {
            key,
            endorsement,
            reserved,
            used: reserved,
        }
    }

    /// Reserves one leaf more, and answers how many are reserved now.
    pub fn reserve(&mut self) -> Result<u32, KeyExhausted>
        ensures count { IfOk result (λ n. n ≡ self.old.reserved + 1) }
        ensures ok { OnOk result (self.new ≡ record self.old { reserved = self.old.reserved + 1 }) }

        // There are as many leaves as the tree has.
        ensures exhausted { IsErr result ↔ (self.old.reserved ≡ 2 ^ height self.old.key.types) }
        ensures names { IfErr result (λ e. e.reserved ≡ self.old.reserved) }
        ensures err { OnErr result (self.new ≡ self.old) }
    {
        if self.reserved == self.key.types().leaf_count() {
            return Err(KeyExhausted {
                reserved: self.reserved,
            });
        }
        self.reserved += 1;
        Ok(self.reserved)
    }

    /// The key that signs.
    pub fn key(&self) -> &LmsKey
        ensures { result.now ≡ self.now.key }
    {
        &self.key
    }

    /// How many leaves are reserved, from leaf 0 on.
    pub fn reserved(&self) -> u32
        ensures value { result ≡ self.now.reserved }
        ensures most { result ≤ 2 ^ height self.now.key.types }
    {
        self.reserved
    }

    /// How many leaves are used, and which one signs next.
    pub fn used(&self) -> u32
        ensures value { result ≡ self.now.used }
        ensures most { result ≤ self.now.reserved }
    {
        self.used
    }

    // Writes what stands before the last LMS signature.
    #[tactic(auto, unfolding(crate::specs::Signer::levels_above))]
    fn push_levels_above(&self, out: &mut Vec<u8>) -> Result<(), AllocError>
        ensures { OnOk result (out.new.items
            ≡ out.old.items ++ levels_above self.now.key self.now.endorsement) }
    {
        match &self.endorsement {
            None => out.extend_from_slice(&u32str(0))?,
            Some(endorsement) => {
                out.extend_from_slice(&u32str(1))?;
                out.extend_from_slice(endorsement)?;
                out.extend_from_slice(&self.key.public())?;
            }
        }
        Ok(())
    }

    // An empty list with room for a signature.
    fn buffer(&self) -> Result<Vec<u8>, AllocError>
        ensures { IfOk result (λ out. out.items ≡ []) }
    {
        let above = match &self.endorsement {
            None => 4,
            Some(endorsement) => 4 + endorsement.len() + LMS_KEY_LEN,
        };
        let len = above + self.key.types().signature_len();
        Vec::with_capacity(self.key.allocator(), len)
    }

    // The signature of the message by the next leaf.
    #[tactic(auto, using(crate::proofs::Signers::hss_signature_size))]
    fn next_signature(&self, message: &[u8]) -> Result<Vec<u8>, AllocError>
        requires { self.now.used < self.now.reserved }
        ensures bytes { IfOk result (λ s. s.items
            ≡ hss_signature self.now.key self.now.endorsement self.now.used message.now) }
        ensures size { IfOk result (λ s. length s.items
            ≡ signature_size self.now.key.types self.now.endorsement) }
        ensures leaf { OnOk result (self.now.used < 2 ^ height self.now.key.types) }
        ensures form { OnOk result (IsKey (public_of self.now.key)) }
    {
        let mut out = self.buffer()?;
        self.push_levels_above(&mut out)?;
        self.key.push_signature(self.used, message, &mut out)?;
        Ok(out)
    }

    /// The HSS signature of the message by the next reserved leaf, which isn't used by that.
    ///
    /// It is the first half of `sign`, for callers that can still run out of memory before the
    /// signature goes out. `spend` is the second: until then the same leaf signs again, and two
    /// messages that it signed give it away to forgers. So nobody may see a signature whose leaf
    /// isn't spent.
    pub fn signature(&self, message: &[u8]) -> Result<Vec<u8>, SignFault>
        ensures bytes { IfOk result (λ s. s.items
            ≡ hss_signature self.now.key self.now.endorsement self.now.used message.now) }
        ensures size { IfOk result (λ s. length s.items
            ≡ signature_size self.now.key.types self.now.endorsement) }

        // The signature is valid under each key under which the endorsement is, by leaf `used`.
        ensures valid { IfOk result (λ s. (hss_key : List ℕ) →
            StandsUnder self.now.key self.now.endorsement hss_key
            → IsValid hss_key message.now s.items) }
        ensures leaf { IfOk result (λ s. (hss_key : List ℕ) →
            StandsUnder self.now.key self.now.endorsement hss_key → HasLeaf s.items self.now.used) }
        ensures below { OnOk result (self.now.used < self.now.reserved) }

        ensures not_reserved { self.now.used ≡ self.now.reserved
            → result ≡ Err (SignFault.NotReserved self.now.reserved) }
        ensures refused { IfErr result (Refuses self.now) }
    {
        if self.used == self.reserved {
            return Err(SignFault::NotReserved {
                reserved: self.reserved,
            });
        }
        match self.next_signature(message) {
            Ok(signature) => Ok(signature),
            Err(_) => Err(SignFault::NoMemory),
        }
    }

    /// Uses the next reserved leaf, whose signature goes out from here on. Nothing fails.
    pub fn spend(&mut self)
        requires { self.old.used < self.old.reserved }
        ensures { self.new ≡ record self.old { used = self.old.used + 1 } }
    {
        self.used += 1;
    }

    /// The HSS signature of the message by the next reserved leaf, which is used from then on.
    pub fn sign(&mut self, message: &[u8]) -> Result<Vec<u8>, SignFault>
        ensures bytes { IfOk result (λ s. s.items
            ≡ hss_signature self.old.key self.old.endorsement self.old.used message.now) }
        ensures size { IfOk result (λ s. length s.items
            ≡ signature_size self.old.key.types self.old.endorsement) }

        // The signature is valid under each key under which the endorsement is, by leaf `used`.
        ensures valid { IfOk result (λ s. (hss_key : List ℕ) →
            StandsUnder self.old.key self.old.endorsement hss_key
            → IsValid hss_key message.now s.items) }
        ensures leaf { IfOk result (λ s. (hss_key : List ℕ) →
            StandsUnder self.old.key self.old.endorsement hss_key → HasLeaf s.items self.old.used) }

        // A leaf is used once.
        ensures used { OnOk result (self.new ≡ record self.old { used = self.old.used + 1 }) }
        ensures below { OnOk result (self.old.used < self.old.reserved) }

        ensures not_reserved { self.old.used ≡ self.old.reserved
            → result ≡ Err (SignFault.NotReserved self.old.reserved) }
        ensures refused { IfErr result (Refuses self.old) }
        ensures err { OnErr result (self.new ≡ self.old) }
    {
        let signature = self.signature(message)?;
        self.spend();
        Ok(signature)
    }
}
