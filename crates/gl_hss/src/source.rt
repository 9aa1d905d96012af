//! One-time keys and signatures made from a seed (sections 4.2 to 4.5 and appendix A).

ghost use Rattle.std.specs.Prelude.{◌≡◌, ◌++◌, length, OnOk};
ghost use Rattle.gl_hss.specs.Types.{chain_count};
ghost use Rattle.gl_hss.specs.Steps.{step_prefix, step_value};
ghost use Rattle.gl_hss.specs.Ots.{chain_prefix, chain};
ghost use Rattle.gl_hss.specs.Secrets.{secret, key_of_leaf, shown_chains};
ghost use Rattle.gl_hss.specs.Source.{private_of};

use crate::bytes::u32str;
use crate::ots::{
    D_PBLC, STEP_LEN, chain_prefix, coef, step, step_input, step_value, steps, top_digit,
};
use crate::types::Types;
use sha2::{Digest, Sha256};
use std::alloc::AllocError;

// The number that stands in a step's place where a secret is made.
const SECRET_STEP: u8 = 0xff;

// What a key is made from.
#[derive(Clone, Copy)]
pub(crate) struct KeySource {
    pub(crate) types: Types,
    // I.
    pub(crate) identifier: [u8; 16],
    // SEED.
    pub(crate) seed: [u8; 32],
}

impl KeySource {
    // The secret with which chain `i` of leaf `q` begins, as its first step takes it on.
    #[tactic(auto, unfolding(crate::specs::Secrets::secret, crate::specs::Ots::step))]
    fn secret_input(&self, q: u32, i: u16) -> [u8; STEP_LEN]
        ensures prefix { step_prefix result ≡ chain_prefix self.now.identifier q i }
        ensures value { step_value result ≡ secret (private_of self.now) q i }
        ensures identifier { length self.now.identifier ≡ 16 }
    {
        let prefix = chain_prefix(&self.identifier, q, i);
        let mut input = step_input(&prefix, &self.seed);
        step(&mut input, SECRET_STEP);
        input
    }

    // The secret with which chain `i` of leaf `q` begins.
    pub(crate) fn secret(&self, q: u32, i: u16) -> [u8; 32]
        ensures value { result ≡ secret (private_of self.now) q i }
        ensures identifier { length self.now.identifier ≡ 16 }
    {
        step_value(&self.secret_input(q, i))
    }

    // Chain `i` of leaf `q` up to place `to`.
    fn chain_up_to(&self, q: u32, i: u16, to: u8) -> [u8; 32]
        ensures { result ≡ chain self.now.identifier q i 0 to (secret (private_of self.now) q i) }
    {
        let mut input = self.secret_input(q, i);
        steps(&mut input, 0, to);
        step_value(&input)
    }

    // The one-time public key of leaf `q`.
    pub(crate) fn key_of_leaf(&self, q: u32) -> [u8; 32]
        ensures { result ≡ key_of_leaf (private_of self.now) q }
    {
        let top = top_digit(self.types);
        let mut hasher = Sha256::new();
        hasher.update(self.identifier);
        hasher.update(u32str(q));
        hasher.update(D_PBLC);
        for i in 0..self.types.chain_count() {
            hasher.update(self.chain_up_to(q, i as u16, top));
        }
        hasher.finalize()
    }

    // Writes the chains of leaf `q`, each up to its digit.
    pub(crate) fn push_chains(
        &self,
        q: u32,
        digits: &[u8; 34],
        out: &mut Vec<u8>,
    ) -> Result<(), AllocError>
        ensures { OnOk result (out.new.items
            ≡ out.old.items
            ++ shown_chains (private_of self.now) q digits.now (chain_count self.now.types)) }
    {
        for i in 0..self.types.chain_count() {
            let shown = self.chain_up_to(q, i as u16, coef(self.types, digits, i));
            out.extend_from_slice(&shown)?;
        }
        Ok(())
    }
}
