//! LMS keys (section 5).

ghost use Rattle.std.specs.Prelude.{◌≡◌, ◌<◌, ◌≤◌, ◌^◌, ◌+◌, ◌++◌, length, IfOk, OnOk};
ghost use Rattle.gl_hss.specs.Types.{height, chain_count};
ghost use Rattle.gl_hss.specs.Tree.{key_bytes, signature_bytes, IsKey, Signs};
ghost use Rattle.gl_hss.specs.Secrets.{PrivateKey, public_of, sibling, siblings};
ghost use Rattle.gl_hss.specs.Profile.{identifier_of, key_of_seed, signature_by};
ghost use Rattle.gl_hss.specs.Source.{private_of};
ghost use Rattle.gl_hss.specs.Nodes.{HoldsTree};

use crate::bytes::u32str;
use crate::nodes::grow;
use crate::ots::{digits, message_digest};
use crate::source::KeySource;
use crate::types::{LMS_KEY_LEN, Types};
use sha2::{Digest, Sha256};
use std::alloc::{AllocError, Global};
use std::marker::Model;

// The number that stands in a chain's place where the randomizer is made. No key has such a chain.
const RANDOMIZER_CHAIN: u16 = 0xfffd;

/// The identifier I of the key that `LmsKey::make` grows from a seed, without the tree.
#[tactic(auto, unfolding(crate::specs::Profile::identifier_of))]
pub fn identifier_of(seed: &[u8; 32]) -> [u8; 16]
    ensures { result ≡ identifier_of seed.now }
{
    let mut hasher = Sha256::new();
    hasher.update("gl-id");
    hasher.update(seed);
    let digest = hasher.finalize();
    let mut out = [0; 16];
    out.copy_from_slice(&digest[..16]);
    out
}

// The bytes of the public key with this root.
#[tactic(auto, unfolding(crate::specs::Tree::key_bytes))]
fn public_bytes(source: &KeySource, root: &[u8; 32]) -> [u8; LMS_KEY_LEN]
    ensures bytes { result ≡ key_bytes (record {
      types = source.now.types;
      identifier = source.now.identifier;
      root = root.now;
    }) }
    ensures identifier { length source.now.identifier ≡ 16 }
{
    let mut out = [0; LMS_KEY_LEN];
    let (codes, rest) = out.split_at_mut(8);
    let (lms, ots) = codes.split_at_mut(4);
    lms.copy_from_slice(&u32str(source.types.lms_code()));
    ots.copy_from_slice(&u32str(source.types.ots_code()));
    let (identifier, end) = rest.split_at_mut(16);
    identifier.copy_from_slice(&source.identifier);
    end.copy_from_slice(root);
    out
}

// The other node below the same parent.
fn sibling(node: u32) -> u32
    requires low { 1 ≤ node }
    requires high { node < 4096 }
    ensures { result ≡ sibling node }
{
    if node % 2 == 1 { node - 1 } else { node + 1 }
}

// Writes the siblings on the way up from a leaf's node.
fn push_path(
    source: &KeySource,
    nodes: &[[u8; 32]],
    q: u32,
    out: &mut Vec<u8>,
) -> Result<(), AllocError>
    requires nodes { HoldsTree (private_of source.now) nodes.now }
    requires leaf { q < 2 ^ height source.now.types }
    ensures { OnOk result (out.new.items ≡ out.old.items
        ++ siblings (private_of source.now) (2 ^ height source.now.types + q)
        (height source.now.types)) }
{
    let mut node = source.types.leaf_count() + q;
    for i in 0..source.types.height() {
        out.extend_from_slice(&nodes[sibling(node) as usize])?;
        node /= 2;
    }
    Ok(())
}

// Writes the signature of the message by leaf `q`.
fn push_signature(
    source: &KeySource,
    nodes: &[[u8; 32]],
    q: u32,
    message: &[u8],
    out: &mut Vec<u8>,
) -> Result<(), AllocError>
    requires nodes { HoldsTree (private_of source.now) nodes.now }
    requires leaf { q < 2 ^ height source.now.types }
    ensures bytes { OnOk result (out.new.items ≡ out.old.items
        ++ signature_bytes source.now.types (signature_by (private_of source.now) q message.now)) }
    ensures identifier { length source.now.identifier ≡ 16 }
{
    let randomizer = source.secret(q, RANDOMIZER_CHAIN);
    let digest = message_digest(&source.identifier, q, &randomizer, message);
    let digits = digits(source.types, &digest);
    out.extend_from_slice(&u32str(q))?;
    out.extend_from_slice(&u32str(source.types.ots_code()))?;
    out.extend_from_slice(&randomizer)?;
    source.push_chains(q, &digits, out)?;
    out.extend_from_slice(&u32str(source.types.lms_code()))?;
    push_path(source, nodes, q, out)?;
    Ok(())
}

/// A private LMS key, with the nodes of its tree. So a signature costs its chains alone.
///
/// It doesn't know which leaves were used: a leaf that signs two messages gives itself away to
/// forgers. Whoever signs keeps count.
#[derive(Drop)]
pub struct LmsKey {
    source: KeySource,
    nodes: Vec<[u8; 32]>,
}

impl Model for LmsKey {
    ghost use Rattle.gl_hss.specs.Secrets.{PrivateKey};
    ghost use Rattle.gl_hss.specs.Source.{private_of};
    ghost use Rattle.gl_hss.specs.Nodes.{HoldsTree};

    ghost Value = { PrivateKey };

    ghost view = { λ k. private_of k.source };

    ghost invariant = { λ k. HoldsTree (private_of k.source) k.nodes.items };
}

impl LmsKey {
    /// The key that grows from a seed: the identifier I is the first 16 bytes of SHA-256 of `gl-id`
    /// and the seed, and the seed is SEED of RFC 8554, appendix A.
    ///
    /// Each chain of the tree is hashed once: some 35,000 hashes with h5w4, 280,000 with h5w8, and
    /// 32 times as many with a tree of height 10.
    pub fn make(alloc: Global, seed: [u8; 32], types: Types) -> Result<LmsKey, AllocError>
        ensures { IfOk result (λ k. k ≡ key_of_seed types seed) }
    {
        let identifier = identifier_of(&seed);
        LmsKey::from_source(
            alloc,
            KeySource {
                types,
                identifier,
                seed,
            },
        )
    }

    // The key with this identifier and seed.
    pub(crate) fn from_source(alloc: Global, source: KeySource) -> Result<LmsKey, AllocError>
        ensures { IfOk result (λ k. k ≡ private_of source) }
    {
        let nodes = grow(alloc, &source)?;
        Ok(LmsKey { source, nodes })
    }

    /// The key's parameter set.
    pub fn types(&self) -> Types
        ensures { result ≡ self.now.types }
    {
        self.source.types
    }

    /// The LMS public key (section 5.3): two typecodes of four bytes, I of 16 and the root of 32.
    pub fn public(&self) -> [u8; LMS_KEY_LEN]
        ensures bytes { result ≡ key_bytes (public_of self.now) }
        ensures form { IsKey (public_of self.now) }
    {
        public_bytes(&self.source, &self.nodes[1])
    }

    /// Where the key has its memory from.
    pub fn allocator(&self) -> Global {
        *self.nodes.allocator()
    }

    /// Appends the LMS signature of the message by leaf `q`, as `sign_leaf` makes it.
    pub fn push_signature(
        &self,
        q: u32,
        message: &[u8],
        out: &mut Vec<u8>,
    ) -> Result<(), AllocError>
        requires { q < 2 ^ height self.now.types }
        ensures bytes { OnOk result (out.new.items ≡ out.old.items
            ++ signature_bytes self.now.types (signature_by self.now q message.now)) }
        ensures valid { Signs (public_of self.now) q message.now
            (signature_bytes self.now.types (signature_by self.now q message.now)) }
        ensures form { IsKey (public_of self.now) }
    {
        push_signature(&self.source, &self.nodes, q, message, out)
    }

    /// The LMS signature of the message by leaf `q` (section 5.4), `signature_len` bytes long.
    ///
    /// The randomizer C is SHA-256 of I, q, 0xfffd as two bytes, 0xff and the seed.
    pub fn sign_leaf(&self, q: u32, message: &[u8]) -> Result<Vec<u8>, AllocError>
        requires { q < 2 ^ height self.now.types }
        ensures bytes { IfOk result (λ s. s.items
            ≡ signature_bytes self.now.types (signature_by self.now q message.now)) }
        ensures valid { IfOk result (λ s. Signs (public_of self.now) q message.now s.items) }
    {
        let mut out = Vec::with_capacity(self.allocator(), self.source.types.signature_len())?;
        self.push_signature(q, message, &mut out)?;
        Ok(out)
    }
}
