//! LMS keys and signatures as their fields, lent from the bytes that encode them (section 5).

ghost use Rattle.std.specs.Prelude.{◌≡◌, ◌+◌, ◌*◌, ◌<◌, ◌≤◌, ◌^◌, length};
ghost use Rattle.gl_hss.specs.Types.{height, chain_count, signature_len};
ghost use Rattle.gl_hss.specs.Bytes.{bytes_at, number_at};
ghost use Rattle.gl_hss.specs.Tree.{IsKey, IsSignature};
ghost use Rattle.gl_hss.specs.Lent.{key_of, signature_of, key_fields, signature_fields};

use crate::bytes::{bytes_at, number_at};
use crate::types::Types;

/// An LMS public key (section 5.3).
#[derive(Clone, Copy)]
pub struct LmsPublicKey<'a> {
    pub types: Types,
    /// I, 16 bytes.
    pub identifier: &'a [u8],
    /// T[1], 32 bytes.
    pub root: &'a [u8],
}

/// An LMS signature (section 5.4).
#[derive(Clone, Copy)]
pub struct LmsSignature<'a> {
    /// q, the number of the leaf.
    pub leaf: u32,
    /// C, 32 bytes.
    pub randomizer: &'a [u8],
    /// y, 32 bytes for each chain.
    pub chains: &'a [u8],
    /// The siblings from the leaf's up, 32 bytes each.
    pub path: &'a [u8],
}

/// The fields of the key of these types that begins at this place. Its typecodes aren't looked at.
pub fn key_fields(types: Types, bytes: &[u8], at: usize) -> LmsPublicKey<'_>
    requires { at + 56 ≤ length bytes.now }
    ensures value { key_of result ≡ key_fields types bytes.now at }
    ensures form { IsKey (key_of result) }
{
    LmsPublicKey {
        types,
        identifier: bytes_at(bytes, at + 8, 16),
        root: bytes_at(bytes, at + 24, 32),
    }
}

/// The fields of the signature by a key of these types that begins at this place. Its typecodes
/// aren't looked at.
pub fn signature_fields(types: Types, bytes: &[u8], at: usize) -> LmsSignature<'_>
    requires room { at + signature_len types ≤ length bytes.now }
    requires leaf { number_at bytes.now at < 2 ^ height types }
    ensures value { signature_of result ≡ signature_fields types bytes.now at }
    ensures form { IsSignature types (signature_of result) }
{
    let chains_len = 32 * types.chain_count();
    let path_len = 32 * types.height() as usize;
    LmsSignature {
        leaf: number_at(bytes, at),
        randomizer: bytes_at(bytes, at + 8, 32),
        chains: bytes_at(bytes, at + 40, chains_len),
        path: bytes_at(bytes, at + 44 + chains_len, path_len),
    }
}
