//! One-time signatures, LM-OTS (section 4).

ghost use Rattle.std.specs.Prelude.{◌≡◌, ◌+◌, ◌-◌, ◌*◌, ◌/◌, ◌^◌, ◌<◌, ◌≤◌, ◌++◌, length};
ghost use Rattle.gl_hss.specs.Types.{width, chain_count};
ghost use Rattle.gl_hss.specs.Bytes.{block};
ghost use Rattle.gl_hss.specs.Steps.{step_prefix, step_value};
ghost use Rattle.gl_hss.specs.Ots.{coef, digit_sum, checksum, digits, chain_prefix, step, steps, message_digest, chain_ends, one_time_key};

use crate::bytes::{block, to_block, u16str, u32str};
use crate::types::Types;
use sha2::{Digest, Sha256};

// Which use of the hash it is (section 7.1).
pub(crate) const D_PBLC: [u8; 2] = [0x80, 0x80];

const D_MESG: [u8; 2] = [0x81, 0x81];

// The bytes before a step's number and value, which all steps of a chain share.
pub(crate) const PREFIX_LEN: usize = 22;

// What a step hashes: the prefix, its number and the value. With the padding that is one block.
pub(crate) const STEP_LEN: usize = 55;

// The i-th digit of `bytes`.
pub(crate) fn coef(types: Types, bytes: &[u8], i: usize) -> u8
    requires { i * width types / 8 < length bytes.now }
    ensures value { result ≡ coef bytes.now i (width types) }
    ensures most { result ≤ 2 ^ width types - 1 }
{
    match types {
        Types::H5W8 | Types::H10W8 => bytes[i],
        Types::H5W4 | Types::H10W4 => {
            let byte = bytes[i / 2];
            if i % 2 == 0 { byte >> 4 } else { byte & 0x0f }
        }
    }
}

// The greatest digit.
pub(crate) fn top_digit(types: Types) -> u8
    ensures { result ≡ 2 ^ width types - 1 }
{
    match types {
        Types::H5W4 | Types::H10W4 => 15,
        Types::H5W8 | Types::H10W8 => 255,
    }
}

// How far the digits of a digest are below the greatest, in all.
fn digit_sum(types: Types, digest: &[u8; 32]) -> u16
    ensures sum { result ≡ digit_sum digest.now (width types) (256 / width types) }
    ensures most { result ≤ (2 ^ width types - 1) * (256 / width types) }
{
    let top = top_digit(types);
    let mut sum = 0;
    for i in 0..256 / types.width() {
        sum += u16::from(top - coef(types, digest, i));
    }
    sum
}

// The checksum of a digest, which goes down where a digit goes up.
#[tactic(auto, unfolding(crate::specs::Ots::checksum))]
fn checksum(types: Types, digest: &[u8; 32]) -> u16
    ensures { result ≡ checksum types digest.now }
{
    digit_sum(types, digest) << types.checksum_shift()
}

// A digest and its checksum.
#[tactic(auto, unfolding(crate::specs::Ots::digits))]
pub(crate) fn digits(types: Types, digest: &[u8; 32]) -> [u8; 34]
    ensures { result ≡ digits types digest.now }
{
    let mut out = [0; 34];
    let (first_part, back) = out.split_at_mut(32);
    first_part.copy_from_slice(digest);
    back.copy_from_slice(&u16str(checksum(types, digest)));
    out
}

// What each step of chain `i` of leaf `q` begins with.
#[tactic(auto, unfolding(crate::specs::Ots::chain_prefix))]
pub(crate) fn chain_prefix(identifier: &[u8], q: u32, i: u16) -> [u8; PREFIX_LEN]
    requires { length identifier.now ≡ 16 }
    ensures { result ≡ chain_prefix identifier.now q i }
{
    let mut out = [0; PREFIX_LEN];
    let (first_part, back) = out.split_at_mut(16);
    first_part.copy_from_slice(identifier);
    let (leaf, chain) = back.split_at_mut(4);
    leaf.copy_from_slice(&u32str(q));
    chain.copy_from_slice(&u16str(i));
    out
}

// What a step with this prefix and value hashes, but for the step's number.
pub(crate) fn step_input(prefix: &[u8; PREFIX_LEN], value: &[u8; 32]) -> [u8; STEP_LEN]
    ensures prefix { step_prefix result ≡ prefix.now }
    ensures value { step_value result ≡ value.now }
{
    let mut out = [0; STEP_LEN];
    let (first_part, back) = out.split_at_mut(PREFIX_LEN);
    first_part.copy_from_slice(prefix);
    let (_, end) = back.split_at_mut(1);
    end.copy_from_slice(value);
    out
}

// The value that the next step takes on.
pub(crate) fn step_value(input: &[u8; STEP_LEN]) -> [u8; 32]
    ensures { result ≡ step_value input.now }
{
    let (_, value) = input.split_at(PREFIX_LEN + 1);
    to_block(value)
}

// One step of a chain, whose digest takes the value's place.
#[tactic(auto, unfolding(crate::specs::Ots::step, crate::specs::Bytes::u8str))]
pub(crate) fn step(input: &mut [u8; STEP_LEN], j: u8)
    ensures prefix { step_prefix input.new ≡ step_prefix input.old }
    ensures value { step_value input.new ≡ step (step_prefix input.old) j (step_value input.old) }
{
    input[PREFIX_LEN] = j;
    let value = Sha256::digest(input.as_slice());
    let (_, end) = input.split_at_mut(PREFIX_LEN + 1);
    end.copy_from_slice(&value);
}

// The steps from `from` up to `to`, whose last digest takes the value's place.
pub(crate) fn steps(input: &mut [u8; STEP_LEN], from: u8, to: u8)
    requires { from ≤ to }
    ensures prefix { step_prefix input.new ≡ step_prefix input.old }
    ensures value { step_value input.new
        ≡ steps (step_prefix input.old) from (to - from) (step_value input.old) }
{
    for j in from..to {
        step(input, j);
    }
}

// The value that the steps from `from` up to `to` lead to.
fn chain(prefix: &[u8; PREFIX_LEN], from: u8, to: u8, start: &[u8; 32]) -> [u8; 32]
    requires { from ≤ to }
    ensures { result ≡ steps prefix.now from (to - from) start.now }
{
    let mut input = step_input(prefix, start);
    steps(&mut input, from, to);
    step_value(&input)
}

// What is signed of a message: its digest with the randomizer.
#[tactic(auto, unfolding(crate::specs::Ots::message_digest))]
pub(crate) fn message_digest(
    identifier: &[u8],
    q: u32,
    randomizer: &[u8],
    message: &[u8],
) -> [u8; 32]
    ensures { result ≡ message_digest identifier.now q randomizer.now message.now }
{
    let mut hasher = Sha256::new();
    hasher.update(identifier);
    hasher.update(u32str(q));
    hasher.update(D_MESG);
    hasher.update(randomizer);
    hasher.update(message);
    hasher.finalize()
}

// The one-time public key that the chains of a signature lead to, when each goes on from its digit.
#[tactic(auto, unfolding(crate::specs::Ots::one_time_key))]
pub(crate) fn key_of_chains(
    types: Types,
    identifier: &[u8],
    q: u32,
    digits: &[u8; 34],
    chains: &[u8],
) -> [u8; 32]
    requires identifier { length identifier.now ≡ 16 }
    requires chains { length chains.now ≡ 32 * chain_count types }
    ensures { result ≡ one_time_key identifier.now q
        (chain_ends types identifier.now q digits.now chains.now (chain_count types)) }
{
    let top = top_digit(types);
    let mut hasher = Sha256::new();
    hasher.update(identifier);
    hasher.update(u32str(q));
    hasher.update(D_PBLC);
    for i in 0..types.chain_count() {
        let prefix = chain_prefix(identifier, q, i as u16);
        let end = chain(&prefix, coef(types, digits, i), top, &block(chains, i));
        hasher.update(end);
    }
    hasher.finalize()
}
