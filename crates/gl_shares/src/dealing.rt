//! Dealing a secret among members.

ghost use Rattle.std.specs.Prelude.{◌≡◌, ◌≢◌, ◌*◌, ◌≤◌, ◌∷◌, length, map, take, drop, slice_index_or, All, AllPairs, IfOk};
ghost use Rattle.std.specs.List.{range_with_len};
ghost use Rattle.gl_shares.specs.Dealing.{each_byte, value_at, share_of, drawn, polynomials_of};

use crate::field::gf_mul;
use crate::share::Share;
use rand_chacha::ChaCha20Rng;
use rand_core::SeedableRng;
use rand_core::utils::NextWord;
use std::alloc::{AllocError, Global};

// The value at `x` of the polynomial with these coefficients, that of x^0 first.
fn value_at(coefficients: &[u8], x: u8) -> u8
    ensures { result ≡ value_at coefficients.now x }
{
    coefficients
        .iter()
        .rev()
        .fold(0, |value, coefficient| coefficient ^ gf_mul(x, value))
}

// The low bytes of the first words that the generator gives.
fn draw(alloc: Global, seed: [u8; 32], count: usize) -> Result<Vec<u8>, AllocError>
    ensures { IfOk result (λ v. v.items ≡ map (drawn seed) (range_with_len 0 count)) }
{
    let mut words = ChaCha20Rng::from_seed(seed);
    let mut bytes = Vec::with_capacity(alloc, count)?;
    for _ in 0..count {
        bytes.push((words.next_word() % 256) as u8)?;
    }
    Ok(bytes)
}

// The values at a member's number of the polynomials that have the secret's bytes at 0, and above
// these `degree` coefficients each.
fn values(secret: &[u8; 32], above: &[u8], degree: usize, member: u8) -> [u8; 32]
    requires { length above.now ≡ 32 * degree }
    ensures { result ≡ each_byte (λ byte. value_at (slice_index_or secret.now byte 0
        ∷ take degree (drop (byte * degree) above.now)) member) }
{
    let mut value = [0; 32];
    for byte in 0..32 {
        let (_, rest) = above.split_at(byte * degree);
        let (coefficients, _) = rest.split_at(degree);
        value[byte] = secret[byte] ^ gf_mul(member, value_at(coefficients, member));
    }
    value
}

/// Deals a secret among members, so that the shares of any `threshold` of them give it by `join`.
///
/// For each byte of the secret a polynomial is made with that byte as the coefficient of x^0 and
/// `threshold - 1` further ones, in ascending power, each the low byte of the next word of
/// `ChaCha20Rng` from the seed. The shares come in the order of the members.
///
/// Who knows the seed and one share can tell the secret: the seed is as secret as it is.
pub fn deal(
    alloc: Global,
    secret: &[u8; 32],
    threshold: u8,
    members: &[u8],
    seed: [u8; 32],
) -> Result<Vec<Share>, AllocError>
    requires some { 1 ≤ threshold }
    requires enough { threshold ≤ length members.now }
    requires distinct { AllPairs ◌≢◌ members.now }
    requires not_zero { All (λ member. member ≢ 0) members.now }
    ensures { IfOk result (λ shares. shares.items
        ≡ map (share_of (polynomials_of secret.now threshold seed)) members.now) }
{
    let degree = usize::from(threshold) - 1;
    let above = draw(alloc, seed, 32 * degree)?;
    let mut shares = Vec::with_capacity(alloc, members.len())?;
    for &member in members {
        shares.push(Share {
            member,
            value: values(secret, &above, degree, member),
        })?;
    }
    Ok(shares)
}
