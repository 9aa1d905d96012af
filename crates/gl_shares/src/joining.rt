//! Joining shares to the secret.

ghost use Rattle.std.specs.Prelude.{◌≡◌, bit_xor, slice_index_or};
ghost use Rattle.gl_shares.specs.Field.{field_product};
ghost use Rattle.gl_shares.specs.Dealing.{each_byte};
ghost use Rattle.gl_shares.specs.Joining.{weight, members_of, joined};

use crate::field::{gf_inv, gf_mul};
use crate::share::Share;

// The weight of a member's value among these shares.
fn weight(member: u8, shares: &[Share]) -> u8
    ensures { result ≡ weight member (members_of shares.now) }
{
    let mut weight = 1;
    for other in shares {
        if other.member != member {
            let quotient = gf_mul(other.member, gf_inv(other.member ^ member));
            weight = gf_mul(weight, quotient);
        }
    }
    weight
}

// Adds the multiple of a share's value by a weight.
fn add_weighted(sum: &mut [u8; 32], value: &[u8; 32], weight: u8)
    ensures { sum.new ≡ each_byte (λ byte. bit_xor (slice_index_or sum.old byte 0)
        (field_product (slice_index_or value.now byte 0) weight)) }
{
    for byte in 0..32 {
        sum[byte] ^= gf_mul(value[byte], weight);
    }
}

/// What these shares give: the values at 0 of the polynomials of least degree through them, by
/// Lagrange's interpolation.
///
/// It is the secret where the shares are of distinct members of one dealing and at least as many as
/// its threshold. Of other shares, or of fewer, it is some 32 bytes: compare its digest with one
/// that is known. Takes no memory.
pub fn join(shares: &[Share]) -> [u8; 32]
    ensures { result ≡ joined shares.now }
{
    let mut secret = [0; 32];
    for share in shares {
        add_weighted(&mut secret, &share.value, weight(share.member, shares));
    }
    secret
}
