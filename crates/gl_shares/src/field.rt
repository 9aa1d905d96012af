//! The field GF(2^8) of the polynomial x^8 + x^4 + x^3 + x + 1.

ghost use Rattle.std.specs.Prelude.{◌≡◌, ◌≢◌};
ghost use Rattle.gl_shares.specs.Field.{field_product, inverse_of};

// The product with x: each term one place up, and x^8 as what it is in the field.
fn times_x(a: u8) -> u8
    ensures { result ≡ field_product 2 a }
{
    if a < 0x80 { a << 1 } else { (a << 1) ^ 0x1b }
}

/// The product of two elements of the field.
pub fn gf_mul(a: u8, b: u8) -> u8
    ensures { result ≡ field_product a b }
{
    let mut product = 0;
    let mut multiple = a;
    let mut rest = b;
    while rest != 0 {
        if rest % 2 == 1 {
            product ^= multiple;
        }
        multiple = times_x(multiple);
        rest /= 2;
    }
    product
}

/// The inverse of an element of the field, and 0 for 0.
pub fn gf_inv(a: u8) -> u8
    ensures value { result ≡ inverse_of a }
    ensures one { a ≢ 0 → field_product a result ≡ 1 }
{
    // The power of 254: each of the 255 elements other than 0 has 1 as its power of 255.
    let mut power = 1;
    for _ in 0..7u8 {
        power = gf_mul(gf_mul(power, power), a);
    }
    gf_mul(power, power)
}
