//! What holds of the field and of every dealing, as the contracts of functions that do nothing.

ghost use Rattle.std.specs.Prelude.{◌≡◌, ◌≢◌, ℕ, ◌^◌, ◌<◌, ◌≤◌, List, length, map, bit_xor, All, AllPairs};
ghost use Rattle.gl_shares.specs.declared.share.Share.{Share};
ghost use Rattle.gl_shares.specs.Field.{product, modulus, field_product, inverse_of};
ghost use Rattle.gl_shares.specs.Dealing.{value_at, polynomials_of, IsPolynomial, IsShareOf};
ghost use Rattle.gl_shares.specs.Joining.{joined};

/// The product in the field is what is left of the product of the two polynomials less a multiple
/// of the modulus. With it the bytes are a field: the sum is `bit_xor`, each byte is its own
/// negative, and each but 0 has an inverse.
pub fn law_of_field()
    ensures remainder { (a b : ℕ) → (multiple : ℕ) × (multiple < 2 ^ 8)
        × (product a b 8 ≡ bit_xor (product modulus multiple 8) (field_product a b)) }
    ensures closed { (a b : ℕ) → a < 2 ^ 8 → b < 2 ^ 8 → field_product a b < 2 ^ 8 }
    ensures commutes { (a b : ℕ) → a < 2 ^ 8 → b < 2 ^ 8 → field_product a b ≡ field_product b a }
    ensures associates { (a b c : ℕ) → a < 2 ^ 8 → b < 2 ^ 8 → c < 2 ^ 8 →
        field_product (field_product a b) c ≡ field_product a (field_product b c) }
    ensures distributes { (a b c : ℕ) →
        field_product a (bit_xor b c) ≡ bit_xor (field_product a b) (field_product a c) }
    ensures one { (a : ℕ) → a < 2 ^ 8 → field_product a 1 ≡ a }
    ensures inverse { (a : ℕ) → a < 2 ^ 8 → a ≢ 0 → field_product a (inverse_of a) ≡ 1 }
{}

/// Shares of distinct members, at least as many as the threshold, give what was dealt: of any
/// polynomials of degree below the threshold the values at 0, and of a secret's dealing the secret.
pub fn law_of_joining()
    ensures values { (polynomials : List (List ℕ)) (k : ℕ) (shares : List Share) →
        length polynomials ≡ 32 → All (IsPolynomial k) polynomials →
        All (IsShareOf polynomials) shares → AllPairs (λ s t. s.member ≢ t.member) shares →
        k ≤ length shares → joined shares ≡ map (λ p. value_at p 0) polynomials }
    ensures secret { (secret seed : List ℕ) (k : ℕ) (shares : List Share) →
        length secret ≡ 32 → All (λ byte. byte < 2 ^ 8) secret → 1 ≤ k →
        All (IsShareOf (polynomials_of secret k seed)) shares →
        AllPairs (λ s t. s.member ≢ t.member) shares →
        k ≤ length shares → joined shares ≡ secret }
{}
