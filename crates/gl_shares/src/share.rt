//! A share of a secret.

/// One member's share of a secret of 32 bytes.
#[derive(Clone, Copy, Debug, PartialEq, Eq)]
pub struct Share {
    /// The member's number, at which each byte's polynomial is taken. Not 0, where the secret is.
    pub member: u8,
    /// Byte by byte the polynomials' values at the member's number.
    pub value: [u8; 32],
}
