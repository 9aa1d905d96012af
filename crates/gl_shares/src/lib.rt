//! Shares of a secret of 32 bytes among members, of which so many as its threshold give it
//! (Shamir).
//!
//! Each byte is dealt by itself: a polynomial over GF(2^8) with the byte at 0, of which a member's
//! share is the value at the member's number.
//!
//! Begin with `deal` and `join`.
#![tactic(auto)]

pub use dealing::deal;
pub use field::{gf_inv, gf_mul};
pub use joining::join;
pub use laws::{law_of_field, law_of_joining};
pub use share::Share;

mod dealing;
mod field;
mod joining;
mod laws;
mod share;
