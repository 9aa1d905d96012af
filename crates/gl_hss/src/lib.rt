//! Hash-based signatures over SHA-256 (RFC 8554): LMS with LM-OTS, trees of one-time keys (sections
//! 4 and 5), and HSS of one or two levels of them (section 6).
//!
//! Four parameter sets are known: LMS_SHA256_M32_H5 and LMS_SHA256_M32_H10, each with
//! LMOTS_SHA256_N32_W4 or LMOTS_SHA256_N32_W8. Numbers in keys and signatures are big-endian.
//!
//! Begin with `verify`, and `HssSigner`; of one tree alone, with `LmsKey`.
#![tactic(auto)]

pub mod bytes;
mod endorsement;
mod fault;
mod fields;
mod key;
mod levels;
mod lms;
mod nodes;
mod ots;
mod root;
mod signer;
mod source;
mod tree;
mod types;
mod verdict;

pub use endorsement::{EndorsedKey, verify_endorsement};
pub use fault::HssFault;
pub use key::{LmsKey, identifier_of};
pub use levels::{HSS_KEY_LEN, HssPublic, Levels, hss_key};
pub use lms::{LmsPublicKey, LmsSignature, key_fields, signature_fields};
pub use signer::{HssSigner, KeyExhausted, SignFault};
pub use tree::root_candidate;
pub use types::{LMS_KEY_LEN, MAX_LEAF_COUNT, MAX_LMS_SIGNATURE_LEN, Types};
pub use verdict::{MAX_HSS_SIGNATURE_LEN, last_key, leaf_of, verify, verify_below};
