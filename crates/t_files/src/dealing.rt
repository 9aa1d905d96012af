//! Dealings against texts from outside.
//!
//! A program in Python made them: the digests by `hashlib`, the JSON by `json.dumps` with sorted
//! keys and no spaces, the words by ChaCha20 written after RFC 8439, and each byte of a share as
//! `secret ^ mul(member, word % 256)`, where `mul` is
//!
//! ```text
//! def mul(a, b):
//!     r = 0
//!     while b:
//!         if b & 1: r ^= a
//!         a <<= 1
//!         if a & 256: a ^= 0x11b
//!         b >>= 1
//!     return r
//! ```

use gl_consortium::{can_deal, deal_text};
use std::test::Fail;

// `bytes(range(32))`
const SECRET: [u8; 32] = [
    0, 1, 2, 3, 4, 5, 6, 7, 8, 9, 10, 11, 12, 13, 14, 15, 16, 17, 18, 19, 20, 21, 22, 23, 24, 25,
    26, 27, 28, 29, 30, 31,
];

// `bytes(range(32, 64))`
const SEED: [u8; 32] = [
    32, 33, 34, 35, 36, 37, 38, 39, 40, 41, 42, 43, 44, 45, 46, 47, 48, 49, 50, 51, 52, 53, 54, 55,
    56, 57, 58, 59, 60, 61, 62, 63,
];

// A share of a dealing with threshold 1 is the secret, and its digest the secret's.
const ONE_OF_TWO: &str = "\
    {\"args\":{\
    \"secret_digest\":\"630dcd2966c4336691125448bbb25b4ff412a49c732db2c8abc1b8581bd710dd\",\
    \"shares\":[\
    {\"digest\":\"630dcd2966c4336691125448bbb25b4ff412a49c732db2c8abc1b8581bd710dd\",\"member\":7},\
    {\"digest\":\"630dcd2966c4336691125448bbb25b4ff412a49c732db2c8abc1b8581bd710dd\",\"member\":9}\
    ],\"threshold\":1},\"name\":\"set_recovery_threshold\"}\n\
    7 000102030405060708090a0b0c0d0e0f101112131415161718191a1b1c1d1e1f\n\
    9 000102030405060708090a0b0c0d0e0f101112131415161718191a1b1c1d1e1f\n";

const TWO_OF_THREE: &str = "\
    {\"args\":{\
    \"secret_digest\":\"630dcd2966c4336691125448bbb25b4ff412a49c732db2c8abc1b8581bd710dd\",\
    \"shares\":[\
    {\"digest\":\"bafffa230a6451e06a3d43fc17ec28e93ea94420df176949268ddab765913176\",\"member\":1},\
    {\"digest\":\"1cb687d64db660ecc4f013cb2e9874edfaa57806a7e9e0535ec9dd9b1498102b\",\"member\":2},\
    {\"digest\":\"07befbd1da4b239c39037d0b10bb899e44a399761bacfde194abe6c3277cd397\",\
    \"member\":255}\
    ],\"threshold\":2},\"name\":\"set_recovery_threshold\"}\n\
    1 94fe80472bbc0e4479aebe5c5afbd1d3900288f6d238d356d666d92b5dbe4fc6\n\
    2 33e41d8b5a6c1681ea5c79a5a0faabac0b373dc2834f87959fe7877b9e40bcb6\n\
    255 dd12826da49dbfa2f3750516ee58cfd475624235fa50e2574f6fdaa05cb037ea\n";

#[test]
fn deals_to_two_members(rt: HostRuntime) -> Result<(), Fail> {
    let text = deal_text(rt.alloc(), 1, &[7, 9], &SECRET, SEED)?;
    assert!(rt; text.as_slice() == ONE_OF_TWO.as_bytes());
    Ok(())
}

#[test]
fn deals_to_three_members(rt: HostRuntime) -> Result<(), Fail> {
    let text = deal_text(rt.alloc(), 2, &[1, 2, 255], &SECRET, SEED)?;
    assert!(rt; text.as_slice() == TWO_OF_THREE.as_bytes());
    Ok(())
}

#[test]
fn prints_among_whom_a_secret_can_be_dealt(rt: HostRuntime) {
    assert!(rt; can_deal(1, &[1]) && can_deal(2, &[7, 9, 255]));
    assert!(rt; !can_deal(0, &[1]) && !can_deal(2, &[5]));
    assert!(rt; !can_deal(1, &[0, 1]) && !can_deal(1, &[1, 256]) && !can_deal(1, &[2, 2]));
}
