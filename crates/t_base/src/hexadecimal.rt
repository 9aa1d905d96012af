//! Bytes from their digits.

use std::alloc::{AllocError, Global};
use std::process::Abort;
use std::test::Fail;

fn digit(c: u8) -> u8 {
    match c {
        b'0'..=b'9' => c - b'0',
        b'a'..=b'f' => c - b'a' + 10,
        _ => 0,
    }
}

pub(crate) fn bytes_of(alloc: Global, text: &str) -> Result<Vec<u8>, AllocError> {
    let mut out = Vec::new(alloc);
    for pair in text.as_bytes().chunks(2) {
        if let [high, low] = pair {
            out.push(digit(*high).wrapping_mul(16) | digit(*low))?;
        }
    }
    Ok(out)
}

pub(crate) fn array_of<const N: usize>(
    rt: &(impl Abort + Alloc<A = Global>),
    text: &str,
) -> Result<[u8; N], Fail> {
    let bytes = bytes_of(rt.alloc(), text)?;
    let Some(array) = bytes.first_chunk::<N>() else {
        panic!(rt; "too few digits");
    };
    Ok(*array)
}
