//! The signatures that runs over one file told, by its key.

use crate::tests::part::{Left, encoded_member};
use gl_outside::Traffic;
use std::alloc::{AllocError, Global};

/// The bytes of a signature by an h5w4 key (RFC 8554, sections 4.5 and 5.4): its leaf, in four
/// bytes, a one-time signature of 67 chains, a typecode, and a path of five digests.
const SIGNATURE_LEN: usize = 2348;

/// The place of the typecode behind the one-time signature.
const TYPE_AT: usize = 2184;

/// The bytes of a frame before the text of a receipt: its length, a tag, the client's number, and
/// the length of the text.
const RECEIPT_AT: usize = 17;

/// The signature at the start of these bytes after others, if one stands there. The codes of its
/// types are 3 and 5.
fn signature_at<'a>(bytes: &'a [u8], before: &[u8]) -> Option<&'a [u8]> {
    let Some(rest) = bytes.strip_prefix(before) else {
        return None;
    };
    match (rest.get(..SIGNATURE_LEN), rest.get(TYPE_AT..)) {
        (Some(signature), Some([0, 0, 0, 5, ..])) if has_leaf(signature) => Some(signature),
        _ => None,
    }
}

fn has_leaf(signature: &[u8]) -> bool {
    matches!(signature, [0, 0, 0, leaf, 0, 0, 0, 3, ..] if *leaf < 32)
}

/// Signatures by one key, each once.
#[derive(Drop)]
pub struct Told {
    alloc: Global,
    /// What stands before each signature by the key.
    before: Vec<u8>,
    signatures: Vec<Vec<u8>>,
    /// Whether a leaf signed twice.
    is_leaf_twice: bool,
}

impl Told {
    pub fn new(alloc: Global, before: Vec<u8>) -> Self {
        Told {
            alloc,
            before,
            signatures: Vec::new(alloc),
            is_leaf_twice: false,
        }
    }

    /// How many signatures there are, if each is by a leaf of its own.
    pub fn count(&self) -> Option<usize> {
        if self.is_leaf_twice {
            None
        } else {
            Some(self.signatures.len())
        }
    }

    fn add(&mut self, signature: &[u8]) -> Result<(), AllocError> {
        let leaf = signature.get(..4);
        let same = |told: &Vec<u8>| told.as_slice() == signature;
        if self.signatures.iter().any(same) {
            return Ok(());
        }
        let same_leaf = |told: &Vec<u8>| told.get(..4) == leaf;
        if self.signatures.iter().any(same_leaf) {
            self.is_leaf_twice = true;
        }
        self.signatures.push(signature.to_vec(self.alloc)?)?;
        Ok(())
    }

    /// Adds the signatures that stand somewhere in these bytes.
    fn add_bytes(&mut self, bytes: &[u8]) -> Result<(), AllocError> {
        for at in 0..bytes.len() {
            let rest = bytes.get(at..).unwrap_or(&[]);
            if let Some(signature) = signature_at(rest, &self.before) {
                self.add(signature)?;
            }
        }
        Ok(())
    }

    /// Adds those that digits in this JSON encode.
    fn add_json(&mut self, text: &[u8]) -> Result<(), AllocError> {
        for member in ["signature", "endorsement"] {
            let bytes = encoded_member(self.alloc, text, member)?;
            self.add_bytes(&bytes)?;
        }
        Ok(())
    }

    /// Adds what a run told: what it wrote, what it sent, and what it handed to its disk.
    pub fn add_run(&mut self, left: &Left) -> Result<(), AllocError> {
        self.add_bytes(&left.written)?;
        self.add_json(&left.written)?;
        self.add_bytes(&left.pieces)?;
        for traffic in &left.traffic {
            if let Traffic::Sent(_, frame) = traffic {
                self.add_bytes(frame)?;
                self.add_json(frame.get(RECEIPT_AT..).unwrap_or(&[]))?;
            }
        }
        Ok(())
    }
}
