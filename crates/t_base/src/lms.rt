//! Keys and signatures of a seed, as other programs compute them.

use crate::hexadecimal::{array_of, bytes_of};
use crate::lms::keys::KEYS;
use gl_hss::bytes::number_at;
use gl_hss::{
    LMS_KEY_LEN, LmsKey, Types, identifier_of, key_fields, root_candidate, signature_fields,
};
use sha2::{Digest, Sha256};
use std::test::Fail;

mod keys;

#[test]
fn keys_of_seeds(rt: HostRuntime) -> Result<(), Fail> {
    for row in &KEYS {
        let seed = array_of(&rt, row.seed)?;
        let root = bytes_of(rt.alloc(), row.root)?;
        let public = LmsKey::make(rt.alloc(), seed, row.types)?.public();
        assert!(rt; &public[24..] == root.as_slice());
    }
    Ok(())
}

// The signature, whose typecodes aren't looked at, leads to the root of the key.
fn is_signed(types: Types, key: &[u8; LMS_KEY_LEN], message: &[u8], signature: &[u8]) -> bool {
    if signature.len() != types.signature_len() || number_at(signature, 0) >= types.leaf_count() {
        return false;
    }
    let by = key_fields(types, key, 0);
    let fields = signature_fields(types, signature, 0);
    root_candidate(&by, &fields, message).as_slice() == by.root
}

#[test]
fn key_and_signature_of_a_seed(rt: HostRuntime) -> Result<(), Fail> {
    let mut seed = [0; 32];
    for (i, byte) in seed.iter_mut().enumerate() {
        *byte = i as u8;
    }
    let identifier = "bb94c0738d17e0f9329212bce706acf0";
    assert!(rt; identifier_of(&seed) == array_of::<16>(&rt, identifier)?);
    let key = LmsKey::make(rt.alloc(), seed, Types::H5W4)?;
    assert!(rt; key.types() == Types::H5W4);
    let public = "0000000500000003bb94c0738d17e0f9329212bce706acf0\
        c0cd26738938c6138e3bad21ed5bdc3b718f25cb33865a7c68dcc23a8b43d1c3";
    assert!(rt; key.public() == array_of::<56>(&rt, public)?);
    let signature = key.sign_leaf(3, b"abc")?;
    let digest = "617017b9dcbb57f8bccb39e4fbf755242fe4e7e63ac1bb55c25aad99cf1642b5";
    assert!(rt; signature.len() == 2348);
    assert!(rt; Sha256::digest(&signature) == array_of::<32>(&rt, digest)?);
    assert!(rt; is_signed(Types::H5W4, &key.public(), b"abc", &signature));
    assert!(rt; !is_signed(Types::H5W4, &key.public(), b"abd", &signature));
    Ok(())
}
