//! The worked rows of signers and lengths.

use gl_hss::{
    HssFault, HssPublic, HssSigner, KeyExhausted, Levels, LmsKey, SignFault, Types, leaf_of, verify,
};
use std::test::Fail;

#[test]
fn keys_of_levels(rt: HostRuntime) -> Result<(), Fail> {
    let key = LmsKey::make(rt.alloc(), [1; 32], Types::H5W4)?;
    assert!(rt; key.types() == Types::H5W4);
    for (levels, count) in [(Levels::One, 1), (Levels::Two, 2)] {
        let public = key.hss_public(levels);
        assert!(rt; &public[..4] == [0, 0, 0, count].as_slice());
        assert!(rt; &public[4..] == key.public().as_slice());
        assert!(rt; Levels::of_key(&public) == Some(levels));
    }
    assert!(rt; Levels::of_key(&[0; 60]) == None);
    Ok(())
}

#[test]
fn a_signature_and_its_leaf(rt: HostRuntime) -> Result<(), Fail> {
    let key = LmsKey::make(rt.alloc(), [1; 32], Types::H5W4)?;
    let mut signer = HssSigner::new(key, None, 3);
    assert!(rt; (signer.reserved(), signer.used()) == (3, 3));
    assert!(rt; signer.reserve() == Ok(4));
    let first = signer.signature(b"message")?;
    assert!(rt; (signer.reserved(), signer.used()) == (4, 3));
    let second = signer.sign(b"message")?;
    assert!(rt; first.as_slice() == second.as_slice());
    assert!(rt; (signer.reserved(), signer.used()) == (4, 4));
    let public = signer.key().hss_public(Levels::One);
    assert!(rt; verify(&public, b"message", &first) == Ok(()));
    Ok(())
}

#[test]
fn each_leaf_once(rt: HostRuntime) -> Result<(), Fail> {
    let key = LmsKey::make(rt.alloc(), [1; 32], Types::H5W4)?;
    let public = key.hss_public(Levels::One);
    let mut signer = HssSigner::new(key, None, 0);
    let refused = signer.sign(b"early").err();
    assert!(rt; refused == Some(SignFault::NotReserved { reserved: 0 }));
    for leaf in 0..32u8 {
        assert!(rt; signer.reserve() == Ok(u32::from(leaf) + 1));
        let signature = signer.sign(&[leaf])?;
        assert!(rt; verify(&public, &[leaf], &signature) == Ok(()));
        assert!(rt; leaf_of(&signature) == Ok(u32::from(leaf)));
    }
    assert!(rt; signer.reserve() == Err(KeyExhausted { reserved: 32 }));
    let refused = signer.sign(b"late").err();
    assert!(rt; refused == Some(SignFault::NotReserved { reserved: 32 }));
    Ok(())
}

#[test]
fn two_levels(rt: HostRuntime) -> Result<(), Fail> {
    let top = LmsKey::make(rt.alloc(), [2; 32], Types::H5W4)?;
    let public = top.hss_public(Levels::Two);
    let key = LmsKey::make(rt.alloc(), [3; 32], Types::H5W4)?;
    let endorsement = top.sign_leaf(7, &key.public())?;
    let mut signer = HssSigner::new(key, Some(endorsement), 5);
    assert!(rt; signer.reserve() == Ok(6));
    let mut signature = signer.sign(b"message")?;
    assert!(rt; signature.len() == 4756);
    assert!(rt; verify(&public, b"message", &signature) == Ok(()));
    assert!(rt; leaf_of(&signature) == Ok(5));
    let short = signature.get(..4755).ok_or("a shorter signature")?;
    let fault = HssFault::Length {
        want: 4756,
        got: 4755,
    };
    assert!(rt; verify(&public, b"message", short) == Err(fault));
    signature.push(0)?;
    let fault = HssFault::Length {
        want: 4756,
        got: 4757,
    };
    assert!(rt; verify(&public, b"message", &signature) == Err(fault));
    if let Some(byte) = signature.get_mut(3) {
        *byte = 2;
    }
    let fault = HssFault::Levels { want: 1, got: 2 };
    assert!(rt; verify(&public, b"message", &signature) == Err(fault));
    assert!(rt; leaf_of(&signature) == Err(fault));
    Ok(())
}

// Where a signature is cut, the least length of any that begins so is wanted.
#[test]
fn lengths_wanted(rt: HostRuntime) -> Result<(), Fail> {
    let top = LmsKey::make(rt.alloc(), [2; 32], Types::H5W4)?;
    let public = top.hss_public(Levels::Two);
    let key = LmsKey::make(rt.alloc(), [3; 32], Types::H5W4)?;
    let endorsement = top.sign_leaf(0, &key.public())?;
    let mut signer = HssSigner::new(key, Some(endorsement), 0);
    assert!(rt; signer.reserve().is_ok());
    let signature = signer.sign(b"message")?;
    // What verifying wants and what the search for the leaf wants, of a signature cut there.
    for (cut, known, unknown) in [
        (0, 3700, 1296),
        (3, 3700, 1296),
        (11, 3700, 2644),
        (12, 3700, 3700),
        (2351, 3700, 3700),
        (2359, 3700, 3700),
        (2360, 4756, 4756),
        (4000, 4756, 4756),
    ] {
        let part = signature.get(..cut).ok_or("a part of the signature")?;
        let got = cut as u64;
        let fault = HssFault::Length { want: known, got };
        assert!(rt; verify(&public, b"message", part) == Err(fault), "{cut}");
        let fault = HssFault::Length { want: unknown, got };
        assert!(rt; leaf_of(part) == Err(fault), "{cut}");
    }
    Ok(())
}
