//! Signatures of another implementation, each valid, and changed in one bit.

ghost use Rattle.std.specs.Prelude.{◌<◌};

use crate::hexadecimal::{array_of, bytes_of};
use crate::hss::two_levels::{vector_8, vector_9, vector_10, vector_11, vector_12};
use crate::hss::vectors::{
    Vector, vector_0, vector_1, vector_2, vector_3, vector_4, vector_5, vector_6, vector_7,
};
use gl_hss::{
    EndorsedKey, HssFault, Types, last_key, leaf_of, verify, verify_below, verify_endorsement,
};
use std::alloc::Global;
use std::process::Abort;
use std::test::Fail;

mod signers;
mod two_levels;
mod vectors;

#[derive(Drop)]
struct Case {
    vector: Vector,
    key: [u8; 60],
    message: Vec<u8>,
    signature: Vec<u8>,
}

impl Case {
    fn new(rt: &(impl Abort + Alloc<A = Global>), vector: Vector) -> Result<Case, Fail> {
        let key = array_of(rt, vector.key)?;
        let message = bytes_of(rt.alloc(), vector.message)?;
        let signature = bytes_of(rt.alloc(), vector.signature)?;
        Ok(Case {
            vector,
            key,
            message,
            signature,
        })
    }

    fn verify(&self) -> Result<(), HssFault> {
        verify(&self.key, &self.message, &self.signature)
    }

    fn change(&mut self, place: usize, bits: u8) {
        if let Some(byte) = self.signature.get_mut(place) {
            *byte ^= bits;
        }
    }

    // What is answered once these bits of the signature are changed.
    fn changed(&mut self, place: usize, bits: u8) -> Result<(), HssFault> {
        self.change(place, bits);
        let answer = self.verify();
        self.change(place, bits);
        answer
    }

    // What is answered below the endorsed key once these bits of the signature are changed.
    fn changed_below(
        &mut self,
        endorsed: &EndorsedKey,
        place: usize,
        bits: u8,
    ) -> Result<(), HssFault> {
        self.change(place, bits);
        let answer = verify_below(endorsed, &self.message, &self.signature);
        self.change(place, bits);
        answer
    }

    // What is answered once these bits of the key are changed.
    fn changed_key(&self, place: usize, bits: u8) -> Result<(), HssFault> {
        let mut key = self.key;
        if let Some(byte) = key.get_mut(place) {
            *byte ^= bits;
        }
        verify(&key, &self.message, &self.signature)
    }

    fn accepted(&mut self, rt: &impl Abort) {
        assert!(rt; self.verify() == Ok(()));
        assert!(rt; leaf_of(&self.signature) == Ok(self.vector.leaf));
        if let Some(place) = self.vector.refused {
            assert!(rt; self.changed(place, 1).is_err());
        }
    }

    // Each field of the LMS signature at this place, changed in one bit.
    fn fields(&mut self, rt: &impl Abort, at: usize, types: Types)
        requires { at < 65536 }
    {
        let code_at = at + 40 + 32 * types.chain_count();
        let leaf = self.changed(at, 0x80);
        assert!(rt; matches!(leaf, Err(HssFault::Leaf { .. })));
        let ots = Err(HssFault::Types { at: at as u64 + 4 });
        assert!(rt; self.changed(at + 7, 1) == ots);
        let lms = Err(HssFault::Types { at: code_at as u64 });
        assert!(rt; self.changed(code_at + 3, 1) == lms);
        for place in [at + 3, at + 8, at + 40, code_at - 1, code_at + 4] {
            assert!(rt; matches!(self.changed(place, 1), Err(HssFault::Root { .. })));
        }
    }
}

// A signature of two levels, with a bit changed in each field of the key between them.
fn embedded_fields(case: &mut Case, rt: &impl Abort, at: usize)
    requires { at < 65536 }
{
    let lms = Err(HssFault::Types { at: at as u64 });
    assert!(rt; case.changed(at + 3, 4) == lms);
    let ots = Err(HssFault::Types { at: at as u64 + 4 });
    assert!(rt; case.changed(at + 7, 8) == ots);
    for place in [at + 8, at + 55] {
        assert!(rt; matches!(case.changed(place, 1), Err(HssFault::Root { .. })));
    }
}

// The upper level of a signature of two is an endorsement, and below it each changed bit has the
// same answer.
fn endorsement(
    case: &mut Case,
    rt: &(impl Abort + Alloc<A = Global>),
    at: usize,
) -> Result<(), Fail>
    requires { at < 65536 }
{
    let upper = case.signature.get(4..at).ok_or("an upper level")?;
    let upper = Vec::from_slice(rt.alloc(), upper)?;
    let mut key = last_key(&case.key, &case.signature)?;
    let inside = case.signature.get(at..at + 56).ok_or("a key inside")?;
    assert!(rt; key.as_slice() == inside);
    assert!(rt; verify_endorsement(&case.key, &key, &upper) == Ok(()));
    key[55] ^= 1;
    let other = verify_endorsement(&case.key, &key, &upper);
    assert!(rt; matches!(other, Err(HssFault::Root { .. })));
    key[55] ^= 1;
    let endorsed = EndorsedKey::new(case.key, key, upper)?.copy()?;
    for place in [
        0,
        3,
        4,
        7,
        11,
        20,
        at,
        at + 3,
        at + 8,
        at + 59,
        at + 63,
        at + 70,
    ] {
        let answer = case.changed_below(&endorsed, place, 1);
        assert!(rt; answer == case.changed(place, 1));
    }
    let answer = case.changed_below(&endorsed, 3, 0);
    assert!(rt; answer == Ok(()));
    Ok(())
}

// A bit changed in each field of the key, and in the number of levels of key and signature.
fn key_fields(case: &mut Case, rt: &impl Abort, levels: u32) {
    let got = levels ^ 4;
    let wrong = Err(HssFault::Levels { want: 2, got });
    assert!(rt; case.changed_key(3, 4) == wrong);
    assert!(rt; case.changed_key(7, 8) == Err(HssFault::Types { at: 4 }));
    assert!(rt; case.changed_key(11, 8) == Err(HssFault::Types { at: 8 }));
    for place in [12, 59] {
        assert!(rt; matches!(case.changed_key(place, 1), Err(HssFault::Root { .. })));
    }
    let want = levels / 2;
    let wrong = Err(HssFault::Levels {
        want,
        got: want ^ 1,
    });
    assert!(rt; case.changed(3, 1) == wrong);
}

fn each_field(rt: &(impl Abort + Alloc<A = Global>), vector: Vector) -> Result<(), Fail> {
    let mut case = Case::new(rt, vector)?;
    case.accepted(rt);
    case.fields(rt, 4, vector.top);
    if let Some(last) = vector.last {
        let at = 4 + vector.top.signature_len();
        embedded_fields(&mut case, rt, at);
        endorsement(&mut case, rt, at)?;
        case.fields(rt, at + 56, last);
        key_fields(&mut case, rt, 2);
    } else {
        key_fields(&mut case, rt, 1);
        let key = last_key(&case.key, &case.signature)?;
        assert!(rt; key.as_slice() == &case.key[4..]);
    }
    Ok(())
}

#[test]
fn signatures_of_one_level(rt: HostRuntime) -> Result<(), Fail> {
    each_field(&rt, vector_0())?;
    each_field(&rt, vector_1())?;
    each_field(&rt, vector_2())?;
    each_field(&rt, vector_3())?;
    each_field(&rt, vector_4())?;
    each_field(&rt, vector_5())?;
    each_field(&rt, vector_6())?;
    each_field(&rt, vector_7())
}

#[test]
fn signatures_of_two_levels(rt: HostRuntime) -> Result<(), Fail> {
    each_field(&rt, vector_8())?;
    each_field(&rt, vector_9())?;
    each_field(&rt, vector_10())?;
    each_field(&rt, vector_11())?;
    each_field(&rt, vector_12())
}
