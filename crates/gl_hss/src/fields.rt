//! Keys and signatures read from left to right, up to the first fault.

ghost use Rattle.std.specs.Prelude.{◌≡◌, ◌+◌, ◌*◌, ◌<◌, ◌≤◌, ◌^◌, length, IfOk, OnOk};
ghost use Rattle.gl_hss.specs.Types.{height, chain_count, signature_len};
ghost use Rattle.gl_hss.specs.Bytes.{bytes_at, number_at};
ghost use Rattle.gl_hss.specs.Tree.{IsKey, IsSignature};
ghost use Rattle.gl_hss.specs.Lent.{key_of, signature_of, key_fields, signature_fields};
ghost use Rattle.gl_hss.specs.Order.{Gives, reaches, ends, has_code, has_leaf, least_types, types_at, levels_of_key, top_key, embedded_key, signature_at, first_signature};

use crate::bytes::{bytes_at, number_at};
use crate::fault::HssFault;
use crate::{LMS_KEY_LEN, LmsPublicKey, LmsSignature, Types, key_fields, signature_fields};

// The bytes before the chains of an LMS signature: q, the typecode and C.
const BEFORE_CHAINS: usize = 40;

// The signature has `end` bytes, where one that begins so has `want` at the least.
#[tactic(auto, unfolding(crate::specs::Order::reaches))]
pub(crate) fn reaches(signature: &[u8], end: usize, want: usize) -> Result<(), HssFault>
    ensures value { result ≡ reaches signature.now end want }
    ensures room { OnOk result (end ≤ length signature.now) }
{
    let got = signature.len();
    if end <= got {
        Ok(())
    } else {
        Err(HssFault::Length {
            want: want as u64,
            got: got as u64,
        })
    }
}

// Nothing stands after the signature.
#[tactic(auto, unfolding(crate::specs::Order::ends))]
pub(crate) fn ends(signature: &[u8], want: usize) -> Result<(), HssFault>
    ensures { result ≡ ends signature.now want }
{
    let got = signature.len();
    if got == want {
        Ok(())
    } else {
        Err(HssFault::Length {
            want: want as u64,
            got: got as u64,
        })
    }
}

// The typecode at this place is this one.
#[tactic(auto, unfolding(crate::specs::Order::has_code))]
fn has_code(signature: &[u8], at: usize, code: u32) -> Result<(), HssFault>
    requires { at + 4 ≤ length signature.now }
    ensures { result ≡ has_code signature.now at code }
{
    if number_at(signature, at) == code {
        Ok(())
    } else {
        Err(HssFault::Types { at: at as u64 })
    }
}

// The tree has this leaf.
#[tactic(auto, unfolding(crate::specs::Order::has_leaf))]
fn has_leaf(types: Types, q: u32) -> Result<(), HssFault>
    ensures value { result ≡ has_leaf types q }
    ensures below { OnOk result (q < 2 ^ height types) }
{
    if q < types.leaf_count() {
        Ok(())
    } else {
        Err(HssFault::Leaf { q })
    }
}

// The two typecodes of a key from this place on.
#[tactic(auto, unfolding(crate::specs::Order::types_at))]
fn types_at(bytes: &[u8], at: usize, want: usize) -> Result<Types, HssFault>
    requires { at < 65536 }
    ensures { result ≡ types_at bytes.now at want }
{
    reaches(bytes, at + 4, want)?;
    let lms = number_at(bytes, at);
    if lms != 5 && lms != 6 {
        return Err(HssFault::Types { at: at as u64 });
    }
    reaches(bytes, at + 8, want)?;
    let ots = number_at(bytes, at + 4);
    Types::of_codes(lms, ots).ok_or(HssFault::Types { at: at as u64 + 4 })
}

// The bytes of a key from this place on.
pub(crate) fn lms_key_at(bytes: &[u8], at: usize) -> [u8; LMS_KEY_LEN]
    requires { at + 56 ≤ length bytes.now }
    ensures { result ≡ bytes_at bytes.now at 56 }
{
    let mut out = [0; LMS_KEY_LEN];
    out.copy_from_slice(bytes_at(bytes, at, LMS_KEY_LEN));
    out
}

// The number of levels that an HSS public key names.
#[tactic(auto, unfolding(crate::specs::Order::levels_of_key))]
pub(crate) fn levels_of_key(key: &[u8; 60]) -> Result<u32, HssFault>
    ensures value { result ≡ levels_of_key key.now }
    ensures some { IfOk result (λ levels. 1 ≤ levels) }
{
    let levels = number_at(key, 0);
    if levels == 1 || levels == 2 {
        Ok(levels)
    } else {
        Err(HssFault::Levels {
            want: 2,
            got: levels,
        })
    }
}

// The LMS public key in an HSS public key.
#[tactic(auto, unfolding(crate::specs::Order::top_key))]
pub(crate) fn top_key(key: &[u8; 60]) -> Result<LmsPublicKey<'_>, HssFault>
    ensures value { Gives key_of result (top_key key.now) }
    ensures form { IfOk result (λ k. IsKey (key_of k)) }
{
    let types = types_at(key, 4, key.len())?;
    Ok(key_fields(types, key, 4))
}

// The LMS public key in a signature, from this place on.
#[tactic(auto, unfolding(crate::specs::Order::embedded_key))]
pub(crate) fn embedded_key(signature: &[u8], at: usize) -> Result<LmsPublicKey<'_>, HssFault>
    requires { at < 65536 }
    ensures value { Gives key_of result (embedded_key signature.now at) }
    ensures room { OnOk result (at + 56 ≤ length signature.now) }
    ensures form { IfOk result (λ k. IsKey (key_of k)) }
{
    let end = at + LMS_KEY_LEN;
    let types = types_at(signature, at, end + Types::H5W8.signature_len())?;
    reaches(signature, end, end + types.signature_len())?;
    Ok(key_fields(types, signature, at))
}

// An LMS signature from this place on, by a key that has these types.
#[tactic(auto, unfolding(crate::specs::Order::signature_at))]
pub(crate) fn signature_at(
    types: Types,
    signature: &[u8],
    at: usize,
    want: usize,
) -> Result<LmsSignature<'_>, HssFault>
    requires { at < 65536 }
    ensures value { Gives signature_of result (signature_at types signature.now at want) }
    ensures form { IfOk result (λ s. IsSignature types (signature_of s)) }
    ensures fields { IfOk result (λ s.
        signature_of s ≡ signature_fields types signature.now at) }
{
    let code_at = at + BEFORE_CHAINS + 32 * types.chain_count();
    reaches(signature, at + 4, want)?;
    has_leaf(types, number_at(signature, at))?;
    reaches(signature, at + 8, want)?;
    has_code(signature, at + 4, types.ots_code())?;
    reaches(signature, code_at + 4, want)?;
    has_code(signature, code_at, types.lms_code())?;
    reaches(signature, at + types.signature_len(), want)?;
    Ok(signature_fields(types, signature, at))
}

// The smallest parameter set that has the one-time typecode.
fn least_types(ots: u32) -> Option<Types>
    ensures { result ≡ least_types ots }
{
    match ots {
        3 => Some(Types::H5W4),
        4 => Some(Types::H5W8),
        _ => None,
    }
}

// The types and the leaf of the first LMS signature, by a key that isn't known. At least `after`
// bytes stand after it.
#[tactic(auto, unfolding(crate::specs::Order::first_signature))]
pub(crate) fn first_signature(signature: &[u8], after: usize) -> Result<(Types, u32), HssFault>
    requires { after < 65536 }
    ensures { result ≡ first_signature signature.now after }
{
    let least_len = 4 + Types::H5W8.signature_len() + after;
    reaches(signature, 12, least_len)?;
    let ots = number_at(signature, 8);
    let least = least_types(ots).ok_or(HssFault::Types { at: 8 })?;
    let code_at = 44 + 32 * least.chain_count();
    reaches(signature, code_at + 4, 4 + least.signature_len() + after)?;
    let code = HssFault::Types { at: code_at as u64 };
    let types = Types::of_codes(number_at(signature, code_at), ots).ok_or(code)?;
    let q = number_at(signature, 4);
    has_leaf(types, q)?;
    let end = 4 + types.signature_len();
    reaches(signature, end, end + after)?;
    Ok((types, q))
}
