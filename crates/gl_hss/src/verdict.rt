//! Whether an HSS signature is valid (section 6.3), and which key and leaf made it.

ghost use Rattle.std.specs.Prelude.{◌≡◌, ◌↔◌, ◌+◌, ◌<◌, ◌≤◌, ℕ, List, length, IsOk, IfOk, OnOk, Ok};
ghost use Rattle.gl_hss.specs.Types.{signature_len};
ghost use Rattle.gl_hss.specs.Bytes.{bytes_at};
ghost use Rattle.gl_hss.specs.Tree.{IsKey, IsSignature};
ghost use Rattle.gl_hss.specs.Hss.{IsValid, IsValidBy, HasLeaf};
ghost use Rattle.gl_hss.specs.Lent.{key_of, signature_of, signature_fields};
ghost use Rattle.gl_hss.specs.Order.{top_key, has_root, two_levels, verdict, last_key_verdict, leaf_of_one, leaf_below, leaf_of_two, leaf_verdict, least_len};

use crate::bytes::{bytes_at, number_at};
use crate::endorsement::EndorsedKey;
use crate::fault::HssFault;
use crate::fields::{
    embedded_key, ends, first_signature, levels_of_key, lms_key_at, reaches, signature_at, top_key,
};
use crate::levels::HSS_KEY_LEN;
use crate::root::{has_root, one_level};
use crate::{LMS_KEY_LEN, LmsPublicKey, LmsSignature, MAX_LEAF_COUNT, Types};

/// The most bytes of an HSS signature of two levels, both of `Types::H10W4`.
pub const MAX_HSS_SIGNATURE_LEN: usize = 5076;

// The upper level signs the key after it: it is the endorsement of the known key, or it leads to
// the root of the key on top.
fn upper_level(
    identity: &[u8; HSS_KEY_LEN],
    top: &LmsPublicKey<'_>,
    upper: &LmsSignature<'_>,
    known: Option<&EndorsedKey>,
    signature: &[u8],
    at: usize,
) -> Result<(), HssFault>
    requires key { IsKey (key_of top.now) }
    requires top { top_key identity.now ≡ Ok (key_of top.now) }
    requires signature { IsSignature top.now.types (signature_of upper.now) }
    requires fields { signature_of upper.now ≡ signature_fields top.now.types signature.now 4 }
    requires place { at ≡ 4 + signature_len top.now.types }
    requires room { at + 56 ≤ length signature.now }
    ensures { result
        ≡ has_root (key_of top.now) (signature_of upper.now) (bytes_at signature.now at 56) }
{
    if let Some(endorsed) = known
        && endorsed.stands_in(identity, signature, at)
    {
        return Ok(());
    }
    has_root(top, upper, bytes_at(signature, at, LMS_KEY_LEN))
}

// Verifies a signature of two levels: the upper one signs the key of the last.
#[tactic(auto, unfolding(crate::specs::Order::two_levels))]
fn two_levels(
    identity: &[u8; HSS_KEY_LEN],
    key: &LmsPublicKey<'_>,
    known: Option<&EndorsedKey>,
    message: &[u8],
    signature: &[u8],
) -> Result<(), HssFault>
    requires key { IsKey (key_of key.now) }
    requires top { top_key identity.now ≡ Ok (key_of key.now) }
    ensures { result ≡ two_levels (key_of key.now) message.now signature.now }
{
    let at = 4 + key.types.signature_len();
    let last_at = at + LMS_KEY_LEN;
    let upper = signature_at(
        key.types,
        signature,
        4,
        last_at + Types::H5W8.signature_len(),
    )?;
    let next = embedded_key(signature, at)?;
    let len = last_at + next.types.signature_len();
    let last = signature_at(next.types, signature, last_at, len)?;
    ends(signature, len)?;
    upper_level(identity, key, &upper, known, signature, at)?;
    has_root(&next, &last, message)
}

// The fewest bytes of a signature of so many levels by a key with these types.
fn least_len(types: Types, levels: u32) -> usize
    ensures { result ≡ least_len types levels }
{
    let first = 4 + types.signature_len();
    if levels == 1 {
        first
    } else {
        first + LMS_KEY_LEN + Types::H5W8.signature_len()
    }
}

// What verifying answers: nothing, or the first fault. The endorsement of a known key isn't hashed
// again.
#[tactic(auto, unfolding(crate::specs::Order::verdict))]
fn verdict(
    key: &[u8; HSS_KEY_LEN],
    known: Option<&EndorsedKey>,
    message: &[u8],
    signature: &[u8],
) -> Result<(), HssFault>
    ensures { result ≡ verdict key.now message.now signature.now }
{
    let levels = levels_of_key(key)?;
    let top = top_key(key)?;
    reaches(signature, 4, least_len(top.types, levels))?;
    let upper = number_at(signature, 0);
    if upper != levels - 1 {
        return Err(HssFault::Levels {
            want: levels - 1,
            got: upper,
        });
    }
    if levels == 1 {
        one_level(&top, message, signature, 4)
    } else {
        two_levels(key, &top, known, message, signature)
    }
}

// As `verify`, with a key whose endorsement isn't hashed again.
fn verify_knowing(
    key: &[u8; HSS_KEY_LEN],
    known: Option<&EndorsedKey>,
    message: &[u8],
    signature: &[u8],
) -> Result<(), HssFault>
    ensures valid { IsOk result ↔ IsValid key.now message.now signature.now }
    ensures first_fault { result ≡ verdict key.now message.now signature.now }
    ensures most { OnOk result (length signature.now ≤ MAX_HSS_SIGNATURE_LEN) }
{
    verdict(key, known, message, signature)
}

/// Whether the bytes are a valid HSS signature of the message under the key, a 60-byte HSS public
/// key of one or two levels (sections 6.1 and 6.3).
///
/// Key and signature are read from left to right, then the roots are compared from the top on, and
/// the first fault is answered. Where bytes are missing or left over, `Length` has the fewest bytes
/// that a signature has which begins so; before the types of the key inside are read, the signature
/// after it counts as the shortest. The place in `Types` counts in the key for the key's own types
/// (4 or 8), else in the signature.
pub fn verify(key: &[u8; HSS_KEY_LEN], message: &[u8], signature: &[u8]) -> Result<(), HssFault>
    ensures valid { IsOk result ↔ IsValid key.now message.now signature.now }
    ensures first_fault { result ≡ verdict key.now message.now signature.now }
    ensures most { OnOk result (length signature.now ≤ MAX_HSS_SIGNATURE_LEN) }
{
    verify_knowing(key, None, message, signature)
}

/// What `verify` answers under the identity that endorsed the key, whoever signed.
///
/// Where the signature's upper level is the key's endorsement, byte for byte, only its last level
/// is hashed: about half of the time.
pub fn verify_below(
    endorsed: &EndorsedKey,
    message: &[u8],
    signature: &[u8],
) -> Result<(), HssFault>
    ensures valid { IsOk result ↔ IsValid endorsed.now.identity message.now signature.now }
    ensures first_fault { result ≡ verdict endorsed.now.identity message.now signature.now }
    ensures most { OnOk result (length signature.now ≤ MAX_HSS_SIGNATURE_LEN) }
{
    verify_knowing(endorsed.identity(), Some(endorsed), message, signature)
}

// The key that made the last level, or the first fault on the way to it.
#[tactic(auto, unfolding(crate::specs::Order::last_key_verdict))]
fn last_key_verdict(
    key: &[u8; HSS_KEY_LEN],
    signature: &[u8],
) -> Result<[u8; LMS_KEY_LEN], HssFault>
    ensures { result ≡ last_key_verdict key.now signature.now }
{
    let levels = levels_of_key(key)?;
    let top = top_key(key)?;
    if levels == 1 {
        return Ok(lms_key_at(key, 4));
    }
    let at = 4 + top.types.signature_len();
    let end = at + LMS_KEY_LEN;
    reaches(signature, end, end + Types::H5W8.signature_len())?;
    Ok(lms_key_at(signature, at))
}

/// The 56 bytes of the LMS key that made the last level of a signature: the one in the key itself
/// with one level, and the one inside the signature with two.
///
/// Nothing is hashed: only where `verify` accepts the signature has that key signed.
pub fn last_key(key: &[u8; HSS_KEY_LEN], signature: &[u8]) -> Result<[u8; LMS_KEY_LEN], HssFault>
    ensures signer { (message by : List ℕ) → IsValid key.now message signature.now
        → (result ≡ Ok by) ↔ IsValidBy key.now by message signature.now }
    ensures first_fault { result ≡ last_key_verdict key.now signature.now }
{
    last_key_verdict(key, signature)
}

// The leaf in a signature of one level.
#[tactic(auto, unfolding(crate::specs::Order::leaf_of_one))]
fn leaf_of_one(signature: &[u8]) -> Result<u32, HssFault>
    ensures { result ≡ leaf_of_one signature.now }
{
    let (types, q) = first_signature(signature, 0)?;
    ends(signature, 4 + types.signature_len())?;
    Ok(q)
}

// The leaf after an upper LMS signature with these types.
#[tactic(auto, unfolding(crate::specs::Order::leaf_below))]
fn leaf_below(types: Types, signature: &[u8]) -> Result<u32, HssFault>
    ensures { result ≡ leaf_below types signature.now }
{
    let at = 4 + types.signature_len();
    let next = embedded_key(signature, at)?;
    let len = at + LMS_KEY_LEN + next.types.signature_len();
    let last = signature_at(next.types, signature, at + LMS_KEY_LEN, len)?;
    ends(signature, len)?;
    Ok(last.leaf)
}

// The leaf of the last level in a signature of two.
#[tactic(auto, unfolding(crate::specs::Order::leaf_of_two))]
fn leaf_of_two(signature: &[u8]) -> Result<u32, HssFault>
    ensures { result ≡ leaf_of_two signature.now }
{
    let (types, _) = first_signature(signature, LMS_KEY_LEN + Types::H5W8.signature_len())?;
    leaf_below(types, signature)
}

// The leaf of the last level, or the first fault.
#[tactic(auto, unfolding(crate::specs::Order::leaf_verdict))]
fn leaf_verdict(signature: &[u8]) -> Result<u32, HssFault>
    ensures { result ≡ leaf_verdict signature.now }
{
    reaches(signature, 4, 4 + Types::H5W8.signature_len())?;
    match number_at(signature, 0) {
        0 => leaf_of_one(signature),
        1 => leaf_of_two(signature),
        got => Err(HssFault::Levels { want: 1, got }),
    }
}

/// The number of the leaf that the last level of an HSS signature used.
///
/// The key isn't known: any of the four parameter sets may stand in the first level. So its leaf is
/// tried when both of its types are read, and no root is compared.
pub fn leaf_of(signature: &[u8]) -> Result<u32, HssFault>
    ensures leaf { (q : ℕ) → (result ≡ Ok q) ↔ HasLeaf signature.now q }
    ensures first_fault { result ≡ leaf_verdict signature.now }
    ensures below { IfOk result (λ q. q < MAX_LEAF_COUNT) }
{
    leaf_verdict(signature)
}
