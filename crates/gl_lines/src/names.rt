//! What single words encode: the names of maps, keys and values.

ghost use Rattle.std.specs.Prelude.{◌≡◌};
ghost use Rattle.std.specs.List.{list_all};
ghost use Rattle.gl_vmaps.specs.Name.{is_map_name, is_key, is_value};
ghost use Rattle.gl_base.specs.Answers.{Answers};
ghost use Rattle.gl_lines.specs.Words.{is_lower_digit, hex_bytes, hex_sized, value_bytes};
ghost use Rattle.gl_lines.specs.Operations.{only_if, map_of, key_of, value_of, expected_of};

use crate::fault::LineFault;
use gl_base::OrNoMemory;
use gl_vmaps::{Key, MapName, Value};
use hex::FromHex;
use std::alloc::Global;

/// Whether a text is lower-case hexadecimal digits, if any.
pub fn is_lower_hex(text: &[u8]) -> bool
    ensures { result ≡ list_all is_lower_digit text.now }
{
    text.iter().all(|byte| (b'0' <= *byte && *byte <= b'9') || (b'a' <= *byte && *byte <= b'f'))
}

/// The bytes of lower-case hexadecimal digits.
fn hex_bytes(alloc: Global, text: &[u8]) -> Result<Vec<u8>, OrNoMemory<LineFault>>
    ensures { Answers (λ bytes. bytes.items) result (hex_bytes text.now) }
{
    if !is_lower_hex(text) {
        return Err(OrNoMemory::Fault(LineFault::NoReading));
    }
    match hex::decode(alloc, text) {
        Ok(bytes) => Ok(bytes),
        Err(hex::FromHexError::OutOfMemory) => Err(OrNoMemory::NoMemory),
        Err(_) => Err(OrNoMemory::Fault(LineFault::NoReading)),
    }
}

/// The 32 bytes that lower-case hexadecimal digits encode.
pub(crate) fn seed_of(text: &[u8]) -> Result<[u8; 32], LineFault>
    ensures { result ≡ hex_sized text.now 32 }
{
    if !is_lower_hex(text) {
        return Err(LineFault::NoReading);
    }
    match <[u8; 32] as FromHex>::from_hex(text) {
        Ok(seed) => Ok(seed),
        Err(_) => Err(LineFault::NoReading),
    }
}

/// The bytes of a value, of which a full stop encodes none.
fn value_bytes(alloc: Global, text: &[u8]) -> Result<Vec<u8>, OrNoMemory<LineFault>>
    ensures { Answers (λ bytes. bytes.items) result (value_bytes text.now) }
{
    if text == b".".as_slice() {
        Ok(Vec::new(alloc))
    } else if text.is_empty() {
        Err(OrNoMemory::Fault(LineFault::NoReading))
    } else {
        hex_bytes(alloc, text)
    }
}

/// The name of a map, which is the word itself.
pub(crate) fn map_of(alloc: Global, word: &[u8]) -> Result<MapName, OrNoMemory<LineFault>>
    ensures { Answers (λ x. x) result (map_of word.now) }
{
    match MapName::new(Vec::from_slice(alloc, word)?) {
        Some(name) => Ok(name),
        None => Err(OrNoMemory::Fault(LineFault::NoReading)),
    }
}

fn key_from(bytes: Vec<u8>) -> Result<Key, LineFault>
    ensures { result ≡ only_if is_key bytes.items }
{
    match Key::new(bytes) {
        Some(key) => Ok(key),
        None => Err(LineFault::NoReading),
    }
}

#[tactic(auto, unfolding(crate::specs::Operations::key_of))]
pub(crate) fn key_of(alloc: Global, word: &[u8]) -> Result<Key, OrNoMemory<LineFault>>
    ensures { Answers (λ x. x) result (key_of word.now) }
{
    let bytes = hex_bytes(alloc, word)?;
    Ok(key_from(bytes)?)
}

fn value_from(bytes: Vec<u8>) -> Result<Value, LineFault>
    ensures { result ≡ only_if is_value bytes.items }
{
    match Value::new(bytes) {
        Some(value) => Ok(value),
        None => Err(LineFault::NoReading),
    }
}

#[tactic(auto, unfolding(crate::specs::Operations::value_of))]
pub(crate) fn value_of(alloc: Global, word: &[u8]) -> Result<Value, OrNoMemory<LineFault>>
    ensures { Answers (λ x. x) result (value_of word.now) }
{
    let bytes = value_bytes(alloc, word)?;
    Ok(value_from(bytes)?)
}

/// A value, or none where the word is a hyphen.
#[tactic(auto, unfolding(crate::specs::Operations::expected_of))]
pub(crate) fn expected_of(
    alloc: Global,
    word: &[u8],
) -> Result<Option<Value>, OrNoMemory<LineFault>>
    ensures { Answers (λ x. x) result (expected_of word.now) }
{
    if word == b"-".as_slice() {
        Ok(None)
    } else {
        Ok(Some(value_of(alloc, word)?))
    }
}
