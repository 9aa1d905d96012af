//! The bytes of a source, read whole.

ghost use Rattle.std.specs.Prelude.{◌≡◌, ◌≢◌, ◌≤◌, ◌<◌, ◌^◌, length, true, Err, IfOk, IfSome, OnOk};
ghost use Rattle.gl_outside.specs.Fault.{Rose};
ghost use Rattle.gl_entry.specs.SourceBytes.{OfBytes};

use gl_outside::{Got, Source};
use std::alloc::Global;

/// The most bytes that JSON has.
pub const JSON_LIMIT: usize = 1_048_576;

/// Why a source was not read whole.
#[derive(Clone, Copy, Debug, PartialEq, Eq)]
pub enum ReadError {
    Memory,
    /// The source failed.
    Failed,
    /// The source has more bytes than the limit.
    TooLong,
}

/// Reads a source to its end, if that comes within so many bytes.
pub fn read_whole<S: Source>(
    alloc: Global,
    limit: usize,
    source: &mut S,
) -> Result<Vec<u8>, ReadError>
    requires { limit < 2 ^ 62 }
    ensures whole { IfOk result (λ text. IfSome (S.left source.old) (λ given. text.items ≡ given)) }
    ensures ended { OnOk result (S.ended source.new ≡ true) }
    ensures within { IfOk result (λ text. length text.items ≤ limit) }
    ensures long { result ≡ Err ReadError.TooLong →
        OfBytes (S.left source.old) (λ given. limit < length given) }
    ensures failed { result ≡ Err ReadError.Failed →
        Rose (S.faults source.old) (S.faults source.new) }
    ensures quiet { result ≢ Err ReadError.Failed →
        S.faults source.new ≡ S.faults source.old }
    ensures never_falls { S.faults source.old ≤ S.faults source.new }
{
    let mut text = Vec::new(alloc);
    let mut buffer = [0; 65536];
    while text.len() <= limit {
        match source.read(&mut buffer) {
            Got::Bytes(0) | Got::End => return Ok(text),
            Got::Bytes(count) => {
                let (prefix, _) = buffer.split_at(count);
                match text.extend_from_slice(prefix) {
                    Ok(()) => {}
                    Err(_) => return Err(ReadError::Memory),
                }
            }
            Got::Failed => return Err(ReadError::Failed),
        }
    }
    Err(ReadError::TooLong)
}

/// Reads a source to its end.
pub fn read_to_end<S: Source>(alloc: Global, source: &mut S) -> Result<Vec<u8>, ReadError>
    ensures whole { IfOk result (λ text. IfSome (S.left source.old) (λ given. text.items ≡ given)) }
    ensures ended { OnOk result (S.ended source.new ≡ true) }
    ensures unlimited { result ≢ Err ReadError.TooLong }
    ensures failed { result ≡ Err ReadError.Failed →
        Rose (S.faults source.old) (S.faults source.new) }
    ensures quiet { result ≢ Err ReadError.Failed →
        S.faults source.new ≡ S.faults source.old }
    ensures never_falls { S.faults source.old ≤ S.faults source.new }
{
    let mut text = Vec::new(alloc);
    let mut buffer = [0; 65536];
    loop {
        match source.read(&mut buffer) {
            Got::Bytes(0) | Got::End => return Ok(text),
            Got::Bytes(count) => {
                let (prefix, _) = buffer.split_at(count);
                match text.extend_from_slice(prefix) {
                    Ok(()) => {}
                    Err(_) => return Err(ReadError::Memory),
                }
            }
            Got::Failed => return Err(ReadError::Failed),
        }
    }
}
