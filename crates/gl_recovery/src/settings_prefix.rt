//! The settings of a recovery, read from the start of a source.

ghost use Rattle.std.specs.Prelude.{◌≡◌, ◌≢◌, ◌≤◌, ◌<◌, length, true, false, Err, IfOk};
ghost use Rattle.std.specs.Io.KnownBytes.{Consumes, IsAtEnd};
ghost use Rattle.gl_base.specs.declared.or_no_memory.OrNoMemory.TheVariants.{Fault};
ghost use Rattle.gl_outside.specs.Fault.{Rose};
ghost use Rattle.gl_entry.specs.SourceBytes.{OfBytes};
ghost use Rattle.gl_recovery.specs.SettingsPrefix.{TakesSettings, parts_of, settings_len};
ghost use Rattle.gl_recovery.specs.RecoveryOutput.{is_of_outside, is_source_read};

use crate::recovering_fault::RecoveringFault;
use gl_base::OrNoMemory;
use gl_outside::{Got, Source};
use std::alloc::Global;

/// How many bytes the length of the settings has.
const LENGTH_LEN: usize = 4;

/// The most bytes that the settings have.
const SETTINGS_LIMIT: u32 = 1_048_576;

/// Reads so many bytes, or all that there are where these are fewer. It reads no further.
fn read_up_to<S: Source>(
    alloc: Global,
    count: usize,
    source: &mut S,
) -> Result<Vec<u8>, OrNoMemory<RecoveringFault>>
    ensures taken { IfOk result (λ prefix.
        Consumes (S.left source.old) (S.left source.new) prefix.items) }
    ensures within { IfOk result (λ prefix. length prefix.items ≤ count) }
    ensures short { IfOk result (λ prefix. length prefix.items < count →
        IsAtEnd (S.left source.new) × (S.ended source.new ≡ true)) }
    ensures only { (fault : RecoveringFault) → result ≡ Err (Fault fault) →
        fault ≡ RecoveringFault.SourceFailed }
    ensures failed { result ≡ Err (Fault RecoveringFault.SourceFailed) →
        Rose (S.faults source.old) (S.faults source.new) }
    ensures quiet { result ≢ Err (Fault RecoveringFault.SourceFailed) →
        S.faults source.new ≡ S.faults source.old }
    ensures never_falls { S.faults source.old ≤ S.faults source.new }
{
    let mut prefix = Vec::new(alloc);
    let mut buffer = [0; 65536];
    while prefix.len() < count {
        let room = (count - prefix.len()).min(buffer.len());
        let (piece, _) = buffer.split_at_mut(room);
        match source.read(piece) {
            Got::Bytes(0) | Got::End => return Ok(prefix),
            Got::Bytes(given) => {
                let (read, _) = piece.split_at(given);
                prefix.extend_from_slice(read)?;
            }
            Got::Failed => return Err(OrNoMemory::Fault(RecoveringFault::SourceFailed)),
        }
    }
    Ok(prefix)
}

/// The length of the settings.
fn settings_len(head: &[u8]) -> Result<usize, RecoveringFault>
    requires { length head.now ≤ 4 }
    ensures { result ≡ settings_len head.now }
{
    let Some(len) = head.first_chunk::<LENGTH_LEN>() else {
        return Err(RecoveringFault::Short {
            at: head.len() as u64,
        });
    };
    let len = u32::from_le_bytes(*len);
    if len > SETTINGS_LIMIT {
        return Err(RecoveringFault::TooMuchJson);
    }
    Ok(len as usize)
}

/// Reads the text of the settings, which stands after its length, and no further.
pub(crate) fn read_settings<S: Source>(
    alloc: Global,
    source: &mut S,
) -> Result<Vec<u8>, OrNoMemory<RecoveringFault>>
    ensures read { IfOk result (λ text.
        TakesSettings (S.left source.old) text.items (S.left source.new)) }
    ensures refused { (fault : RecoveringFault) → result ≡ Err (Fault fault) →
        is_of_outside fault ≡ false →
        OfBytes (S.left source.old) (λ given. parts_of given ≡ Err fault) }
    ensures ended { (fault : RecoveringFault) → result ≡ Err (Fault fault) →
        is_source_read fault ≡ true → S.ended source.new ≡ true }
    ensures no_disk { result ≡ Err (Fault RecoveringFault.DiskFailed) → ⊥ }
    ensures failed { result ≡ Err (Fault RecoveringFault.SourceFailed) →
        Rose (S.faults source.old) (S.faults source.new) }
    ensures quiet { result ≢ Err (Fault RecoveringFault.SourceFailed) →
        S.faults source.new ≡ S.faults source.old }
    ensures never_falls { S.faults source.old ≤ S.faults source.new }
{
    let head = read_up_to(alloc, LENGTH_LEN, source)?;
    let len = settings_len(&head)?;
    let text = read_up_to(alloc, len, source)?;
    if text.len() < len {
        let at = (head.len() + text.len()) as u64;
        return Err(OrNoMemory::Fault(RecoveringFault::Short { at }));
    }
    Ok(text)
}
