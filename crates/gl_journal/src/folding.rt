//! The fold of whole payloads.

ghost use Rattle.std.specs.Prelude.{◌≡◌, ℕ, ◌+◌, ◌^◌, ◌<◌, ◌≤◌, List, [], ◌∷◌, length, IfSome, IfNone, IfOk, IsOk, OnOk, None, Ok, Err, option_map};
ghost use Rattle.gl_journal.specs.declared.fault.JournalFault.{JournalFault};
ghost use Rattle.gl_journal.specs.Gates.{opening_answer, payloads_from, payloads_of};
ghost use Rattle.gl_journal.specs.Parts.{FileParts};
ghost use Rattle.gl_journal.specs.Durable.{fold_payload, fold_opening, begins_with_key, durable_of, durable, journal_header};
ghost use Rattle.gl_base.specs.Answers.{Answers};
ghost use Rattle.gl_journal.specs.RecordView.{state_of, StandsOn};

use crate::decoding::record_of;
use crate::durable::{Durable, fold_next};
use crate::entry_log::EntryLog;
use crate::fault::JournalFault;
use crate::reader::{LENGTH_LIMIT, after_open_gate, batch_after, end_of_payloads};
use gl_base::{Cut, OrNoMemory};
use std::alloc::Global;

/// What a journal's file begins with.
pub(crate) const HEADER: [u8; 8] = *b"GLJOURN1";

/// The first byte, and those after it.
fn first_of(bytes: &[u8]) -> Option<(u8, &[u8])>
    ensures some { IfSome result (λ first. bytes.now ≡ first.0 ∷ first.1.now) }
    ensures none { IfNone result (bytes.now ≡ []) }
{
    match bytes.split_first() {
        Some((first, suffix)) => Some((*first, suffix)),
        None => None,
    }
}

/// Folds the records of a payload of which the first byte stands at a place.
fn fold_payload<L: EntryLog>(
    state: &mut Option<Durable<L>>,
    alloc: Global,
    at: usize,
    payload: &[u8],
) -> Result<(), OrNoMemory<JournalFault>>
    requires size { at + length payload.now < 2 ^ 64 }
    requires stands { IfSome state.old (λ d. StandsOn L.snapshot d) }
    ensures stands { OnOk result (IfSome state.new (λ d. StandsOn L.snapshot d)) }
    ensures folds { OnOk result
        (fold_payload L.goes_on at payload.now (option_map (state_of L.frames) state.old)
        ≡ Ok (option_map (state_of L.frames) state.new)) }
    ensures fault { (fault : JournalFault) → result ≡ Err (OrNoMemory.Fault fault) →
        (place : ℕ) × (fault ≡ JournalFault.BadRecord place)
        × (fold_payload L.goes_on at payload.now (option_map (state_of L.frames) state.old)
        ≡ Err place) }
{
    let mut place = at;
    let mut rest = payload;
    while let Some((kind, suffix)) = first_of(rest) {
        let bad = JournalFault::BadRecord { at: place as u64 };
        let mut cut = Cut::new_at(suffix, place + 1);
        let Ok(body) = cut.bytes(32, LENGTH_LIMIT) else {
            return Err(OrNoMemory::Fault(bad));
        };
        let Some(one) = record_of(kind, body) else {
            return Err(OrNoMemory::Fault(bad));
        };
        if !fold_next(state, alloc, &one)? {
            return Err(OrNoMemory::Fault(bad));
        }
        place = cut.at();
        rest = cut.rest();
    }
    Ok(())
}

/// Folds the payloads of batches, of which the first stands at 8.
fn fold_payloads<L: EntryLog>(
    state: &mut Option<Durable<L>>,
    alloc: Global,
    batches: &[u8],
) -> Result<(), OrNoMemory<JournalFault>>
    requires size { 8 + length batches.now < 2 ^ 64 }
    requires opens { IsOk (payloads_from 8 batches.now) }
    requires stands { IfSome state.old (λ d. StandsOn L.snapshot d) }
    ensures stands { OnOk result (IfSome state.new (λ d. StandsOn L.snapshot d)) }
    ensures folds { OnOk result
        (fold_opening L.goes_on 8 (payloads_from 8 batches.now)
        (option_map (state_of L.frames) state.old)
        ≡ Ok (option_map (state_of L.frames) state.new)) }
    ensures fault { (fault : JournalFault) → result ≡ Err (OrNoMemory.Fault fault) →
        (place : ℕ) × (fault ≡ JournalFault.BadRecord place)
        × (fold_opening L.goes_on 8 (payloads_from 8 batches.now)
        (option_map (state_of L.frames) state.old) ≡ Err place) }
{
    let mut place = 8;
    let mut rest = batches;
    while let Some(suffix) = after_open_gate(rest) {
        let batch = batch_after(suffix, place)?;
        fold_payload(state, alloc, place + 5, batch.payload)?;
        place = batch.next;
        rest = batch.rest;
    }
    Ok(())
}

/// Whether the first record of a payload is of the kind of a key.
fn is_of_key(payload: &[u8]) -> bool
    ensures { result ≡ begins_with_key (payload.now ∷ []) }
{
    payload.first() == Some(&1)
}

/// Whether the first record of the first payload is of the kind of a key.
fn begins_with_key(batches: &[u8]) -> bool
    requires { 8 + length batches.now < 2 ^ 64 }
    ensures { (payloads : List (List ℕ)) → payloads_from 8 batches.now ≡ Ok payloads →
        result ≡ begins_with_key payloads }
{
    let Some(suffix) = after_open_gate(batches) else {
        return false;
    };
    match batch_after(suffix, 8) {
        Ok(batch) => is_of_key(batch.payload),
        Err(_) => false,
    }
}

/// What the batches after the header of a journal fold into.
fn fold_batches<L: EntryLog>(
    alloc: Global,
    batches: &[u8],
) -> Result<Durable<L>, OrNoMemory<JournalFault>>
    requires size { 8 + length batches.now < 2 ^ 64 }
    requires opens { IsOk (payloads_from 8 batches.now) }
    ensures exact { Answers (state_of L.frames) result
        (durable_of L.goes_on (opening_answer None (payloads_from 8 batches.now))) }
    ensures stands { IfOk result (λ d. StandsOn L.snapshot d) }
    ensures no_disk { result ≡ Err (OrNoMemory.Fault JournalFault.DiskFault) → ⊥ }
{
    let no_key = JournalFault::NotJournal { at: 8 };
    if !begins_with_key(batches) {
        return Err(OrNoMemory::Fault(no_key));
    }
    let mut state = None;
    fold_payloads(&mut state, alloc, batches)?;
    match state {
        Some(durable) => Ok(durable),
        None => Err(OrNoMemory::Fault(no_key)),
    }
}

/// What the records of a journal's file fold into.
fn fold_file<L: EntryLog>(
    alloc: Global,
    file: &[u8],
) -> Result<Durable<L>, OrNoMemory<JournalFault>>
    requires { IsOk (payloads_of journal_header file.now) }
    ensures exact { Answers (state_of L.frames) result (durable L.goes_on file.now) }
    ensures stands { IfOk result (λ d. StandsOn L.snapshot d) }
    ensures no_disk { result ≡ Err (OrNoMemory.Fault JournalFault.DiskFault) → ⊥ }
{
    let (_, batches) = file.split_at(8);
    fold_batches(alloc, batches)
}

/// What a journal's file opens to, and the place of the closed gate after its batches.
pub(crate) fn open_file<L: EntryLog>(
    alloc: Global,
    file: &[u8],
) -> Result<(u64, Durable<L>), OrNoMemory<JournalFault>>
    ensures parts { IfOk result (λ found. (payloads : List (List ℕ)) × (rest : List ℕ)
        × FileParts journal_header file.now payloads found.0 rest) }
    ensures within { IfOk result (λ found. found.0 ≤ length file.now) }
    ensures state { IfOk result (λ found.
        durable L.goes_on file.now ≡ Ok (state_of L.frames found.1)) }
    ensures stands { IfOk result (λ found. StandsOn L.snapshot found.1) }
    ensures fault { (fault : JournalFault) → result ≡ Err (OrNoMemory.Fault fault) →
        durable L.goes_on file.now ≡ Err fault }
    ensures no_disk { result ≡ Err (OrNoMemory.Fault JournalFault.DiskFault) → ⊥ }
{
    let place = end_of_payloads(&HEADER, file)?;
    let state = fold_file(alloc, file)?;
    Ok((place as u64, state))
}
