//! The start of a recovery.

ghost use Rattle.std.specs.Prelude.{◌≡◌, ◌≢◌, ◌≤◌, ◌<◌, ◌^◌, [], ◌∷◌, ◌++◌, None, true, length, Ok, Err, IfOk, OnOk};
ghost use Rattle.std.specs.List.{AllByRecursion, flat_map};
ghost use Rattle.gl_base.specs.Answers.{Answers};
ghost use Rattle.gl_base.specs.declared.or_no_memory.OrNoMemory.TheVariants.{Fault};
ghost use Rattle.gl_outside.specs.Fault.{Rose};
ghost use Rattle.gl_hss.specs.Types.{height};
ghost use Rattle.gl_entry.specs.Entry.{body_bytes, body_limit, frame_bytes, is_entry};
ghost use Rattle.gl_requests.specs.Ranges.{is_recovery};
ghost use Rattle.gl_ledger.specs.Audit.{audited};
ghost use Rattle.gl_ledger.specs.NodeKeys.{service_layers};
ghost use Rattle.gl_recovery.specs.Answers.{AnswersOn};
ghost use Rattle.gl_recovery.specs.OldLedger.{is_read_whole};
ghost use Rattle.gl_recovery.specs.ExpectedOutput.{IsFirstKey, expected_recovery, in_frames, recovered_from};

use crate::fault::RecoveryFault;
use crate::old_ledger::read_ledger;
use crate::opening_ledger::{first_endorsement, opening_entry};
use crate::recovery_entry::{cut_to_signature, recover_service, view_left};
use gl_base::{OrNoMemory, put_bytes};
use gl_entry::Entry;
use gl_hss::LmsKey;
use gl_outside::Source;
use gl_requests::Recovery;
use gl_store::Store;
use std::alloc::{AllocError, Global};

/// The frames of a ledger's entries, and of one more after them.
fn frames(alloc: Global, entries: &[Entry], last: &Entry) -> Result<Vec<u8>, AllocError>
    requires fit { AllByRecursion (λ e. is_entry e ≡ true) entries.now }
    requires small { length (body_bytes last.now) ≤ body_limit }
    ensures { IfOk result (λ reported.
        reported.items ≡ flat_map frame_bytes (entries.now ++ last.now ∷ [])) }
{
    let mut reported = Vec::new(alloc);
    for entry in entries {
        put_bytes(&mut reported, &entry.encode(alloc)?)?;
    }
    put_bytes(&mut reported, &last.encode(alloc)?)?;
    Ok(reported)
}

/// The frames of the expected output after the valid ledger of a store.
fn recovered_frames(
    alloc: Global,
    mut store: Store,
    recovery: Recovery,
    by: LmsKey,
    leaf: u32,
) -> Result<Vec<u8>, OrNoMemory<RecoveryFault>>
    requires uncommitted { store.commit ≡ 0 }
    requires leaf { leaf < 2 ^ height by.types }
    requires fits { is_recovery recovery ≡ true }
    ensures { Answers (λ reported. reported.items) result
        (in_frames (recovered_from recovery by leaf store.ledger)) }
{
    cut_to_signature(&mut store)?;
    let view = view_left(&store)?;
    let endorsement = first_endorsement(alloc, recovery.nodes.as_slice())?;
    recover_service(&mut store, recovery)?;
    let opening = opening_entry(alloc, &store, view, by, endorsement, leaf)?;
    let reported = frames(alloc, store.entries(), &opening)?;
    Ok(reported)
}

/// Starts the recovery of a service whose nodes are lost: recovers it, under the key and with the
/// nodes that a recovery names, after the last signature of the old ledger that a source gives.
/// Gives the frames of the new ledger: those of the old one up to its last signature, the recovery
/// in the view after, and the signature that opens the service, made with a leaf of the key of the
/// first node that the recovery names. Nothing is kept of what stood after the last signature, but
/// that breaks no rule either. The new nodes begin with this ledger; what its members then have to
/// do tells `finish`.
///
/// Refused, in this order, where the old ledger isn't valid; where it has no signature; where its
/// last signature is of the last view; where two more seqnos aren't left; where the recovery can't
/// found the service by its nodes, and where one isn't endorsed by its key; and where its entry has
/// more than 1 MiB. The source is blamed only where it failed, and counted that.
pub fn start<S: Source>(
    alloc: Global,
    source: &mut S,
    recovery: Recovery,
    by: LmsKey,
    leaf: u32,
) -> Result<Vec<u8>, OrNoMemory<RecoveryFault>>
    requires first { IsFirstKey by recovery.nodes }
    requires leaf { leaf < 2 ^ height by.types }
    requires fits { is_recovery recovery ≡ true }
    ensures reported { AnswersOn (S.left source.old) (λ reported. reported.items) result
        (λ given. in_frames (expected_recovery recovery by leaf given)) }
    ensures ended { OnOk result (S.ended source.new ≡ true) }
    ensures read_whole { (fault : RecoveryFault) → result ≡ Err (Fault fault) →
        is_read_whole fault ≡ true → S.ended source.new ≡ true }
    ensures failed { result ≡ Err (Fault RecoveryFault.SourceFailed) →
        Rose (S.faults source.old) (S.faults source.new) }
    ensures quiet { result ≢ Err (Fault RecoveryFault.SourceFailed) →
        S.faults source.new ≡ S.faults source.old }
    ensures never_falls { S.faults source.old ≤ S.faults source.new }
{
    let store = match read_ledger(alloc, source) {
        Ok(store) => store,
        Err(error) => return Err(error),
    };
    recovered_frames(alloc, store, recovery, by, leaf)
}
