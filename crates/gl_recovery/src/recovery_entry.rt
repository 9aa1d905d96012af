//! What is signed of the old ledger, and the recovery after it.

ghost use Rattle.std.specs.Prelude.{◌≡◌, ◌≤◌, ◌<◌, ◌+◌, ◌^◌, true, length, Ok, Err, IfErr, OnOk, MatchResult};
ghost use Rattle.gl_base.specs.Answers.{Fails};
ghost use Rattle.gl_base.specs.TxId.{last_seqno};
ghost use Rattle.gl_requests.specs.Ranges.{is_recovery};
ghost use Rattle.gl_ledger.specs.Recordings.{last_entry};
ghost use Rattle.gl_ledger.specs.Recovery.{recovery_entry, recovery_result, recovery_view, with_recovery};
ghost use Rattle.gl_ledger.specs.Past.{signs_at};
ghost use Rattle.gl_recovery.specs.OldLedger.{has_room, with_signature};
ghost use Rattle.gl_recovery.specs.ExpectedOutput.{fault_of, unless_refused};

use crate::fault::RecoveryFault;
use gl_base::{LAST_SEQNO, OrNoMemory};
use gl_gov_rules::GovernanceRefusal;
use gl_ledger::Refusal;
use gl_requests::Recovery;
use gl_store::Store;

/// Takes back what stands after the last signature: nobody signs it.
pub(crate) fn cut_to_signature(store: &mut Store) -> Result<(), RecoveryFault>
    requires uncommitted { store.old.commit ≡ 0 }
    ensures exact { MatchResult result
        (λ _. with_signature store.old.ledger ≡ Ok store.new.ledger)
        (λ fault. with_signature store.old.ledger ≡ Err fault) }
    ensures signed { OnOk result (signs_at (last_entry store.new.ledger) ≡ true) }
{
    let signed = store.last_signature();
    if signed == 0 {
        return Err(RecoveryFault::NothingSigned);
    }
    store.cut(signed);
    Ok(())
}

/// The view of a recovery after the ledger, where that is left, and two seqnos.
pub(crate) fn view_left(store: &Store) -> Result<u32, RecoveryFault>
    ensures exact { MatchResult result
        (λ view. (has_room store.now.ledger ≡ Ok tt) × (view ≡ recovery_view store.now.ledger))
        (λ fault. has_room store.now.ledger ≡ Err fault) }
    ensures seqnos { OnOk result (length store.now.ledger + 2 ≤ last_seqno) }
{
    let Some(view) = store.recovery_view() else {
        return Err(RecoveryFault::ViewLimit);
    };
    if store.ledger_len() > LAST_SEQNO - 2 {
        return Err(RecoveryFault::SeqnoLimit);
    }
    Ok(view)
}

/// Why a recovery is refused.
fn fault_of(why: Refusal) -> RecoveryFault
    ensures { result ≡ fault_of why }
{
    match why {
        Refusal::Governance(GovernanceRefusal::BadAction { index, cause }) => {
            RecoveryFault::BadAction { index, cause }
        }
        Refusal::TooLarge { size } => RecoveryFault::TooLarge { size },
        _ => RecoveryFault::Signature,
    }
}

/// Recovers the service after a signature.
pub(crate) fn recover_service(
    store: &mut Store,
    recovery: Recovery,
) -> Result<(), OrNoMemory<RecoveryFault>>
    requires signed { signs_at (last_entry store.old.ledger) ≡ true }
    requires view { recovery_view store.old.ledger < 2 ^ 32 }
    requires left { length store.old.ledger + 2 ≤ last_seqno }
    requires fits { is_recovery recovery ≡ true }
    ensures made { OnOk result (store.new.ledger ≡ with_recovery recovery store.old.ledger) }
    ensures accepted { OnOk result (recovery_result recovery store.old.ledger
        ≡ Ok (recovery_entry recovery store.old.ledger)) }
    ensures refused { IfErr result (λ e.
        Fails e (unless_refused (recovery_result recovery store.old.ledger))) }
{
    match store.recover_service(recovery) {
        Ok(()) => Ok(()),
        Err(OrNoMemory::Fault(why)) => Err(OrNoMemory::Fault(fault_of(why))),
        Err(OrNoMemory::NoMemory) => Err(OrNoMemory::NoMemory),
    }
}
