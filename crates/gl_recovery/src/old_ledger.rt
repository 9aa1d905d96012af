//! The old ledger, read from a source.

ghost use Rattle.std.specs.Prelude.{◌≡◌, ◌≢◌, ◌≤◌, suc, [], ◌∷◌, ◌++◌, true, length, None, Ok, Err, IfOk, IfErr, OnOk};
ghost use Rattle.gl_base.specs.Answers.{Answers};
ghost use Rattle.gl_base.specs.declared.or_no_memory.OrNoMemory.TheVariants.{Fault};
ghost use Rattle.gl_outside.specs.Fault.{Rose};
ghost use Rattle.gl_ledger.specs.Audit.{audited};
ghost use Rattle.gl_ledger.specs.Broken.{broken};
ghost use Rattle.gl_ledger.specs.NodeKeys.{service_layers};
ghost use Rattle.gl_entry.specs.LedgerFile.{ledger_file};
ghost use Rattle.gl_recovery.specs.Answers.{AnswersOn};
ghost use Rattle.gl_recovery.specs.OldLedger.{IsRefused, unless_empty, valid_ledger};

use crate::fault::RecoveryFault;
use gl_base::OrNoMemory;
use gl_entry::{Entry, Next, ReadBuffer, ReadFault, read_next};
use gl_outside::Source;
use gl_store::Store;
use std::alloc::Global;

/// The seqno of the entry that follows.
fn next_seqno(store: &Store) -> u64
    ensures { result ≡ suc (length store.now.ledger) }
{
    store.ledger_len().saturating_add(1)
}

/// Adds an entry, or refuses it for the first rule that it breaks.
fn take_entry(store: &mut Store, entry: Entry) -> Result<(), OrNoMemory<RecoveryFault>>
    ensures unbroken { OnOk result (broken service_layers store.old.ledger entry ≡ None) }
    ensures grown { OnOk result (store.new ≡ record store.old {
      ledger = store.old.ledger ++ entry ∷ [];
    }) }
    ensures refused { IfErr result (IsRefused store.old.ledger entry) }
{
    let seqno = next_seqno(store);
    match store.apply_entry(entry) {
        Ok(()) => Ok(()),
        Err(OrNoMemory::Fault(broken)) => Err(OrNoMemory::Fault(RecoveryFault::Audit {
            seqno,
            rule: broken.rule,
        })),
        Err(OrNoMemory::NoMemory) => Err(OrNoMemory::NoMemory),
    }
}

/// The store of a whole ledger, which has an entry.
fn whole(store: Store) -> Result<Store, OrNoMemory<RecoveryFault>>
    ensures { Answers (λ s. s) result (unless_empty store.ledger (Ok store)) }
{
    if store.ledger_len() == 0 {
        return Err(OrNoMemory::Fault(RecoveryFault::Audit { seqno: 1, rule: 3 }));
    }
    Ok(store)
}

/// The store of the ledger file that a source gives, none of it committed. Refused where the audit
/// of the file would find a fault. It reads no further than that.
pub(crate) fn read_ledger<S: Source>(
    alloc: Global,
    source: &mut S,
) -> Result<Store, OrNoMemory<RecoveryFault>>
    ensures read { AnswersOn (S.left source.old) (λ store. store.ledger) result
        (λ given. valid_ledger (ledger_file given)) }
    ensures valid { IfOk result (λ store. audited service_layers store.ledger ≡ None) }
    ensures uncommitted { IfOk result (λ store. store.commit ≡ 0) }
    ensures ended { OnOk result (S.ended source.new ≡ true) }
    ensures failed { result ≡ Err (Fault RecoveryFault.SourceFailed) →
        Rose (S.faults source.old) (S.faults source.new) }
    ensures quiet { result ≢ Err (Fault RecoveryFault.SourceFailed) →
        S.faults source.new ≡ S.faults source.old }
    ensures never_falls { S.faults source.old ≤ S.faults source.new }
{
    let mut store = Store::new(alloc)?;
    let mut kept = ReadBuffer::new(alloc);
    loop {
        match read_next(alloc, source, &mut kept) {
            Ok(Next::Entry(entry)) => take_entry(&mut store, entry)?,
            Ok(Next::End) => return whole(store),
            Ok(Next::Unread) => {
                let seqno = next_seqno(&store);
                return Err(OrNoMemory::Fault(RecoveryFault::Audit { seqno, rule: 1 }));
            }
            Err(OrNoMemory::Fault(ReadFault)) => {
                return Err(OrNoMemory::Fault(RecoveryFault::SourceFailed));
            }
            Err(OrNoMemory::NoMemory) => return Err(OrNoMemory::NoMemory),
        }
    }
}
