//! The audit of a ledger, entry by entry.

ghost use Rattle.std.specs.Prelude.{◌≡◌, ◌≢◌, ◌+◌, length, ◌≤◌, [], ◌∷◌, ◌++◌, Bool, true, Err, None, Ok, IfOk};
ghost use Rattle.gl_base.specs.declared.or_no_memory.OrNoMemory.TheVariants.{Fault};
ghost use Rattle.gl_outside.specs.Fault.{Rose};
ghost use Rattle.gl_ledger.specs.Recordings.{last_entry};
ghost use Rattle.gl_entry.specs.SourceBytes.{OfBytes};
ghost use Rattle.gl_entry.specs.Entry.{is_signature};
ghost use Rattle.gl_entry.specs.LedgerFile.{LedgerFile};
ghost use Rattle.gl_entry.specs.declared.next.ReadFault.{ReadFault as ReadFaults};
ghost use Rattle.gl_audit.specs.Kept.{ForLedgers, IsSettledStateOf, IsState, IsStateOf};
ghost use Rattle.gl_audit.specs.AuditSteps.{Ends, EndsAt, Takes};
ghost use Rattle.gl_audit.specs.Verdict.{EndsWith, judged, verdict, verdict_of};

use crate::ledger_state::LedgerState;
use crate::verdict::Verdict;
use gl_base::OrNoMemory;
use gl_entry::{Content, Entry, Next, ReadBuffer, ReadFault, read_next};
use gl_outside::Source;
use gl_requests::HssPublicKey;
use std::alloc::{AllocError, Global};

/// How the entries of a file end.
#[derive(Clone, Copy, Debug, PartialEq, Eq)]
enum Stop {
    /// With the file.
    End,
    /// With bytes that are no frame.
    Unread,
    /// With one that breaks this rule.
    Broken(u8),
}

/// Adds an entry to the ledger, or reports the first rule that it breaks. After a signature the
/// state is settled, so that it holds no more than the tables and what came since.
fn take_entry(state: &mut LedgerState, entry: &Entry) -> Result<Option<u8>, AllocError>
    requires { IsState state.old }
    ensures taken { IfOk result (λ rule. ForLedgers state.old (λ before.
        Takes before entry.now rule state.new)) }
    ensures settled { result ≡ Ok None → is_signature entry.now.content ≡ true →
        ForLedgers state.old (λ before.
        IsSettledStateOf (before ++ entry.now ∷ []) state.new) }
{
    match state.apply(entry) {
        Ok(()) => {
            if matches!(entry.content, Content::Signature(_)) {
                state.settle()?;
            }
            Ok(None)
        }
        Err(OrNoMemory::Fault(broken)) => Ok(Some(broken.rule)),
        Err(OrNoMemory::NoMemory) => Err(AllocError),
    }
}

/// Adds the entries of a file to the state of a ledger of none, up to the file's end, to bytes that
/// are no frame, or to the first entry that breaks a rule.
fn take_entries<S: Source>(
    alloc: Global,
    source: &mut S,
    state: &mut LedgerState,
) -> Result<Stop, OrNoMemory<ReadFault>>
    requires { IsStateOf [] state.old }
    ensures ends { IfOk result (λ stop. EndsAt (S.left source.old) stop state.new) }
    ensures ended { result ≡ Ok Stop.End → S.ended source.new ≡ true }
    ensures failed { (fault : ReadFaults) → result ≡ Err (Fault fault) →
        Rose (S.faults source.old) (S.faults source.new) }
    ensures quiet { ((fault : ReadFaults) → result ≢ Err (Fault fault)) →
        S.faults source.new ≡ S.faults source.old }
    ensures never_falls { S.faults source.old ≤ S.faults source.new }
{
    let mut kept = ReadBuffer::new(alloc);
    loop {
        match read_next(alloc, source, &mut kept)? {
            Next::Entry(entry) => {
                if let Some(rule) = take_entry(state, &entry)? {
                    return Ok(Stop::Broken(rule));
                }
            }
            Next::End => return Ok(Stop::End),
            Next::Unread => return Ok(Stop::Unread),
        }
    }
}

/// The verdict on a ledger in which no entry breaks a rule.
fn judge(identity: &HssPublicKey, state: &LedgerState) -> Verdict
    ensures { ForLedgers state.now (λ ledger.
        result ≡ judged identity.now ledger (last_entry ledger)) }
{
    let end = state.end();
    let (Some(last), Some(key)) = (end.last, state.identity()) else {
        return Verdict::Fault { seqno: 1, rule: 3 };
    };
    if key == identity {
        Verdict::Valid {
            last,
            signed: end.signed,
        }
    } else {
        Verdict::Foreign { identity: *key }
    }
}

/// The seqno of the entry that follows.
fn next_seqno(state: &LedgerState) -> u64
    ensures { ForLedgers state.now (λ ledger. result ≡ length ledger + 1) }
{
    state.end().len.saturating_add(1)
}

/// The verdict on a file whose entries ended so, after those that were added.
fn verdict_at(stop: Stop, identity: &HssPublicKey, state: &LedgerState) -> Verdict
    ensures verdict { ForLedgers state.now (λ ledger.
        (file : LedgerFile) → Ends [] file stop ledger → result ≡ verdict_of identity.now file) }
    ensures ended { (ended : Bool) → (stop ≡ Stop.End → ended ≡ true) → EndsWith result ended }
{
    let seqno = next_seqno(state);
    match stop {
        Stop::End => judge(identity, state),
        Stop::Unread => Verdict::Fault { seqno, rule: 1 },
        Stop::Broken(rule) => Verdict::Fault { seqno, rule },
    }
}

/// The audit of the ledger file that a source gives, under the key of a service: whether it is a
/// valid ledger of that service, and if not, the first entry that breaks a rule. It reads no
/// further than that entry, and keeps no entry: what it takes of memory grows with the tables and
/// with what stands between two signatures, and not with the ledger.
pub fn audit<S: Source>(
    alloc: Global,
    identity: &HssPublicKey,
    source: &mut S,
) -> Result<Verdict, OrNoMemory<ReadFault>>
    ensures verdict { IfOk result (λ reported.
        OfBytes (S.left source.old) (λ given. reported ≡ verdict identity.now given)) }
    ensures ended { IfOk result (λ reported. EndsWith reported (S.ended source.new)) }
    ensures failed { (fault : ReadFaults) → result ≡ Err (Fault fault) →
        Rose (S.faults source.old) (S.faults source.new) }
    ensures quiet { ((fault : ReadFaults) → result ≢ Err (Fault fault)) →
        S.faults source.new ≡ S.faults source.old }
    ensures never_falls { S.faults source.old ≤ S.faults source.new }
{
    let mut state = LedgerState::new(alloc)?;
    let stop = take_entries(alloc, source, &mut state)?;
    Ok(verdict_at(stop, identity, &state))
}
