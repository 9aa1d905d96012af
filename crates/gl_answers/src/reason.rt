//! Why an event is refused.

ghost use Rattle.std.specs.Prelude.{◌≡◌, ◌≤◌, length, option_map, IfOk, IfSome};
ghost use Rattle.gl_ledger.specs.declared.breach.EntryRefusal.TheVariants.{BadSignature};
ghost use Rattle.gl_answers.specs.Reasons.{entry_reason, most_values, reason_of, rejected_reason, seen_refusal, store_reason};
ghost use Rattle.gl_rules.specs.Outcome.{NotPrimary};

use crate::governance::governance_reason;
use crate::value::{Reason, Value};
use gl_hss::HssFault;
use gl_ledger::{EntryRefusal, Rejection};
use gl_replication::{Book, Refusal};
use gl_requests::NodeId;
use std::alloc::{AllocError, Global};

/// Why no entry is made for a request.
fn store_reason(alloc: Global, refusal: gl_ledger::Refusal) -> Result<Reason, AllocError>
    ensures { IfOk result (λ reason. reason ≡ store_reason refusal) }
{
    match refusal {
        gl_ledger::Refusal::ServiceState(state) => {
            Reason::numbers(alloc, 51, &[u64::from(state.byte())])
        }
        gl_ledger::Refusal::Aborted(abort) => Reason::numbers(
            alloc,
            122,
            &[u64::from(abort.operation), u64::from(abort.cause.number())],
        ),
        gl_ledger::Refusal::TooLarge { size } => Reason::numbers(alloc, 119, &[size]),
        gl_ledger::Refusal::SeqnoLimit => Reason::numbers(alloc, 130, &[]),
        gl_ledger::Refusal::Governance(why) => governance_reason(alloc, why),
    }
}

/// That the signature of the entry at this seqno isn't valid.
fn signature_reason(alloc: Global, seqno: u64, fault: HssFault) -> Result<Reason, AllocError>
    ensures { IfOk result (λ reason. reason ≡ entry_reason (BadSignature seqno fault)) }
{
    match fault {
        HssFault::Types { at } => Reason::numbers(alloc, 118, &[seqno, 20, at]),
        HssFault::Length { want, got } => Reason::numbers(alloc, 118, &[seqno, 21, want, got]),
        HssFault::Levels { want, got } => {
            Reason::numbers(alloc, 118, &[seqno, 22, u64::from(want), u64::from(got)])
        }
        HssFault::Root { want, got } => Reason::new(
            alloc,
            118,
            &[
                Value::Number(seqno),
                Value::Number(23),
                Value::Digest(want),
                Value::Digest(got),
            ],
        ),
        HssFault::Leaf { q } => Reason::numbers(alloc, 118, &[seqno, 24, u64::from(q)]),
    }
}

/// Why an entry is refused that breaks a rule of the audit.
fn entry_reason(alloc: Global, refusal: EntryRefusal) -> Result<Reason, AllocError>
    ensures { IfOk result (λ reason. reason ≡ entry_reason refusal) }
{
    use gl_ledger::Refusal;
    match refusal {
        EntryRefusal::ServiceState(state) => store_reason(alloc, Refusal::ServiceState(state)),
        EntryRefusal::Aborted(abort) => store_reason(alloc, Refusal::Aborted(abort)),
        EntryRefusal::Governance(why) => store_reason(alloc, Refusal::Governance(why)),
        EntryRefusal::Replay {
            seqno,
            wanted,
            found,
        } => Reason::new(
            alloc,
            117,
            &[
                Value::Number(seqno),
                Value::Digest(wanted),
                Value::Digest(found),
            ],
        ),
        EntryRefusal::BadSignature { seqno, fault } => signature_reason(alloc, seqno, fault),
    }
}

/// Why the ledger takes no entry.
pub(crate) fn rejected_reason(alloc: Global, why: Rejection) -> Result<Reason, AllocError>
    ensures { IfOk result (λ reason. reason ≡ rejected_reason why) }
{
    match why {
        Rejection::ByStore(refusal) => store_reason(alloc, refusal),
        Rejection::Unencodable | Rejection::NoEntry | Rejection::Founding => {
            Reason::numbers(alloc, 117, &[])
        }
        Rejection::NotAfterSignature => Reason::numbers(alloc, 129, &[]),
        Rejection::ByRule(broken) => entry_reason(alloc, broken.refusal),
    }
}

/// That a node doesn't lead: its view, and whom it takes for the leader.
pub fn not_primary(alloc: Global, view: u32, leader: Option<NodeId>) -> Result<Reason, AllocError>
    ensures { IfOk result (λ reason. reason ≡ reason_of (NotPrimary view leader)) }
{
    Reason::new(
        alloc,
        110,
        &[Value::Number(u64::from(view)), Value::Leader(leader)],
    )
}

/// The number of a refusal, and its values: 4 at most. Running out of memory has none, since it is
/// no refusal of the rules.
#[tactic(auto, using(crate::proofs::FewValues::few_values))]
pub fn reason_of<B: Book<Refused = Rejection>>(
    alloc: Global,
    refusal: &Refusal<B>,
) -> Result<Option<Reason>, AllocError>
    ensures exact { IfOk result (λ reason.
        reason ≡ option_map reason_of (seen_refusal refusal.now)) }
    ensures few { IfOk result (λ reason.
        IfSome reason (λ reported. length reported.values ≤ most_values)) }
{
    let reason = match refusal {
        Refusal::NoMemory => return Ok(None),
        Refusal::NotPrimary(view, leader) => not_primary(alloc, *view, *leader)?,
        Refusal::TooManyPending(limit) => Reason::numbers(alloc, 111, &[*limit])?,
        Refusal::NotReserved(reserved) => Reason::numbers(alloc, 112, &[*reserved])?,
        Refusal::KeyExhausted(reserved) => Reason::numbers(alloc, 113, &[*reserved])?,
        Refusal::NothingToSign(seqno) => Reason::numbers(alloc, 114, &[*seqno])?,
        Refusal::RemovalNotCommitted(seqno, commit) => {
            Reason::numbers(alloc, 115, &[*seqno, *commit])?
        }
        Refusal::BelowCommit(commit, seqno) => Reason::numbers(alloc, 116, &[*commit, *seqno])?,
        Refusal::NotPeer => Reason::numbers(alloc, 126, &[])?,
        Refusal::BelowBase(base) => Reason::numbers(alloc, 127, &[*base])?,
        Refusal::ViewLimit => Reason::numbers(alloc, 128, &[])?,
        Refusal::NoLaterSignature(commit) => Reason::numbers(alloc, 81, &[*commit])?,
        Refusal::ByLedger(why) => rejected_reason(alloc, *why)?,
    };
    Ok(Some(reason))
}
