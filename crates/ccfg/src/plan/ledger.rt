//! What there is to do with a ledger that is audited.

ghost use Rattle.std.specs.Prelude.{◌≡◌, ◌≢◌, ◌++◌, Bool, Err, IfOk, OnOk};
ghost use Rattle.gl_outside.specs.Fault.{Rose};
ghost use Rattle.gl_entry.specs.SourceBytes.{OfBytes};
ghost use Rattle.gl_audit.specs.Verdict.{EndsWith};
ghost use Rattle.gl_audit.specs.Verdict as audits_to;
ghost use Rattle.ccfg.specs.ExpectedOutput.{EndsSource, ledger_line, output_of_audit, signed_text};
ghost use Rattle.ccfg.specs.Plans.{PlansPlayable, output_of_plan};

use crate::fault::Fault;
use crate::plan::{Plan, PlanError};
use gl_audit::{Verdict, audit};
use gl_base::{OrNoMemory, TxId};
use gl_outside::Source;
use gl_requests::HssPublicKey;
use std::alloc::{AllocError, Global};

/// What there is to do with a verdict.
fn plan_of_verdict(verdict: Verdict) -> Plan
    ensures output { output_of_audit verdict ≡ output_of_plan result }
    ensures ended { (ended : Bool) → EndsWith verdict ended
        → EndsSource (output_of_plan result) ended }
    ensures playable { PlansPlayable result }
{
    match verdict {
        Verdict::Valid { last, signed } => Plan::ShowLedger(last, signed),
        Verdict::Foreign { identity } => Plan::Refuse(Fault::Foreign { identity }),
        Verdict::Fault { seqno, rule } => Plan::Refuse(Fault::Broken { seqno, rule }),
    }
}

/// What there is to do with what a source gives, which is to be a ledger of the service with this
/// key. It is audited as it comes, and read no further than the first entry that breaks a rule.
pub fn read_ledger_plan<S: Source>(
    alloc: Global,
    identity: &HssPublicKey,
    source: &mut S,
) -> Result<Plan, PlanError>
    ensures output { IfOk result (λ plan. OfBytes (S.left source.old) (λ given.
        output_of_audit (audits_to.verdict identity.now given) ≡ output_of_plan plan)) }
    ensures ended { IfOk result (λ plan. EndsSource (output_of_plan plan) (S.ended source.new)) }
    ensures playable { IfOk result (λ plan. PlansPlayable plan) }
    ensures failed { result ≡ Err PlanError.SourceFailed →
        Rose (S.faults source.old) (S.faults source.new) }
    ensures quiet { result ≢ Err PlanError.SourceFailed →
        S.faults source.new ≡ S.faults source.old }
    ensures no_disk { result ≢ Err PlanError.DiskFailed }
{
    match audit(alloc, identity, source) {
        Ok(verdict) => Ok(plan_of_verdict(verdict)),
        Err(OrNoMemory::Fault(_)) => Err(PlanError::SourceFailed),
        Err(OrNoMemory::NoMemory) => Err(PlanError::Memory),
    }
}

fn put_signed(out: &mut Vec<u8>, signed: Option<TxId>) -> Result<(), AllocError>
    ensures { OnOk result (out.new.items ≡ out.old.items ++ signed_text signed) }
{
    match signed {
        None => out.extend_from_slice(b"-"),
        Some(id) => id.push_text(out),
    }
}

/// The line that tells a valid ledger's last transaction, and that of its last signature.
pub fn ledger_line(alloc: Global, last: TxId, signed: Option<TxId>) -> Result<Vec<u8>, AllocError>
    ensures { IfOk result (λ line. line.items ≡ ledger_line last signed) }
{
    let mut line = Vec::from_slice(alloc, b"valid ")?;
    last.push_text(&mut line)?;
    line.extend_from_slice(b" ")?;
    put_signed(&mut line, signed)?;
    line.extend_from_slice(b"\n")?;
    Ok(line)
}
