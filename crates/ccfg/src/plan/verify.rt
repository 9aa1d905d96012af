//! What there is to do with a receipt.

ghost use Rattle.std.specs.Prelude.{◌≡◌, ◌≢◌, ◌≤◌, ◌++◌, Err, IfOk, OnOk, length};
ghost use Rattle.gl_outside.specs.Fault.{Rose};
ghost use Rattle.gl_entry.specs.SourceBytes.{OfBytes};
ghost use Rattle.ccfg.specs.ExpectedOutput.{EndsSource, json_limit, output_of_receipt, valid_line};
ghost use Rattle.ccfg.specs.Plans.{ShowsAccepted, PlansPlayable, output_of_plan};
ghost use Rattle.gl_commands.specs.declared.task.Task.TheVariants.{Verify};

use crate::fault::Fault;
use crate::plan::{Plan, PlanError};
use crate::source_bytes::{JSON_LIMIT, ReadError, read_whole};
use gl_base::{OrNoMemory, TxId};
use gl_outside::Source;
use gl_receipt::{read_receipt, verify};
use gl_requests::HssPublicKey;
use std::alloc::{AllocError, Global};

/// What there is to do with a text within the limit on JSON that is to be a receipt under this key.
#[tactic(auto, unfolding(crate::specs::ExpectedOutput::output_of_receipt))]
fn receipt_plan(alloc: Global, identity: &HssPublicKey, text: &[u8]) -> Result<Plan, AllocError>
    requires { length text.now ≤ json_limit }
    ensures output { IfOk result (λ plan. output_of_receipt identity.now text.now
        ≡ output_of_plan plan) }
    ensures sound { IfOk result (λ plan. ShowsAccepted (Verify identity.now) text.now plan) }
    ensures playable { IfOk result (λ plan. PlansPlayable plan) }
{
    match read_receipt(alloc, text) {
        Ok(receipt) => match verify(identity, &receipt) {
            Ok(id) => Ok(Plan::Show(id)),
            Err(fault) => Ok(Plan::Refuse(Fault::NotValid(fault))),
        },
        Err(OrNoMemory::Fault(fault)) => Ok(Plan::Refuse(Fault::Form(fault))),
        Err(OrNoMemory::NoMemory) => Err(AllocError),
    }
}

/// What there is to do with what a source gives, which is to be a receipt under this key.
pub fn read_receipt_plan<S: Source>(
    alloc: Global,
    identity: &HssPublicKey,
    source: &mut S,
) -> Result<Plan, PlanError>
    ensures output { IfOk result (λ plan. OfBytes (S.left source.old) (λ given.
        output_of_receipt identity.now given ≡ output_of_plan plan)) }
    ensures sound { IfOk result (λ plan. OfBytes (S.left source.old) (λ given.
        ShowsAccepted (Verify identity.now) given plan)) }
    ensures ended { IfOk result (λ plan. EndsSource (output_of_plan plan) (S.ended source.new)) }
    ensures playable { IfOk result (λ plan. PlansPlayable plan) }
    ensures failed { result ≡ Err PlanError.SourceFailed →
        Rose (S.faults source.old) (S.faults source.new) }
    ensures quiet { result ≢ Err PlanError.SourceFailed →
        S.faults source.new ≡ S.faults source.old }
    ensures no_disk { result ≢ Err PlanError.DiskFailed }
{
    match read_whole(alloc, JSON_LIMIT, source) {
        Ok(text) => match receipt_plan(alloc, identity, &text) {
            Ok(plan) => Ok(plan),
            Err(_) => Err(PlanError::Memory),
        },
        Err(ReadError::TooLong) => Ok(Plan::Refuse(Fault::TooMuchJson)),
        Err(ReadError::Memory) => Err(PlanError::Memory),
        Err(ReadError::Failed) => Err(PlanError::SourceFailed),
    }
}

/// The line that tells a valid receipt's transaction.
pub fn valid_line(alloc: Global, id: TxId) -> Result<Vec<u8>, AllocError>
    ensures { IfOk result (λ line. line.items ≡ valid_line id) }
{
    let mut line = Vec::from_slice(alloc, b"valid ")?;
    id.push_text(&mut line)?;
    line.extend_from_slice(b"\n")?;
    Ok(line)
}
