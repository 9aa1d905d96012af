//! What there is to do where a recovery secret is to be dealt.

ghost use Rattle.std.specs.Prelude.{◌≡◌, ◌≢◌, ◌<◌, ◌≤◌, Err, IfErr, IfOk, drop, length, take};
ghost use Rattle.gl_outside.specs.Fault.{Rose};
ghost use Rattle.gl_entry.specs.SourceBytes.{OfBytes};
ghost use Rattle.ccfg.specs.ExpectedOutput.{EndsSource, dealing_len, output_of_dealing, secret_len};
ghost use Rattle.ccfg.specs.Plans.{PlansPlayable, output_of_plan};
ghost use Rattle.ccfg.specs.declared.fault.Fault.TheVariants.{Short};

use crate::fault::Fault;
use crate::plan::{Plan, PlanError};
use crate::source_bytes::{ReadError, read_whole};
use gl_consortium::{can_deal, deal_text};
use gl_outside::Source;
use std::alloc::{AllocError, Global};

/// How many bytes a recovery secret has, and how many the seed of its dealing.
const SECRET_LEN: usize = 32;

/// How many bytes both have.
const DEALING_LEN: usize = 64;

/// A recovery secret, and the seed of its dealing.
#[derive(Clone, Copy)]
struct Dealt {
    secret: [u8; SECRET_LEN],
    seed: [u8; SECRET_LEN],
}

/// The secret that these bytes begin with and the seed after it; they are not more than both have.
fn secret_in(text: &[u8]) -> Result<Dealt, Fault>
    requires { length text.now ≤ dealing_len }
    ensures secret { IfOk result (λ dealt. dealt.secret ≡ take secret_len text.now) }
    ensures seed { IfOk result (λ dealt. dealt.seed ≡ drop secret_len text.now) }
    ensures sized { IfOk result (λ dealt. length text.now ≡ dealing_len) }
    ensures short { IfErr result (λ fault.
        (fault ≡ Short (length text.now)) × (length text.now < dealing_len)) }
{
    if let Some((secret, rest)) = text.split_first_chunk::<SECRET_LEN>() {
        if let Some(seed) = rest.first_chunk::<SECRET_LEN>() {
            return Ok(Dealt {
                secret: *secret,
                seed: *seed,
            });
        }
    }
    Err(Fault::Short {
        at: text.len() as u64,
    })
}

/// What there is to do with bytes that are not more than a secret and the seed of its dealing have.
/// Their length is tried before the members.
#[tactic(auto, unfolding(crate::specs::ExpectedOutput::output_of_dealing))]
fn dealing_plan(
    alloc: Global,
    threshold: u64,
    members: &[u64],
    text: &[u8],
) -> Result<Plan, AllocError>
    requires { length text.now ≤ dealing_len }
    ensures output { IfOk result (λ plan.
        output_of_dealing threshold members.now text.now ≡ output_of_plan plan) }
    ensures playable { IfOk result (λ plan. PlansPlayable plan) }
{
    match secret_in(text) {
        Ok(dealt) if can_deal(threshold, members) => {
            let reported = deal_text(alloc, threshold, members, &dealt.secret, dealt.seed)?;
            Ok(Plan::Print(reported))
        }
        Ok(_) => Ok(Plan::Refuse(Fault::BadDealing)),
        Err(fault) => Ok(Plan::Refuse(fault)),
    }
}

/// What there is to do with what a source gives, which is to be a secret and the seed of its
/// dealing among members.
pub fn read_dealing_plan<S: Source>(
    alloc: Global,
    threshold: u64,
    members: &[u64],
    source: &mut S,
) -> Result<Plan, PlanError>
    ensures output { IfOk result (λ plan. OfBytes (S.left source.old) (λ given.
        output_of_dealing threshold members.now given ≡ output_of_plan plan)) }
    ensures ended { IfOk result (λ plan. EndsSource (output_of_plan plan) (S.ended source.new)) }
    ensures playable { IfOk result (λ plan. PlansPlayable plan) }
    ensures failed { result ≡ Err PlanError.SourceFailed →
        Rose (S.faults source.old) (S.faults source.new) }
    ensures quiet { result ≢ Err PlanError.SourceFailed →
        S.faults source.new ≡ S.faults source.old }
    ensures no_disk { result ≢ Err PlanError.DiskFailed }
{
    match read_whole(alloc, DEALING_LEN, source) {
        Ok(text) => match dealing_plan(alloc, threshold, members, &text) {
            Ok(plan) => Ok(plan),
            Err(_) => Err(PlanError::Memory),
        },
        Err(ReadError::TooLong) => {
            let at = DEALING_LEN as u64;
            Ok(Plan::Refuse(Fault::Trailing { at }))
        }
        Err(ReadError::Memory) => Err(PlanError::Memory),
        Err(ReadError::Failed) => Err(PlanError::SourceFailed),
    }
}
