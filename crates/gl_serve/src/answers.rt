//! What clients are answered.

ghost use Rattle.std.specs.Prelude.{◌≡◌, ◌⊎◌, ◌≤◌, IfOk, IsTrue, length};
ghost use Rattle.gl_messages.specs.Answer.{answer_body_fits, status_byte};
ghost use Rattle.gl_answers.specs.Limits.{FitsGiven};
ghost use Rattle.gl_answers.specs.Reasons.{most_values, seen_refusal};
ghost use Rattle.gl_replication.specs.Events.{AreFit, IsAccepted};
ghost use Rattle.gl_serve.specs.Rules.{Fits};
ghost use Rattle.gl_serve.specs.declared.node.Outcome.TheVariants.{NoMemory};
ghost use Rattle.gl_serve.specs.ClientAnswers.{IsAnswered, Says, accepts, answers, json_answer_body, make_reason, reason_answer_body, refusal_answer_body};

use crate::Outcome;
use gl_answers::{ClientBook, Reason, given_bytes, reason_of, values_bytes};
use gl_base::{Bytes, MEBIBYTE, Sequence, Status, TxId};
use gl_ledger::Rejection;
use gl_messages::{Answer, AnswerBody};
use gl_node::KeptBook;
use gl_receipt::MakeFault;
use gl_replication::{Book, Done, Outcome as Came, Refusal};
use std::alloc::{AllocError, Global};

/// A refusal as it is reported, or that memory ran out.
pub(crate) fn reason_answer_body(alloc: Global, reason: &Reason) -> AnswerBody
    requires { length reason.now.values ≤ most_values }
    ensures due { Says (reason_answer_body reason.now) result }
    ensures fits { IsTrue (answer_body_fits result) }
{
    match values_bytes(alloc, reason.values.as_slice()) {
        Err(_) => AnswerBody::Memory,
        Ok(values) => AnswerBody::Refused {
            code: reason.code,
            values: Bytes::from(values),
        },
    }
}

/// A refusal of the rules as it is reported, or that memory ran out.
pub(crate) fn refusal_answer_body<B: Book<Refused = Rejection>>(
    alloc: Global,
    why: &Refusal<B>,
) -> AnswerBody
    ensures due { Says (refusal_answer_body (seen_refusal why.now)) result }
    ensures fits { IsTrue (answer_body_fits result) }
{
    match reason_of(alloc, why) {
        Ok(Some(reason)) => reason_answer_body(alloc, &reason),
        _ => AnswerBody::Memory,
    }
}

/// The byte of a status.
fn status_byte(status: Status) -> u8
    ensures { result ≡ status_byte status }
{
    match status {
        Status::Unknown => 0,
        Status::Pending => 1,
        Status::Committed => 2,
        Status::Invalid => 3,
    }
}

/// Why there is no receipt.
pub(crate) fn make_reason(alloc: Global, fault: MakeFault) -> Result<Reason, AllocError>
    ensures reason { IfOk result (λ reason. reason ≡ make_reason fault) }
    ensures few { IfOk result (λ reason. length reason.values ≤ most_values) }
{
    match fault {
        MakeFault::NotCommitted { status } => {
            Reason::numbers(alloc, 80, &[u64::from(status_byte(status))])
        }
        MakeFault::BelowBase { base } => Reason::numbers(alloc, 85, &[base]),
        MakeFault::NoLaterSignature { commit } => Reason::numbers(alloc, 81, &[commit]),
    }
}

/// A receipt's JSON as it is reported, or that memory ran out.
pub(crate) fn json_answer_body(alloc: Global, json: Vec<u8>) -> AnswerBody
    ensures due { Says (json_answer_body json.items) result }
    ensures fits { IsTrue (answer_body_fits result) }
{
    if json.len() as u64 <= MEBIBYTE {
        return AnswerBody::ReceiptIs(Bytes::from(json));
    }
    match Reason::numbers(alloc, 119, &[json.len() as u64]) {
        Ok(reason) => reason_answer_body(alloc, &reason),
        Err(_) => AnswerBody::Memory,
    }
}

/// Nothing is sent but an answer to who asked.
pub fn answer(alloc: Global, number: u64, content: AnswerBody) -> Outcome
    requires { IsTrue (answer_body_fits content) }
    ensures outcome { result ≡ answers number content }
    ensures fits { Fits result }
    ensures answered { IsAnswered number result }
{
    Outcome::Done {
        messages: Sequence::from(Vec::new(alloc)),
        answer: Some(Answer { number, content }),
        heard: false,
    }
}

/// The answer to an accepted request.
pub fn accept<B: KeptBook + ClientBook>(alloc: Global, number: u64, done: Done<B>) -> Outcome
    requires accepted { IsAccepted FitsGiven done.outcome }
    requires fits { AreFit done.sent }
    ensures due { (result ≡ accepts number done) ⊎ (result ≡ NoMemory) }
    ensures fits { Fits result }
    ensures answered { IsAnswered number result }
{
    match &done.outcome {
        Came::Accepted(view, seqno, given) => match given_bytes(alloc, given) {
            Err(_) => Outcome::NoMemory,
            Ok(reply) => {
                let id = TxId {
                    view: *view,
                    seqno: *seqno,
                };
                Outcome::Done {
                    messages: done.sent,
                    answer: Some(Answer {
                        number,
                        content: AnswerBody::Accepted {
                            id,
                            reply: Bytes::from(reply),
                        },
                    }),
                    heard: false,
                }
            }
        },
        _ => unreachable!(),
    }
}
