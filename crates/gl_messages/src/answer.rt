//! What clients are answered.

ghost use Rattle.std.specs.Prelude.{◌≡◌, ◌++◌, OnOk, IsTrue};
ghost use Rattle.gl_base.specs.Answers.{Answers};
ghost use Rattle.gl_messages.specs.Answer.{status_byte, answer_body_tag, answer_body_bytes, answer_body_fits, answer_body_at, accepted_at, refused_at, status_is_at, receipt_is_at, part_at, answer_at, answer_of};

use crate::fields::{put_id, put_sized, read_id, read_sized, read_tag};
use gl_base::{Bytes, CodeFault, Cut, OrNoMemory, Status, TxId, put_u16, put_u64};
use std::alloc::{AllocError, Global};

/// What a client is answered. Bytes have 1 MiB at most.
#[derive(Debug, Drop)]
pub enum AnswerBody {
    /// The request was run as this transaction, and its reply has these bytes.
    Accepted { id: TxId, reply: Bytes },
    /// The request was refused: the refusal's number, and its values in order, each number in eight
    /// bytes and bytes after their length in four.
    Refused { code: u16, values: Bytes },
    /// The status of the transaction.
    StatusIs(Status),
    /// The receipt of the transaction, as JSON.
    ReceiptIs(Bytes),
    /// How many bytes the snapshot has, and those from the offset on: 1 MiB, or all that are left.
    Part { total: u64, bytes: Bytes },
    /// The node ran out of memory.
    Memory,
}

/// An answer to a client.
#[derive(Debug, Drop)]
pub struct Answer {
    /// The number of the client's message.
    pub number: u64,
    /// What it is answered.
    pub content: AnswerBody,
}

fn status_byte(status: Status) -> u8
    ensures { result ≡ status_byte status }
{
    match status {
        Status::Unknown => 0,
        Status::Pending => 1,
        Status::Committed => 2,
        Status::Invalid => 3,
    }
}

fn answer_body_tag(content: &AnswerBody) -> u8
    ensures { result ≡ answer_body_tag content.now }
{
    match content {
        AnswerBody::Accepted { .. } => 32,
        AnswerBody::Refused { .. } => 33,
        AnswerBody::StatusIs(_) => 34,
        AnswerBody::ReceiptIs(_) => 35,
        AnswerBody::Part { .. } => 36,
        AnswerBody::Memory => 37,
    }
}

fn put_answer_body(out: &mut Vec<u8>, content: &AnswerBody) -> Result<(), AllocError>
    requires { IsTrue (answer_body_fits content.now) }
    ensures { OnOk result (out.new.items ≡ out.old.items ++ answer_body_bytes content.now) }
{
    match content {
        AnswerBody::Accepted { id, reply } => {
            put_id(out, *id)?;
            put_sized(out, reply)
        }
        AnswerBody::Refused { code, values } => {
            put_u16(out, *code)?;
            put_sized(out, values)
        }
        AnswerBody::StatusIs(status) => Ok(out.push(status_byte(*status))?),
        AnswerBody::ReceiptIs(json) => put_sized(out, json),
        AnswerBody::Part { total, bytes } => {
            put_u64(out, *total)?;
            put_sized(out, bytes)
        }
        AnswerBody::Memory => Ok(()),
    }
}

#[tactic(auto, unfolding(crate::specs::Answer::accepted_at))]
fn read_accepted(alloc: Global, cut: &mut Cut<'_>) -> Result<AnswerBody, OrNoMemory<CodeFault>>
    ensures { Answers (λ content. (content, cut.new)) result (accepted_at cut.old) }
{
    let id = read_id(cut)?;
    let reply = read_sized(alloc, cut)?;
    Ok(AnswerBody::Accepted { id, reply })
}

#[tactic(auto, unfolding(crate::specs::Answer::refused_at))]
fn read_refused(alloc: Global, cut: &mut Cut<'_>) -> Result<AnswerBody, OrNoMemory<CodeFault>>
    ensures { Answers (λ content. (content, cut.new)) result (refused_at cut.old) }
{
    let code = cut.u16()?;
    let values = read_sized(alloc, cut)?;
    Ok(AnswerBody::Refused { code, values })
}

#[tactic(auto, unfolding(crate::specs::Answer::status_is_at))]
fn read_status_is(cut: &mut Cut<'_>) -> Result<AnswerBody, OrNoMemory<CodeFault>>
    ensures { Answers (λ content. (content, cut.new)) result (status_is_at cut.old) }
{
    let place = cut.at();
    match cut.u8()? {
        0 => Ok(AnswerBody::StatusIs(Status::Unknown)),
        1 => Ok(AnswerBody::StatusIs(Status::Pending)),
        2 => Ok(AnswerBody::StatusIs(Status::Committed)),
        3 => Ok(AnswerBody::StatusIs(Status::Invalid)),
        _ => Err(OrNoMemory::Fault(CodeFault::Value { at: place })),
    }
}

#[tactic(auto, unfolding(crate::specs::Answer::receipt_is_at))]
fn read_receipt_is(alloc: Global, cut: &mut Cut<'_>) -> Result<AnswerBody, OrNoMemory<CodeFault>>
    ensures { Answers (λ content. (content, cut.new)) result (receipt_is_at cut.old) }
{
    Ok(AnswerBody::ReceiptIs(read_sized(alloc, cut)?))
}

#[tactic(auto, unfolding(crate::specs::Answer::part_at))]
fn read_part(alloc: Global, cut: &mut Cut<'_>) -> Result<AnswerBody, OrNoMemory<CodeFault>>
    ensures { Answers (λ content. (content, cut.new)) result (part_at cut.old) }
{
    let total = cut.u64()?;
    let bytes = read_sized(alloc, cut)?;
    Ok(AnswerBody::Part { total, bytes })
}

/// Reads what stands after a tag from 32 to 37 and the number.
fn read_answer_body(
    alloc: Global,
    tag: u8,
    cut: &mut Cut<'_>,
) -> Result<AnswerBody, OrNoMemory<CodeFault>>
    ensures { Answers (λ content. (content, cut.new)) result (answer_body_at tag cut.old) }
{
    match tag {
        32 => read_accepted(alloc, cut),
        33 => read_refused(alloc, cut),
        34 => read_status_is(cut),
        35 => read_receipt_is(alloc, cut),
        36 => read_part(alloc, cut),
        _ => Ok(AnswerBody::Memory),
    }
}

#[tactic(auto, unfolding(crate::specs::Answer::answer_at))]
fn read_answer(alloc: Global, cut: &mut Cut<'_>) -> Result<Answer, OrNoMemory<CodeFault>>
    ensures { Answers (λ answer. (answer, cut.new)) result (answer_at cut.old) }
{
    let tag = read_tag(cut, 32, 37)?;
    let number = cut.u64()?;
    let content = read_answer_body(alloc, tag, cut)?;
    Ok(Answer { number, content })
}

fn read_whole(alloc: Global, bytes: &[u8]) -> Result<Answer, OrNoMemory<CodeFault>>
    ensures { Answers (λ answer. answer) result (answer_of bytes.now) }
{
    let mut cut = Cut::new(bytes);
    let answer = read_answer(alloc, &mut cut)?;
    cut.end()?;
    Ok(answer)
}

impl Answer {
    ghost use Rattle.std.specs.Prelude.{◌≡◌, ◌≤◌, length, IsTrue, IfOk, Ok};
    ghost use Rattle.gl_base.specs.Answers.{Answers};
    ghost use Rattle.gl_messages.specs.Frames.{frame_limit};
    ghost use Rattle.gl_messages.specs.Answer.{answer_bytes, answer_body_fits, is_answer, answer_of};
    ghost use Rattle.gl_messages.specs.declared.answer.Answer.{Answer as Value};

    /// The bytes of the answer.
    pub fn encode(&self, alloc: Global) -> Result<Vec<u8>, AllocError>
        requires { IsTrue (answer_body_fits self.now.content) }
        ensures bytes { IfOk result (λ bytes. bytes.items ≡ answer_bytes self.now) }
        // They fit a frame.
        ensures fits { IfOk result (λ bytes. length bytes.items ≤ frame_limit) }
    {
        let mut out = Vec::new(alloc);
        out.push(answer_body_tag(&self.content))?;
        put_u64(&mut out, self.number)?;
        put_answer_body(&mut out, &self.content)?;
        Ok(out)
    }

    /// The answer that the bytes encode, all of them.
    pub fn decode(alloc: Global, bytes: &[u8]) -> Result<Self, OrNoMemory<CodeFault>>
        // What is read is encoded so.
        ensures found { IfOk result (λ answer.
            IsTrue (is_answer answer) × (bytes.now ≡ answer_bytes answer)) }
        // What is encoded so is read, unless memory runs out.
        ensures only { (a : Value) → IsTrue (is_answer a) → bytes.now ≡ answer_bytes a →
            Answers (λ answer. answer) result (Ok a) }
        // Which fault it is.
        ensures exact { Answers (λ answer. answer) result (answer_of bytes.now) }
    {
        read_whole(alloc, bytes)
    }
}
