//! What clients ask.

ghost use Rattle.std.specs.Prelude.{◌≡◌, ◌++◌, OnOk, IsTrue};
ghost use Rattle.gl_base.specs.Answers.{Answers};
ghost use Rattle.gl_messages.specs.Client.{call_tag, call_bytes, call_fits, call_at, client_at, client_of, part_at, receipt_of_at, status_of_at, submit_at, govern_at};

use crate::fields::{put_id, put_sized, read_id, read_sized, read_tag};
use gl_base::{Bytes, CodeFault, Cut, OrNoMemory, TxId, put_u64};
use std::alloc::{AllocError, Global};

/// What a client asks of a node.
#[derive(Debug, Drop)]
pub enum Call {
    /// Runs a request of an application, given as its bytes: 1 MiB at most.
    Submit(Bytes),
    /// Runs a request of governance, given as its bytes: 1 MiB at most.
    Govern(Bytes),
    /// Asks for the status of a transaction (CCF documentation, "Transaction status"). Its numbers
    /// may be any.
    StatusOf(TxId),
    /// Asks for the receipt of a transaction (CCF documentation, "Receipts").
    ReceiptOf(TxId),
    /// Asks for the bytes of the node's last snapshot, from this offset on.
    SnapshotPart { offset: u64 },
}

/// A client's message.
#[derive(Debug, Drop)]
pub struct Client {
    /// The client's own number, which comes back in the answer.
    pub number: u64,
    /// What it asks.
    pub call: Call,
}

fn call_tag(call: &Call) -> u8
    ensures { result ≡ call_tag call.now }
{
    match call {
        Call::Submit(_) => 16,
        Call::Govern(_) => 17,
        Call::StatusOf(_) => 18,
        Call::ReceiptOf(_) => 19,
        Call::SnapshotPart { .. } => 20,
    }
}

fn put_call(out: &mut Vec<u8>, call: &Call) -> Result<(), AllocError>
    requires { IsTrue (call_fits call.now) }
    ensures { OnOk result (out.new.items ≡ out.old.items ++ call_bytes call.now) }
{
    match call {
        Call::Submit(request) | Call::Govern(request) => put_sized(out, request),
        Call::StatusOf(id) | Call::ReceiptOf(id) => put_id(out, *id),
        Call::SnapshotPart { offset } => put_u64(out, *offset),
    }
}

#[tactic(auto, unfolding(crate::specs::Client::submit_at))]
fn read_submit(alloc: Global, cut: &mut Cut<'_>) -> Result<Call, OrNoMemory<CodeFault>>
    ensures { Answers (λ call. (call, cut.new)) result (submit_at cut.old) }
{
    Ok(Call::Submit(read_sized(alloc, cut)?))
}

#[tactic(auto, unfolding(crate::specs::Client::govern_at))]
fn read_govern(alloc: Global, cut: &mut Cut<'_>) -> Result<Call, OrNoMemory<CodeFault>>
    ensures { Answers (λ call. (call, cut.new)) result (govern_at cut.old) }
{
    Ok(Call::Govern(read_sized(alloc, cut)?))
}

#[tactic(auto, unfolding(crate::specs::Client::status_of_at))]
fn read_status_of(cut: &mut Cut<'_>) -> Result<Call, OrNoMemory<CodeFault>>
    ensures { Answers (λ call. (call, cut.new)) result (status_of_at cut.old) }
{
    Ok(Call::StatusOf(read_id(cut)?))
}

#[tactic(auto, unfolding(crate::specs::Client::receipt_of_at))]
fn read_receipt_of(cut: &mut Cut<'_>) -> Result<Call, OrNoMemory<CodeFault>>
    ensures { Answers (λ call. (call, cut.new)) result (receipt_of_at cut.old) }
{
    Ok(Call::ReceiptOf(read_id(cut)?))
}

#[tactic(auto, unfolding(crate::specs::Client::part_at))]
fn read_part(cut: &mut Cut<'_>) -> Result<Call, OrNoMemory<CodeFault>>
    ensures { Answers (λ call. (call, cut.new)) result (part_at cut.old) }
{
    let offset = cut.u64()?;
    Ok(Call::SnapshotPart { offset })
}

/// Reads what stands after a tag from 16 to 20 and the number.
fn read_call(alloc: Global, tag: u8, cut: &mut Cut<'_>) -> Result<Call, OrNoMemory<CodeFault>>
    ensures { Answers (λ call. (call, cut.new)) result (call_at tag cut.old) }
{
    match tag {
        16 => read_submit(alloc, cut),
        17 => read_govern(alloc, cut),
        18 => read_status_of(cut),
        19 => read_receipt_of(cut),
        _ => read_part(cut),
    }
}

#[tactic(auto, unfolding(crate::specs::Client::client_at))]
fn read_client(alloc: Global, cut: &mut Cut<'_>) -> Result<Client, OrNoMemory<CodeFault>>
    ensures { Answers (λ client. (client, cut.new)) result (client_at cut.old) }
{
    let tag = read_tag(cut, 16, 20)?;
    let number = cut.u64()?;
    let call = read_call(alloc, tag, cut)?;
    Ok(Client { number, call })
}

fn read_whole(alloc: Global, bytes: &[u8]) -> Result<Client, OrNoMemory<CodeFault>>
    ensures { Answers (λ client. client) result (client_of bytes.now) }
{
    let mut cut = Cut::new(bytes);
    let client = read_client(alloc, &mut cut)?;
    cut.end()?;
    Ok(client)
}

impl Client {
    ghost use Rattle.std.specs.Prelude.{◌≡◌, ◌≤◌, length, IsTrue, IfOk, Ok};
    ghost use Rattle.gl_base.specs.Answers.{Answers};
    ghost use Rattle.gl_messages.specs.Frames.{frame_limit};
    ghost use Rattle.gl_messages.specs.Client.{client_bytes, call_fits, is_client, client_of};
    ghost use Rattle.gl_messages.specs.declared.client.Client.{Client as Value};

    /// The bytes of the message.
    pub fn encode(&self, alloc: Global) -> Result<Vec<u8>, AllocError>
        requires { IsTrue (call_fits self.now.call) }
        ensures bytes { IfOk result (λ bytes. bytes.items ≡ client_bytes self.now) }
        // They fit a frame.
        ensures fits { IfOk result (λ bytes. length bytes.items ≤ frame_limit) }
    {
        let mut out = Vec::new(alloc);
        out.push(call_tag(&self.call))?;
        put_u64(&mut out, self.number)?;
        put_call(&mut out, &self.call)?;
        Ok(out)
    }

    /// The message that the bytes encode, all of them.
    pub fn decode(alloc: Global, bytes: &[u8]) -> Result<Self, OrNoMemory<CodeFault>>
        // What is read is encoded so.
        ensures found { IfOk result (λ client.
            IsTrue (is_client client) × (bytes.now ≡ client_bytes client)) }
        // What is encoded so is read, unless memory runs out.
        ensures only { (c : Value) → IsTrue (is_client c) → bytes.now ≡ client_bytes c →
            Answers (λ client. client) result (Ok c) }
        // Which fault it is.
        ensures exact { Answers (λ client. client) result (client_of bytes.now) }
    {
        read_whole(alloc, bytes)
    }
}
