//! What a payload encodes.

ghost use Rattle.std.specs.Prelude.{◌≡◌, IfOk};
ghost use Rattle.gl_serve.specs.Payloads.{ask_of, client_payload_in, governance_ask, governance_ask_in, payload_in, submit_ask_in};

use crate::peer_message::PeerMessage;
use gl_base::{OrNoMemory, TxId};
use gl_messages::{Call, Client, Message};
use gl_requests::GovernanceRequest;
use gl_tx::Request;
use std::alloc::{AllocError, Global};

/// What a client asks, with its own request read.
#[derive(Drop)]
pub enum Ask {
    /// Runs a request of an application.
    Submit(Request),
    /// Takes a request of governance, which founds no service.
    Govern(GovernanceRequest),
    /// Asks for the status of a transaction (CCF documentation, "Transaction status").
    StatusOf(TxId),
    /// Asks for the receipt of a transaction (CCF documentation, "Receipts").
    ReceiptOf(TxId),
    /// Asks for the bytes of the node's last snapshot, from this offset on.
    SnapshotPart { offset: u64 },
}

/// What a node takes.
#[derive(Drop)]
pub enum Payload {
    /// A message of a peer.
    Peer(PeerMessage),
    /// What a client asks, under a number of its own.
    Client { number: u64, ask: Ask },
}

fn submit_ask(alloc: Global, bytes: &[u8]) -> Result<Option<Ask>, AllocError>
    ensures { IfOk result (λ ask. ask ≡ submit_ask_in bytes.now) }
{
    match Request::decode(alloc, bytes) {
        Ok(request) => Ok(Some(Ask::Submit(request))),
        Err(OrNoMemory::Fault(_)) => Ok(None),
        Err(OrNoMemory::NoMemory) => Err(AllocError),
    }
}

/// A request of governance that a client may ask for.
fn governance_ask(request: GovernanceRequest) -> Option<Ask>
    ensures { result ≡ governance_ask request }
{
    match request {
        GovernanceRequest::Genesis(_) | GovernanceRequest::Recover(_) => None,
        other => Some(Ask::Govern(other)),
    }
}

fn governance_ask_in(alloc: Global, bytes: &[u8]) -> Result<Option<Ask>, AllocError>
    ensures { IfOk result (λ ask. ask ≡ governance_ask_in bytes.now) }
{
    match GovernanceRequest::decode(alloc, bytes) {
        Ok(request) => Ok(governance_ask(request)),
        Err(OrNoMemory::Fault(_)) => Ok(None),
        Err(OrNoMemory::NoMemory) => Err(AllocError),
    }
}

/// What a client asks, if its own request is in its grammar.
fn ask_of(alloc: Global, call: Call) -> Result<Option<Ask>, AllocError>
    ensures { IfOk result (λ ask. ask ≡ ask_of call) }
{
    match call {
        Call::Submit(bytes) => submit_ask(alloc, bytes.as_slice()),
        Call::Govern(bytes) => governance_ask_in(alloc, bytes.as_slice()),
        Call::StatusOf(id) => Ok(Some(Ask::StatusOf(id))),
        Call::ReceiptOf(id) => Ok(Some(Ask::ReceiptOf(id))),
        Call::SnapshotPart { offset } => Ok(Some(Ask::SnapshotPart { offset })),
    }
}

fn client_payload(alloc: Global, bytes: &[u8]) -> Result<Option<Payload>, AllocError>
    ensures { IfOk result (λ payload. payload ≡ client_payload_in bytes.now) }
{
    match Client::decode(alloc, bytes) {
        Ok(client) => {
            let number = client.number;
            match ask_of(alloc, client.call)? {
                Some(ask) => Ok(Some(Payload::Client { number, ask })),
                None => Ok(None),
            }
        }
        Err(OrNoMemory::Fault(_)) => Ok(None),
        Err(OrNoMemory::NoMemory) => Err(AllocError),
    }
}

/// What a payload encodes that a node takes, if it encodes that.
pub fn payload_in(alloc: Global, bytes: &[u8]) -> Result<Option<Payload>, AllocError>
    ensures { IfOk result (λ payload. payload ≡ payload_in bytes.now) }
{
    match Message::decode(alloc, bytes) {
        Ok(message) => Ok(Some(Payload::Peer(PeerMessage::new(message)))),
        Err(OrNoMemory::Fault(_)) => client_payload(alloc, bytes),
        Err(OrNoMemory::NoMemory) => Err(AllocError),
    }
}
