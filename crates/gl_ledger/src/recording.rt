//! What an entry records.

ghost use Rattle.std.specs.Prelude.{◌≡◌, IfOk};
ghost use Rattle.gl_tx.specs.Parsing.{request_of};
ghost use Rattle.gl_requests.specs.Parsing.{request_in};
ghost use Rattle.gl_ledger.specs.Recordings.{application_recording, governance_recording, recording_of};

use gl_base::OrNoMemory;
use gl_entry::{Content, Digest, Signature};
use gl_requests::GovernanceRequest;
use gl_tx::Request;
use std::alloc::{AllocError, Global};

/// What an entry records, read from its bytes.
#[derive(Debug, Drop)]
pub enum Recording {
    /// A request of governance.
    Governance(GovernanceRequest),
    /// A request of an application.
    Application(Request),
    /// A node's signature of all earlier entries.
    Signature(Signature),
    /// The digest of a snapshot of all earlier entries.
    Evidence(Digest),
}

fn governance_recording(alloc: Global, bytes: &[u8]) -> Result<Option<Recording>, AllocError>
    ensures { IfOk result (λ recording.
        recording ≡ governance_recording (request_in bytes.now)) }
{
    match GovernanceRequest::decode(alloc, bytes) {
        Ok(request) => Ok(Some(Recording::Governance(request))),
        Err(OrNoMemory::Fault(_)) => Ok(None),
        Err(OrNoMemory::NoMemory) => Err(AllocError),
    }
}

fn application_recording(alloc: Global, bytes: &[u8]) -> Result<Option<Recording>, AllocError>
    ensures { IfOk result (λ recording.
        recording ≡ application_recording (request_of bytes.now)) }
{
    match Request::decode(alloc, bytes) {
        Ok(request) => Ok(Some(Recording::Application(request))),
        Err(OrNoMemory::Fault(_)) => Ok(None),
        Err(OrNoMemory::NoMemory) => Err(AllocError),
    }
}

/// What an entry with this content records, in memory of its own. `None` where the bytes of its
/// request encode none. Fails only where memory runs out.
pub fn recording_of(alloc: Global, content: &Content) -> Result<Option<Recording>, AllocError>
    ensures recording { IfOk result (λ recording.
        recording ≡ recording_of content.now) }
{
    match content {
        Content::Governance(bytes) => governance_recording(alloc, bytes.as_slice()),
        Content::Application(bytes) => application_recording(alloc, bytes.as_slice()),
        Content::Signature(signature) => Ok(Some(Recording::Signature(signature.copy(alloc)?))),
        Content::Evidence(digest) => Ok(Some(Recording::Evidence(*digest))),
    }
}
