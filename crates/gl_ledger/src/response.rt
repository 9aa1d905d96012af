//! What a ledger answers to a request, and why it takes no entry.

use crate::breach::Broken;
use crate::refusal::Refusal;
use gl_gov_rules::ProposalStatus;
use gl_tx::Reply;
use thiserror::Error;

/// What a request is answered.
#[derive(Debug, Drop)]
pub enum Response {
    /// A request of an application has this reply.
    Replied(Reply),
    /// A request of governance is accepted: the proposal that it makes, answers or takes back, in
    /// the state that this has after it.
    Governed(Option<ProposalStatus>),
}

/// Why a ledger takes no entry.
#[derive(Clone, Copy, Debug, PartialEq, Eq, Error)]
pub enum Rejection {
    /// The request is refused.
    #[error("{0}")]
    ByStore(Refusal),
    /// No bytes encode such a request, so none ever comes.
    #[error("no bytes spell the request")]
    Unencodable,
    /// There is no entry to sign.
    #[error("there is no entry to sign")]
    NoEntry,
    /// Evidence of a snapshot is made right after a signature alone.
    #[error("no signature stands last")]
    NotAfterSignature,
    /// A request that founds a service, or recovers it, is no event of a service.
    #[error("the request founds a service")]
    Founding,
    /// The entry would break a rule of the audit.
    #[error("{0}")]
    ByRule(Broken),
}

/// The reads that a transaction noted: for now none notes any, so there are no values.
#[derive(Drop)]
pub enum Reads {}
