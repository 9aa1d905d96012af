//! What an audit tells.

use gl_base::TxId;
use gl_requests::HssPublicKey;

/// What an audit tells of a ledger.
#[derive(Clone, Copy, Debug, PartialEq, Eq)]
pub enum Verdict {
    /// No entry breaks a rule, and the ledger is of the service with the key under which it was
    /// audited. With its last transaction, and that of its last signature, if it has one: what
    /// stands after that is signed by nobody.
    Valid { last: TxId, signed: Option<TxId> },
    /// No entry breaks a rule, but the ledger is of the service with this key.
    Foreign { identity: HssPublicKey },
    /// The entry with this seqno is the first that breaks a rule, and this is the first that it
    /// breaks, from 1 to 12.
    Fault { seqno: u64, rule: u8 },
}
