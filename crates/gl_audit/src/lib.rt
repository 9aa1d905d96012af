//! What an entry does to a ledger, or the first rule of the audit that it breaks; and the audit of
//! a ledger file: whether its bytes are a valid ledger of a service, and if not, the first entry
//! that breaks a rule (CCF documentation, "Ledger" and "Audit").
//!
//! Begin with `audit`, the verdict on a file, and `LedgerState`, what an entry does to a ledger.
#![tactic(auto)]

mod base_laws;
mod effect;
mod gov_state;
mod known_nodes;
mod laws;
mod ledger_audit;
mod ledger_end;
mod ledger_state;
mod receipt_laws;
mod removals;
mod service_key;
mod verdict;

pub use base_laws::{
    law_of_audited_over, law_of_governance_behind, law_of_key_behind, law_of_no_base,
    law_of_pushed, law_of_signed_over, law_of_snapshot_over,
};
pub use effect::{GovernanceEffect, ShareCount};
pub use gl_entry::ReadFault;
pub use gov_state::{GovState, is_founding};
pub use laws::{law_of_receipts, law_of_verdicts};
pub use ledger_audit::audit;
pub use ledger_end::{LedgerEnd, entry_at, is_unopened};
pub use ledger_state::{LedgerState, SERVICE_KEY, SERVICE_MAP, count_up_to, seqno_at};
pub use receipt_laws::law_of_receipts_in_ledgers;
pub use service_key::key_after;
pub use verdict::Verdict;
