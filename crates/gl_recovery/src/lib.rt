//! The recovery of a service whose nodes are lost: it is recovered after the last signature of its
//! ledger, and opens once enough members gave their shares (CCF documentation, "Disaster
//! Recovery").
//!
//! Begin with `recover`.
#![tactic(auto)]

mod fault;
mod finished;
mod laws;
mod old_ledger;
mod opening_ledger;
mod recovering_fault;
mod recovery;
mod recovery_entry;
mod settings_prefix;
mod signer;
mod start_ledger;

pub use fault::RecoveryFault;
pub use finished::{FinishFault, finish};
pub use laws::{law_of_recover, law_of_recovery, law_of_start};
pub use opening_ledger::is_first_key;
pub use recovering_fault::RecoveringFault;
pub use recovery::recover;
pub use start_ledger::start;
