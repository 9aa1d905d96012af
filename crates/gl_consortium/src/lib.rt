//! What a consortium signs by hand with its key files: the endorsement of a node's key, the opening
//! of a service, and a member's request, each with the next one-time leaf of a file, and told only
//! once the file keeps that the leaf is spent. And the dealing of a recovery secret among members.
//!
//! Begin with `sign`, and with `deal_text` for a recovery secret.
#![tactic(auto)]

mod answer;
mod document;
mod endorsement;
mod fault;
mod laws;
mod leaf;
mod members;
mod opening_ledger;
mod request;
mod text;
mod tree;

pub use answer::sign;
pub use fault::SigningFault;
pub use laws::law_of_signing;
pub use members::can_deal;
pub use text::deal_text;
pub use tree::write_dealing;
