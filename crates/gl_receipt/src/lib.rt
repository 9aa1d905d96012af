//! Receipts (CCF documentation, "Receipts"): the proof that a service signed a transaction, for
//! whoever knows the service's key and nothing else. They are verified, and read and written as
//! JSON.
//!
//! Begin with `Receipt`: `make` gives one, `verify` verifies it.
#![tactic(auto)]

mod components;
mod evidence;
mod fault;
mod form;
mod laws;
mod ledger;
mod make_fault;
mod maker;
mod parser;
mod text;
mod tree;
mod verdict;
mod writer;

pub use components::{LeafComponents, Receipt, Signed};
pub use fault::ReceiptFault;
pub use laws::law_of_receipts;
pub use ledger::CommittedLedger;
pub use make_fault::MakeFault;
pub use maker::make;
pub use parser::read_receipt;
pub use text::Text;
pub use verdict::verify;
pub use writer::write_receipt;
