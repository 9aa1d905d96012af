//! What the crates above have in common: transaction identifiers and their status, the fields that
//! every format is made of, lists in memory of their own, and what a call answers that may run out
//! of memory.
//!
//! Begin with `Cut`, which reads fields, and `OrNoMemory`, which most calls answer.
#![tactic(auto)]

mod bytes;
mod cut;
mod fault;
mod json;
mod number;
mod or_no_memory;
mod put;
mod put_row;
mod sequence;
mod tx_id;
mod tx_id_text;
mod tx_status;

pub use bytes::{MEBIBYTE, same_bytes};
pub use cut::Cut;
pub use fault::{CodeFault, CutFault};
pub use json::{FormsFault, Pointer};
pub use or_no_memory::OrNoMemory;
pub use put::{put_bytes, put_field, put_flag, put_u8, put_u16, put_u32, put_u48, put_u64};
pub use put_row::{put_key, put_map_name, put_optional_value, put_value};
pub use sequence::{Bytes, Sequence};
pub use tx_id::{FIRST_VIEW, LAST_SEQNO, LAST_VIEW, Status, TxId, TxIdFault};
pub use tx_status::status;
