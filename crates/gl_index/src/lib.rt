//! The lists of an index: what stands at rising seqnos, by number and by identifier, and how they
//! are cut back in place.
//!
//! Begin with `KeyedLists`, and `cut_list`.
#![tactic(auto)]

mod append;
mod copy;
mod keyed_lists;
mod lists;

pub use append::{append_reserved, push_some, push_some_reserved};
pub use copy::{Duplicate, copy_all};
pub use keyed_lists::KeyedLists;
pub use lists::{
    AtSeqno, copy_lists, cut_list, cut_lists, is_any_after, list_at, push_at, reserve_at,
};
