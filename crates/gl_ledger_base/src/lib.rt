//! What the body of a snapshot and the entries behind it say of each ledger that they stand for:
//! laws, and no code.
//!
//! Begin with the law `law_of_ledgers`, then `law_of_pasts`.
#![tactic(auto)]

pub use books::{law_of_appends, law_of_books};
pub use ledgers::{law_of_alike, law_of_bases, law_of_ledgers, law_of_pasts};
pub use makers::{law_of_made, law_of_makers};
pub use reads::{law_of_configurations, law_of_cuts, law_of_reads};

mod books;
mod ledgers;
mod makers;
mod reads;
