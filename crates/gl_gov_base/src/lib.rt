//! Governance over a base is the same as over the whole ledger, and has the same bounds: laws, and
//! no code.
//!
//! Begin with the law `law_of_base`.
#![tactic(auto)]

pub use laws::law_of_base;
pub use laws_over::{
    law_of_bounds_over, law_of_nodes_over, law_of_requests_over, law_of_service_over,
};

mod laws;
mod laws_over;
