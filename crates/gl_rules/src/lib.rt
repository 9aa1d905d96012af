//! The rules of consensus, over any ledger book: definitions alone.
//!
//! Begin with `Book`, which says what a ledger tells the rules, and with `happens`, which says what
//! an event makes of the world.
#![tactic(auto)]
