//! Tests of the libraries that a node is made of: configurations, requests of governance and what
//! they come to, what clients are answered, and refusals.
#![tactic(auto)]

#[cfg(test)]
mod client_book;
#[cfg(test)]
mod config;
#[cfg(test)]
mod gov;
#[cfg(test)]
mod refusals;
#[cfg(test)]
mod requests;
