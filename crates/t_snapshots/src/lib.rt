//! Tests of snapshots: their bodies against what a program in Python says of the same ledger, a
//! ledger and a node that begin behind one, also from its file, files of a snapshot that are whole,
//! cut and changed, and the parts of one that a node gives.
#![tactic(auto)]

#[cfg(test)]
mod bases;
#[cfg(test)]
mod begun;
#[cfg(test)]
mod bodies;
#[cfg(test)]
mod file;
#[cfg(test)]
mod joiner;
#[cfg(test)]
mod ledger;
#[cfg(test)]
mod owed;
#[cfg(test)]
mod parts;
#[cfg(test)]
mod reopened;
