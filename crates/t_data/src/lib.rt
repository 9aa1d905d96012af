//! The tests of the libraries of data: tables, entries and their files, messages, the bodies of
//! snapshots and attempts, a module for each. They stand here, over the libraries, since a library
//! with tests of its own is proved once more with them.
#![tactic(auto)]

#[cfg(test)]
mod attempt;
#[cfg(test)]
mod entry;
#[cfg(test)]
mod ledger_file;
#[cfg(test)]
mod messages;
#[cfg(test)]
mod snapshot_body;
#[cfg(test)]
mod tables;
