//! The tests of the libraries of JSON texts: the forms and receipts, a module for each. They stand
//! here, over the libraries, since a library with tests of its own is proved once more with them.
#![tactic(auto)]

#[cfg(test)]
mod forms;
#[cfg(test)]
mod receipt;
#[cfg(test)]
mod texts;
