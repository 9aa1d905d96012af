//! The tests of the lowest libraries, a module for each: they stand here, over the libraries, since
//! a library with tests of its own is proved once more with them.
#![tactic(auto)]

#[cfg(test)]
mod base;
#[cfg(test)]
mod hexadecimal;
#[cfg(test)]
mod hss;
#[cfg(test)]
mod lms;
#[cfg(test)]
mod merkle;
#[cfg(test)]
mod outside;
