//! Tests of the libraries over files and sockets: a disk over a file, a link over sockets, key
//! files, shares and dealings.
#![tactic(auto)]

#[cfg(test)]
mod dealing;
#[cfg(test)]
mod file;
#[cfg(test)]
mod keyfile;
#[cfg(test)]
mod net;
#[cfg(test)]
mod shares;
