//! Texts of JSON with a piece changed, and what is told of them.

use gl_base::{FormsFault, OrNoMemory, Pointer};
use std::alloc::{AllocError, Global};

/// The text with the first such piece changed.
pub(crate) fn changed(
    alloc: Global,
    text: &str,
    piece: &str,
    by: &str,
) -> Result<String, AllocError> {
    match text.split_once(piece) {
        Some((prefix, rest)) => format!(in alloc; "{prefix}{by}{rest}"),
        None => String::from_str(alloc, "no such piece"),
    }
}

fn named(alloc: Global, kind: &str, path: &Pointer) -> Result<String, AllocError> {
    let path = std::str::from_utf8(path.as_slice()).unwrap_or("?");
    format!(in alloc; "{kind} {path}")
}

/// That a text was read, or why not, and the path.
pub(crate) fn report<T: Drop>(
    alloc: Global,
    read: Result<T, OrNoMemory<FormsFault>>,
) -> Result<String, AllocError> {
    match read {
        Ok(_) => String::from_str(alloc, "read"),
        Err(OrNoMemory::NoMemory) => String::from_str(alloc, "no memory"),
        Err(OrNoMemory::Fault(FormsFault::NotJson)) => String::from_str(alloc, "no JSON"),
        Err(OrNoMemory::Fault(FormsFault::Shape { path })) => named(alloc, "shape", &path),
        Err(OrNoMemory::Fault(FormsFault::Hex { path })) => named(alloc, "hex", &path),
    }
}
