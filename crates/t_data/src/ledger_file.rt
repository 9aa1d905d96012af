//! A file of one entry, read to its end, to bytes that are no frame, and to a source's failure.

use crate::entry::PUT;
use gl_base::OrNoMemory;
use gl_entry::{Next, ReadBuffer, ReadFault, read_next};
use gl_outside::{MemSource, Source, SureSource};
use std::alloc::Global;
use std::test::*;

/// What a file goes on with, in a word and the seqno of an entry.
fn report<S: Source>(alloc: Global, source: &mut S, kept: &mut ReadBuffer) -> (&'static str, u64) {
    match read_next(alloc, source, kept) {
        Ok(Next::Entry(entry)) => ("entry", entry.seqno),
        Ok(Next::End) => ("end", 0),
        Ok(Next::Unread) => ("unread", 0),
        Err(OrNoMemory::Fault(ReadFault)) => ("failed", 0),
        Err(OrNoMemory::NoMemory) => ("no memory", 0),
    }
}

#[test]
fn a_file_ends_after_its_last_entry(rt: HostRuntime) {
    let mut source = SureSource::new(&PUT, 7);
    let mut kept = ReadBuffer::new(rt.alloc());
    assert!(rt; report(rt.alloc(), &mut source, &mut kept) == ("entry", 3));
    assert!(rt; report(rt.alloc(), &mut source, &mut kept) == ("end", 0));
    assert!(rt; source.ended);
}

#[test]
fn bytes_that_are_no_frame_are_reported_again(rt: HostRuntime) -> Result<(), Fail> {
    let mut bytes = Vec::from_slice(rt.alloc(), &PUT)?;
    bytes.extend_from_slice(&PUT[..98])?;
    let mut source = SureSource::new(&bytes, 64);
    let mut kept = ReadBuffer::new(rt.alloc());
    assert!(rt; report(rt.alloc(), &mut source, &mut kept) == ("entry", 3));
    assert!(rt; report(rt.alloc(), &mut source, &mut kept) == ("unread", 0));
    assert!(rt; report(rt.alloc(), &mut source, &mut kept) == ("unread", 0));
    Ok(())
}

#[test]
fn a_file_goes_on_where_its_source_failed(rt: HostRuntime) {
    let mut source = MemSource::new(&PUT, 50, &[2]);
    let mut kept = ReadBuffer::new(rt.alloc());
    assert!(rt; report(rt.alloc(), &mut source, &mut kept) == ("failed", 0));
    assert!(rt; source.plan.faults() == 1);
    assert!(rt; report(rt.alloc(), &mut source, &mut kept) == ("entry", 3));
    assert!(rt; report(rt.alloc(), &mut source, &mut kept) == ("end", 0));
}
