//! Attempts on tables that others write meanwhile.

ghost use Rattle.std.specs.Prelude.{◌≡◌, ◌<◌, None, IfOk};
ghost use Rattle.gl_attempt.specs.Attempt.{next_of};

use gl_attempt::{Attempt, Fetched, TxFault};
use gl_base::OrNoMemory;
use gl_tx::{Ran, Request, run};
use gl_vmaps::Tables;
use std::alloc::Global;
use std::test::Fail;

/// `get public:t 61`.
const GET: &[u8] = b"\x01\x00\x01\x08public:t\x01\x00a";

/// `size public:t`.
const SIZE: &[u8] = b"\x01\x00\x08\x08public:t";

/// `put public:t 61 01`.
const PUT: &[u8] = b"\x01\x00\x03\x08public:t\x01\x00a\x01\x00\x00\x00\x01";

/// `get public:t 61`, `put public:t 62 01`, `follow public:t 62 public:u`, `get public:t 61`,
/// `size public:t`.
const MANY: &[u8] = b"\x05\x00\
    \x01\x08public:t\x01\x00a\
    \x03\x08public:t\x01\x00b\x01\x00\x00\x00\x01\
    \x07\x08public:t\x01\x00b\x08public:u\
    \x01\x08public:t\x01\x00a\
    \x08\x08public:t";

/// The tables that one request wrote, as the entry at a place.
fn tables_at(alloc: Global, place: u64, request: &[u8]) -> Result<Tables, Fail>
    requires { 0 < place }
{
    let mut tables = Tables::new(alloc);
    let ran = run(alloc, &Request::decode(alloc, request)?, &tables)?;
    tables.apply(place, &ran.writes)?;
    Ok(tables)
}

/// An attempt that began at length 4, before any cut, and has read all that it asks for.
fn attempt(alloc: Global, request: &[u8], tables: &Tables) -> Result<Attempt, Fail>
    ensures { IfOk result (λ attempt. next_of attempt ≡ None) }
{
    let mut attempt = Attempt::begin(alloc, 4, 0, Request::decode(alloc, request)?);
    for _ in 0..129 {
        if attempt.fetch(tables)? == Fetched::Ready {
            return Ok(attempt);
        }
    }
    Err("more than 128 fetches")?
}

fn report(alloc: Global, finished: &Result<Ran, OrNoMemory<TxFault>>) -> Result<String, Fail> {
    let mut out = String::new(alloc);
    match finished {
        Ok(ran) => write!(out, "ran {}", ran.reply.as_slice().len())?,
        Err(OrNoMemory::NoMemory) => write!(out, "no memory")?,
        Err(OrNoMemory::Fault(TxFault::Conflict(conflict))) => write!(
            out,
            "conflict {:?} {} {}",
            conflict.key.as_slice(),
            conflict.began,
            conflict.changed
        )?,
        Err(OrNoMemory::Fault(TxFault::RolledBack(rolled_back))) => {
            write!(out, "rolled back {} {}", rolled_back.seen, rolled_back.now)?;
        }
        Err(OrNoMemory::Fault(TxFault::Aborted(abort))) => write!(out, "{}", abort.operation)?,
    }
    Ok(out)
}

/// Whether an attempt finishes so on these tables and at this count of cuts.
fn ends_as(
    alloc: Global,
    attempt: &Attempt,
    tables: &Tables,
    cuts: u64,
    want: &str,
) -> Result<bool, Fail>
    requires { next_of attempt.now ≡ None }
{
    Ok(report(alloc, &attempt.finish(tables, cuts))?.as_str() == want)
}

#[test]
fn finishes_unless_a_row_that_was_read_has_changed(rt: HostRuntime) -> Result<(), Fail> {
    let alloc = rt.alloc();
    let before = tables_at(alloc, 3, PUT)?;
    let after = tables_at(alloc, 5, PUT)?;
    let get = attempt(alloc, GET, &before)?;
    assert!(rt; ends_as(alloc, &get, &before, 0, "ran 1")?);
    assert!(rt; ends_as(alloc, &get, &after, 0, "conflict [97] 4 5")?);
    assert!(rt; ends_as(alloc, &get, &before, 1, "rolled back 0 1")?);
    Ok(())
}

#[test]
fn finishes_unless_a_map_that_was_read_has_changed(rt: HostRuntime) -> Result<(), Fail> {
    let alloc = rt.alloc();
    let before = tables_at(alloc, 3, PUT)?;
    let after = tables_at(alloc, 5, PUT)?;
    let size = attempt(alloc, SIZE, &before)?;
    assert!(rt; ends_as(alloc, &size, &before, 0, "ran 1")?);
    let conflict = "conflict [112, 117, 98, 108, 105, 99, 58, 116] 4 5";
    assert!(rt; ends_as(alloc, &size, &after, 0, conflict)?);
    let put = attempt(alloc, PUT, &before)?;
    assert!(rt; ends_as(alloc, &put, &after, 0, "ran 1")?);
    Ok(())
}

#[test]
fn notes_each_row_once_and_none_that_it_wrote_itself(rt: HostRuntime) -> Result<(), Fail> {
    let tables = tables_at(rt.alloc(), 3, PUT)?;
    let many = attempt(rt.alloc(), MANY, &tables)?;
    // 61 of t; 01 of u, which 62 of t was written to; t; and whether 62 was in t.
    assert!(rt; many.reads().as_slice().len() == 4);
    assert!(rt; ends_as(rt.alloc(), &many, &tables, 0, "ran 5")?);
    Ok(())
}
