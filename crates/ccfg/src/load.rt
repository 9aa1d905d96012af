//! A ledger of so many requests: it is made, audited, and told of.

ghost use Rattle.std.specs.Prelude.{◌≡◌, ◌≤◌, IfOk};
ghost use Rattle.gl_load.specs.Events.{load_ledger};
ghost use Rattle.gl_load.specs.Report.{report_of};
ghost use Rattle.ccfg.specs.ExpectedOutput.{WritesOutput, output_of_answer, output_of_load, report_text};

use crate::ending::Ending;
use crate::fault::Fault;
use crate::output::{refuse, write_out};
use gl_commands::{LoadTask, put_hex, put_named};
use gl_load::{LOAD_LIMIT, LoadFounding, LoadObserver, Report, load};
use gl_outside::Sink;
use gl_store_book::StoreBook;
use std::alloc::{AllocError, Global};

/// What the ledger of so many requests comes to, which is made and audited for it. Fails only where
/// memory runs out.
fn make<O: LoadObserver>(
    alloc: Global,
    count: u32,
    seed: &[u8; 32],
    load_observer: &mut O,
) -> Result<Report, AllocError>
    requires { count ≤ 100000 }
    ensures { IfOk result (λ report. report ≡ report_of (load_ledger seed.now count)) }
{
    let founding = LoadFounding::make(alloc, seed)?;
    let book = StoreBook::founded(alloc, founding.key, founding.genesis)?;
    load(alloc, count, seed, book, load_observer)
}

/// The lines that tell of a ledger that was made.
fn report_text(alloc: Global, report: &Report) -> Result<Vec<u8>, AllocError>
    ensures { IfOk result (λ text. text.items ≡ report_text report.now) }
{
    let mut text = Vec::new(alloc);
    put_named(&mut text, "entries ", report.entries)?;
    put_named(&mut text, "\nsignatures ", report.signatures)?;
    put_named(&mut text, "\nbytes ", report.bytes)?;
    put_named(&mut text, "\nkeys ", report.keys)?;
    text.extend_from_slice(b"\nlast ")?;
    report.last.push_text(&mut text)?;
    text.extend_from_slice(b"\nroot ")?;
    put_hex(alloc, &mut text, &report.root)?;
    text.extend_from_slice(b"\n")?;
    Ok(text)
}

fn print_report<K: Sink>(alloc: Global, report: &Report, sink: &mut K) -> Ending
    ensures { WritesOutput result (record {
      held = K.holds sink.old;
      holds = K.holds sink.new;
      faults = K.faults sink.old;
      faults_now = K.faults sink.new;
    }) (output_of_answer (report_text report.now)) }
{
    match report_text(alloc, report) {
        Ok(text) => write_out(&text, sink),
        Err(_) => Ending::Memory,
    }
}

/// Makes the ledger of a load, and tells what it comes to. After each request the onlooker is told
/// how many were taken.
pub fn run_load<K: Sink, O: LoadObserver>(
    alloc: Global,
    task: &LoadTask,
    sink: &mut K,
    load_observer: &mut O,
) -> Ending
    ensures { WritesOutput result (record {
      held = K.holds sink.old;
      holds = K.holds sink.new;
      faults = K.faults sink.old;
      faults_now = K.faults sink.new;
    }) (output_of_load task.now) }
{
    if task.count > u64::from(LOAD_LIMIT) {
        return refuse(alloc, &Fault::TooManyRequests, sink);
    }
    match make(alloc, task.count as u32, &task.seed, load_observer) {
        Ok(report) => print_report(alloc, &report, sink),
        Err(_) => Ending::Memory,
    }
}
