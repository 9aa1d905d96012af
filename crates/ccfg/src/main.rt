//! `ccfg`, the program.
#![tactic(auto)]

mod ending;
mod fault;
mod invocation;
mod laws;
mod load;
mod node;
mod output;
mod plan;
mod program;
mod schedule_nodes;
mod source_bytes;
#[cfg(test)]
mod tests;

use ending::Ending;
use gl_commands::{HELP, VERSION};
use gl_load::LoadObserver;
use gl_outside::{OpenGate, Sink, SinkFault, StreamSink, StreamSource, write_whole};
use gl_serve::{NodeStatus, Observer};
use gl_system::{FileDisk, TcpLink, WatchedSource};
use invocation::{Invocation, disk_at, invocation_of, link_at};
use std::alloc::{AllocError, Global};
use std::io::IsTerminal;
use std::process::ExitCode;
use std::{env, io};

/// The words after the program's name. One that is no text stands for no words at all, since no
/// command has such a word.
fn words_after_name(rt: &HostRuntime) -> Result<Vec<String>, AllocError> {
    match env::args(rt) {
        Ok(all) => all.skip(1).collect(rt.alloc()),
        Err(error) if error.kind() == io::ErrorKind::InvalidData => Ok(Vec::new(rt.alloc())),
        Err(_) => Err(AllocError),
    }
}

/// Tells on standard error how far a run is: where a node stands, in a line of its own each time
/// that this changed; and at a terminal how many requests a load took, in a line over the one
/// before.
#[derive(Drop)]
struct ProgressLines<'a> {
    rt: &'a HostRuntime,
    reported: Option<NodeStatus>,
    at_terminal: bool,
}

/// Of so many requests one is reported.
const PRINTED_REQUESTS: u32 = 1_000;

impl LoadObserver for ProgressLines<'_> {
    fn taken(&mut self, requests: u32) {
        if !self.at_terminal || requests % PRINTED_REQUESTS != 0 {
            return;
        }
        let up = if requests > PRINTED_REQUESTS {
            "\x1b[A"
        } else {
            ""
        };
        let _printed = eprint!(self.rt; "{up}{requests:>9} requests\n");
    }
}

impl Observer for ProgressLines<'_> {
    fn observe(&mut self, node_status: NodeStatus) {
        if self.reported == Some(node_status) {
            return;
        }
        let _printed = eprint!(self.rt; "{node_status}\n");
        self.reported = Some(node_status);
    }
}

/// What the program tells of itself, if the words ask for that alone.
fn printed_of_itself(alloc: Global, words: &[String]) -> Result<Option<String>, AllocError> {
    match words {
        [word] if word.as_str() == "--help" => Ok(Some(String::from_str(alloc, HELP)?)),
        [word] if word.as_str() == "--version" => Ok(Some(format!(in alloc;
            "ccfg {}\n",
            VERSION
        )?)),
        _ => Ok(None),
    }
}

fn print<K: Sink>(text: &str, sink: &mut K) -> Ending {
    match write_whole(sink, text.as_bytes()) {
        Ok(()) => Ending::Done,
        Err(SinkFault::Failed) => Ending::SinkFailed,
        Err(SinkFault::NoMemory) => Ending::Memory,
    }
}

/// Whether the words ask for an audit, if they ask for anything.
fn is_audit(words: &[String]) -> bool {
    matches!(words, [command, ..] if command.as_str() == "audit")
}

/// Tells on standard error which call of the disk or the link the system failed, and why, where
/// that ended the run.
fn print_failure(
    rt: &HostRuntime,
    status: u8,
    called: &Invocation<'_>,
    disk: &FileDisk,
    link: &TcpLink<'_, HostRuntime>,
) {
    if status == Ending::DiskFailed.status() {
        let path = called.disk.unwrap_or("no file, as @disk names none");
        match &disk.failure {
            None => {
                let _printed = eprint!(rt; "disk: {path}\n");
            }
            Some(failure) => {
                let (call, error) = (failure.call, &failure.error);
                let _printed = eprint!(rt; "disk: {path}: {call}: {error}\n");
            }
        }
    }
    if status == Ending::LinkFailed.status()
        && let Some(error) = link.failure()
    {
        let _printed = eprint!(rt; "link: poll: {error}\n");
    }
}

/// The exit status of a run over the standard streams, the disk and the link. An audit and a load
/// tell at a terminal how far they are, a link tells where it listens, and a node where it stands.
fn status(rt: &HostRuntime) -> Result<u8, AllocError> {
    let all = words_after_name(rt)?;
    let called = invocation_of(rt.alloc(), &all)?;
    let words = called.words;
    let mut sink = StreamSink::new(io::writer(rt));
    if let Some(text) = printed_of_itself(rt.alloc(), words)? {
        return Ok(print(text.as_str(), &mut sink).status());
    }
    let at_terminal = rt.stderr().is_terminal();
    let reported = at_terminal && is_audit(words);
    let mut source = WatchedSource::new(StreamSource::new(rt.reader()), rt, reported);
    let mut link = link_at(rt, &called)?;
    let (status, disk) = program::top(
        rt.alloc(),
        words,
        &mut source,
        &mut sink,
        disk_at(rt, called.disk),
        &mut link,
        ProgressLines {
            rt,
            reported: None,
            at_terminal,
        },
        &OpenGate,
    );
    print_failure(rt, status, &called, &disk, &link);
    Ok(status)
}

/// Runs the program over the standard streams.
fn main(rt: HostRuntime) -> ExitCode {
    ExitCode::from(status(&rt).unwrap_or(Ending::Memory.status()))
}
