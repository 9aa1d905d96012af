//! What the text of a schedule says.

ghost use Rattle.std.specs.Prelude.{◌≡◌, IfOk};
ghost use Rattle.std.specs.List.{AllByRecursion};
ghost use Rattle.std.specs.Option.{option_copied};
ghost use Rattle.gl_base.specs.Answers.{Answers};
ghost use Rattle.gl_base.specs.declared.or_no_memory.OrNoMemory.TheVariants.{Fault};
ghost use Rattle.gl_lines.specs.declared.fault.ScheduleFault.TheVariants.{BadLine};
ghost use Rattle.gl_lines.specs.Parts.{bytes_of};
ghost use Rattle.gl_lines.specs.AtLines.{AtLine};
ghost use Rattle.gl_lines.specs.Kept.{IsFit};
ghost use Rattle.gl_lines.specs.Parsing.{first_line, call_line, deliver_line, line_of, lines_after, lines_read, long_line, member_line, node_line, pair_line, request_of, short_line, submit_line};

use crate::fault::{LineFault, ScheduleFault};
use crate::line::{Line, Lines};
use crate::members::{ack_line, again_line, ballot_line, propose_line, withdraw_line};
use crate::numbers::counted_number;
use crate::operations::operations_of;
use crate::split::{cut, lines_of, words_of};
use crate::world::{WorldLine, world_of};
use gl_base::{OrNoMemory, TxId};
use gl_requests::NodeId;
use gl_tx::{Operation, Request};
use std::alloc::Global;

/// A command that asks for nothing but its node.
fn short_line(name: &[u8], node: u128) -> Result<Line, LineFault>
    ensures { result ≡ short_line name.now node }
{
    if name == b"timeout".as_slice() {
        Ok(Line::Timeout { node })
    } else if name == b"reserve".as_slice() {
        Ok(Line::Reserve { node })
    } else if name == b"sign".as_slice() {
        Ok(Line::Sign { node })
    } else if name == b"evidence".as_slice() {
        Ok(Line::Evidence { node })
    } else if name == b"advance".as_slice() {
        Ok(Line::Advance { node })
    } else if name == b"restart".as_slice() {
        Ok(Line::Restart { node })
    } else if name == b"ids".as_slice() {
        Ok(Line::Ids { node })
    } else if name == b"ledger".as_slice() {
        Ok(Line::Ledger { node })
    } else {
        Err(LineFault::NoReading)
    }
}

/// A command that asks for one more node.
fn pair_line(name: &[u8], node: u128, other: u128) -> Result<Line, LineFault>
    ensures { result ≡ pair_line name.now node other }
{
    if name == b"join".as_slice() {
        Ok(Line::Join {
            node,
            joiner: other,
        })
    } else if name == b"mark".as_slice() {
        Ok(Line::Mark {
            node,
            marked: other,
        })
    } else if name == b"replicate".as_slice() {
        Ok(Line::Replicate { node, to: other })
    } else if name == b"stepdown".as_slice() {
        Ok(Line::StepDown { node, to: other })
    } else if name == b"install".as_slice() {
        Ok(Line::Install { node, from: other })
    } else if name == b"stage".as_slice() {
        Ok(Line::Stage { node, other })
    } else {
        Err(LineFault::NoReading)
    }
}

fn request_of(node: u128, operations: Vec<Operation>) -> Result<Line, LineFault>
    ensures { result ≡ request_of node operations.items }
{
    match Request::new(operations) {
        Some(request) => Ok(Line::Submit { node, request }),
        None => Err(LineFault::NoReading),
    }
}

fn submit_line(alloc: Global, node: u128, rest: &[u8]) -> Result<Line, OrNoMemory<LineFault>>
    ensures { Answers (λ x. x) result (submit_line node rest.now) }
{
    let words = words_of(alloc, rest)?;
    let operations = operations_of(alloc, &words)?;
    Ok(request_of(node, operations)?)
}

/// What a member asks for, or else a command that asks for one more node.
fn member_line(
    alloc: Global,
    name: &[u8],
    node: u128,
    rest: &[u8],
    ids: &[NodeId],
) -> Result<Line, OrNoMemory<LineFault>>
    ensures { Answers (λ x. x) result (member_line ids.now name.now node rest.now) }
{
    if name == b"ack".as_slice() {
        Ok(ack_line(node, rest)?)
    } else if name == b"propose".as_slice() {
        propose_line(alloc, node, rest, ids)
    } else if name == b"ballot".as_slice() {
        Ok(ballot_line(node, &words_of(alloc, rest)?)?)
    } else if name == b"withdraw".as_slice() {
        Ok(withdraw_line(node, &words_of(alloc, rest)?)?)
    } else if name == b"again".as_slice() {
        Ok(again_line(node, rest)?)
    } else {
        let other = counted_number(rest)?;
        Ok(pair_line(name, node, other)?)
    }
}

/// A command that asks for what stands after its node.
fn long_line(
    alloc: Global,
    name: &[u8],
    node: u128,
    rest: &[u8],
    ids: &[NodeId],
) -> Result<Line, OrNoMemory<LineFault>>
    ensures { Answers (λ x. x) result (long_line ids.now name.now node rest.now) }
{
    if name == b"submit".as_slice() {
        submit_line(alloc, node, rest)
    } else if name == b"status".as_slice() {
        match TxId::parse(rest) {
            Ok(id) => Ok(Line::Status { node, id }),
            Err(_) => Err(OrNoMemory::Fault(LineFault::NoReading)),
        }
    } else {
        member_line(alloc, name, node, rest, ids)
    }
}

#[tactic(auto, unfolding(crate::specs::Parsing::node_line))]
fn node_line(
    alloc: Global,
    name: &[u8],
    node: u128,
    rest: Option<&[u8]>,
    ids: &[NodeId],
) -> Result<Line, OrNoMemory<LineFault>>
    ensures { Answers (λ x. x) result
        (node_line ids.now name.now node (option_copied rest.entry)) }
{
    match rest {
        None => Ok(short_line(name, node)?),
        Some(rest) => long_line(alloc, name, node, rest, ids),
    }
}

/// A command to a node.
#[tactic(auto, unfolding(crate::specs::Parsing::call_line))]
fn call_line(
    alloc: Global,
    name: &[u8],
    text: &[u8],
    ids: &[NodeId],
) -> Result<Line, OrNoMemory<LineFault>>
    ensures { Answers (λ x. x) result (call_line ids.now name.now text.now) }
{
    let (number, rest) = cut(text, b' ');
    let node = counted_number(number)?;
    node_line(alloc, name, node, rest, ids)
}

#[tactic(auto, unfolding(crate::specs::Parsing::deliver_line))]
fn deliver_line(text: &[u8]) -> Result<Line, LineFault>
    ensures { result ≡ deliver_line text.now }
{
    let message = counted_number(text)?;
    Ok(Line::Deliver { message })
}

/// What a line after the first one says, in which these nodes may be named.
#[tactic(auto, unfolding(crate::specs::Parsing::line_of))]
fn line_of(alloc: Global, line: &[u8], ids: &[NodeId]) -> Result<Line, OrNoMemory<LineFault>>
    ensures { Answers (λ x. x) result (line_of ids.now line.now) }
{
    let (name, Some(text)) = cut(line, b' ') else {
        return Err(OrNoMemory::Fault(LineFault::NoReading));
    };
    if name == b"deliver".as_slice() {
        Ok(deliver_line(text)?)
    } else {
        call_line(alloc, name, text, ids)
    }
}

fn bad_line(number: u64) -> OrNoMemory<ScheduleFault>
    ensures { result ≡ Fault (BadLine number) }
{
    OrNoMemory::Fault(ScheduleFault::BadLine(number))
}

/// What stops the reading of the line with this number stops that of the schedule.
fn at_line(number: u64, stop: OrNoMemory<LineFault>) -> OrNoMemory<ScheduleFault>
    ensures { AtLine number stop result }
{
    match stop {
        OrNoMemory::NoMemory => OrNoMemory::NoMemory,
        OrNoMemory::Fault(LineFault::NoReading) => bad_line(number),
    }
}

/// The lines after the first one. An open line, which has no newline, says nothing.
fn lines_read(
    alloc: Global,
    lines: &[&[u8]],
    is_open: bool,
    ids: &[NodeId],
) -> Result<Vec<Line>, OrNoMemory<ScheduleFault>>
    ensures { Answers (λ all. all.items) result
        (lines_read ids.now 2 (bytes_of lines.now) is_open) }
{
    let mut all = Vec::new(alloc);
    for (i, line) in lines.iter().enumerate() {
        match line_of(alloc, line, ids) {
            Ok(line) => all.push(line)?,
            Err(stop) => return Err(at_line(i as u64 + 2, stop)),
        }
    }
    if is_open {
        return Err(bad_line(lines.len() as u64 + 2));
    }
    Ok(all)
}

/// The lines of the text after the first line, or else the first of them that says nothing. A
/// proposal may name the nodes with these identifiers by their numbers.
#[tactic(auto, unfolding(crate::specs::Parsing::lines_after))]
pub fn read_lines(
    alloc: Global,
    text: &[u8],
    ids: &[NodeId],
) -> Result<Lines, OrNoMemory<ScheduleFault>>
    ensures exact { Answers (λ x. x) result (lines_after ids.now text.now) }
    ensures fit { IfOk result (λ lines. AllByRecursion IsFit lines) }
{
    let (lines, open) = lines_of(alloc, text)?;
    let lines = lines_read(alloc, &lines, !open.is_empty(), ids)?;
    Ok(Lines::from(lines))
}

/// What the first line of a text says, and the text after that line. A text without a newline has
/// no first line.
#[tactic(auto, unfolding(crate::specs::Parsing::first_line))]
pub fn read_first_line(
    alloc: Global,
    text: &[u8],
) -> Result<(WorldLine, &[u8]), OrNoMemory<ScheduleFault>>
    ensures { Answers (λ x. (x.0, x.1.now)) result (first_line text.now) }
{
    let (line, Some(rest)) = cut(text, b'\n') else {
        return Err(bad_line(1));
    };
    match world_of(alloc, line) {
        Ok(world) => Ok((world, rest)),
        Err(stop) => Err(at_line(1, stop)),
    }
}
