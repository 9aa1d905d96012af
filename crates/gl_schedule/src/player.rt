//! A schedule played line by line.

ghost use Rattle.std.specs.Prelude.{◌≡◌, suc, ◌++◌, ◌≤◌, OnErr, OnOk, IfOk, Err};
ghost use Rattle.std.specs.Io.KnownBytes.{Appends};
ghost use Rattle.gl_outside.specs.Fault.{Rose};
ghost use Rattle.gl_outside.specs.Sink.{AppendsPrefix};
ghost use Rattle.std.specs.List.{AllByRecursion};
ghost use Rattle.gl_world.specs.AtStart.{AreAtStart};
ghost use Rattle.gl_world.specs.Group.{IsGroup};
ghost use Rattle.gl_world.specs.Keys.{private_key, service_seed};
ghost use Rattle.gl_lines.specs.Kept.{IsFit};
ghost use Rattle.gl_schedule.specs.Play.{Extends, ExtendsPrefix, GoesOn, IsIn};
ghost use Rattle.gl_schedule.specs.Output.{Output, output_of, reported};

use crate::machine::Machine;
use crate::text::put_number;
use gl_hss::LmsKey;
use gl_lines::{Line, Lines};
use gl_outside::{Sink, SinkFault, write_whole};
use gl_world::{Settings, WorldNode};
use std::alloc::{AllocError, Global};

/// The line, with its number, that tells what a line of the schedule comes to.
fn line_text<N: WorldNode>(
    alloc: Global,
    machine: &mut Machine<N>,
    number: u64,
    line: Line,
) -> Result<Vec<u8>, AllocError>
    requires fit { IsFit line }
    ensures text { IfOk result (λ text. (t : Output) → IsIn t machine.old → suc t.lines ≡ number →
        (reported machine.old.world.settings t line).text ≡ t.text ++ text.items) }
    ensures goes_on { OnOk result ((t : Output) → IsIn t machine.old → suc t.lines ≡ number →
        GoesOn t line machine.old machine.new) }
{
    let mut text = Vec::new(alloc);
    put_number(&mut text, number)?;
    text.extend_from_slice(b" ")?;
    machine.play(number, line, &mut text)?;
    text.extend_from_slice(b"\n")?;
    Ok(text)
}

/// Plays one line, and writes what came of it.
fn play_line<N: WorldNode, K: Sink>(
    alloc: Global,
    machine: &mut Machine<N>,
    number: u64,
    line: Line,
    sink: &mut K,
) -> Result<(), SinkFault>
    requires fit { IsFit line }
    ensures whole { OnOk result ((t : Output) → IsIn t machine.old → suc t.lines ≡ number →
        Extends (K.holds sink.old) (K.holds sink.new)
        t.text (reported machine.old.world.settings t line).text) }
    ensures goes_on { OnOk result ((t : Output) → IsIn t machine.old → suc t.lines ≡ number →
        GoesOn t line machine.old machine.new) }
    ensures prefix { OnErr result ((t : Output) → IsIn t machine.old → suc t.lines ≡ number →
        ExtendsPrefix (K.holds sink.old) (K.holds sink.new)
        t.text (reported machine.old.world.settings t line).text) }
    ensures failed { result ≡ Err SinkFault.Failed → Rose (K.faults sink.old) (K.faults sink.new) }
    ensures never_falls { K.faults sink.old ≤ K.faults sink.new }
{
    match line_text(alloc, machine, number, line) {
        Ok(text) => write_whole(sink, &text),
        Err(_) => Err(SinkFault::NoMemory),
    }
}

/// Plays a schedule over the key and the nodes of its service: its own line first, and then one for
/// each line after it.
pub fn play<N: WorldNode, K: Sink>(
    alloc: Global,
    settings: Settings,
    service: LmsKey,
    lines: Lines,
    nodes: Vec<N>,
    sink: &mut K,
) -> Result<(), SinkFault>
    requires group { IsGroup settings }
    requires service { service ≡ private_key (service_seed settings) }
    requires fit { AllByRecursion IsFit lines }
    requires nodes { AreAtStart N.stands settings nodes.items }
    ensures whole { OnOk result
        (Appends (K.holds sink.old) (K.holds sink.new) (output_of settings lines).text) }
    ensures prefix { OnErr result
        (AppendsPrefix (K.holds sink.old) (K.holds sink.new) (output_of settings lines).text) }
    ensures failed { result ≡ Err SinkFault.Failed → Rose (K.faults sink.old) (K.faults sink.new) }
    ensures never_falls { K.faults sink.old ≤ K.faults sink.new }
{
    let mut machine = match Machine::begin(alloc, settings, service, nodes) {
        Ok(machine) => machine,
        Err(_) => return Err(SinkFault::NoMemory),
    };
    match write_whole(sink, b"1 ok\n") {
        Ok(()) => {}
        Err(fault) => return Err(fault),
    }
    let mut number: u64 = 2;
    for line in lines.into_vec() {
        match play_line(alloc, &mut machine, number, line, sink) {
            Ok(()) => {}
            Err(fault) => return Err(fault),
        }
        number += 1;
    }
    Ok(())
}
