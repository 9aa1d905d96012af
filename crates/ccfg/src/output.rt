//! What is written to the sink.

ghost use Rattle.ccfg.specs.declared.plan.Plan.TheVariants.{Play, Show, ShowLedger};
ghost use Rattle.ccfg.specs.ExpectedOutput.{WritesOutput, output_of_answer, output_of_fault};
ghost use Rattle.ccfg.specs.Plans.{PlansPlayable, output_of_plan};
ghost use Rattle.gl_schedule.specs.Playable.{IsPlayable};
ghost use Rattle.gl_schedule.specs.declared.schedule.Schedule.TheVariants.{Service};
ghost use Rattle.gl_world.specs.Keyed.{HasKeysOf};

use crate::ending::Ending;
use crate::fault::Fault;
use crate::plan::{Plan, ledger_line, valid_line};
use crate::schedule_nodes::nodes;
use gl_base::TxId;
use gl_lines::Lines;
use gl_outside::{Sink, SinkFault, write_whole};
use gl_schedule::{KeyedSchedule, play};
use gl_world::{ServiceKeys, Settings};
use std::alloc::Global;

/// Tells a fault.
pub fn refuse<K: Sink>(alloc: Global, fault: &Fault, sink: &mut K) -> Ending
    ensures { WritesOutput result (record {
      held = K.holds sink.old;
      holds = K.holds sink.new;
      faults = K.faults sink.old;
      faults_now = K.faults sink.new;
    }) (output_of_fault fault.now) }
{
    let Ok(line) = fault.line(alloc) else {
        return Ending::Memory;
    };
    match write_whole(sink, &line) {
        Ok(()) => fault.ending(),
        Err(SinkFault::Failed) => Ending::SinkFailed,
        Err(SinkFault::NoMemory) => Ending::Memory,
    }
}

/// Tells the transaction of a valid receipt.
fn show<K: Sink>(alloc: Global, id: TxId, sink: &mut K) -> Ending
    ensures { WritesOutput result (record {
      held = K.holds sink.old;
      holds = K.holds sink.new;
      faults = K.faults sink.old;
      faults_now = K.faults sink.new;
    }) (output_of_plan (Show id)) }
{
    let Ok(line) = valid_line(alloc, id) else {
        return Ending::Memory;
    };
    match write_whole(sink, &line) {
        Ok(()) => Ending::Done,
        Err(SinkFault::Failed) => Ending::SinkFailed,
        Err(SinkFault::NoMemory) => Ending::Memory,
    }
}

/// Tells the last transaction of a valid ledger, and that of its last signature.
fn show_ledger<K: Sink>(alloc: Global, last: TxId, signed: Option<TxId>, sink: &mut K) -> Ending
    ensures { WritesOutput result (record {
      held = K.holds sink.old;
      holds = K.holds sink.new;
      faults = K.faults sink.old;
      faults_now = K.faults sink.new;
    }) (output_of_plan (ShowLedger last signed)) }
{
    let Ok(line) = ledger_line(alloc, last, signed) else {
        return Ending::Memory;
    };
    match write_whole(sink, &line) {
        Ok(()) => Ending::Done,
        Err(SinkFault::Failed) => Ending::SinkFailed,
        Err(SinkFault::NoMemory) => Ending::Memory,
    }
}

/// Tells an answer as it is.
pub(crate) fn write_out<K: Sink>(text: &[u8], sink: &mut K) -> Ending
    ensures { WritesOutput result (record {
      held = K.holds sink.old;
      holds = K.holds sink.new;
      faults = K.faults sink.old;
      faults_now = K.faults sink.new;
    }) (output_of_answer text.now) }
{
    match write_whole(sink, text) {
        Ok(()) => Ending::Done,
        Err(SinkFault::Failed) => Ending::SinkFailed,
        Err(SinkFault::NoMemory) => Ending::Memory,
    }
}

/// Plays the lines of a service's schedule, at its nodes, each of which serves from a file in
/// memory.
fn play_service<K: Sink>(
    alloc: Global,
    settings: Settings,
    lines: Lines,
    keys: ServiceKeys,
    sink: &mut K,
) -> Ending
    requires playable { IsPlayable (Service settings lines) }
    requires keys { HasKeysOf settings keys }
    ensures { WritesOutput result (record {
      held = K.holds sink.old;
      holds = K.holds sink.new;
      faults = K.faults sink.old;
      faults_now = K.faults sink.new;
    }) (output_of_plan (Play (Service settings lines))) }
{
    let Ok((nodes, service)) = nodes(alloc, &settings, keys) else {
        return Ending::Memory;
    };
    match play(alloc, settings, service, lines, nodes, sink) {
        Ok(()) => Ending::Done,
        Err(SinkFault::Failed) => Ending::SinkFailed,
        Err(SinkFault::NoMemory) => Ending::Memory,
    }
}

/// Plays a schedule; one without a service prints nothing.
fn perform<K: Sink>(alloc: Global, schedule: KeyedSchedule, sink: &mut K) -> Ending
    requires { IsPlayable schedule }
    ensures { WritesOutput result (record {
      held = K.holds sink.old;
      holds = K.holds sink.new;
      faults = K.faults sink.old;
      faults_now = K.faults sink.new;
    }) (output_of_plan (Play schedule)) }
{
    match schedule.into_service() {
        None => Ending::Done,
        Some((settings, lines, keys)) => play_service(alloc, settings, lines, keys, sink),
    }
}

/// Does what a plan says.
pub fn carry_out<K: Sink>(alloc: Global, plan: Plan, sink: &mut K) -> Ending
    requires { PlansPlayable plan }
    ensures { WritesOutput result (record {
      held = K.holds sink.old;
      holds = K.holds sink.new;
      faults = K.faults sink.old;
      faults_now = K.faults sink.new;
    }) (output_of_plan plan) }
{
    match plan {
        Plan::Play(schedule) => perform(alloc, schedule, sink),
        Plan::Show(id) => show(alloc, id, sink),
        Plan::ShowLedger(last, signed) => show_ledger(alloc, last, signed, sink),
        Plan::Print(text) => write_out(&text, sink),
        Plan::Refuse(fault) => refuse(alloc, &fault, sink),
    }
}
