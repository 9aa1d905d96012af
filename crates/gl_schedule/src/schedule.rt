//! A schedule: a service, and the lines of what happens to it.

ghost use Rattle.std.specs.Prelude.{◌≡◌, IfOk};
ghost use Rattle.std.specs.List.{list_any};
ghost use Rattle.gl_base.specs.Bytes.{same_bytes};
ghost use Rattle.gl_lines.specs.Worlds.{IsWithinLimits};
ghost use Rattle.gl_world.specs.Founding.{node_ids};
ghost use Rattle.gl_world.specs.Keyed.{HasKeysOf};
ghost use Rattle.gl_base.specs.Answers.{Answers};
ghost use Rattle.gl_schedule.specs.Playable.{IsPlayable};
ghost use Rattle.gl_schedule.specs.Schedules.{are_apart, reads, service_of, settings_of};

use crate::keyed_schedule::KeyedSchedule;
use gl_base::OrNoMemory;
use gl_entry::NodeId;
use gl_lines::{Lines, ScheduleFault, WorldLine, read_first_line, read_lines};
use gl_requests::ServiceState;
use gl_world::{ServiceKeys, Settings, has_distinct_keys};
use std::alloc::Global;

/// A schedule. One of no bytes has no service.
#[derive(Debug, Drop)]
pub enum Schedule {
    Empty,
    Service(Settings, Lines),
}

fn settings_of(world: &WorldLine) -> Settings
    ensures { result ≡ settings_of world.now }
{
    Settings {
        starting: world.starting,
        joiners: world.joiners,
        members: world.members,
        state: if world.is_open {
            ServiceState::Open
        } else {
            ServiceState::Opening
        },
        seed: world.seed,
    }
}

fn is_any(ids: &[NodeId], id: &NodeId) -> bool
    ensures { result ≡ list_any (λ other. same_bytes other id.now) ids.now }
{
    ids.iter().any(|other| other == id)
}

/// Whether no two of these nodes are one.
fn are_apart(ids: &[NodeId]) -> bool
    ensures { result ≡ are_apart ids.now }
{
    match ids.split_first() {
        None => true,
        Some((first, rest)) => !is_any(rest, first) && are_apart(rest),
    }
}

/// The service that a first line begins, its keys, and the identifiers of its nodes. A seed that
/// gives two members one key, or two nodes one identifier, begins none.
fn service_of(
    alloc: Global,
    world: &WorldLine,
) -> Result<(Settings, ServiceKeys, Vec<NodeId>), OrNoMemory<ScheduleFault>>
    requires { IsWithinLimits world.now }
    ensures gives { Answers (λ service. service.0) result (service_of world.now) }
    ensures keys { IfOk result (λ service. HasKeysOf service.0 service.1) }
    ensures ids { IfOk result (λ service. service.2.items ≡ node_ids service.0) }
{
    let settings = settings_of(world);
    let keys = ServiceKeys::make(alloc, &settings)?;
    let ids = keys.node_ids(alloc, &settings)?;
    if has_distinct_keys(alloc, &settings)? && are_apart(&ids) {
        Ok((settings, keys, ids))
    } else {
        Err(OrNoMemory::Fault(ScheduleFault::BadLine(1)))
    }
}

/// The schedule that a text is, or else the first of its lines that says nothing.
#[tactic(auto, unfolding(crate::specs::Schedules::reads))]
pub fn read(alloc: Global, text: &[u8]) -> Result<KeyedSchedule, OrNoMemory<ScheduleFault>>
    ensures gives { Answers (λ schedule. schedule) result (reads text.now) }
    ensures playable { IfOk result (λ schedule. IsPlayable schedule) }
{
    if text.is_empty() {
        return Ok(KeyedSchedule::empty());
    }
    let (world, after) = read_first_line(alloc, text)?;
    let (settings, keys, ids) = service_of(alloc, &world)?;
    let lines = read_lines(alloc, after, &ids)?;
    Ok(KeyedSchedule::service(settings, lines, keys))
}
