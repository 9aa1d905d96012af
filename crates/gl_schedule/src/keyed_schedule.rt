//! A schedule with the keys of its service.

ghost use Rattle.std.specs.Prelude.{◌≡◌};
ghost use Rattle.gl_world.specs.Keyed.{HasKeysOf};
ghost use Rattle.gl_schedule.specs.declared.schedule.Schedule.TheVariants.{Empty, Service};
ghost use Rattle.gl_schedule.specs.Keyed.{IsServiceOf};

use crate::schedule::Schedule;
use gl_lines::Lines;
use gl_world::{ServiceKeys, Settings};
use std::marker::Model;

/// A schedule as it was read, with the keys of its service, which were grown to name its nodes. It
/// is seen as the schedule.
#[derive(Drop)]
pub struct KeyedSchedule {
    schedule: Schedule,
    keys: Option<ServiceKeys>,
}

impl Model for KeyedSchedule {
    ghost use Rattle.gl_schedule.specs.declared.schedule.Schedule.{Schedule};
    ghost use Rattle.gl_schedule.specs.Keyed.{HoldsKeys};

    ghost Value = { Schedule };

    ghost view = { λ k. k.schedule };

    ghost invariant = { λ k. HoldsKeys k.schedule k.keys };
}

impl KeyedSchedule {
    /// The schedule without a service.
    pub(crate) fn empty() -> Self
        ensures { result ≡ Empty }
    {
        KeyedSchedule {
            schedule: Schedule::Empty,
            keys: None,
        }
    }

    /// The schedule of a service which has these keys.
    pub(crate) fn service(settings: Settings, lines: Lines, keys: ServiceKeys) -> Self
        requires { HasKeysOf settings keys }
        ensures { result ≡ Service settings lines }
    {
        KeyedSchedule {
            schedule: Schedule::Service(settings, lines),
            keys: Some(keys),
        }
    }

    /// The service, its lines and its keys; none where the schedule has no service.
    pub fn into_service(self) -> Option<(Settings, Lines, ServiceKeys)>
        ensures { IsServiceOf self result }
    {
        match (self.schedule, self.keys) {
            (Schedule::Empty, _) => None,
            (Schedule::Service(settings, lines), Some(keys)) => Some((settings, lines, keys)),
            (Schedule::Service(..), None) => unreachable!(),
        }
    }
}
