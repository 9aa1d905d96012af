//! The events for which lines ask that name nodes alone.

ghost use Rattle.std.specs.Prelude.{◌≡◌, None, Some, IfErr, IfOk};
ghost use Rattle.gl_schedule.specs.Play.{event_in};

use crate::numbers::node_number;
use gl_lines::Line;
use gl_world::Event;

/// The event for which a line asks that asks for one and names nodes alone. Another line is given
/// back.
pub(crate) fn event_in(line: Line) -> Result<Event, Line>
    ensures event { IfOk result (λ event. event_in line ≡ Some event) }
    ensures other { IfErr result (λ back. (back ≡ line) × (event_in line ≡ None)) }
{
    match line {
        Line::Timeout { node } => Ok(Event::Timeout {
            node: node_number(node),
        }),
        Line::Submit { node, request } => Ok(Event::Submit {
            node: node_number(node),
            request,
        }),
        Line::Reserve { node } => Ok(Event::Reserve {
            node: node_number(node),
        }),
        Line::Sign { node } => Ok(Event::Sign {
            node: node_number(node),
        }),
        Line::Evidence { node } => Ok(Event::Evidence {
            node: node_number(node),
        }),
        Line::Replicate { node, to } => Ok(Event::Replicate {
            node: node_number(node),
            to: node_number(to),
        }),
        Line::Advance { node } => Ok(Event::Advance {
            node: node_number(node),
        }),
        Line::StepDown { node, to } => Ok(Event::StepDown {
            node: node_number(node),
            to: node_number(to),
        }),
        Line::Restart { node } => Ok(Event::Restart {
            node: node_number(node),
        }),
        Line::Install { node, from } => Ok(Event::Install {
            node: node_number(node),
            from: node_number(from),
        }),
        other => Err(other),
    }
}
