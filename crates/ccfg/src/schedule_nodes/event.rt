//! An event of a world as the node knows it where it happens.

ghost use Rattle.std.specs.Prelude.{◌≡◌, true, false, map, IfOk};
ghost use Rattle.gl_election.specs.Bridge.{seen_message};
ghost use Rattle.gl_world.specs.Held.{is_among};
ghost use Rattle.gl_world.specs.Rules.{bring_few, is_install, rule_of};
ghost use Rattle.ccfg.specs.FileNodes.{IsEventOf};

use crate::schedule_nodes::copies::copy_message;
use gl_config::NodeId;
use gl_messages::Message;
use gl_replication::Event as NodeEvent;
use gl_store_book::StoreBook;
use gl_world::Event;
use std::alloc::{AllocError, Global};

/// An event of a world other than an Install as the node knows it where it happens, among the
/// nodes with these identifiers, after these messages. A restart is no event of a node.
pub(crate) fn node_event(
    alloc: Global,
    ids: &[NodeId],
    sent: &[Message],
    event: &Event,
) -> Result<Option<NodeEvent<StoreBook>>, AllocError>
    requires among { is_among ids.now (map seen_message sent.now) event.now ≡ true }
    requires alone { is_install event.now ≡ false }
    requires few { bring_few (map seen_message sent.now) ≡ true }
    ensures { IfOk result
        (IsEventOf (rule_of ids.now (map seen_message sent.now) event.now)) }
{
    match event {
        Event::Timeout { .. } => Ok(Some(NodeEvent::Timeout)),
        Event::Deliver { message } => {
            let copied = copy_message(alloc, &sent[*message])?;
            Ok(Some(NodeEvent::Message(copied)))
        }
        Event::Submit { request, .. } => {
            let copied = request.copy(alloc)?;
            Ok(Some(NodeEvent::Submit(copied)))
        }
        Event::Govern { request, .. } => {
            let copied = request.copy(alloc)?;
            Ok(Some(NodeEvent::Govern(copied)))
        }
        Event::Reserve { .. } => Ok(Some(NodeEvent::Reserve)),
        Event::Sign { .. } => Ok(Some(NodeEvent::Sign)),
        Event::Evidence { .. } => Ok(Some(NodeEvent::Evidence)),
        Event::Replicate { to, .. } => Ok(Some(NodeEvent::Replicate(ids[usize::from(*to) - 1]))),
        Event::Advance { .. } => Ok(Some(NodeEvent::Advance)),
        Event::StepDown { to, .. } => Ok(Some(NodeEvent::StepDown(ids[usize::from(*to) - 1]))),
        Event::Restart { .. } => Ok(None),
        Event::Install { .. } => unreachable!(),
    }
}
