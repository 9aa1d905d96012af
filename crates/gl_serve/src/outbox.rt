//! What is sent over a link.

ghost use Rattle.std.specs.Prelude.{◌≡◌, ◌≤◌, [], Some, All, length, IsTrue, IfOk, IfSome, OnOk, OnErr};
ghost use Rattle.std.specs.List.{flat_map, position};
ghost use Rattle.gl_base.specs.Bytes.{same_bytes};
ghost use Rattle.gl_messages.specs.Frames.{frame_limit, framed};
ghost use Rattle.gl_messages.specs.Message.{body_fits};
ghost use Rattle.gl_messages.specs.Answer.{answer_body_fits};
ghost use Rattle.gl_serve.specs.Doing.{sent_to, message_line, answer_line};
ghost use Rattle.gl_serve.specs.Outbox.{Sends, SendsSome, Loses};

use gl_entry::NodeId;
use gl_messages::{Answer, Message, put_frame};
use gl_outside::{Link, Put};
use std::alloc::{AllocError, Global};

/// The frame of a payload.
fn frame_of(alloc: Global, payload: &[u8]) -> Result<Vec<u8>, AllocError>
    requires { length payload.now ≤ frame_limit }
    ensures { IfOk result (λ frame. frame.items ≡ framed payload.now) }
{
    let mut frame = Vec::new(alloc);
    put_frame(&mut frame, payload)?;
    Ok(frame)
}

/// Sends a payload on a connection, and counts its frame where it is lost.
#[tactic(auto, using(crate::proofs::Losing::loses_same, crate::proofs::Losing::loses_then))]
fn post<L: Link>(
    alloc: Global,
    link: &mut L,
    lost: &mut u64,
    conn: u64,
    payload: &[u8],
) -> Result<(), AllocError>
    requires { length payload.now ≤ frame_limit }
    ensures sent { OnOk result
        (Sends L.honest (L.past link.old) lost.old (L.past link.new) lost.new
        (sent_to (Some conn) payload.now)) }
    ensures unsent { OnErr result
        (Sends L.honest (L.past link.old) lost.old (L.past link.new) lost.new []) }
    ensures inward { L.inward link.new ≡ L.inward link.old }
    ensures lost { Loses lost.old lost.new (L.send_faults link.old) (L.send_faults link.new) }
{
    let frame = frame_of(alloc, payload)?;
    match link.send(conn, &frame) {
        Put::Took(_) => Ok(()),
        Put::Failed => {
            *lost = lost.saturating_add(1);
            Ok(())
        }
        Put::NoMemory => Err(AllocError),
    }
}

/// The place of a node among the peers.
fn place_of(peers: &[NodeId], node: &NodeId) -> Option<usize>
    ensures { result ≡ position (same_bytes node.now) peers.now }
{
    peers.iter().position(|peer| node == peer)
}

/// Sends a message to its receiver, where that is a peer.
#[tactic(auto, using(crate::proofs::Losing::loses_same, crate::proofs::Losing::loses_then))]
fn post_message<L: Link>(
    alloc: Global,
    link: &mut L,
    lost: &mut u64,
    peers: &[NodeId],
    message: &Message,
) -> Result<(), AllocError>
    requires { IsTrue (body_fits message.now.body) }
    ensures sent { OnOk result
        (Sends L.honest (L.past link.old) lost.old (L.past link.new) lost.new
        (message_line peers.now message.now)) }
    ensures unsent { OnErr result
        (Sends L.honest (L.past link.old) lost.old (L.past link.new) lost.new []) }
    ensures inward { L.inward link.new ≡ L.inward link.old }
    ensures lost { Loses lost.old lost.new (L.send_faults link.old) (L.send_faults link.new) }
{
    let Some(place) = place_of(peers, &message.to) else {
        return Ok(());
    };
    let payload = message.encode(alloc)?;
    post(alloc, link, lost, place as u64, &payload)
}

/// Sends messages in their order.
#[tactic(auto, using(crate::proofs::Losing::loses_same, crate::proofs::Losing::loses_then))]
pub(crate) fn post_messages<L: Link>(
    alloc: Global,
    link: &mut L,
    lost: &mut u64,
    peers: &[NodeId],
    messages: &[Message],
) -> Result<(), AllocError>
    requires { All (λ message. IsTrue (body_fits message.body)) messages.now }
    ensures sent { OnOk result
        (Sends L.honest (L.past link.old) lost.old (L.past link.new) lost.new
        (flat_map (message_line peers.now) messages.now)) }
    ensures some { OnErr result
        (SendsSome L.honest (L.past link.old) lost.old (L.past link.new) lost.new
        (flat_map (message_line peers.now) messages.now)) }
    ensures inward { L.inward link.new ≡ L.inward link.old }
    ensures lost { Loses lost.old lost.new (L.send_faults link.old) (L.send_faults link.new) }
{
    for message in messages {
        post_message(alloc, link, lost, peers, message)?;
    }
    Ok(())
}

/// Sends the answer to who asked.
#[tactic(auto, using(crate::proofs::Losing::loses_same, crate::proofs::Losing::loses_then))]
pub(crate) fn post_answer<L: Link>(
    alloc: Global,
    link: &mut L,
    lost: &mut u64,
    asker: Option<u64>,
    answer: &Option<Answer>,
) -> Result<(), AllocError>
    requires { IfSome answer.now (λ a. IsTrue (answer_body_fits a.content)) }
    ensures sent { OnOk result
        (Sends L.honest (L.past link.old) lost.old (L.past link.new) lost.new
        (answer_line asker answer.now)) }
    ensures unsent { OnErr result
        (Sends L.honest (L.past link.old) lost.old (L.past link.new) lost.new []) }
    ensures inward { L.inward link.new ≡ L.inward link.old }
    ensures lost { Loses lost.old lost.new (L.send_faults link.old) (L.send_faults link.new) }
{
    match (asker, answer) {
        (Some(conn), Some(answer)) => {
            let payload = answer.encode(alloc)?;
            post(alloc, link, lost, conn, &payload)
        }
        _ => Ok(()),
    }
}
