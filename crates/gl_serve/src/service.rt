//! A node that serves over a link, from its first turn to its end.

ghost use Rattle.std.specs.Prelude.{◌≡◌, ◌⊎◌, ◌≤◌, ◌||◌, ◌++◌, ℕ, [], Bool, Err, List, IsTrue, IfOk, OnOk, is_ok};
ghost use Rattle.gl_outside.specs.Fault.{Rose};
ghost use Rattle.gl_outside.specs.Link.{Arrival, Exchange};
ghost use Rattle.gl_messages.specs.Frames.{too_long, prefix, payloads, rest};
ghost use Rattle.gl_serve.specs.Streams.{stream};
ghost use Rattle.gl_serve.specs.declared.settings.Serving.{Serving as Settings};
ghost use Rattle.gl_serve.specs.Works.{handled, script};
ghost use Rattle.gl_serve.specs.Serves.{Serves, AskedAtMost, StoppedBy, calls_after};

use crate::node::ServedNode;
use crate::progress::turn;
use crate::session::{Progress, Session, SessionState};
use crate::settings::{ServeEnd, Serving};
use crate::streams::Streams;
use gl_outside::Link;
use std::alloc::Global;

/// Serves until the link gives its end, and reports how many payloads were in the grammar and how
/// many frames were lost. Payloads that are whole with what came last are handled before it ends.
pub fn serve<L: Link, N: ServedNode>(
    alloc: Global,
    link: &mut L,
    node: &mut N,
    settings: &Serving<'_>,
) -> Result<(u64, u64), ServeEnd>
    requires ticks { 1 ≤ settings.now.ticks }

    // What came, what was done for it, and what was sent, in order.
    ensures serves { Serves L.honest N.rules settings.now
        node.old (L.past link.old) (L.inward link.old).coming
        node.new (L.past link.new) (L.inward link.new).coming result }

    // It ends well exactly where the link gave its end, and then all came.
    ensures ended { (L.inward link.new).ended ≡ ((L.inward link.old).ended || is_ok result) }
    ensures all { IsTrue L.honest → OnOk result ((L.inward link.new).coming ≡ []) }
    ensures failed { result ≡ Err ServeEnd.LinkFailed →
        Rose (L.inward link.old).faults (L.inward link.new).faults }
    ensures quiet { (result ≡ Err ServeEnd.LinkFailed → ⊥) →
        (L.inward link.new).faults ≡ (L.inward link.old).faults }
    ensures turns { result ≡ Err ServeEnd.Turns →
        (L.inward link.new).calls ≡ calls_after settings.now.turns (L.inward link.old).calls }
    ensures asked { AskedAtMost settings.now.turns (L.inward link.old).calls
        (L.inward link.new).calls }

    // Frames are lost only where the link failed to send.
    ensures lost { IfOk result (λ counts. (counts.1 ≡ 0)
        ⊎ Rose (L.send_faults link.old) (L.send_faults link.new)) }
{
    let mut streams = Streams::new(alloc);
    let mut session = Session {
        alloc,
        session_state: SessionState {
            idle: 0,
            leading: false,
            served: 0,
            over: None,
        },
        lost: 0,
    };
    for _ in 0..settings.turns {
        match turn(&mut streams, link, node, settings, &mut session)? {
            Progress::Took => {}
            Progress::Ended => return Ok((session.session_state.served, session.lost)),
            Progress::Failed => return Err(ServeEnd::LinkFailed),
        }
    }
    Err(ServeEnd::Turns)
}

/// However the bytes of a connection come cut, the payloads that are handled are those of its whole
/// stream, in order.
pub fn law_of_whole_streams()
    ensures whole { (peers : List (List ℕ)) (came : List Arrival) (conn : ℕ) →
        handled conn (script peers [] came) ≡ payloads (stream conn came) }
    // After a length above 2 MiB there are no more.
    ensures deaf { (bytes more : List ℕ) (len : ℕ) → prefix (rest bytes) ≡ too_long len →
        payloads (bytes ++ more) ≡ payloads bytes }
{}

/// A serve that ends since its node stopped does so after an event that stopped the node.
pub fn law_of_stops<N: ServedNode>()
    ensures { (honest : Bool) (settings : Settings) (first last : N) (before after : List Exchange)
        (ahead left : List Arrival) →
        Serves honest N.rules settings first before ahead last after left (Err ServeEnd.Stopped) →
        StoppedBy N.rules last }
{}
