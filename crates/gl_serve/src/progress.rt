//! What is done for what comes next over a link.

ghost use Rattle.std.specs.Prelude.{◌≡◌, ◌≤◌, ◌||◌, ℕ, [], Ok, None, List, map, IsTrue, OnOk};
ghost use Rattle.gl_outside.specs.Fault.{Rose, next_call};
ghost use Rattle.gl_outside.specs.Link.{Arrival};
ghost use Rattle.gl_serve.specs.Kept.{fed, payloads_of, rest_of, stream_at};
ghost use Rattle.gl_serve.specs.Works.{Handle};
ghost use Rattle.gl_serve.specs.Outbox.{Loses};
ghost use Rattle.gl_serve.specs.Running.{Went, stand};
ghost use Rattle.gl_serve.specs.Progress.{Tracks, Turned, is_ended};

use crate::node::ServedNode;
use crate::session::{Progress, Session, SessionError};
use crate::settings::Serving;
use crate::streams::Streams;
use crate::work::{handle, tick};
use gl_outside::{Came, Link};

/// Handles the whole payloads of a connection.
#[tactic(auto, using(crate::proofs::Losing::loses_same, crate::proofs::Losing::loses_then))]
fn drain<L: Link, N: ServedNode>(
    streams: &mut Streams,
    link: &mut L,
    node: &mut N,
    settings: &Serving<'_>,
    session: &mut Session,
    conn: u64,
) -> Result<(), SessionError>
    requires going { session.old.session_state.over ≡ None }
    ensures went { Went L.honest N.rules settings.now
        (stand node.old session.old (L.past link.old))
        (map (Handle conn) (payloads_of (stream_at streams.old conn))) []
        (stand node.new session.new (L.past link.new)) result }
    ensures going { OnOk result (session.new.session_state.over ≡ None) }
    ensures kept { OnOk result (stream_at streams.new conn ≡ rest_of (stream_at streams.old conn)) }
    ensures others { OnOk result ((other : ℕ) → (conn ≡ other → ⊥) →
        stream_at streams.new other ≡ stream_at streams.old other) }
    ensures inward { L.inward link.new ≡ L.inward link.old }
    ensures lost { Loses session.old.lost session.new.lost
        (L.send_faults link.old) (L.send_faults link.new) }
{
    while let Some(payload) = streams.take_payload(conn)? {
        handle(link, node, settings, session, conn, &payload)?;
    }
    Ok(())
}

/// Takes bytes of a connection, and handles the payloads that are whole with them.
#[tactic(auto, using(crate::proofs::Losing::loses_same, crate::proofs::Losing::loses_then))]
fn take_piece<L: Link, N: ServedNode>(
    streams: &mut Streams,
    link: &mut L,
    node: &mut N,
    settings: &Serving<'_>,
    session: &mut Session,
    conn: u64,
    bytes: &[u8],
) -> Result<(), SessionError>
    requires going { session.old.session_state.over ≡ None }
    ensures went { Went L.honest N.rules settings.now
        (stand node.old session.old (L.past link.old))
        (map (Handle conn) (payloads_of (fed bytes.now (stream_at streams.old conn)))) []
        (stand node.new session.new (L.past link.new)) result }
    ensures going { OnOk result (session.new.session_state.over ≡ None) }
    ensures kept { OnOk result (stream_at streams.new conn
        ≡ rest_of (fed bytes.now (stream_at streams.old conn))) }
    ensures others { OnOk result ((other : ℕ) → (conn ≡ other → ⊥) →
        stream_at streams.new other ≡ stream_at streams.old other) }
    ensures inward { L.inward link.new ≡ L.inward link.old }
    ensures lost { Loses session.old.lost session.new.lost
        (L.send_faults link.old) (L.send_faults link.new) }
{
    streams.feed(conn, bytes)?;
    drain(streams, link, node, settings, session, conn)
}

/// Takes what comes next, and does all that it gives to do.
#[tactic(auto, using(crate::proofs::Losing::loses_same, crate::proofs::Losing::loses_then))]
pub(crate) fn turn<L: Link, N: ServedNode>(
    streams: &mut Streams,
    link: &mut L,
    node: &mut N,
    settings: &Serving<'_>,
    session: &mut Session,
) -> Result<Progress, SessionError>
    requires going { session.old.session_state.over ≡ None }
    requires ticks { 1 ≤ settings.now.ticks }
    ensures turned { (before : List Arrival) →
        Tracks (stream_at streams.old) before →
        Turned L.honest N.rules settings.now before
        (stand node.old session.old (L.past link.old)) (L.inward link.old).coming
        (stand node.new session.new (L.past link.new)) (L.inward link.new).coming
        (stream_at streams.new) result }
    ensures going { OnOk result (session.new.session_state.over ≡ None) }
    ensures failed { result ≡ Ok Progress.Failed →
        Rose (L.inward link.old).faults (L.inward link.new).faults }
    ensures quiet { (result ≡ Ok Progress.Failed → ⊥) →
        (L.inward link.new).faults ≡ (L.inward link.old).faults }
    ensures ended { (L.inward link.new).ended ≡ ((L.inward link.old).ended || is_ended result) }
    ensures all { IsTrue L.honest → result ≡ Ok Progress.Ended → (L.inward link.new).coming ≡ [] }
    ensures calls { (L.inward link.new).calls ≡ next_call (L.inward link.old).calls }
    ensures lost { Loses session.old.lost session.new.lost
        (L.send_faults link.old) (L.send_faults link.new) }
{
    match link.next() {
        Came::Bytes(conn, bytes) => {
            take_piece(streams, link, node, settings, session, conn, &bytes)?;
            Ok(Progress::Took)
        }
        Came::Tick => {
            tick(link, node, settings, session)?;
            Ok(Progress::Took)
        }
        Came::Ended => Ok(Progress::Ended),
        Came::Failed => Ok(Progress::Failed),
        Came::NoMemory => Err(SessionError::NoMemory),
    }
}
