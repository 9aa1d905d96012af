//! What is done for a payload and for a tick.

ghost use Rattle.std.specs.Prelude.{◌≡◌, ◌≤◌, [], ◌∷◌, Err, Some, None, map, IsTrue, OnOk, OnErr};
ghost use Rattle.gl_serve.specs.declared.session.SessionError.{SessionError};
ghost use Rattle.gl_serve.specs.declared.node.OwnEvent.TheVariants.{Replicate};
ghost use Rattle.gl_serve.specs.Rules.{Fits};
ghost use Rattle.gl_serve.specs.Works.{Handle, Beat, Lead, tick_events};
ghost use Rattle.gl_serve.specs.Doing.{lines_of, session_state_after};
ghost use Rattle.gl_serve.specs.Outbox.{Sends, SendsSome, Loses};
ghost use Rattle.gl_serve.specs.Running.{Went, stand, is_stop, is_stopped};

use crate::node::{Outcome, OwnEvent, ServedNode};
use crate::outbox::{post_answer, post_messages};
use crate::session::{Session, SessionError};
use crate::settings::Serving;
use gl_outside::Link;

/// Notes what an event came to, and sends what it has to say.
#[tactic(auto, using(crate::proofs::Losing::loses_same, crate::proofs::Losing::loses_then))]
fn finish<L: Link>(
    link: &mut L,
    settings: &Serving<'_>,
    session: &mut Session,
    asker: Option<u64>,
    outcome: Outcome,
) -> Result<(), SessionError>
    requires going { session.old.session_state.over ≡ None }
    requires fits { Fits outcome }
    ensures sent { OnOk result
        (Sends L.honest (L.past link.old) session.old.lost (L.past link.new) session.new.lost
        (lines_of settings.now.peers.now asker outcome)) }
    ensures some { OnErr result
        (SendsSome L.honest (L.past link.old) session.old.lost (L.past link.new) session.new.lost
        (lines_of settings.now.peers.now asker outcome)) }
    ensures session_state { session.new.session_state
        ≡ session_state_after session.old.session_state outcome }
    ensures going { OnOk result (session.new.session_state.over ≡ None) }
    ensures end { (end : SessionError) → result ≡ Err end →
        is_stopped session.new.session_state.over ≡ is_stop end }
    ensures inward { L.inward link.new ≡ L.inward link.old }
    ensures lost { Loses session.old.lost session.new.lost
        (L.send_faults link.old) (L.send_faults link.new) }
{
    match outcome {
        Outcome::Stopped => {
            session.session_state.over = Some(SessionError::Stopped);
            Err(SessionError::Stopped)
        }
        Outcome::NoMemory => {
            session.session_state.over = Some(SessionError::NoMemory);
            Err(SessionError::NoMemory)
        }
        Outcome::Done {
            messages,
            answer,
            heard,
        } => {
            session.session_state.idle = if heard { 0 } else { session.session_state.idle };
            let alloc = session.alloc;
            let lost = &mut session.lost;
            post_messages(alloc, link, lost, settings.peers, messages.as_slice())?;
            post_answer(alloc, link, lost, asker, &answer)?;
            Ok(())
        }
    }
}

/// Handles a payload of a connection.
#[tactic(auto, using(crate::proofs::Losing::loses_same, crate::proofs::Losing::loses_then))]
pub(crate) fn handle<L: Link, N: ServedNode>(
    link: &mut L,
    node: &mut N,
    settings: &Serving<'_>,
    session: &mut Session,
    conn: u64,
    payload: &[u8],
) -> Result<(), SessionError>
    requires going { session.old.session_state.over ≡ None }
    ensures went { Went L.honest N.rules settings.now
        (stand node.old session.old (L.past link.old)) (Handle conn payload.now ∷ []) []
        (stand node.new session.new (L.past link.new)) result }
    ensures going { OnOk result (session.new.session_state.over ≡ None) }
    ensures inward { L.inward link.new ≡ L.inward link.old }
    ensures lost { Loses session.old.lost session.new.lost
        (L.send_faults link.old) (L.send_faults link.new) }
{
    let Some(read) = node.read(payload)? else {
        return Ok(());
    };
    session.session_state.served = session.session_state.served.saturating_add(1);
    let outcome = node.handle(read);
    finish(link, settings, session, Some(conn), outcome)
}

/// Does an event of a tick, if the node leads.
#[tactic(auto, using(crate::proofs::Losing::loses_same, crate::proofs::Losing::loses_then))]
fn lead<L: Link, N: ServedNode>(
    link: &mut L,
    node: &mut N,
    settings: &Serving<'_>,
    session: &mut Session,
    event: OwnEvent,
) -> Result<(), SessionError>
    requires going { session.old.session_state.over ≡ None }
    ensures went { Went L.honest N.rules settings.now
        (stand node.old session.old (L.past link.old)) (Lead event ∷ []) []
        (stand node.new session.new (L.past link.new)) result }
    ensures going { OnOk result (session.new.session_state.over ≡ None) }
    ensures inward { L.inward link.new ≡ L.inward link.old }
    ensures lost { Loses session.old.lost session.new.lost
        (L.send_faults link.old) (L.send_faults link.new) }
{
    if !session.session_state.leading {
        return Ok(());
    }
    let outcome = node.own(event);
    finish(link, settings, session, None, outcome)
}

/// Begins a tick: a node that doesn't lead counts it, and may time out.
#[tactic(auto, using(crate::proofs::Losing::loses_same, crate::proofs::Losing::loses_then))]
fn beat<L: Link, N: ServedNode>(
    link: &mut L,
    node: &mut N,
    settings: &Serving<'_>,
    session: &mut Session,
) -> Result<(), SessionError>
    requires going { session.old.session_state.over ≡ None }
    requires ticks { 1 ≤ settings.now.ticks }
    ensures went { Went L.honest N.rules settings.now
        (stand node.old session.old (L.past link.old)) (Beat ∷ []) []
        (stand node.new session.new (L.past link.new)) result }
    ensures going { OnOk result (session.new.session_state.over ≡ None) }
    ensures inward { L.inward link.new ≡ L.inward link.old }
    ensures lost { Loses session.old.lost session.new.lost
        (L.send_faults link.old) (L.send_faults link.new) }
{
    session.session_state.leading = node.leads();
    if session.session_state.leading {
        return Ok(());
    }
    if session.session_state.idle < settings.ticks - 1 {
        session.session_state.idle += 1;
        return Ok(());
    }
    session.session_state.idle = 0;
    let outcome = node.own(OwnEvent::Timeout);
    finish(link, settings, session, None, outcome)
}

/// A leader replicates to each peer.
#[tactic(auto, using(crate::proofs::Losing::loses_same, crate::proofs::Losing::loses_then))]
fn replicate<L: Link, N: ServedNode>(
    link: &mut L,
    node: &mut N,
    settings: &Serving<'_>,
    session: &mut Session,
) -> Result<(), SessionError>
    requires going { session.old.session_state.over ≡ None }
    ensures went { Went L.honest N.rules settings.now
        (stand node.old session.old (L.past link.old))
        (map Lead (map Replicate settings.now.peers.now)) []
        (stand node.new session.new (L.past link.new)) result }
    ensures going { OnOk result (session.new.session_state.over ≡ None) }
    ensures inward { L.inward link.new ≡ L.inward link.old }
    ensures lost { Loses session.old.lost session.new.lost
        (L.send_faults link.old) (L.send_faults link.new) }
{
    for peer in settings.peers {
        lead(link, node, settings, session, OwnEvent::Replicate(*peer))?;
    }
    Ok(())
}

/// Does all that a tick gives to do.
#[tactic(auto, using(crate::proofs::Losing::loses_same, crate::proofs::Losing::loses_then))]
pub(crate) fn tick<L: Link, N: ServedNode>(
    link: &mut L,
    node: &mut N,
    settings: &Serving<'_>,
    session: &mut Session,
) -> Result<(), SessionError>
    requires going { session.old.session_state.over ≡ None }
    requires ticks { 1 ≤ settings.now.ticks }
    ensures went { Went L.honest N.rules settings.now
        (stand node.old session.old (L.past link.old))
        (Beat ∷ map Lead (tick_events settings.now.peers.now)) []
        (stand node.new session.new (L.past link.new)) result }
    ensures going { OnOk result (session.new.session_state.over ≡ None) }
    ensures inward { L.inward link.new ≡ L.inward link.old }
    ensures lost { Loses session.old.lost session.new.lost
        (L.send_faults link.old) (L.send_faults link.new) }
{
    beat(link, node, settings, session)?;
    replicate(link, node, settings, session)?;
    lead(link, node, settings, session, OwnEvent::Reserve)?;
    lead(link, node, settings, session, OwnEvent::Sign)?;
    lead(link, node, settings, session, OwnEvent::Advance)?;
    lead(link, node, settings, session, OwnEvent::Evidence)
}
