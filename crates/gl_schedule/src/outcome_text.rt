//! The text of the outcomes of events.

ghost use Rattle.std.specs.Prelude.{◌≡◌, ◌<◌, ◌^◌, ◌++◌, false, position, IfSome, OnOk};
ghost use Rattle.gl_base.specs.Bytes.{same_bytes};
ghost use Rattle.gl_ledger.specs.declared.response.Rejection.{Rejection as Why};
ghost use Rattle.gl_replication.specs.Stands.{Answers, seen_outcome};
ghost use Rattle.gl_world.specs.Founding.{node_ids};
ghost use Rattle.gl_world.specs.Happened.{is_no_memory};
ghost use Rattle.gl_world.specs.World.{ServiceOutcome};
ghost use Rattle.gl_world.specs.declared.settings.Settings.{Settings};
ghost use Rattle.gl_schedule.specs.Text.{given_text, id_text, leader_text, node_text, outcome_text, reason_text, reason_value_text, values_after};

use crate::text::{put_answers, put_hex, put_number};
use gl_answers::{Reason, Value, reason_of};
use gl_base::TxId;
use gl_entry::NodeId;
use gl_ledger::{Reads, Rejection, Response};
use gl_replication::{Book, Outcome, Refusal};
use gl_requests::GovernanceRequest;
use gl_tx::Request;
use std::alloc::{AllocError, Global};

/// The index of a node among these.
fn index_of(ids: &[NodeId], id: &NodeId) -> Option<usize>
    ensures index { result ≡ position (same_bytes id.now) ids.now }
    ensures within { IfSome result (λ index. index < 2 ^ 63) }
{
    ids.iter().position(|other| id == other)
}

/// A node by its number among these.
fn put_node(out: &mut Vec<u8>, index: Option<usize>) -> Result<(), AllocError>
    requires { IfSome index (λ index. index < 2 ^ 63) }
    ensures { OnOk result (out.new.items ≡ out.old.items ++ node_text index) }
{
    match index {
        None => out.extend_from_slice(b"-"),
        Some(index) => put_number(out, index as u64 + 1),
    }
}

/// A leader by its number among all nodes.
fn put_leader(out: &mut Vec<u8>, ids: &[NodeId], leader: &Option<NodeId>) -> Result<(), AllocError>
    ensures { OnOk result ((s : Settings) → ids.now ≡ node_ids s →
        out.new.items ≡ out.old.items ++ leader_text s leader.now) }
{
    match leader {
        None => out.extend_from_slice(b"-"),
        Some(id) => put_node(out, index_of(ids, id)),
    }
}

/// A value of a refusal.
fn put_reason_value(
    alloc: Global,
    out: &mut Vec<u8>,
    ids: &[NodeId],
    value: &Value,
) -> Result<(), AllocError>
    ensures { OnOk result ((s : Settings) → ids.now ≡ node_ids s →
        out.new.items ≡ out.old.items ++ reason_value_text s value.now) }
{
    match value {
        Value::Number(n) => put_number(out, *n),
        Value::Digest(digest) => put_hex(alloc, out, digest),
        Value::Leader(leader) => put_leader(out, ids, leader),
    }
}

/// Values, each after a space.
fn put_values_after(
    alloc: Global,
    out: &mut Vec<u8>,
    ids: &[NodeId],
    values: &[Value],
) -> Result<(), AllocError>
    ensures { OnOk result ((s : Settings) → ids.now ≡ node_ids s →
        out.new.items ≡ out.old.items ++ values_after s values.now) }
{
    for value in values {
        out.extend_from_slice(b" ")?;
        put_reason_value(alloc, out, ids, value)?;
    }
    Ok(())
}

/// The number of a refusal and its values.
fn put_reason(
    alloc: Global,
    out: &mut Vec<u8>,
    ids: &[NodeId],
    reason: &Reason,
) -> Result<(), AllocError>
    ensures { OnOk result ((s : Settings) → ids.now ≡ node_ids s →
        out.new.items ≡ out.old.items ++ reason_text s reason.now) }
{
    put_number(out, u64::from(reason.code))?;
    put_values_after(alloc, out, ids, reason.values.as_slice())
}

/// That an event is refused, and why. That memory ran out isn't reported.
pub(crate) fn put_refusal<
    B: Book<
        Request = Request,
        Gov = GovernanceRequest,
        Reads = Reads,
        Response = Response,
        Refused = Rejection,
    >,
>(alloc: Global, out: &mut Vec<u8>, ids: &[NodeId], refusal: &Refusal<B>) -> Result<(), AllocError>
    ensures reported { OnOk result ((s : Settings) → ids.now ≡ node_ids s → (o : ServiceOutcome) →
        Answers refusal.now o → out.new.items ≡ out.old.items ++ outcome_text s o) }
    ensures other { OnOk result (is_no_memory refusal.now ≡ false) }
{
    let Some(reason) = reason_of(alloc, refusal)? else {
        return Err(AllocError);
    };
    out.extend_from_slice(b"refused ")?;
    put_reason(alloc, out, ids, &reason)?;
    Ok(())
}

/// The answers of an application's request. Of a request of governance nothing is reported here.
fn put_given(alloc: Global, out: &mut Vec<u8>, given: &Response) -> Result<(), AllocError>
    ensures { OnOk result (out.new.items ≡ out.old.items ++ given_text given.now) }
{
    match given {
        Response::Replied(reply) => {
            out.extend_from_slice(b" ")?;
            put_answers(alloc, out, reply)
        }
        Response::Governed(_) => Ok(()),
    }
}

/// An identifier after a word.
fn put_id(out: &mut Vec<u8>, word: &[u8], view: u32, seqno: u64) -> Result<(), AllocError>
    ensures { OnOk result (out.new.items ≡ out.old.items ++ (word.now ++ id_text view seqno)) }
{
    out.extend_from_slice(word)?;
    TxId { view, seqno }.push_text(out)
}

/// What came of an event that isn't refused.
pub(crate) fn put_outcome(
    alloc: Global,
    out: &mut Vec<u8>,
    outcome: &Outcome<Response>,
) -> Result<(), AllocError>
    ensures { OnOk result ((s : Settings) → out.new.items
        ≡ out.old.items ++ outcome_text s (seen_outcome {F = Why} outcome.now)) }
{
    match outcome {
        Outcome::Done => out.extend_from_slice(b"ok"),
        Outcome::Idle => out.extend_from_slice(b"idle"),
        Outcome::BecameCandidate => out.extend_from_slice(b"candidate"),
        Outcome::BecameLeader => out.extend_from_slice(b"leader"),
        Outcome::Accepted(view, seqno, given) => {
            put_id(out, b"accepted ", *view, *seqno)?;
            put_given(alloc, out, given)
        }
        Outcome::Signed(view, seqno) => put_id(out, b"signed ", *view, *seqno),
        Outcome::Committed(view, seqno) => put_id(out, b"commit ", *view, *seqno),
    }
}
