//! What a node does with payloads and with events of its own.

ghost use Rattle.std.specs.Prelude.{◌≡◌, ◌⊎◌, ℕ, [], ◌∷◌, IfOk, IsTrue, length, true};
ghost use Rattle.gl_messages.specs.Answer.{answer_body_fits};
ghost use Rattle.gl_messages.specs.declared.answer.AnswerBody.TheVariants.{StatusIs};
ghost use Rattle.gl_receipt.specs.Made.{receipt_of};
ghost use Rattle.gl_answers.specs.Limits.{FitsGiven};
ghost use Rattle.gl_answers.specs.Receipts.{receipts_of};
ghost use Rattle.gl_replication.specs.Events.{AreFit, IsAccepted, has_few_entries, is_request};
ghost use Rattle.gl_replication.specs.declared.event.Event.TheVariants as events;
ghost use Rattle.gl_replication.specs.Stands.{Reports};
ghost use Rattle.gl_rules.specs.Log.{entry_at, is_signature_in};
ghost use Rattle.gl_rules.specs.Replication.{is_evidence_due};
ghost use Rattle.gl_rules.specs.Safety.{reported_status};
ghost use Rattle.gl_serve.specs.Rules.{Fits};
ghost use Rattle.gl_serve.specs.ClientAnswers.{Answers, IsAnswered, Says, message_outcome, nothing, reason_answer_body, receipt_answer_body};
ghost use Rattle.gl_serve.specs.Events.{Happens};
ghost use Rattle.gl_serve.specs.NodeWork.{Asks, Comes, Handles, Happen, HappenDue, HappenUnsigned, Owns, Questions, Report, SaysPart};

use crate::answers::{
    accept, answer, json_answer_body, make_reason, reason_answer_body, refusal_answer_body,
};
use crate::heard::is_heard;
use crate::payload::{Ask, Payload};
use crate::peer_message::PeerMessage;
use crate::{Outcome, OwnEvent};
use gl_answers::{ClientBook, Reason, part_of_snapshot};
use gl_base::{OrNoMemory, Sequence, TxId};
use gl_messages::AnswerBody;
use gl_node::{KeptBook, NodeFault, Replica};
use gl_outside::Disk;
use gl_receipt::write_receipt;
use gl_replication::{Core, Done, Event};
use std::alloc::Global;

/// An event happens.
fn apply_event<D: Disk, B: KeptBook + ClientBook>(
    replica: &mut Replica<D, B>,
    event: Event<B>,
) -> Result<Done<B>, NodeFault<B>>
    requires few { has_few_entries event ≡ true }
    ensures happens { Happens B.stands B.goes_on D.honest D.bytes D.past D.faults
        event replica.old result replica.new }
    ensures fits { IfOk result (λ done. AreFit done.sent) }
    ensures accepted { IfOk result (λ done.
        is_request event ≡ true → IsAccepted FitsGiven done.outcome) }
{
    replica.core().book.keeps_limits();
    replica.event(event)
}

/// Nothing is sent.
fn nothing(alloc: Global) -> Outcome
    ensures outcome { result ≡ nothing }
    ensures fits { Fits result }
{
    Outcome::Done {
        messages: Sequence::from(Vec::new(alloc)),
        answer: None,
        heard: false,
    }
}

/// A message of a peer.
fn on_message<D: Disk, B: KeptBook + ClientBook>(
    replica: &mut Replica<D, B>,
    message: PeerMessage,
) -> Outcome
    ensures comes { Comes B.stands B.goes_on D.honest D.bytes D.past D.faults
        (events.Message message) replica.old replica.new (λ came.
        result ≡ message_outcome message.view replica.new.core.peer.view came) }
    ensures fits { Fits result }
{
    let alloc = replica.core().alloc;
    let view = message.view();
    match apply_event(replica, Event::Message(message.into_message())) {
        Ok(done) => {
            let heard = is_heard(view, replica.core().peer.view, done.sent.as_slice());
            Outcome::Done {
                messages: done.sent,
                answer: None,
                heard,
            }
        }
        Err(NodeFault::Refused(_)) => nothing(alloc),
        Err(_) => Outcome::Stopped,
    }
}

/// A request of a client.
fn on_request<D: Disk, B: KeptBook + ClientBook>(
    replica: &mut Replica<D, B>,
    number: u64,
    event: Event<B>,
) -> Outcome
    requires request { is_request event ≡ true }
    requires few { has_few_entries event ≡ true }
    ensures comes { Comes B.stands B.goes_on D.honest D.bytes D.past D.faults
        event replica.old replica.new (λ came. Answers number came result) }
    ensures fits { Fits result }
    ensures answered { IsAnswered number result }
{
    let alloc = replica.core().alloc;
    match apply_event(replica, event) {
        Ok(done) => accept(alloc, number, done),
        Err(NodeFault::Refused(why)) => answer(alloc, number, refusal_answer_body(alloc, &why)),
        Err(_) => Outcome::Stopped,
    }
}

/// The receipt of a transaction as it is reported, or that memory ran out.
fn receipt_answer_body<B: KeptBook + ClientBook>(core: &Core<B>, id: TxId) -> AnswerBody
    ensures due { Reports B.stands core.now (λ b x n.
        Says (receipt_answer_body
        (receipt_of (receipts_of n.base n.log n.commit) id)) result) }
    ensures fits { IsTrue (answer_body_fits result) }
{
    match core.book.receipt(core.commit, id) {
        Ok(receipt) => match write_receipt(core.alloc, &receipt) {
            Ok(json) => json_answer_body(core.alloc, json),
            Err(_) => AnswerBody::Memory,
        },
        Err(OrNoMemory::Fault(fault)) => match make_reason(core.alloc, fault) {
            Ok(reason) => reason_answer_body(core.alloc, &reason),
            Err(_) => AnswerBody::Memory,
        },
        Err(OrNoMemory::NoMemory) => AnswerBody::Memory,
    }
}

/// A part of the snapshot that the node offers as it is reported, or that memory ran out.
fn part_answer_body<B: KeptBook + ClientBook>(core: &Core<B>, offset: u64) -> AnswerBody
    ensures due { Reports B.stands core.now (λ b x n. SaysPart b n offset result) }
    ensures fits { IsTrue (answer_body_fits result) }
{
    match part_of_snapshot(core, offset) {
        Ok(Some(part)) => AnswerBody::Part {
            total: part.total,
            bytes: part.bytes,
        },
        Ok(None) => match Reason::numbers(core.alloc, 81, &[core.commit]) {
            Ok(reason) => reason_answer_body(core.alloc, &reason),
            Err(_) => AnswerBody::Memory,
        },
        Err(_) => AnswerBody::Memory,
    }
}

/// What a client asks.
fn on_ask<D: Disk, B: KeptBook + ClientBook>(
    replica: &mut Replica<D, B>,
    number: u64,
    ask: Ask,
) -> Outcome
    ensures asks { Asks B.stands B.goes_on D.honest D.bytes D.past D.faults
        replica.old number ask result replica.new }
    ensures fits { Fits result }
    ensures answered { IsAnswered number result }
{
    match ask {
        Ask::Submit(request) => on_request(replica, number, Event::Submit(request)),
        Ask::Govern(request) => on_request(replica, number, Event::Govern(request)),
        Ask::StatusOf(id) => status_of(replica, number, id),
        Ask::ReceiptOf(id) => receipt(replica, number, id),
        Ask::SnapshotPart { offset } => part(replica, number, offset),
    }
}

fn status_of<D: Disk, B: KeptBook + ClientBook>(
    replica: &Replica<D, B>,
    number: u64,
    id: TxId,
) -> Outcome
    ensures reported { Report B.stands B.goes_on D.honest D.bytes D.past D.faults
        replica.now.stopped replica.now number
        (λ b n reported. reported ≡ StatusIs (reported_status b n id)) result }
    ensures fits { Fits result }
    ensures answered { IsAnswered number result }
{
    if replica.stopped().is_some() {
        return Outcome::Stopped;
    }
    let core = replica.core();
    answer(core.alloc, number, AnswerBody::StatusIs(core.status(id)))
}

fn receipt<D: Disk, B: KeptBook + ClientBook>(
    replica: &Replica<D, B>,
    number: u64,
    id: TxId,
) -> Outcome
    ensures reported { Report B.stands B.goes_on D.honest D.bytes D.past D.faults
        replica.now.stopped replica.now number
        (λ b n. Says (receipt_answer_body
        (receipt_of (receipts_of n.base n.log n.commit) id))) result }
    ensures fits { Fits result }
    ensures answered { IsAnswered number result }
{
    if replica.stopped().is_some() {
        return Outcome::Stopped;
    }
    let core = replica.core();
    answer(core.alloc, number, receipt_answer_body(core, id))
}

/// The bytes of the snapshot are kept at hand, so that they aren't made anew for each part.
fn part<D: Disk, B: KeptBook + ClientBook>(
    replica: &mut Replica<D, B>,
    number: u64,
    offset: u64,
) -> Outcome
    ensures reported { Report B.stands B.goes_on D.honest D.bytes D.past D.faults
        replica.old.stopped replica.old number
        (λ b n reported. SaysPart b n offset reported) result }
    ensures same { replica.new ≡ replica.old }
    ensures fits { Fits result }
    ensures answered { IsAnswered number result }
{
    if replica.stopped().is_some() {
        return Outcome::Stopped;
    }
    let alloc = replica.core().alloc;
    if replica.keep_at_hand().is_err() {
        return answer(alloc, number, AnswerBody::Memory);
    }
    answer(alloc, number, part_answer_body(replica.core(), offset))
}

/// A payload comes.
pub fn handle<D: Disk, B: KeptBook + ClientBook>(
    replica: &mut Replica<D, B>,
    payload: Payload,
) -> Outcome
    ensures handles { Handles B.stands B.goes_on D.honest D.bytes D.past D.faults
        replica.old payload result replica.new }
    ensures fits { Fits result }
{
    match payload {
        Payload::Peer(message) => on_message(replica, message),
        Payload::Client { number, ask } => on_ask(replica, number, ask),
    }
}

/// An event of the node's own happens.
fn happen_alone<D: Disk, B: KeptBook + ClientBook>(
    replica: &mut Replica<D, B>,
    event: Event<B>,
) -> Outcome
    requires few { has_few_entries event ≡ true }
    ensures apply_event { Happen B.stands B.goes_on D.honest D.bytes D.past D.faults
        replica.old event result replica.new }
    ensures fits { Fits result }
{
    match apply_event(replica, event) {
        Ok(done) => Outcome::Done {
            messages: done.sent,
            answer: None,
            heard: false,
        },
        Err(NodeFault::Refused(_)) => nothing(replica.core().alloc),
        Err(_) => Outcome::Stopped,
    }
}

/// Whether the last entry is a signature of the node's view.
fn is_signed<B: KeptBook + ClientBook>(core: &Core<B>) -> bool
    ensures { Reports B.stands core.now (λ b x n.
        result ≡ is_signature_in b n.view (entry_at n.log (length n.log))) }
{
    core.book
        .is_signature_in(core.peer.view, core.book.ledger_len())
}

/// An event of the node's own happens, unless the last entry is a signature of its view.
fn happen_unsigned<D: Disk, B: KeptBook + ClientBook>(
    replica: &mut Replica<D, B>,
    event: Event<B>,
) -> Outcome
    requires few { has_few_entries event ≡ true }
    ensures apply_event { HappenUnsigned B.stands B.goes_on D.honest D.bytes D.past D.faults
        replica.old event result replica.new }
    ensures fits { Fits result }
{
    if is_signed(replica.core()) {
        return nothing(replica.core().alloc);
    }
    happen_alone(replica, event)
}

/// Evidence of a snapshot is made, where it is due.
fn happen_due<D: Disk, B: KeptBook + ClientBook>(
    replica: &mut Replica<D, B>,
    event: Event<B>,
) -> Outcome
    requires few { has_few_entries event ≡ true }
    ensures apply_event { HappenDue B.stands B.goes_on D.honest D.bytes D.past D.faults
        replica.old event result replica.new }
    ensures fits { Fits result }
{
    if !replica.core().is_evidence_due() {
        return nothing(replica.core().alloc);
    }
    happen_alone(replica, event)
}

/// An event of the node's own.
pub fn own<D: Disk, B: KeptBook + ClientBook>(
    replica: &mut Replica<D, B>,
    event: OwnEvent,
) -> Outcome
    ensures owns { Owns B.stands B.goes_on D.honest D.bytes D.past D.faults
        replica.old event result replica.new }
    ensures fits { Fits result }
{
    match event {
        OwnEvent::Replicate(peer) => happen_alone(replica, Event::Replicate(peer)),
        OwnEvent::Reserve => happen_unsigned(replica, Event::Reserve),
        OwnEvent::Sign => happen_unsigned(replica, Event::Sign),
        OwnEvent::Advance => happen_alone(replica, Event::Advance),
        OwnEvent::Evidence => happen_due(replica, Event::Evidence),
        OwnEvent::Timeout => happen_alone(replica, Event::Timeout),
    }
}
