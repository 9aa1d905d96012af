//! The text of what came of a line.

ghost use Rattle.std.specs.Prelude.{◌≡◌, ◌+◌, ◌-◌, ◌++◌, ◌∷◌, [], ℕ, List, codes, decimal, true, OnOk};
ghost use Rattle.std.specs.List.{AllByRecursion, flat_map};
ghost use Rattle.std.specs.Option.{option_map};
ghost use Rattle.hex.specs.Hex.{encode_lower};
ghost use Rattle.gl_config.specs.Stages.{seen_stage};
ghost use Rattle.gl_entry.specs.Entry.{is_entry};
ghost use Rattle.gl_world.specs.Founding.{numbers_from};
ghost use Rattle.gl_schedule.specs.Text.{value_text, answer_text, answers_after, answers_text, status_text, stage_text, new_messages, no_proposal_text, unnamed_text, id_text, ids_text, entry_text, ledger_text, spent_text, with_numbers};
ghost use Rattle.gl_schedule.specs.Governed.{proposal_text, state_text};

use crate::proposals::NumberedProposal;
use gl_base::{Status, TxId};
use gl_config::Stage;
use gl_entry::Entry;
use gl_gov_rules::ProposalState;
use gl_tx::{Answer, Reply};
use itoa::Buffer;
use std::alloc::{AllocError, Global};

/// How many leaves the key of a member has.
const MEMBER_LEAVES: u64 = 32;

pub fn put_number(out: &mut Vec<u8>, n: u64) -> Result<(), AllocError>
    ensures { OnOk result (out.new.items ≡ out.old.items ++ decimal n) }
{
    out.extend_from_slice(Buffer::new().format(n).as_bytes())
}

/// A number after a space.
pub fn put_value(out: &mut Vec<u8>, n: u64) -> Result<(), AllocError>
    ensures { OnOk result (out.new.items ≡ out.old.items ++ (codes " " ++ decimal n)) }
{
    out.extend_from_slice(b" ")?;
    put_number(out, n)
}

/// Bytes in lower-case hexadecimal.
pub fn put_hex(alloc: Global, out: &mut Vec<u8>, bytes: &[u8]) -> Result<(), AllocError>
    ensures { OnOk result (out.new.items ≡ out.old.items ++ encode_lower bytes.now) }
{
    out.extend_from_slice(hex::encode(alloc, bytes)?.as_bytes())
}

/// A value in hexadecimal, of which a full stop stands for no bytes.
fn put_hex_value(alloc: Global, out: &mut Vec<u8>, value: &[u8]) -> Result<(), AllocError>
    ensures { OnOk result (out.new.items ≡ out.old.items ++ value_text value.now) }
{
    if value.is_empty() {
        out.extend_from_slice(b".")
    } else {
        put_hex(alloc, out, value)
    }
}

fn put_answer(alloc: Global, out: &mut Vec<u8>, answer: &Answer) -> Result<(), AllocError>
    ensures { OnOk result (out.new.items ≡ out.old.items ++ answer_text answer.now) }
{
    match answer {
        Answer::Done => out.extend_from_slice(b"done"),
        Answer::None => out.extend_from_slice(b"none"),
        Answer::Value(value) => {
            out.extend_from_slice(b"value ")?;
            put_hex_value(alloc, out, value.as_slice())
        }
        Answer::No => out.extend_from_slice(b"no"),
        Answer::Yes => out.extend_from_slice(b"yes"),
        Answer::Number(number) => {
            out.extend_from_slice(b"number ")?;
            put_number(out, *number)
        }
    }
}

fn put_answers_after(alloc: Global, out: &mut Vec<u8>, answers: &[Answer]) -> Result<(), AllocError>
    ensures { OnOk result (out.new.items ≡ out.old.items ++ answers_after answers.now) }
{
    for answer in answers {
        out.extend_from_slice(b" ; ")?;
        put_answer(alloc, out, answer)?;
    }
    Ok(())
}

pub fn put_answers(alloc: Global, out: &mut Vec<u8>, reply: &Reply) -> Result<(), AllocError>
    ensures { OnOk result (out.new.items ≡ out.old.items ++ answers_text reply.now) }
{
    match reply.as_slice() {
        [] => Ok(()),
        [first, rest @ ..] => {
            put_answer(alloc, out, first)?;
            put_answers_after(alloc, out, rest)
        }
    }
}

fn put_state(out: &mut Vec<u8>, state: ProposalState) -> Result<(), AllocError>
    ensures { OnOk result (out.new.items ≡ out.old.items ++ state_text state) }
{
    match state {
        ProposalState::Open => out.extend_from_slice(b"Open"),
        ProposalState::Accepted => out.extend_from_slice(b"Accepted"),
        ProposalState::Rejected => out.extend_from_slice(b"Rejected"),
        ProposalState::Withdrawn => out.extend_from_slice(b"Withdrawn"),
        ProposalState::Failed => out.extend_from_slice(b"Failed"),
        ProposalState::Dropped => out.extend_from_slice(b"Dropped"),
    }
}

/// A proposal and its state, if there is one to tell.
pub fn put_proposal(
    out: &mut Vec<u8>,
    proposal: &Option<NumberedProposal>,
) -> Result<(), AllocError>
    ensures { OnOk result (out.new.items ≡ out.old.items ++ proposal_text proposal.now) }
{
    match proposal {
        None => Ok(()),
        Some(proposal) => {
            out.extend_from_slice(b" proposal")?;
            put_value(out, proposal.number)?;
            out.extend_from_slice(b" ")?;
            put_state(out, proposal.state)
        }
    }
}

pub(crate) fn put_status(out: &mut Vec<u8>, status: Status) -> Result<(), AllocError>
    ensures { OnOk result (out.new.items ≡ out.old.items ++ status_text status) }
{
    match status {
        Status::Unknown => out.extend_from_slice(b"Unknown"),
        Status::Pending => out.extend_from_slice(b"Pending"),
        Status::Committed => out.extend_from_slice(b"Committed"),
        Status::Invalid => out.extend_from_slice(b"Invalid"),
    }
}

/// How far a retirement has come.
pub(crate) fn put_stage(out: &mut Vec<u8>, stage: Option<Stage>) -> Result<(), AllocError>
    ensures { OnOk result
        (out.new.items ≡ out.old.items ++ stage_text (option_map seen_stage stage)) }
{
    match stage {
        None => out.extend_from_slice(b"none"),
        Some(Stage::Ordered) => out.extend_from_slice(b"Ordered"),
        Some(Stage::Signed) => out.extend_from_slice(b"Signed"),
        Some(Stage::Completed) => out.extend_from_slice(b"Completed"),
        Some(Stage::RetiredCommitted) => out.extend_from_slice(b"RetiredCommitted"),
    }
}

fn id_of(entry: &Entry) -> TxId
    ensures { result ≡ record { view = entry.now.view; seqno = entry.now.seqno } }
{
    TxId {
        view: entry.view,
        seqno: entry.seqno,
    }
}

/// The identifiers of entries, each after a space.
fn put_ids_after(out: &mut Vec<u8>, entries: &[Entry]) -> Result<(), AllocError>
    ensures { OnOk result (out.new.items
        ≡ out.old.items ++ flat_map (λ e. codes " " ++ id_text e.view e.seqno) entries.now) }
{
    for entry in entries {
        out.extend_from_slice(b" ")?;
        id_of(entry).push_text(out)?;
    }
    Ok(())
}

pub(crate) fn put_ids(out: &mut Vec<u8>, entries: &[Entry]) -> Result<(), AllocError>
    ensures { OnOk result (out.new.items ≡ out.old.items ++ ids_text entries.now) }
{
    out.extend_from_slice(b"ids")?;
    put_ids_after(out, entries)
}

fn put_entry(alloc: Global, out: &mut Vec<u8>, entry: &Entry) -> Result<(), AllocError>
    requires { is_entry entry.now ≡ true }
    ensures { OnOk result (out.new.items ≡ out.old.items ++ entry_text entry.now) }
{
    out.extend_from_slice(b"\nentry ")?;
    id_of(entry).push_text(out)?;
    out.extend_from_slice(b" ")?;
    put_hex(alloc, out, &entry.encode(alloc)?)
}

fn put_entries(alloc: Global, out: &mut Vec<u8>, entries: &[Entry]) -> Result<(), AllocError>
    requires { AllByRecursion (λ e. is_entry e ≡ true) entries.now }
    ensures { OnOk result (out.new.items ≡ out.old.items ++ flat_map entry_text entries.now) }
{
    for entry in entries {
        put_entry(alloc, out, entry)?;
    }
    Ok(())
}

pub(crate) fn put_ledger(
    alloc: Global,
    out: &mut Vec<u8>,
    entries: &[Entry],
) -> Result<(), AllocError>
    requires { AllByRecursion (λ e. is_entry e ≡ true) entries.now }
    ensures { OnOk result (out.new.items ≡ out.old.items ++ ledger_text entries.now) }
{
    out.extend_from_slice(b"ledger ")?;
    put_number(out, entries.len() as u64)?;
    put_entries(alloc, out, entries)
}

/// That each leaf of a member's key is used, with their number.
pub(crate) fn put_spent(out: &mut Vec<u8>) -> Result<(), AllocError>
    ensures { OnOk result (out.new.items ≡ out.old.items ++ spent_text) }
{
    out.extend_from_slice(b"refused 113")?;
    put_value(out, MEMBER_LEAVES)
}

/// That a line names no node, no message, no member or no earlier request.
pub(crate) fn put_unnamed(out: &mut Vec<u8>) -> Result<(), AllocError>
    ensures { OnOk result (out.new.items ≡ out.old.items ++ unnamed_text) }
{
    out.extend_from_slice(b"refused 0")
}

/// That it names no proposal.
pub(crate) fn put_no_proposal(out: &mut Vec<u8>) -> Result<(), AllocError>
    ensures { OnOk result (out.new.items ≡ out.old.items ++ no_proposal_text) }
{
    out.extend_from_slice(b"refused 44")
}

/// The numbers of the messages after the first so many, up to so many.
fn put_numbers(out: &mut Vec<u8>, before: usize, now: usize) -> Result<(), AllocError>
    ensures { OnOk result (out.new.items
        ≡ with_numbers out.old.items (numbers_from (before + 1) (now - before))) }
{
    for index in before..now {
        put_value(out, index as u64 + 1)?;
    }
    Ok(())
}

/// The numbers of the new messages, if there are any.
pub(crate) fn put_sent(out: &mut Vec<u8>, before: usize, now: usize) -> Result<(), AllocError>
    ensures { OnOk result (out.new.items ≡ out.old.items ++ new_messages (now - before) before) }
{
    if now <= before {
        return Ok(());
    }
    out.extend_from_slice(b" sent")?;
    put_numbers(out, before, now)
}
