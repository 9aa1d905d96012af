//! The batch with which a node's file keeps an opening ledger.

ghost use Rattle.std.specs.Prelude.{◌≡◌, ◌+◌, ◌++◌, ◌≤◌, ◌<◌, ◌^◌, ◌&&◌, length, take, drop, true, IfOk, OnOk};
ghost use Rattle.std.specs.List.{AllByRecursion, flat_map, list_any};
ghost use Rattle.gl_entry.specs.Entry.{frame_bytes, is_entry};
ghost use Rattle.gl_gov_rules.specs.Nodes.{is_trusted_status, node_status, nodes};
ghost use Rattle.gl_gov_rules.specs.declared.change.RecordedNode as a_node;
ghost use Rattle.gl_rules.specs.Identity.{member, same};
ghost use Rattle.gl_journal.specs.Records.{records_bytes};
ghost use Rattle.gl_journal.specs.RecordView.{record_values};
ghost use Rattle.gl_ledger.specs.Recordings.{last_entry, trusted_nodes};
ghost use Rattle.gl_store_book.specs.AtOpening.{append_records, view_of_last, vote_at_opening};
ghost use Rattle.gl_node.specs.Kept.{is_same_vote};
ghost use Rattle.gl_store_book.specs.NodeFile.{node_of, seen_state};
ghost use Rattle.gl_store_book.specs.ServiceStart.{service_start};
ghost use Rattle.gl_store_book.specs.ViewVotes.{IsViewVoteOf, view_vote_records};

use crate::configurations::is_trusted;
use crate::node_file::ledger_log::LedgerLog;
use crate::node_file::opening_ledger::OpeningLedger;
use crate::whole_ledger::WholeLedger;
use gl_config::NodeId;
use gl_entry::Entry;
use gl_gov_rules::{History, RecordedNode};
use gl_journal::{Durable, Record};
use std::alloc::{AllocError, Global};

/// Whether two votes are one.
#[tactic(auto, unfolding(gl_rules::specs::Identity::same))]
fn is_same_vote(x: &Option<NodeId>, y: &Option<NodeId>) -> bool
    ensures { result ≡ is_same_vote x.now y.now }
{
    match (x, y) {
        (None, None) => true,
        (Some(x), Some(y)) => x == y,
        _ => false,
    }
}

/// Whether a node is trusted.
#[tactic(auto, unfolding(gl_rules::specs::Identity::same))]
fn is_trusted_node(past: &History, node: &NodeId, recorded: &RecordedNode) -> bool
    ensures { result ≡ (same node.now recorded.now.id
        && is_trusted_status (node_status past.now recorded.now)) }
{
    *node == recorded.id && is_trusted(past, recorded)
}

/// Whether one of the recorded nodes is this one and trusted.
fn is_trusted_now(past: &History, node: &NodeId) -> bool
    ensures { result ≡ list_any (λ (n : a_node.RecordedNode). same node.now n.id
        && is_trusted_status (node_status past.now n)) (nodes past.now) }
{
    past.nodes()
        .iter()
        .any(|recorded| is_trusted_node(past, node, recorded))
}

/// Whether a node is one of a ledger's trusted nodes.
fn is_trusted_in(ledger: &WholeLedger, node: &NodeId) -> bool
    ensures { result ≡ member node.now (trusted_nodes ledger.now) }
{
    is_trusted_now(ledger.history(), node)
}

/// The view in which a ledger opens its service.
pub(crate) fn opening_view(ledger: &WholeLedger) -> u32
    ensures { result ≡ view_of_last (last_entry ledger.now) }
{
    match ledger.entries().last() {
        None => 0,
        Some(entry) => entry.view,
    }
}

/// For whom a node has voted once its service opens.
pub(crate) fn vote_at_opening(
    state: &Durable<LedgerLog>,
    me: &NodeId,
    opening: &OpeningLedger,
) -> Option<NodeId>
    requires { me.now ≡ node_of (seen_state state.now) }
    ensures { result ≡ vote_at_opening (service_start opening.now.ledger opening.now.first)
        (seen_state state.now) }
{
    let view = opening_view(&opening.ledger);
    if state.has_vote_record && view <= state.view {
        return state.vote;
    }
    if is_trusted_in(&opening.ledger, me) {
        return Some(opening.first);
    }
    if state.view < view { None } else { state.vote }
}

/// A view and a vote, and whether one of them is another than the file's.
#[derive(Clone, Copy, Debug)]
pub struct ViewVote {
    pub view: u32,
    pub vote: Option<NodeId>,
    pub is_new: bool,
}

impl ViewVote {
    /// Those of a node once its service opens.
    pub(crate) fn at_opening(
        state: &Durable<LedgerLog>,
        me: &NodeId,
        opening: &OpeningLedger,
    ) -> ViewVote
        requires { me.now ≡ node_of (seen_state state.now) }
        ensures { IsViewVoteOf (service_start opening.now.ledger opening.now.first)
            (seen_state state.now) result }
    {
        let view = state.view.max(opening_view(&opening.ledger));
        let vote = vote_at_opening(state, me, opening);
        let is_new = state.view != view || !is_same_vote(&state.vote, &vote);
        ViewVote { view, vote, is_new }
    }

    /// How many bytes their record has, where one of them is new.
    #[tactic(auto, unfolding(gl_base::specs::LittleEndian::little_endian))]
    pub fn record_len(&self) -> u64
        ensures len { result ≡ length (records_bytes (view_vote_records self.now)) }
        ensures small { result ≤ 2 ^ 63 + 10 }
    {
        if !self.is_new {
            return 0;
        }
        match &self.vote {
            None => 10,
            Some(id) => 10 + id.as_slice().len() as u64,
        }
    }

    /// Adds their record, where one of them is new.
    fn push_record(&self, records: &mut Vec<Record<'_>>) -> Result<(), AllocError>
        ensures { OnOk result (record_values records.new.items
            ≡ record_values records.old.items ++ view_vote_records self.now) }
    {
        if self.is_new {
            records.push(Record::Vote {
                view: self.view,
                vote: self.vote,
            })?;
        }
        Ok(())
    }
}

/// How many bytes the records of entries have.
pub(crate) fn appends_len(entries: &[Entry]) -> u64
    requires fit { AllByRecursion (λ e. is_entry e ≡ true) entries.now }
    requires few { length entries.now < 2 ^ 40 }
    ensures len { result ≡ length (records_bytes (append_records entries.now)) }
    ensures small { result < 2 ^ 62 }
{
    let mut len: u64 = 0;
    for entry in entries {
        len += 5 + entry.frame_len();
    }
    len
}

/// The first so many bytes.
fn prefix(bytes: &[u8], len: usize) -> &[u8]
    requires { len ≤ length bytes.now }
    ensures { result.now ≡ take len bytes.now }
{
    &bytes[..len]
}

/// What stands after so many bytes.
pub(crate) fn suffix(bytes: &[u8], len: usize) -> &[u8]
    requires { len ≤ length bytes.now }
    ensures { result.now ≡ drop len bytes.now }
{
    &bytes[len..]
}

/// The record of a view and a vote, where one of them is new, and those of the entries whose frames
/// the bytes are, one after the other.
pub(crate) fn opening_records<'a>(
    alloc: Global,
    turn: &ViewVote,
    entries: &[Entry],
    bytes: &'a [u8],
) -> Result<Vec<Record<'a>>, AllocError>
    requires fit { AllByRecursion (λ e. is_entry e ≡ true) entries.now }
    requires frames { bytes.now ≡ flat_map frame_bytes entries.now }
    ensures { IfOk result (λ records.
        record_values records.items ≡ view_vote_records turn.now ++ append_records entries.now) }
{
    let mut records = Vec::new(alloc);
    turn.push_record(&mut records)?;
    let mut rest = bytes;
    for entry in entries {
        let len = entry.frame_len() as usize;
        records.push(Record::Append {
            frame: prefix(rest, len),
        })?;
        rest = suffix(rest, len);
    }
    Ok(records)
}
