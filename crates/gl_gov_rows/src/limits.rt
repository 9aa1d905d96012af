//! What is asked of a row of governance that was read.

ghost use Rattle.std.specs.Prelude.{◌≡◌, ◌⊎◌, ◌+◌, ◌<◌, ◌&&◌, Ok, Err, cond, length, nat_le, true};
ghost use Rattle.std.specs.List.{flat_map};
ghost use Rattle.gl_requests.specs.Encoding.{action_bytes};
ghost use Rattle.gl_gov_rules.specs.GovernedRows.{first_byte, is_one_byte, is_removed_status, is_node_row, is_proposal_row};
ghost use Rattle.gl_gov_rows.specs.Reading.{at_index};

use gl_base::{CodeFault, OrNoMemory, same_bytes};
use gl_gov_rules::{MemberRow, MemberStatus, NodeRow, ProposalRow};
use sha2::{Digest as _, Sha256};

/// The most bytes of an endorsement.
const ENDORSEMENT_LIMIT: usize = 2508;

/// The most actions of a proposal.
const ACTIONS_LIMIT: usize = 16;

/// The most bytes of a proposal's actions.
const ACTION_BYTES_LIMIT: usize = 60_000;

/// So many kinds of actions are numbered from 1.
const ACTION_KINDS: u8 = 7;

/// A value that was read, or the index of its row where it doesn't spell.
pub(crate) fn spelled<T>(
    index: usize,
    read: Result<T, OrNoMemory<CodeFault>>,
) -> Result<T, OrNoMemory<usize>>
    ensures { result ≡ at_index index read }
{
    match read {
        Ok(value) => Ok(value),
        Err(OrNoMemory::NoMemory) => Err(OrNoMemory::NoMemory),
        Err(OrNoMemory::Fault(_)) => Err(OrNoMemory::Fault(index)),
    }
}

/// The row at an index doesn't spell where this doesn't hold.
pub(crate) fn required(index: usize, holds: bool) -> Result<(), OrNoMemory<usize>>
    ensures { result ≡ cond holds (Ok tt) (Err (OrNoMemory.Fault index)) }
{
    if holds {
        Ok(())
    } else {
        Err(OrNoMemory::Fault(index))
    }
}

pub(crate) fn is_removed(member: &MemberRow) -> bool
    ensures { result ≡ is_removed_status member.now.status }
{
    matches!(member.status, MemberStatus::Removed)
}

/// How many members are present with one more, which is or isn't removed.
pub(crate) fn with_one_more(present: usize, removed: bool) -> usize
    requires { (removed ≡ true) ⊎ (present < 64) }
    ensures { result ≡ present + cond removed 0 1 }
{
    if removed { present } else { present + 1 }
}

/// The first byte of a key, 0 where it is empty.
pub(crate) fn first_byte(key: &[u8]) -> u8
    ensures { result ≡ first_byte key.now }
{
    match key.first() {
        None => 0,
        Some(byte) => *byte,
    }
}

/// Whether a key is one byte that isn't 0.
pub(crate) fn is_one_byte(key: &[u8]) -> bool
    ensures { result ≡ is_one_byte key.now }
{
    key.len() == 1 && first_byte(key) > 0
}

pub(crate) fn is_node(node: &NodeRow) -> bool
    ensures { result ≡ is_node_row node.now }
{
    node.order >= 1
        && same_bytes(&node.id, &Sha256::digest(&node.key))
        && node.endorsement.len() <= ENDORSEMENT_LIMIT
}

/// Whether a key is the number of a kind of action.
pub(crate) fn is_rule_key(key: &[u8]) -> bool
    ensures { result ≡ (is_one_byte key.now && nat_le (first_byte key.now) 7) }
{
    is_one_byte(key) && first_byte(key) <= ACTION_KINDS
}

/// Whether a proposal has 1 to 16 actions, which are so few bytes.
pub(crate) fn is_proposal(proposal: &ProposalRow, bytes: usize) -> bool
    requires { bytes ≡ length (flat_map action_bytes proposal.now.actions) }
    ensures { result ≡ is_proposal_row proposal.now }
{
    let count = proposal.actions.len();
    1 <= count && count <= ACTIONS_LIMIT && bytes <= ACTION_BYTES_LIMIT
}
