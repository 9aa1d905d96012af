//! What one message carries of a ledger.

ghost use Rattle.std.specs.Prelude.{◌≡◌, ◌≤◌, length, take, true, IsTrue, IfOk};
ghost use Rattle.std.specs.List.{AllByRecursion};
ghost use Rattle.gl_entry.specs.Entry.{is_entry};
ghost use Rattle.gl_messages.specs.Message.{entries_fit};
ghost use Rattle.gl_rules.specs.Replication.{batch, fitting_prefix};
ghost use Rattle.gl_ledger.specs.LedgerBook.{ledger_book};
ghost use Rattle.gl_ledger.specs.NodeKeys.{NodeKeys, service_layers};

use gl_entry::Entry;
use std::alloc::{AllocError, Global};

/// The most entries of a message.
const ENTRIES_LIMIT: usize = 64;

/// The most bytes of their frames, unless the first frame alone has more.
const FRAMES_LIMIT: u64 = 1_500_000;

/// How many of the first entries, at most so many, have frames of together at most so many bytes.
fn fitting_len(entries: &[Entry], most: usize, room: u64) -> usize
    requires { AllByRecursion (λ e. is_entry e ≡ true) entries.now }
    ensures value { (keys : NodeKeys) → take result entries.now
        ≡ fitting_prefix (ledger_book service_layers keys) most room entries.now }
    ensures within { result ≤ length entries.now }
{
    let mut left = room;
    for (count, entry) in entries.iter().enumerate() {
        let size = entry.frame_len();
        if count == most || size > left {
            return count;
        }
        left -= size;
    }
    entries.len()
}

/// How many of the entries one message carries.
fn batch_len(entries: &[Entry]) -> usize
    requires { AllByRecursion (λ e. is_entry e ≡ true) entries.now }
    ensures value { (keys : NodeKeys) →
        take result entries.now ≡ batch (ledger_book service_layers keys) entries.now }
    ensures within { result ≤ length entries.now }
{
    match entries.split_first() {
        None => 0,
        Some((first, rest)) => {
            let room = FRAMES_LIMIT.saturating_sub(first.frame_len());
            1 + fitting_len(rest, ENTRIES_LIMIT - 1, room)
        }
    }
}

fn copies(alloc: Global, entries: &[Entry]) -> Result<Vec<Entry>, AllocError>
    ensures { IfOk result (λ copies. copies.items ≡ entries.now) }
{
    let mut copies = Vec::with_capacity(alloc, entries.len())?;
    for entry in entries {
        copies.push(entry.copy(alloc)?)?;
    }
    Ok(copies)
}

/// Copies of the first entries, as many as one message carries.
pub(crate) fn batch(alloc: Global, entries: &[Entry]) -> Result<Vec<Entry>, AllocError>
    requires { AllByRecursion (λ e. is_entry e ≡ true) entries.now }
    ensures value { IfOk result (λ copies. (keys : NodeKeys) →
        copies.items ≡ batch (ledger_book service_layers keys) entries.now) }
    ensures fits { IfOk result (λ copies. IsTrue (entries_fit copies.items)) }
{
    let count = batch_len(entries);
    copies(alloc, &entries[..count])
}
