//! A ledger in memory, which is asked by scans.

ghost use Rattle.std.specs.Prelude.{◌≡◌, nat_le, reverse, option_map, unwrap_or};
ghost use Rattle.std.specs.List.{find};
ghost use Rattle.std.specs.Option.{option_copied};
ghost use Rattle.gl_entry.specs.Entry.{is_signature};
ghost use Rattle.gl_receipt.specs.Made.{entry_at, view_at, signature_above};

use gl_entry::{Content, Digest, Entry, leaf};
use gl_merkle::{Step, path};
use gl_receipt::CommittedLedger;
use std::alloc::{AllocError, Global};
use std::marker::Model;
use std::test::Fail;

/// The service's keys: the first, and each later one with the seqno from which it is in force.
#[derive(Drop)]
struct Keys {
    first: [u8; 60],
    later: Vec<(u64, [u8; 60])>,
}

/// Entries whose i-th has seqno i, and as many leaves. It tells of the entries above its base
/// alone, and of the views of all.
#[derive(Drop)]
pub(crate) struct MemLedger {
    alloc: Global,
    keys: Keys,
    commit: u64,
    base: u64,
    entries: Vec<Entry>,
    leaves: Vec<Digest>,
}

impl Model for MemLedger {
    ghost use Rattle.std.specs.Prelude.{◌≡◌, ℕ, suc, List, Some, length, slice_get};
    ghost use Rattle.gl_entry.specs.declared.entry.Entry.{Entry};
    ghost use Rattle.t_forms.specs.declared.receipt.mem_ledger.Keys.{Keys};

    ghost Value = { List Entry × List (List ℕ) × ℕ × ℕ × Keys };

    ghost view = { λ l. (l.entries.items, l.leaves.items, l.base, l.commit, l.keys) };

    ghost invariant = { λ l. (length l.leaves.items ≡ length l.entries.items)
        × ((i : ℕ) (e : Entry) → slice_get l.entries.items i ≡ Some e → e.seqno ≡ suc i) };
}

fn is_signature(content: &Content) -> bool
    ensures { result ≡ is_signature content.now }
{
    matches!(content, Content::Signature(_))
}

/// The first signature of these entries.
fn first_signature(entries: &[Entry]) -> Option<&Entry>
    ensures { option_copied result ≡ find (λ e. is_signature e.content) entries.now }
{
    entries.iter().find(|entry| is_signature(&entry.content))
}

/// The first signature above a seqno among entries from seqno 1 on.
fn signature_in(entries: &[Entry], seqno: u64) -> Option<&Entry>
    ensures { option_copied result ≡ signature_above entries.now seqno }
{
    first_signature(entries.get(seqno as usize..)?)
}

/// The entry with a seqno among entries from seqno 1 on.
fn entry_in(entries: &[Entry], seqno: u64) -> Option<&Entry>
    ensures { option_copied result ≡ entry_at entries.now seqno }
{
    match seqno.checked_sub(1) {
        None => None,
        Some(index) => entries.get(index as usize),
    }
}

/// The view of the entry with a seqno among entries from seqno 1 on.
fn view_in(entries: &[Entry], seqno: u64) -> Option<u32>
    ensures { result ≡ view_at entries.now seqno }
{
    match entry_in(entries, seqno) {
        None => None,
        Some(entry) => Some(entry.view),
    }
}

/// The last of these keys that is in force at a seqno.
fn last_key(keys: &[(u64, [u8; 60])], seqno: u64) -> Option<[u8; 60]>
    ensures { result ≡ option_map (λ key. key.1)
        (find (λ key. nat_le key.0 seqno) (reverse keys.now)) }
{
    let (_, key) = keys.iter().rev().find(|key| key.0 <= seqno)?;
    Some(*key)
}

impl Keys {
    /// The key in force at a seqno.
    fn at(&self, seqno: u64) -> [u8; 60]
        ensures { result ≡ unwrap_or (option_map (λ key. key.1)
            (find (λ key. nat_le key.0 seqno) (reverse self.now.later.items))) self.now.first }
    {
        last_key(&self.later, seqno).unwrap_or(self.first)
    }
}

impl MemLedger {
    /// Of no entries, with the service's first key and a commit.
    pub(crate) fn new(alloc: Global, identity: [u8; 60], commit: u64) -> MemLedger {
        MemLedger {
            alloc,
            keys: Keys {
                first: identity,
                later: Vec::new(alloc),
            },
            commit,
            base: 0,
            entries: Vec::new(alloc),
            leaves: Vec::new(alloc),
        }
    }

    /// From a seqno on the service has another key.
    pub(crate) fn recover(&mut self, seqno: u64, identity: [u8; 60]) -> Result<(), Fail> {
        self.keys.later.push((seqno, identity))?;
        Ok(())
    }

    /// Lets the entries up to a seqno go.
    pub(crate) fn let_go(&mut self, seqno: u64) {
        self.base = seqno;
    }

    /// Adds the entry of a frame, and its leaf.
    pub(crate) fn push(&mut self, frame: &[u8]) -> Result<(), Fail> {
        let (entry, _) = Entry::decode(self.alloc, frame)?;
        if entry.seqno != self.entries.len() as u64 + 1 {
            return Err(Fail::from("another seqno"));
        }
        self.leaves.reserve(1)?;
        let leaf = leaf(&entry, &self.keys.at(entry.seqno));
        self.entries.push(entry)?;
        self.leaves.push(leaf)?;
        Ok(())
    }
}

impl CommittedLedger for MemLedger {
    ghost use Rattle.std.specs.Prelude.{◌≡◌, length};

    ghost stands = { λ held l. l ≡ record {
      base = held.2;
      entries = held.0;
      leaves = held.1;
      commit = held.3;
      identity = λ seqno. unwrap_or (option_map (λ key. key.1)
          (find (λ key. nat_le key.0 seqno) (reverse held.4.later.items))) held.4.first;
    } };

    ghost base_of = { λ held. held.2 };

    ghost last_of = { λ held. length held.0 };

    fn base(&self) -> u64 {
        self.base
    }

    fn len(&self) -> u64 {
        self.entries.len() as u64
    }

    fn identity(&self, seqno: u64) -> [u8; 60] {
        self.keys.at(seqno)
    }

    fn commit(&self) -> u64 {
        self.commit
    }

    fn view_at(&self, seqno: u64) -> Option<u32> {
        view_in(&self.entries, seqno)
    }

    fn entry(&self, seqno: u64) -> Option<&Entry> {
        if seqno <= self.base {
            return None;
        }
        entry_in(&self.entries, seqno)
    }

    fn signature_above(&self, seqno: u64) -> Option<&Entry> {
        signature_in(&self.entries, seqno)
    }

    fn path(&self, seqno: u64, size: u64) -> Result<Vec<Step>, AllocError> {
        path(self.alloc, &self.leaves[..size as usize], seqno as usize)
    }
}
