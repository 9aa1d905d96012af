//! The ledger of a node's file, as the records of the file build it.

ghost use Rattle.std.specs.Prelude.{◌≡◌, [], ◌∷◌, ◌++◌, None, Ok, Some, IfErr, IfOk, IfSome, option_map, true, false};
ghost use Rattle.gl_entry.specs.Entry.{frame_bytes, is_entry};
ghost use Rattle.gl_ledger.specs.Behind.{IsBaseBody};
ghost use Rattle.gl_ledger.specs.declared.breach.Broken.{Broken};
ghost use Rattle.gl_snapshot.specs.Parsing.{body_of as governed_body};
ghost use Rattle.gl_snapshot_body.specs.Body.{body_bytes};
ghost use Rattle.gl_store_book.specs.BasedLedgers.{IsEncoded, broken_after, with_entries};
ghost use Rattle.gl_store_book.specs.Frames.{entry_of_frame, frames_of, goes_on_ledger, ledger_of_frames, snapshot_in, told_by};

use crate::book_ledger::BookLedger;
use gl_base::OrNoMemory;
use gl_entry::Entry;
use gl_journal::{EntryLog, Installed};
use gl_snapshot::read_governed_body;
use gl_snapshot_body::Body;
use std::alloc::{AllocError, Global};

/// A valid ledger: each of its entries breaks no rule of the audit after those before it. It may
/// begin behind the snapshot that the file holds. It takes no memory before its first entry or its
/// snapshot.
#[derive(Drop)]
pub struct LedgerLog {
    ledger: Option<BookLedger>,
}

/// The entry whose frame the bytes are, all of them.
fn entry_of_frame(alloc: Global, frame: &[u8]) -> Result<Option<Entry>, AllocError>
    ensures value { IfOk result (λ entry. entry ≡ entry_of_frame frame.now) }
    ensures encoded { IfOk result (λ entry.
        IfSome entry (λ e. (is_entry e ≡ true) × (frame.now ≡ frame_bytes e))) }
{
    match Entry::decode(alloc, frame) {
        Ok((entry, len)) => {
            if len != frame.len() {
                return Ok(None);
            }
            Ok(Some(entry))
        }
        Err(OrNoMemory::Fault(_)) => Ok(None),
        Err(OrNoMemory::NoMemory) => Err(AllocError),
    }
}

impl LedgerLog {
    /// A ledger of no entries behind the body of a snapshot.
    pub(crate) fn from_body(alloc: Global, body: Body) -> Result<Self, AllocError>
        requires read { IsBaseBody body }
        ensures frames { IfOk result (λ log. frames_of log.ledger ≡ []) }
        ensures snapshot { IfOk result (λ log. snapshot_in log.ledger ≡ Some (body_bytes body)) }
    {
        let ledger = BookLedger::from_body(alloc, body)?;
        Ok(LedgerLog {
            ledger: Some(ledger),
        })
    }

    /// The ledger. Takes memory only where there is none yet.
    pub(crate) fn into_ledger(self, alloc: Global) -> Result<BookLedger, AllocError>
        ensures frames { IfOk result (λ ledger. frames_of self.ledger ≡ frames_of (Some ledger)) }
        ensures snapshot { IfOk result (λ ledger. snapshot_in self.ledger ≡ ledger.snapshot) }
        ensures entries { IfOk result (λ ledger.
            ledger_of_frames (frames_of self.ledger) ≡ Some ledger.entries) }
        ensures spelled { IfOk result (λ ledger. IsEncoded ledger.snapshot) }
        ensures none { IfErr result (λ e. self.ledger ≡ None) }
    {
        match self.ledger {
            Some(ledger) => {
                prove!(ledger.len() < 1 << 40);
                Ok(ledger)
            }
            None => BookLedger::new(alloc),
        }
    }
}

/// Adds an entry to a ledger, and answers whether it breaks no rule there.
fn try_apply(ledger: &mut BookLedger, entry: Entry) -> Result<bool, AllocError>
    ensures added { result ≡ Ok true → (broken_after ledger.old entry ≡ None)
        × (ledger.new ≡ with_entries ledger.old (ledger.old.entries ++ entry ∷ [])) }
    ensures refused { result ≡ Ok false →
        (b : Broken) × (broken_after ledger.old entry ≡ Some b) }
{
    match ledger.apply(entry) {
        Ok(()) => Ok(true),
        Err(OrNoMemory::Fault(_)) => Ok(false),
        Err(OrNoMemory::NoMemory) => Err(AllocError),
    }
}

/// The body that the bytes are, if they are one whose rows of governance spell.
fn body_in(alloc: Global, bytes: &[u8]) -> Result<Option<Body>, AllocError>
    ensures told { IfOk result (λ body. told_by (governed_body 0 bytes.now)
        ≡ option_map (λ b. record { base = b.base; view = b.view }) body) }
    ensures read { IfOk result (λ body. IfSome body (λ b.
        IsBaseBody b × (bytes.now ≡ body_bytes b))) }
{
    match read_governed_body(alloc, 0, bytes) {
        Ok(read) => Ok(Some(read.body)),
        Err(OrNoMemory::Fault(_)) => Ok(None),
        Err(OrNoMemory::NoMemory) => Err(AllocError),
    }
}

impl EntryLog for LedgerLog {
    ghost goes_on = { goes_on_ledger };

    ghost snapshot = { λ log. snapshot_in log.ledger };

    ghost frames = { λ log. frames_of log.ledger };

    fn new(_alloc: Global) -> Self {
        LedgerLog { ledger: None }
    }

    fn len(&self) -> u64 {
        match &self.ledger {
            Some(ledger) => ledger.tail().entries().len() as u64,
            None => 0,
        }
    }

    fn push(&mut self, alloc: Global, frame: &[u8]) -> Result<bool, AllocError> {
        let Some(entry) = entry_of_frame(alloc, frame)? else {
            return Ok(false);
        };
        match &mut self.ledger {
            Some(ledger) => {
                prove!(ledger.len() < 1 << 40);
                try_apply(ledger, entry)
            }
            None => {
                let mut ledger = BookLedger::new(alloc)?;
                let added = try_apply(&mut ledger, entry)?;
                self.ledger = Some(ledger);
                Ok(added)
            }
        }
    }

    fn cut(&mut self, len: u64) {
        if let Some(ledger) = &mut self.ledger {
            let base = ledger.tail().base();
            ledger.cut(base.saturating_add(len));
        }
    }

    fn install(&mut self, alloc: Global, body: &[u8]) -> Result<Option<Installed>, AllocError> {
        let Some(body) = body_in(alloc, body)? else {
            return Ok(None);
        };
        let at = Installed {
            base: body.base,
            view: body.view,
        };
        let ledger = BookLedger::from_body(alloc, body)?;
        self.ledger = Some(ledger);
        Ok(Some(at))
    }
}
