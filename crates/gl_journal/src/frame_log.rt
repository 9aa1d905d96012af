//! A log that keeps the frames of its entries.

ghost use Rattle.std.specs.Prelude.{◌≡◌, None, IfOk};
ghost use Rattle.gl_journal.specs.Frames.{is_frame};
ghost use Rattle.gl_journal.specs.Parts.{items_of};

use crate::entry_log::EntryLog;
use crate::installed::Installed;
use gl_base::OrNoMemory;
use gl_entry::Entry;
use std::alloc::{AllocError, Global};

/// A log that keeps the frames of its entries. Every frame of an entry goes on it, and no snapshot:
/// it knows no rule of ledgers.
#[derive(Debug, Drop)]
pub struct FrameLog {
    pub frames: Vec<Vec<u8>>,
}

/// Whether the bytes are the frame of an entry, all of them.
fn is_frame(alloc: Global, bytes: &[u8]) -> Result<bool, AllocError>
    ensures { IfOk result (λ whole. whole ≡ is_frame bytes.now) }
{
    match Entry::decode(alloc, bytes) {
        Ok((_, len)) => Ok(len == bytes.len()),
        Err(OrNoMemory::Fault(_)) => Ok(false),
        Err(OrNoMemory::NoMemory) => Err(AllocError),
    }
}

impl EntryLog for FrameLog {
    ghost goes_on = { record { appends = λ _ _ frame. is_frame frame; installs = λ _. None } };

    ghost snapshot = { λ _. None };

    ghost frames = { λ log. items_of log.frames.items };

    fn new(alloc: Global) -> Self {
        FrameLog {
            frames: Vec::new(alloc),
        }
    }

    #[tactic(auto, using(crate::proofs::PartLaws::length_items_of))]
    fn len(&self) -> u64 {
        self.frames.len() as u64
    }

    #[tactic(auto, using(crate::proofs::PartLaws::items_of_push))]
    fn push(&mut self, alloc: Global, frame: &[u8]) -> Result<bool, AllocError> {
        if !is_frame(alloc, frame)? {
            return Ok(false);
        }
        self.frames.push(frame.to_vec(alloc)?)?;
        Ok(true)
    }

    #[tactic(auto, using(crate::proofs::PartLaws::items_of_take))]
    fn cut(&mut self, len: u64) {
        self.frames.truncate(len as usize);
    }

    fn install(&mut self, _alloc: Global, _body: &[u8]) -> Result<Option<Installed>, AllocError> {
        Ok(None)
    }
}
