//! What an evidence makes after the entries of a ledger.

ghost use Rattle.std.specs.Prelude.{◌≡◌, Ok, IfOk, IfErr};
ghost use Rattle.gl_base.specs.Answers.{Fails};

use super::LedgerTail;
use crate::entries::NO_DIGEST;
use gl_base::{LAST_SEQNO, OrNoMemory};
use gl_entry::{Content, Entry};
use gl_ledger::{Refusal, Rejection};
use gl_vmaps::Writes;

impl LedgerTail {
    ghost use Rattle.gl_ledger.specs.Makers.{evidence_result};
    ghost use Rattle.gl_ledger.specs.Past.{past_over};
    ghost use Rattle.gl_store.specs.Tail.{ForBodies};

    /// The entry of an evidence after the entries in a view: the digest of the body of a snapshot
    /// of all of the ledger. Nothing is added. Refused, in this order, where the last entry is no
    /// signature, where the body has more than 4,000,000,000 bytes, and where no seqno is left.
    /// Reads each row twice, and copies none.
    pub fn evidence_entry(&self, view: u32) -> Result<Entry, OrNoMemory<Rejection>>
        ensures made { IfOk result (λ entry. ForBodies self.now (λ body.
            evidence_result (past_over body self.now.entries) view ≡ Ok entry)) }
        ensures refused { IfErr result (λ e. ForBodies self.now (λ body.
            Fails e (evidence_result (past_over body self.now.entries) view))) }
    {
        if !self.state.is_signed() {
            return Err(OrNoMemory::Fault(Rejection::NotAfterSignature));
        }
        let digest = match self.state.snapshot_digest() {
            Ok(digest) => digest,
            Err(OrNoMemory::NoMemory) => return Err(OrNoMemory::NoMemory),
            Err(OrNoMemory::Fault(size)) => {
                return Err(OrNoMemory::Fault(Rejection::ByStore(Refusal::TooLarge { size })));
            }
        };
        let seqno = self.next_seqno();
        if seqno > LAST_SEQNO {
            return Err(OrNoMemory::Fault(Rejection::ByStore(Refusal::SeqnoLimit)));
        }
        Ok(Entry {
            view,
            seqno,
            content: Content::Evidence(digest),
            writes: Writes::new(self.alloc),
            claims: NO_DIGEST,
        })
    }
}
