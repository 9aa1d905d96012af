//! What receipts ask of the entries of a ledger.

ghost use Rattle.std.specs.Prelude.{◌≡◌, ◌+◌, ◌-◌, ◌<◌, ◌≤◌, IfNone, IfSome, length, take};
ghost use Rattle.std.specs.Option.{option_copied};
ghost use Rattle.gl_rules.specs.Log.{entry_at};

use super::LedgerTail;
use gl_audit::{SERVICE_KEY, SERVICE_MAP, count_up_to, key_after, seqno_at};
use gl_entry::Entry;
use gl_requests::HssPublicKey;

impl LedgerTail {
    ghost use Rattle.gl_receipt.specs.Made.{signature_above};
    ghost use Rattle.gl_ledger.specs.ServiceRow.{identity_in};
    ghost use Rattle.gl_ledger.specs.Snapshot.{tables_over};
    ghost use Rattle.gl_audit.specs.Kept.{key_of};
    ghost use Rattle.gl_store.specs.Tail.{ForBodies};

    /// The first signature above a seqno that isn't below the base, committed or not.
    pub fn first_signature_above(&self, seqno: u64) -> Option<&Entry>
        requires from_base { ForBodies self.now (λ body. body.base ≤ seqno) }
        ensures first { ForBodies self.now (λ body.
            option_copied result ≡ signature_above self.now.entries (seqno - body.base)) }
        ensures above { IfSome result (λ e. seqno < e.now.seqno) }
        ensures numbered { IfSome result (λ e. ForBodies self.now (λ body.
            entry_at self.now.entries (e.now.seqno - body.base) ≡ option_copied result)) }
    {
        let place = count_up_to(&self.state.signatures, seqno);
        match seqno_at(&self.state.signatures, place) {
            None => None,
            Some(signed) => self.entry(signed),
        }
    }

    /// The service's key in force at the seqno of an entry, or at a base above 0.
    pub fn identity_at(&self, seqno: u64) -> [u8; 60]
        requires from_one { 0 < seqno }
        requires from_base { ForBodies self.now (λ body. body.base ≤ seqno) }
        requires within { ForBodies self.now (λ body.
            seqno ≤ body.base + length self.now.entries) }
        ensures { ForBodies self.now (λ body. result ≡ identity_in
            (tables_over body (take (seqno - body.base) self.now.entries))) }
    {
        match self.key_at(seqno) {
            Some(key) => key,
            None => unreachable!(),
        }
    }

    /// The service's key in force at a seqno: that of the present, where its row was last written
    /// up to there. There is none at 0.
    fn key_at(&self, seqno: u64) -> Option<HssPublicKey>
        requires from_base { ForBodies self.now (λ body. body.base ≤ seqno) }
        requires within { ForBodies self.now (λ body.
            seqno ≤ body.base + length self.now.entries) }
        ensures key { ForBodies self.now (λ body. result ≡ key_of (identity_in
            (tables_over body (take (seqno - body.base) self.now.entries)))) }
        ensures none { IfNone result (seqno ≡ 0) }
    {
        if self.state.tables.version_of(SERVICE_MAP, SERVICE_KEY) <= seqno {
            return self.state.identity;
        }
        let (before, _) = self.entries.split_at((seqno - self.base_end.len) as usize);
        key_after(before).or(self.base_identity)
    }
}
