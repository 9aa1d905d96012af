//! What receipts ask of a ledger.

ghost use Rattle.std.specs.Prelude.{◌≡◌, ◌-◌, ◌<◌, ◌≤◌, ℕ, length, take, IfOk, IfSome};
ghost use Rattle.std.specs.Option.{option_copied};
ghost use Rattle.gl_merkle.specs.Path.{path_of};
ghost use Rattle.gl_receipt.specs.Made.{Ledger, entry_at, entry_above_base, view_at, signature_above};

use gl_entry::Entry;
use gl_merkle::Step;
use std::alloc::AllocError;

/// A ledger of a service, of which a part is committed. Its i-th entry has seqno i. It may have let
/// its first entries go: its base is the seqno of the last of these, 0 where it has all. Their
/// views are known still.
pub trait CommittedLedger {
    // The ledgers that it may be: their base, their entries from seqno 1 on, the leaves of these,
    // their commit and the service's keys. What a call gives is so of each of them.
    ghost stands: { Self → Ledger → Type 0 };

    // Its base, and the seqno of its last entry.
    ghost base_of: { Self → ℕ };

    ghost last_of: { Self → ℕ };

    /// The seqno of the last entry that it let go; 0 where it has all.
    fn base(&self) -> u64
        ensures base { result ≡ base_of self.now }
        ensures stands { (l : Ledger) → stands self.now l → base_of self.now ≡ l.base };

    /// The number of its entries, those that it let go among them.
    fn len(&self) -> u64
        ensures last { result ≡ last_of self.now }
        ensures stands { (l : Ledger) → stands self.now l → last_of self.now ≡ length l.entries };

    /// The service's key in force at a seqno: an HSS public key (RFC 8554, section 6.1). A founding
    /// or a recovery names it, itself included.
    fn identity(&self, seqno: u64) -> [u8; 60]
        requires above_base { base_of self.now < seqno }
        requires within { seqno ≤ last_of self.now }
        ensures { (l : Ledger) → stands self.now l → result ≡ l.identity seqno };

    /// The seqno up to which the ledger is committed, itself included; 0 where nothing is.
    fn commit(&self) -> u64
        ensures { (l : Ledger) → stands self.now l → result ≡ l.commit };

    /// The view of the entry with a seqno, one that it let go too. `None` at 0 and above the last.
    fn view_at(&self, seqno: u64) -> Option<u32>
        ensures { (l : Ledger) → stands self.now l → result ≡ view_at l.entries seqno };

    /// The entry with a seqno above the base. `None` up to the base and above the last.
    fn entry(&self, seqno: u64) -> Option<&Entry>
        ensures entry { (l : Ledger) → stands self.now l →
            option_copied result ≡ entry_above_base l seqno }
        ensures within { IfSome result (λ e. seqno ≤ last_of self.now) }
        ensures numbered { IfSome result (λ e. e.now.seqno ≡ seqno) };

    /// The first signature above a seqno, committed or not.
    fn signature_above(&self, seqno: u64) -> Option<&Entry>
        requires above_base { base_of self.now ≤ seqno }
        ensures first { (l : Ledger) → stands self.now l →
            option_copied result ≡ signature_above l.entries seqno }
        ensures above { IfSome result (λ e. seqno < e.now.seqno) }
        ensures within { IfSome result (λ e. e.now.seqno ≤ last_of self.now) }
        ensures numbered { (l : Ledger) → stands self.now l → IfSome result (λ e.
            entry_at l.entries e.now.seqno ≡ option_copied result) };

    /// The steps from the leaf of the entry with a seqno to the root of the first `size` leaves:
    /// the leaf's sibling first.
    fn path(&self, seqno: u64, size: u64) -> Result<Vec<Step>, AllocError>
        requires above_base { base_of self.now < seqno }
        requires inside { seqno ≤ size }
        requires within { size ≤ last_of self.now }
        ensures { (l : Ledger) → stands self.now l → IfOk result (λ steps.
            steps.items ≡ path_of (take size l.leaves) seqno) };
}
