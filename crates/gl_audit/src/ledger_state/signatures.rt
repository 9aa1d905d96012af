//! The seqnos of a ledger's signatures.

ghost use Rattle.std.specs.Prelude.{◌≡◌, ◌-◌, ◌≤◌, length, nat_le, slice_get, take, true, false};
ghost use Rattle.std.specs.List.Sorted.{IsPartitionPoint, IsPartitionedBy};
ghost use Rattle.std.specs.Option.{unwrap_or};
ghost use Rattle.gl_rules.specs.Log.{entry_at};
ghost use Rattle.gl_audit.specs.Kept.{ForStates};

use super::LedgerState;

/// How many of the seqnos, which ascend, are at most this one.
pub fn count_up_to(seqnos: &[u64], limit: u64) -> usize
    ensures within { result ≤ length seqnos.now }
    ensures point { IsPartitionedBy (λ seqno. nat_le seqno limit) seqnos.now →
        IsPartitionPoint (λ seqno. nat_le seqno limit ≡ true) (λ seqno. nat_le seqno limit ≡ false)
        seqnos.now result }
{
    seqnos.partition_point(
        |seqno: &u64| -> bool
            ensures { result ≡ nat_le seqno.now limit }
        { *seqno <= limit },
    )
}

/// The seqno at a place of the list, which counts from 0.
pub fn seqno_at(seqnos: &[u64], place: usize) -> Option<u64>
    ensures { result ≡ slice_get seqnos.now place }
{
    seqnos.get(place).copied()
}

/// The last seqno, 0 where there is none.
fn last_or_zero(seqnos: &[u64]) -> u64
    ensures { result ≡ unwrap_or (slice_get seqnos.now (length seqnos.now - 1)) 0 }
{
    match seqnos.last() {
        None => 0,
        Some(seqno) => *seqno,
    }
}

impl LedgerState {
    ghost use Rattle.gl_ledger.specs.Past.{past_over};

    /// The seqno of the last signature, 0 where there is none.
    pub fn last_signed(&self) -> u64
        ensures { ForStates self.now (λ body es.
            result ≡ (past_over body es).last_signed) }
    {
        last_or_zero(&self.signatures)
    }

    /// The seqno of the last signature up to a seqno, which is not below the base; 0 where there is
    /// none.
    pub fn last_signed_up_to(&self, to: u64) -> u64
        ensures { ForStates self.now (λ body es. body.base ≤ to →
            result ≡ (past_over body (take (to - body.base) es)).last_signed) }
    {
        let count = count_up_to(&self.signatures, to);
        let (prefix, _) = self.signatures.split_at(count);
        last_or_zero(prefix)
    }

    /// Whether the entry with a seqno is a signature; each one up to the base counts as one.
    pub(crate) fn signs_at(&self, seqno: u64) -> bool
        ensures { ForStates self.now (λ body es.
            result ≡ (past_over body es).signs_at seqno) }
    {
        seqno != 0 && (seqno <= self.base || self.last_signed_up_to(seqno) == seqno)
    }
}
