//! Where the views of a ledger start, and the body of a snapshot of it.

ghost use Rattle.std.specs.Prelude.{◌≡◌, ◌+◌, ◌-◌, ◌<◌, ◌≤◌, ◌^◌, None, length, max, nat_le, slice_get, take, IfOk};
ghost use Rattle.std.specs.List.Sorted.{IsPartitionedBy};
ghost use Rattle.gl_base.specs.Answers.{Answers};
ghost use Rattle.gl_vmaps.specs.LastWrite.{last_such};
ghost use Rattle.gl_snapshot_body.specs.Body.{body_bytes};
ghost use Rattle.gl_snapshot_body.specs.Digest.{digest_within};
ghost use Rattle.gl_ledger.specs.Snapshot.{all_peaks, snapshot_over, view_at};
ghost use Rattle.gl_audit.specs.Ends.{end_over, view_of};
ghost use Rattle.gl_audit.specs.Kept.{starts_up_to, view_behind, ForStates, IsState};

use super::LedgerState;
use crate::ledger_end::LedgerEnd;
use gl_base::{OrNoMemory, Sequence};
use gl_entry::{Digest, Entry};
use gl_snapshot_body::{Body, BodyHead, ViewStart, digest_of_body};
use std::alloc::AllocError;

/// The start of a view with an entry.
pub(super) fn start_of(entry: &Entry) -> ViewStart
    ensures { result ≡ record { view = entry.now.view; seqno = entry.now.seqno } }
{
    ViewStart {
        view: entry.view,
        seqno: entry.seqno,
    }
}

/// Takes back the starts of views above a seqno. Takes no memory.
pub(super) fn cut_starts(views: &mut Vec<ViewStart>, to: u64)
    ensures { views.new.items ≡ starts_up_to to views.old.items }
{
    views.retain(|start| start.seqno <= to);
}

/// The start of a view at a place, if there is one.
fn start_at(views: &[ViewStart], place: usize) -> Option<ViewStart>
    ensures { result ≡ slice_get views.now place }
{
    views.get(place).copied()
}

/// The last start of a view at or below a seqno, among those that ascend.
fn last_start(views: &[ViewStart], seqno: u64) -> Option<ViewStart>
    ensures { IsPartitionedBy (λ start. nat_le start.seqno seqno) views.now →
        result ≡ last_such (λ start. nat_le start.seqno seqno) views.now }
{
    let count = views.partition_point(
        |start: &ViewStart| -> bool
            ensures { result ≡ nat_le start.now.seqno seqno }
        { start.seqno <= seqno },
    );
    if count == 0 {
        return None;
    }
    start_at(views, count - 1)
}

/// The view behind a base of which the view is known, where this start of a view is the last.
fn view_behind(start: Option<ViewStart>, base: u64, view: u32) -> u32
    ensures { result ≡ view_behind base view start }
{
    match start {
        Some(start) if start.seqno > base => start.view,
        _ => view,
    }
}

/// The view of the last entry, 0 where there is none.
fn view_of(end: LedgerEnd) -> u32
    ensures { result ≡ view_of end.last }
{
    match end.last {
        None => 0,
        Some(last) => last.view,
    }
}

impl LedgerState {
    /// The view of the last entry, 0 where there is none.
    pub(super) fn view(&self) -> u32
        ensures { result ≡ view_of self.now.end.last }
    {
        view_of(self.end)
    }

    /// The view of the entry with a seqno. `None` at 0 and above the last one, and up to the base
    /// where the starts of views there tell of none.
    pub fn view_at(&self, seqno: u64) -> Option<u32>
        ensures entry { ForStates self.now (λ body es.
            0 < seqno → seqno ≤ body.base + length es → result ≡ view_at body es seqno) }
        ensures none { ForStates self.now (λ body es.
            body.base + length es < seqno → result ≡ None) }
        ensures zero { seqno ≡ 0 → result ≡ None }
    {
        if seqno == 0 || self.end.len < seqno {
            return None;
        }
        let start = last_start(&self.views, seqno);
        if self.base < seqno {
            return Some(view_behind(start, self.base, self.base_view));
        }
        match start {
            None => None,
            Some(start) => Some(start.view),
        }
    }

    /// The greatest commit that signatures record, where the entries end so.
    fn greatest_commit(&self, end: LedgerEnd) -> u64
        ensures { result ≡ max self.now.base_commit end.commit }
    {
        self.base_commit.max(end.commit)
    }

    /// Where views start at or below a seqno. Fails only where memory runs out.
    fn starts_up_to(&self, to: u64) -> Result<Vec<ViewStart>, AllocError>
        ensures { IfOk result (λ views. views.items ≡ starts_up_to to self.now.views.items) }
    {
        let mut views = Vec::from_slice(self.alloc, &self.views)?;
        cut_starts(&mut views, to);
        Ok(views)
    }

    /// The peaks of the tree of all entries. Fails only where memory runs out.
    fn peaks(&self) -> Result<Vec<Digest>, AllocError>
        requires state { IsState self.now }
        ensures peaks { IfOk result (λ peaks. ForStates self.now (λ body es.
            peaks.items ≡ all_peaks body es)) }
        ensures few { IfOk result (λ peaks. length peaks.items < 2 ^ 32) }
    {
        Ok(self.frontier.peaks(self.end.len)?)
    }

    /// The body of a snapshot of all entries. Fails only where memory runs out.
    pub fn snapshot(&self) -> Result<Body, AllocError>
        requires state { IsState self.now }
        ensures body { IfOk result (λ body. ForStates self.now (λ before es.
            body ≡ snapshot_over before es)) }
        ensures peaks { IfOk result (λ body. length body.peaks < 2 ^ 32) }
    {
        let body = self.snapshot_up_to(self.end.len, self.end)?;
        Ok(body)
    }

    /// The body of a snapshot of the entries up to a seqno, where those end so. Fails only where
    /// memory runs out.
    pub fn snapshot_up_to(&self, to: u64, end: LedgerEnd) -> Result<Body, AllocError>
        requires state { IsState self.now }
        requires from_base { self.now.frontier.base ≤ to }
        requires within { to ≤ self.now.end.len }
        requires whole { self.now.tables.compacted ≤ to }
        ensures body { IfOk result (λ body. ForStates self.now (λ before es.
            end ≡ end_over before (take (to - before.base) es) →
            body ≡ snapshot_over before (take (to - before.base) es))) }
        ensures peaks { IfOk result (λ body. length body.peaks < 2 ^ 32) }
    {
        Ok(Body {
            base: to,
            view: view_of(end),
            commit: self.greatest_commit(end),
            views: Sequence::from(self.starts_up_to(to)?),
            peaks: Sequence::from(self.frontier.peaks(to)?),
            rows: self.tables.rows(to)?,
        })
    }

    /// The digest of a snapshot of all entries, or how many bytes it has, where these are more than
    /// a snapshot may have. Takes the time of its rows twice, and no memory of them.
    pub fn snapshot_digest(&self) -> Result<Digest, OrNoMemory<u64>>
        requires state { IsState self.now }
        ensures { ForStates self.now (λ before es. Answers (λ digest. digest) result
            (digest_within (body_bytes (snapshot_over before es)))) }
    {
        let peaks = self.peaks()?;
        let head = BodyHead {
            base: self.end.len,
            view: self.view(),
            commit: self.greatest_commit(self.end),
            views: &self.views,
            peaks: &peaks,
        };
        digest_of_body(self.alloc, &head, &self.tables, self.end.len)
    }
}
