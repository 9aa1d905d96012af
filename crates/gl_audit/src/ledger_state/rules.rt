//! The rules of the audit, by the state of a ledger.

ghost use Rattle.std.specs.Prelude.{◌≡◌, ◌==◌, ◌+◌, ◌≤◌, ◌<◌, Option, None, Some, Ok, true, length, IfOk, IfSome, IfNone};
ghost use Rattle.std.specs.List.{list_all};
ghost use Rattle.std.specs.Option.{option_copied};
ghost use Rattle.gl_rules.specs.Log.{entry_at};
ghost use Rattle.gl_entry.specs.Entry.{is_entry};
ghost use Rattle.gl_vmaps.specs.Tables.{same_value};
ghost use Rattle.gl_requests.specs.Ranges.{is_request};
ghost use Rattle.gl_ledger.specs.Recordings.{is_founding, is_recovering, is_signing};
ghost use Rattle.gl_ledger.specs.Broken as rules;
ghost use Rattle.gl_audit.specs.Kept.{ForStates, IsState};
ghost use Rattle.gl_base.specs.TxId.{last_seqno};
ghost use Rattle.gl_ledger.specs.declared.breach.Broken as breaches;

use super::LedgerState;
use crate::removals::are_above_removals;
use gl_base::{FIRST_VIEW, LAST_SEQNO, OrNoMemory, same_bytes};
use gl_entry::{Content, Digest, Entry, NodeId, Signature, signed_message, writes_digest};
use gl_ledger::{Broken, EntryRefusal, Recording, recording_of};
use gl_requests::{GovernanceRequest, ServiceState};
use gl_tx::{Ran, Request, run};
use gl_vmaps::{Value, Write};
use sha2::{Digest as _, Sha256};
use std::alloc::{AllocError, Global};

/// At this seqno another digest is wanted than the one that is found.
fn replay(rule: u8, seqno: u64, wanted: Digest, found: Digest) -> Broken
    ensures { result ≡ rules.replay rule seqno wanted found }
{
    Broken {
        rule,
        refusal: EntryRefusal::Replay {
            seqno,
            wanted,
            found,
        },
    }
}

fn is_founding(recording: &Recording) -> bool
    ensures { result ≡ is_founding recording.now }
{
    matches!(
        recording,
        Recording::Governance(GovernanceRequest::Genesis(_))
    )
}

fn is_recovering(recording: &Recording) -> bool
    ensures { result ≡ is_recovering recording.now }
{
    matches!(
        recording,
        Recording::Governance(GovernanceRequest::Recover(_))
    )
}

fn is_signing(recording: &Recording) -> bool
    ensures { result ≡ is_signing recording.now }
{
    matches!(recording, Recording::Signature(_))
}

/// Whether a number is the one after another.
fn follows(number: u64, last: u64) -> bool
    ensures { result ≡ (number == last + 1) }
{
    number.checked_sub(1) == Some(last)
}

fn is_same_value(one: Option<&Value>, other: Option<&Value>) -> bool
    ensures { result ≡ same_value (option_copied one.entry) (option_copied other.entry) }
{
    match (one, other) {
        (None, None) => true,
        (Some(one), Some(other)) => one.as_slice() == other.as_slice(),
        _ => false,
    }
}

fn is_same_write(one: &Write, other: &Write) -> bool
    ensures { result ≡ rules.is_same_write one.now other.now }
{
    one.map.as_slice() == other.map.as_slice()
        && one.key.as_slice() == other.key.as_slice()
        && is_same_value(one.value.as_ref(), other.value.as_ref())
}

fn are_same_writes(one: &[Write], other: &[Write]) -> bool
    ensures { result ≡ rules.are_same_writes one.now other.now }
{
    let (mut left, mut right) = (one, other);
    while let [v, vs @ ..] = left {
        let [w, ws @ ..] = right else {
            return false;
        };
        if !is_same_write(v, w) {
            return false;
        }
        left = vs;
        right = ws;
    }
    right.is_empty()
}

/// The entry has another write set than this one.
fn with_other_writes(rule: u8, seqno: u64, entry: &Entry, wanted: &[Write]) -> Option<Broken>
    ensures some { IfSome result (λ broken. (rest : Option breaches.Broken) →
        rules.with_writes rule seqno wanted.now entry.now rest ≡ Some broken) }
    ensures none { IfNone result ((rest : Option breaches.Broken) →
        rules.with_writes rule seqno wanted.now entry.now rest ≡ rest) }
{
    let writes = entry.writes.as_slice();
    if are_same_writes(writes, wanted) {
        return None;
    }
    let (wanted, found) = (writes_digest(wanted), writes_digest(writes));
    Some(replay(rule, seqno, wanted, found))
}

/// The entry of a request that ran has its write set, and the digest of its reply.
fn broken_of_run(
    alloc: Global,
    seqno: u64,
    ran: &Ran,
    entry: &Entry,
) -> Result<Option<Broken>, AllocError>
    ensures { IfOk result (λ broken. broken ≡ rules.broken_of_run seqno (Ok ran.now) entry.now) }
{
    let wanted = Sha256::digest(&ran.reply.encode(alloc)?);
    if let Some(broken) = with_other_writes(6, seqno, entry, ran.writes.as_slice()) {
        return Ok(Some(broken));
    }
    if entry.claims != wanted {
        return Ok(Some(replay(6, seqno, wanted, entry.claims)));
    }
    Ok(None)
}

impl LedgerState {
    ghost use Rattle.gl_rules.specs.Identity.{NodeId, member};
    ghost use Rattle.gl_ledger.specs.Recordings.{recording_of};
    ghost use Rattle.gl_ledger.specs.Broken.{broken_over, broken_where, broken_by, broken_by_signature, broken_by_governance, broken_by_application, broken_by_evidence, broken_by_fault, fault_of_signature, breach, is_next_view, is_in_order, is_above_removal, may_record};
    ghost use Rattle.gl_ledger.specs.NodeKeys.{service_layers};
    ghost use Rattle.gl_ledger.specs.Past.{is_signed, past_over};

    /// The first rule of the audit that an entry breaks after the ledger, if it breaks one. Fails
    /// only where memory runs out.
    pub fn broken(&mut self, entry: &Entry) -> Result<Option<Broken>, AllocError>
        requires state { IsState self.old }
        requires named { self.old.end.len ≤ last_seqno }
        ensures broken { IfOk result (λ found. ForStates self.old (λ body es.
            found ≡ broken_over service_layers body es entry.now)) }
        ensures kept { self.new ≡ self.old }
    {
        match recording_of(self.alloc, &entry.content)? {
            None => Ok(Some(self.breach(1, entry))),
            Some(recording) => self.broken_where(&recording, entry),
        }
    }

    /// Whether a node is recorded.
    fn is_recorded(&self, node: &NodeId) -> bool
        ensures { ForStates self.now (λ body es.
            result ≡ member node.now (past_over body es).nodes) }
    {
        self.gov.history().node(node).is_some()
    }

    /// Whether the next signature may record this commit: the seqno of that signature itself, where
    /// it opens the service, or else the seqno of a signature that isn't below the commit that the
    /// last one recorded, nor below the removal of a node that was marked after that one.
    pub fn may_record(&self, commit: u64) -> bool
        ensures { ForStates self.now (λ body es. result ≡ may_record (past_over body es) commit) }
    {
        if self.end.is_unopened {
            follows(commit, self.end.len)
        } else {
            self.signs_at(commit) && self.end.commit <= commit && self.is_above_removals(commit)
        }
    }

    /// Whether the commit isn't below the removal of a node that was marked after the last
    /// signature.
    fn is_above_removals(&self, commit: u64) -> bool
        ensures { ForStates self.now (λ body es.
            let p = past_over body es in result ≡ list_all (λ (y : NodeId).
            is_above_removal (p.mark y) (p.removal y) p.last_signed commit) p.nodes) }
    {
        are_above_removals(self.gov.history(), self.last_signed(), commit)
    }

    /// The seqno of the entry that follows.
    pub(crate) fn next_seqno(&self) -> u64
        requires named { self.now.end.len ≤ last_seqno }
        ensures { result ≡ self.now.end.len + 1 }
    {
        self.end.len + 1
    }

    /// Whether the last entry is a signature.
    pub fn is_signed(&self) -> bool
        ensures { ForStates self.now (λ body es. result ≡ is_signed (past_over body es).last) }
    {
        self.signs_at(self.end.len)
    }

    /// The entry breaks a rule that has no digest of its own.
    fn breach(&self, rule: u8, entry: &Entry) -> Broken
        requires named { self.now.end.len ≤ last_seqno }
        ensures { result ≡ breach rule (self.now.end.len + 1) entry.now }
    {
        replay(rule, self.next_seqno(), [0; 32], entry.body_digest())
    }

    fn broken_where(
        &mut self,
        recording: &Recording,
        entry: &Entry,
    ) -> Result<Option<Broken>, AllocError>
        requires state { IsState self.old }
        requires named { self.old.end.len ≤ last_seqno }
        requires recorded { recording_of entry.now.content ≡ Some recording.now }
        ensures broken { IfOk result (λ broken. ForStates self.old (λ body es. broken
            ≡ broken_where service_layers (Some recording.now) (past_over body es) entry.now)) }
        ensures kept { self.new ≡ self.old }
    {
        if let Some(rule) = self.out_of_form(recording, entry) {
            return Ok(Some(self.breach(rule, entry)));
        }
        self.broken_by(recording, entry)
    }

    /// Rules 5 to 12, by what the entry records, where it breaks none of those before them.
    fn broken_by(
        &mut self,
        recording: &Recording,
        entry: &Entry,
    ) -> Result<Option<Broken>, AllocError>
        requires state { IsState self.old }
        requires named { self.old.end.len ≤ last_seqno }
        requires recorded { recording_of entry.now.content ≡ Some recording.now }
        requires fits { is_entry entry.now ≡ true }
        requires view { ForStates self.old (λ body es.
            is_next_view (past_over body es).last recording.now entry.now.view ≡ true) }
        requires order { ForStates self.old (λ body es.
            is_in_order (past_over body es).last recording.now entry.now.view ≡ true) }
        ensures broken { IfOk result (λ broken. ForStates self.old (λ body es.
            broken ≡ broken_by service_layers recording.now (past_over body es) entry.now)) }
        ensures kept { self.new ≡ self.old }
    {
        match recording {
            Recording::Application(request) => self.broken_by_application(request, entry),
            Recording::Governance(request) => self.broken_by_governance(request, entry),
            Recording::Signature(signature) => Ok(self.broken_by_signature(signature, entry)),
            Recording::Evidence(digest) => self.broken_by_evidence(digest, entry),
        }
    }

    /// Rules 1 to 4: the first of them that the entry breaks.
    fn out_of_form(&self, recording: &Recording, entry: &Entry) -> Option<u8>
        requires named { self.now.end.len ≤ last_seqno }
        ensures some { IfSome result (λ rule. ForStates self.now (λ body es.
            broken_where service_layers (Some recording.now) (past_over body es) entry.now
            ≡ Some (breach rule (self.now.end.len + 1) entry.now))) }
        ensures none { IfNone result (ForStates self.now (λ body es.
            broken_where service_layers (Some recording.now) (past_over body es) entry.now
            ≡ broken_by service_layers recording.now (past_over body es) entry.now)) }
        ensures fits { IfNone result (is_entry entry.now ≡ true) }
        ensures view { IfNone result (ForStates self.now (λ body es.
            is_next_view (past_over body es).last recording.now entry.now.view ≡ true)) }
        ensures order { IfNone result (ForStates self.now (λ body es.
            is_in_order (past_over body es).last recording.now entry.now.view ≡ true)) }
    {
        let seqno = self.next_seqno();
        if !entry.fits() {
            return Some(1);
        }
        if entry.seqno != seqno {
            return Some(2);
        }
        if seqno > LAST_SEQNO {
            return Some(2);
        }
        if !self.is_next_view(recording, entry.view) {
            return Some(3);
        }
        if !self.is_in_order(recording, entry.view) {
            return Some(4);
        }
        None
    }

    fn is_next_view(&self, recording: &Recording, view: u32) -> bool
        ensures { ForStates self.now (λ body es.
            result ≡ is_next_view (past_over body es).last recording.now view) }
    {
        match self.end.last {
            None => is_founding(recording) && view == FIRST_VIEW,
            Some(last) if is_recovering(recording) => {
                follows(u64::from(view), u64::from(last.view))
            }
            Some(last) => last.view <= view,
        }
    }

    fn is_in_order(&self, recording: &Recording, view: u32) -> bool
        ensures { ForStates self.now (λ body es.
            result ≡ is_in_order (past_over body es).last recording.now view) }
    {
        match self.end.last {
            None => true,
            Some(last) => {
                !is_founding(recording)
                    && (!is_recovering(recording) || self.is_signed())
                    && (!self.end.is_unopened || (is_signing(recording) && view == last.view))
            }
        }
    }

    /// Rules 5 and 6: an application request runs in an open service, and the entry has its write
    /// set and the digest of its reply.
    fn broken_by_application(
        &self,
        request: &Request,
        entry: &Entry,
    ) -> Result<Option<Broken>, AllocError>
        requires named { self.now.end.len ≤ last_seqno }
        ensures { IfOk result (λ broken. ForStates self.now (λ body es.
            broken ≡ broken_by_application request.now (past_over body es) entry.now)) }
    {
        let state = self.service_state;
        if state != ServiceState::Open {
            return Ok(Some(Broken {
                rule: 5,
                refusal: EntryRefusal::ServiceState(state),
            }));
        }
        match run(self.alloc, request, &self.tables) {
            Ok(ran) => broken_of_run(self.alloc, self.next_seqno(), &ran, entry),
            Err(OrNoMemory::NoMemory) => Err(AllocError),
            Err(OrNoMemory::Fault(abort)) => Ok(Some(Broken {
                rule: 5,
                refusal: EntryRefusal::Aborted(abort),
            })),
        }
    }

    /// Rules 7 and 8: a request of governance is accepted, and the entry has the write set of its
    /// effect.
    fn broken_by_governance(
        &mut self,
        request: &GovernanceRequest,
        entry: &Entry,
    ) -> Result<Option<Broken>, AllocError>
        requires state { IsState self.old }
        requires named { self.old.end.len ≤ last_seqno }
        requires view { ForStates self.old (λ body es. is_next_view (past_over body es).last
            (Recording.Governance request.now) entry.now.view ≡ true) }
        requires order { ForStates self.old (λ body es. is_in_order (past_over body es).last
            (Recording.Governance request.now) entry.now.view ≡ true) }
        requires fits { is_request request.now ≡ true }
        ensures broken { IfOk result (λ broken. ForStates self.old (λ body es.
            broken ≡ broken_by_governance request.now (past_over body es) entry.now)) }
        ensures kept { self.new ≡ self.old }
    {
        let seqno = self.next_seqno();
        match self.gov.effect(seqno, request) {
            Ok(effect) => Ok(with_other_writes(8, seqno, entry, effect.writes.as_slice())),
            Err(OrNoMemory::NoMemory) => Err(AllocError),
            Err(OrNoMemory::Fault(why)) => Ok(Some(Broken {
                rule: 7,
                refusal: EntryRefusal::Governance(why),
            })),
        }
    }

    /// Rule 12: an evidence stands right after a signature, and has the digest of the body of a
    /// snapshot of all entries, which is within its limit.
    fn broken_by_evidence(
        &self,
        digest: &Digest,
        entry: &Entry,
    ) -> Result<Option<Broken>, AllocError>
        requires state { IsState self.now }
        requires named { self.now.end.len ≤ last_seqno }
        ensures { IfOk result (λ broken. ForStates self.now (λ body es.
            broken ≡ broken_by_evidence digest.now (past_over body es) entry.now)) }
    {
        if !self.is_signed() {
            return Ok(Some(self.breach(12, entry)));
        }
        let wanted = match self.snapshot_digest() {
            Ok(wanted) => wanted,
            Err(OrNoMemory::NoMemory) => return Err(AllocError),
            Err(OrNoMemory::Fault(_)) => return Ok(Some(self.breach(12, entry))),
        };
        if !same_bytes(digest, &wanted) {
            return Ok(Some(replay(12, self.next_seqno(), wanted, *digest)));
        }
        Ok(None)
    }

    /// The root of the tree over all entries.
    pub fn root(&self) -> Digest
        requires state { IsState self.now }
        requires some { 0 < self.now.end.len }
        ensures { ForStates self.now (λ body es. result ≡ (past_over body es).root) }
    {
        self.frontier.root()
    }

    /// Rules 9 to 11: the node of a signature is recorded, it signed the root of the tree over all
    /// entries before, with a commit that may be recorded, and its signature is valid.
    fn broken_by_signature(&self, signature: &Signature, entry: &Entry) -> Option<Broken>
        requires state { IsState self.now }
        requires named { self.now.end.len ≤ last_seqno }
        requires some { 0 < self.now.end.len }
        ensures { ForStates self.now (λ body es. result
            ≡ broken_by_signature service_layers signature.now (past_over body es) entry.now) }
    {
        if !self.is_recorded(&signature.node) {
            return Some(self.breach(9, entry));
        }
        let root = self.root();
        if !same_bytes(&signature.root, &root) {
            return Some(replay(9, self.next_seqno(), root, signature.root));
        }
        if !self.may_record(signature.commit) {
            return Some(self.breach(10, entry));
        }
        self.broken_by_fault(signature, entry)
    }

    fn broken_by_fault(&self, signature: &Signature, entry: &Entry) -> Option<Broken>
        requires state { IsState self.now }
        requires named { self.now.end.len ≤ last_seqno }
        requires some { 0 < self.now.end.len }
        ensures { ForStates self.now (λ body es. result
            ≡ broken_by_fault ((past_over body es).len + 1)
            (fault_of_signature service_layers (past_over body es) entry.now signature.now)) }
    {
        let Some(identity) = &self.identity else {
            unreachable!();
        };
        let commit = signature.commit;
        let message = signed_message(&signature.root, entry.view, entry.seqno, commit);
        let (node, bytes) = (&signature.node, signature.signature.as_slice());
        match self.known.signature_fault(identity, node, &message, bytes) {
            None => None,
            Some(fault) => Some(Broken {
                rule: 11,
                refusal: EntryRefusal::BadSignature {
                    seqno: self.next_seqno(),
                    fault,
                },
            }),
        }
    }
}
