//! How a ledger ends.

ghost use Rattle.std.specs.Prelude.{◌≡◌, ◌+◌, ◌<◌, ◌≤◌, ◌||◌, ℕ, [], Some, IfSome, length, option_map};
ghost use Rattle.std.specs.Option.{option_copied};
ghost use Rattle.gl_rules.specs.Log.{entry_at};
ghost use Rattle.gl_audit.specs.Kept.{commit_at, commit_or};
ghost use Rattle.gl_requests.specs.Parsing.{request_in};
ghost use Rattle.gl_requests.specs.declared.request.GovernanceRequest.{GovernanceRequest as Request};
ghost use Rattle.gl_gov_rules.specs.Governed.{is_founding, is_recovery};
ghost use Rattle.gl_ledger.specs.Recordings.{begins, last_entry};
ghost use Rattle.gl_ledger.specs.Past.{commit_after, is_unopened, last_signed, past_over};
ghost use Rattle.gl_entry.specs.Leaf.{id_of};
ghost use Rattle.gl_audit.specs.Ends.{IsRead, end_of, end_over, end_with, no_end};

use gl_base::TxId;
use gl_entry::{Content, Entry};
use gl_snapshot_body::Body;

/// The first byte of a request that founds a service.
const GENESIS_TAG: u8 = 1;

/// The first byte of a request that recovers a service.
const RECOVER_TAG: u8 = 2;

/// How many entries a ledger has, the transaction of the last one and that of the last signature,
/// if there are such, the commit that this signature records, 0 without one, and whether a service
/// begins with the last entry: a signature is to open it.
#[derive(Clone, Copy, Debug, PartialEq, Eq)]
pub struct LedgerEnd {
    pub len: u64,
    pub last: Option<TxId>,
    pub signed: Option<TxId>,
    pub commit: u64,
    pub is_unopened: bool,
}

/// That of no entries.
pub const NO_ENTRIES: LedgerEnd = LedgerEnd {
    len: 0,
    last: None,
    signed: None,
    commit: 0,
    is_unopened: false,
};

/// The transaction of an entry.
fn id_of(entry: &Entry) -> TxId
    ensures { result ≡ id_of entry.now }
{
    TxId {
        view: entry.view,
        seqno: entry.seqno,
    }
}

/// The transaction of an entry, if there is one.
fn id_in(entry: Option<&Entry>) -> Option<TxId>
    ensures { result ≡ option_map id_of (option_copied entry.entry) }
{
    match entry {
        None => None,
        Some(entry) => Some(id_of(entry)),
    }
}

/// Whether a request of governance with these bytes founds a service, or recovers it. Takes no
/// memory: the first byte tells.
fn begins_service(request: &[u8]) -> bool
    ensures { (g : Request) → request_in request.now ≡ Some g →
        result ≡ (is_founding g || is_recovery g) }
{
    match request.first() {
        None => false,
        Some(tag) => *tag == GENESIS_TAG || *tag == RECOVER_TAG,
    }
}

/// Whether a service, or its life under another key, begins with an entry.
fn begins(entry: &Entry) -> bool
    requires read { IsRead entry.now }
    ensures { result ≡ begins entry.now }
{
    match &entry.content {
        Content::Governance(request) => begins_service(request.as_slice()),
        _ => false,
    }
}

/// Whether a service begins with an entry, if there is one.
pub fn is_unopened(entry: Option<&Entry>) -> bool
    requires read { IfSome (option_copied entry) IsRead }
    ensures { result ≡ is_unopened (option_copied entry.entry) }
{
    match entry {
        None => false,
        Some(entry) => begins(entry),
    }
}

/// The commit of the last signature after an entry.
fn commit_after(commit: u64, content: &Content) -> u64
    ensures { result ≡ commit_after commit content.now }
{
    match content {
        Content::Signature(signature) => signature.commit,
        _ => commit,
    }
}

/// The commit that an entry records, 0 where there is none.
fn recorded_commit(entry: Option<&Entry>) -> u64
    ensures { result ≡ commit_at (option_copied entry.entry) }
{
    match entry {
        None => 0,
        Some(entry) => entry.content.recorded_commit(),
    }
}

/// The commit that an entry records, if there is one, else this one.
fn commit_or(entry: Option<&Entry>, commit: u64) -> u64
    ensures { result ≡ commit_or commit (option_copied entry.entry) }
{
    match entry {
        None => commit,
        Some(entry) => entry.content.recorded_commit(),
    }
}

/// The entry with a seqno among entries from seqno 1 on. `None` at 0 and above the last.
pub fn entry_at(entries: &[Entry], seqno: u64) -> Option<&Entry>
    ensures { option_copied result ≡ entry_at entries.now seqno }
{
    match seqno.checked_sub(1) {
        None => None,
        Some(index) => entries.get(index as usize),
    }
}

impl LedgerEnd {
    /// Of no entries behind a base, of which this body tells: the entry there is a signature.
    pub(crate) fn at_base(body: &Body) -> Self
        requires some { 0 < body.now.base }
        ensures { result ≡ end_over body.now [] }
    {
        let signature = Some(TxId {
            view: body.view,
            seqno: body.base,
        });
        LedgerEnd {
            len: body.base,
            last: signature,
            signed: signature,
            commit: body.commit,
            is_unopened: false,
        }
    }

    /// With one more entry.
    pub fn with(self, entry: &Entry) -> Self
        requires len { self.len < u64.MAX }
        requires read { IsRead entry.now }
        ensures { result ≡ end_with self entry.now }
    {
        let id = id_of(entry);
        let signs = matches!(entry.content, Content::Signature(_));
        LedgerEnd {
            len: self.len + 1,
            last: Some(id),
            signed: if signs { Some(id) } else { self.signed },
            commit: commit_after(self.commit, &entry.content),
            is_unopened: begins(entry),
        }
    }

    /// Of these entries, of which the last signature has this seqno, 0 for none.
    pub fn of(entries: &[Entry], signed: u64) -> Self
        requires signed { signed ≡ last_signed entries.now }
        requires read { IfSome (last_entry entries.now) IsRead }
        ensures { result ≡ end_of entries.now }
    {
        let signature = entry_at(entries, signed);
        let last = entries.last();
        LedgerEnd {
            len: entries.len() as u64,
            last: id_in(last),
            signed: id_in(signature),
            commit: recorded_commit(signature),
            is_unopened: is_unopened(last),
        }
    }

    /// Of these entries behind a base, of which this is the end, and where the last signature has
    /// this seqno; that of the base where none of them is one. At no base that is as `of` tells.
    pub fn over(base: LedgerEnd, entries: &[Entry], signed: u64) -> Self
        requires len { base.len + length entries.now ≤ u64.MAX }
        requires read { IfSome (last_entry entries.now) IsRead }
        ensures { (body : Body) → base ≡ end_over body [] →
            signed ≡ (past_over body entries.now).last_signed →
            result ≡ end_over body entries.now }
    {
        let signature = entry_at(entries, signed.saturating_sub(base.len));
        let last = entries.last();
        LedgerEnd {
            len: base.len + entries.len() as u64,
            last: id_in(last).or(base.last),
            signed: id_in(signature).or(base.signed),
            commit: commit_or(signature, base.commit),
            is_unopened: is_unopened(last),
        }
    }
}
