//! What requests of governance make after the entries of a ledger.

ghost use Rattle.std.specs.Prelude.{◌≡◌, ◌==◌, ◌+◌, ◌≤◌, ◌<◌, ◌^◌, true, false, None, Ok, length, IfOk, IfErr, OnOk};
ghost use Rattle.gl_base.specs.TxId.{last_seqno};
ghost use Rattle.gl_entry.specs.Entry.{is_entry, body_bytes, body_limit, content_bytes};
ghost use Rattle.gl_requests.specs.Ranges.{is_request};
ghost use Rattle.gl_gov_rules.specs.Governed.{is_founding, is_recovery};
ghost use Rattle.gl_audit.specs.GovState as steps;

use super::LedgerTail;
use crate::entries::{governance_entry, governance_limit_passed};
use gl_audit::GovernanceEffect;
use gl_base::OrNoMemory;
use gl_entry::Entry;
use gl_gov_rules::GovernanceRefusal;
use gl_ledger::Refusal;
use gl_requests::GovernanceRequest;

impl LedgerTail {
    ghost use Rattle.gl_gov_rules.specs.Refusals.{refusal};
    ghost use Rattle.gl_audit.specs.GovState.{share_count};
    ghost use Rattle.gl_ledger.specs.Broken.{effect_after};
    ghost use Rattle.gl_ledger.specs.Ledger.{governance_after};
    ghost use Rattle.gl_ledger.specs.Makers.{governance_made_after, govern_after, status_with};
    ghost use Rattle.gl_ledger.specs.Past.{past_over};
    ghost use Rattle.gl_store.specs.Calls.{Refuses};
    ghost use Rattle.gl_store.specs.Tail.{Becomes, ForBodies};

    /// The entry that a request of governance that founds no service makes after the entries in a
    /// view, and what the request does. Nothing is added. Refused, in this order, for what it asks,
    /// where the entry's body has more than 1 MiB, and where no seqno is left.
    pub fn entry_of_governance(
        &mut self,
        view: u32,
        request: &GovernanceRequest,
    ) -> Result<(Entry, GovernanceEffect), OrNoMemory<Refusal>>
        requires some { ForBodies self.old (λ body. 0 < body.base + length self.old.entries) }
        requires fits { is_request request.now ≡ true }
        requires founding { is_founding request.now ≡ false }
        requires recovery { is_recovery request.now ≡ false }
        ensures made { IfOk result (λ made. ForBodies self.old (λ body.
            govern_after (past_over body self.old.entries) view request.now
            ≡ Ok (governance_made_after (past_over body self.old.entries) request.now made.0))) }
        ensures entry { IfOk result (λ made. ForBodies self.old (λ body.
            made.0 ≡ governance_after request.now (past_over body self.old.entries) view)) }
        ensures accepted { OnOk result (ForBodies self.old (λ body.
            refusal (past_over body self.old.entries).history
            ((past_over body self.old.entries).len + 1) request.now ≡ None)) }
        ensures left { OnOk result (ForBodies self.old (λ body.
            body.base + length self.old.entries < last_seqno)) }
        ensures fits { IfOk result (λ made. is_entry made.0 ≡ true) }
        ensures writes { IfOk result (λ made. ForBodies self.old (λ body. made.1.writes
            ≡ effect_after (past_over body self.old.entries) (record {
              seqno = (past_over body self.old.entries).len + 1;
              request = request.now;
            }))) }
        ensures status { IfOk result (λ made. ForBodies self.old (λ body.
            made.1.proposal ≡ status_with (past_over body self.old.entries) request.now)) }
        ensures shares { IfOk result (λ made. ForBodies self.old (λ body. made.1.shares
            ≡ share_count ((past_over body self.old.entries).after (record {
              seqno = (past_over body self.old.entries).len + 1;
              request = request.now;
            })))) }
        ensures refused { IfErr result (λ e. ForBodies self.old (λ body.
            Refuses (govern_after (past_over body self.old.entries) view request.now) e)) }
        ensures kept { Becomes self.old self.old.entries self.new }
    {
        let seqno = self.next_seqno();
        let (entry, effect) = match self.governance_entry(view, request) {
            Ok(made) => made,
            Err(OrNoMemory::NoMemory) => return Err(OrNoMemory::NoMemory),
            Err(OrNoMemory::Fault(why)) => {
                return Err(OrNoMemory::Fault(Refusal::Governance(why)));
            }
        };
        if let Some(refusal) = governance_limit_passed(entry.body_len(), seqno) {
            return Err(OrNoMemory::Fault(refusal));
        }
        Ok((entry, effect))
    }

    /// The entry of a request of governance after the entries, and what the request does. Refused
    /// where the rules of governance refuse it.
    pub(crate) fn governance_entry(
        &mut self,
        view: u32,
        request: &GovernanceRequest,
    ) -> Result<(Entry, GovernanceEffect), OrNoMemory<GovernanceRefusal>>
        requires founding { ForBodies self.old (λ body.
            is_founding request.now ≡ (body.base + length self.old.entries == 0)) }
        requires fits { is_request request.now ≡ true }
        ensures accepted { OnOk result (ForBodies self.old (λ body.
            refusal (past_over body self.old.entries).history
            ((past_over body self.old.entries).len + 1) request.now ≡ None)) }
        ensures made { IfOk result (λ made. ForBodies self.old (λ body.
            made.0 ≡ governance_after request.now (past_over body self.old.entries) view)) }
        ensures recorded { IfOk result (λ made. length (content_bytes made.0.content) < 2 ^ 32) }
        ensures written { IfOk result (λ made. length made.0.writes < 2 ^ 32) }
        ensures entry { IfOk result (λ made.
            length (body_bytes made.0) ≤ body_limit → is_entry made.0 ≡ true) }
        ensures writes { IfOk result (λ made. ForBodies self.old (λ body. made.1.writes
            ≡ effect_after (past_over body self.old.entries) (record {
              seqno = (past_over body self.old.entries).len + 1;
              request = request.now;
            }))) }
        ensures status { IfOk result (λ made. ForBodies self.old (λ body.
            made.1.proposal ≡ status_with (past_over body self.old.entries) request.now)) }
        ensures shares { IfOk result (λ made. ForBodies self.old (λ body. made.1.shares
            ≡ share_count ((past_over body self.old.entries).after (record {
              seqno = (past_over body self.old.entries).len + 1;
              request = request.now;
            })))) }
        ensures refused { IfErr result (λ e. ForBodies self.old (λ body. steps.Refuses
            (refusal (past_over body self.old.entries).history
            ((past_over body self.old.entries).len + 1) request.now) e)) }
        ensures kept { Becomes self.old self.old.entries self.new }
    {
        let seqno = self.next_seqno();
        let effect = self.state.gov.effect(seqno, request)?;
        let writes = effect.writes.copy(self.alloc)?;
        let entry = governance_entry(self.alloc, view, seqno, request, writes)?;
        Ok((entry, effect))
    }
}
