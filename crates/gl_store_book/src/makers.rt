//! The entries that a ledger takes for requests.

ghost use Rattle.std.specs.Prelude.{◌≡◌, ◌<◌, ◌∷◌, ◌++◌, [], true, false, None, Ok, Err, IfOk, IfErr, IfSome, IfNone, IsTrue, OnOk, OnErr, ℕ};
ghost use Rattle.gl_base.specs.Answers.{Fails};
ghost use Rattle.gl_requests.specs.Ranges.{is_request};
ghost use Rattle.gl_gov_rules.specs.Governed.{is_founding, is_recovery};
ghost use Rattle.gl_ledger.specs.Makers.{MayMake, govern_after};
ghost use Rattle.gl_ledger.specs.Past.{Past};
ghost use Rattle.gl_ledger.specs.declared.response.Response.TheVariants.{Governed, Replied};
ghost use Rattle.gl_store_book.specs.BasedLedgers.{IsAudited, broken_after, len_of, with_entries};
ghost use Rattle.gl_store_book.specs.Taken.{IsNoGovernance, RefusesFor, Takes, TakesEntry, evident, executed, governed};

use crate::book_ledger::BookLedger;
use crate::refusals::{by_rule, by_store};
use gl_base::OrNoMemory;
use gl_entry::Entry;
use gl_gov_decisions::refusal;
use gl_gov_rules::ProposalStatus;
use gl_ledger::{Refusal, Rejection};
use gl_requests::{GovernanceRequest, is_request};
use gl_tx::{Reply, Request};
use std::alloc::AllocError;

/// Whether the request founds a service, or recovers it.
fn founds(request: &GovernanceRequest) -> bool
    ensures founding { result ≡ false → is_founding request.now ≡ false }
    ensures recovery { result ≡ false → is_recovery request.now ≡ false }
    ensures refused { result ≡ true → is_request request.now ≡ true →
        (p : Past) (view : ℕ) → govern_after p view request.now ≡ Err Rejection.Founding }
{
    matches!(
        request,
        GovernanceRequest::Genesis(_) | GovernanceRequest::Recover(_)
    )
}

/// Why no ledger takes the request, if none does: no bytes encode it, or else it founds a service.
fn refused_always(request: &GovernanceRequest) -> Option<Rejection>
    ensures refused { IfSome result (λ why. (p : Past) (view : ℕ) →
        govern_after p view request.now ≡ Err why) }
    ensures fits { IfNone result (is_request request.now ≡ true) }
    ensures founding { IfNone result (is_founding request.now ≡ false) }
    ensures recovery { IfNone result (is_recovery request.now ≡ false) }
{
    if !is_request(request) {
        Some(Rejection::Unencodable)
    } else if founds(request) {
        Some(Rejection::Founding)
    } else {
        None
    }
}

impl BookLedger {
    /// Whether the ledger is whole, and its service is open for entries of this view: then what the
    /// ledger makes of requests breaks no rule of the audit, and none is tried.
    fn may_make(&self, view: u32) -> bool
        ensures whole { IsTrue result → self.now.snapshot ≡ None }
        ensures may { IsTrue result → MayMake self.now.entries view }
        ensures valid { IsAudited self.now }
    {
        let tail = self.tail();
        if self.snapshot().is_some() || tail.state().end().is_unopened {
            return false;
        }
        match tail.entries().last() {
            None => false,
            Some(last) => last.view <= view,
        }
    }

    /// Adds an entry that the ledger makes in a view, and that records no request of governance.
    /// Where it may break a rule, it is tried.
    fn add_quiet(&mut self, view: u32, entry: Entry) -> Result<(), OrNoMemory<Rejection>>
        requires quiet { IsNoGovernance entry.content }
        requires made { self.old.snapshot ≡ None → MayMake self.old.entries view →
            broken_after self.old entry ≡ None }
        ensures unbroken { OnOk result (broken_after self.old entry ≡ None) }
        ensures grown { OnOk result
            (self.new ≡ with_entries self.old (self.old.entries ++ entry ∷ [])) }
        ensures refused { IfErr result (RefusesFor (broken_after self.old entry)) }
        ensures err { OnErr result (self.new ≡ self.old) }
    {
        if self.may_make(view) {
            self.push_quiet(entry)?;
            return Ok(());
        }
        if let Err(error) = self.apply(entry) {
            return Err(by_rule(error));
        }
        Ok(())
    }

    /// The same of an entry of a request of governance.
    fn add_governance(&mut self, view: u32, entry: Entry) -> Result<(), OrNoMemory<Rejection>>
        requires made { IsAudited self.old → self.old.snapshot ≡ None →
            MayMake self.old.entries view → broken_after self.old entry ≡ None }
        ensures unbroken { OnOk result (broken_after self.old entry ≡ None) }
        ensures grown { OnOk result
            (self.new ≡ with_entries self.old (self.old.entries ++ entry ∷ [])) }
        ensures refused { IfErr result (RefusesFor (broken_after self.old entry)) }
        ensures err { OnErr result (self.new ≡ self.old) }
    {
        if self.may_make(view) {
            self.push_governance(entry)?;
            return Ok(());
        }
        if let Err(error) = self.apply(entry) {
            return Err(by_rule(error));
        }
        Ok(())
    }

    /// Takes an entry for a request of an application, and gives the reply.
    pub fn execute(&mut self, view: u32, request: &Request) -> Result<Reply, OrNoMemory<Rejection>>
        ensures made { IfOk result (λ reply. Takes (executed self.old view request.now) view
            (Replied reply) self.old self.new) }
        ensures refused { IfErr result (λ e. Fails e (executed self.old view request.now)) }
        ensures err { OnErr result (self.new ≡ self.old) }
    {
        let (entry, reply) = match self.tail().entry_of_request(view, request) {
            Ok(made) => made,
            Err(error) => return Err(by_store(error)),
        };
        self.add_quiet(view, entry)?;
        Ok(reply)
    }

    /// Takes an entry for a request of governance.
    pub fn govern(
        &mut self,
        view: u32,
        request: &GovernanceRequest,
    ) -> Result<Option<ProposalStatus>, OrNoMemory<Rejection>>
        ensures made { IfOk result (λ status. Takes (governed self.old view request.now) view
            (Governed status) self.old self.new) }
        ensures refused { IfErr result (λ e. Fails e (governed self.old view request.now)) }
        ensures err { OnErr result (self.new ≡ self.old) }
    {
        if let Some(why) = refused_always(request) {
            Err(OrNoMemory::Fault(why))
        } else if self.len() == 0 {
            Err(self.refusal_unfounded(view, request))
        } else {
            self.govern_founded(view, request)
        }
    }

    /// The same after a first entry.
    fn govern_founded(
        &mut self,
        view: u32,
        request: &GovernanceRequest,
    ) -> Result<Option<ProposalStatus>, OrNoMemory<Rejection>>
        requires some { 0 < len_of self.old }
        requires fits { is_request request.now ≡ true }
        requires founding { is_founding request.now ≡ false }
        requires recovery { is_recovery request.now ≡ false }
        ensures made { IfOk result (λ status. Takes (governed self.old view request.now) view
            (Governed status) self.old self.new) }
        ensures refused { IfErr result (λ e. Fails e (governed self.old view request.now)) }
        ensures err { OnErr result (self.new ≡ self.old) }
    {
        let (entry, effect) = match self.entry_of_governance(view, request) {
            Ok(made) => made,
            Err(error) => return Err(by_store(error)),
        };
        self.add_governance(view, entry)?;
        Ok(effect.proposal)
    }

    /// Why a ledger of no entries doesn't take the request: without a service there are no members,
    /// no nodes and no key that endorses one.
    fn refusal_unfounded(&self, view: u32, request: &GovernanceRequest) -> OrNoMemory<Rejection>
        requires none { len_of self.now ≡ 0 }
        requires fits { is_request request.now ≡ true }
        requires founding { is_founding request.now ≡ false }
        requires recovery { is_recovery request.now ≡ false }
        ensures { Fails result (governed self.now view request.now) }
    {
        match refusal(self.alloc, self.tail().state().gov.history(), 1, request) {
            Ok(Some(why)) => OrNoMemory::Fault(Rejection::ByStore(Refusal::Governance(why))),
            Ok(None) => unreachable!(),
            Err(_) => OrNoMemory::NoMemory,
        }
    }

    /// Takes an entry for an evidence: the digest of a snapshot of the ledger so far.
    pub fn evidence(&mut self, view: u32) -> Result<(), OrNoMemory<Rejection>>
        ensures made { OnOk result (TakesEntry (evident self.old view) view self.old self.new) }
        ensures refused { IfErr result (λ e. Fails e (evident self.old view)) }
        ensures err { OnErr result (self.new ≡ self.old) }
    {
        let entry = self.tail().evidence_entry(view)?;
        self.add_quiet(view, entry)?;
        Ok(())
    }
}
