//! Why a ledger takes no entry, as the rules of consensus are told it.

ghost use Rattle.std.specs.Prelude.{Option, Result};
ghost use Rattle.gl_base.specs.Answers.{Fails};
ghost use Rattle.gl_entry.specs.declared.entry.Entry.{Entry};
ghost use Rattle.gl_ledger.specs.declared.breach.Broken as breaches;
ghost use Rattle.gl_ledger.specs.declared.response.Response as givens;
ghost use Rattle.gl_ledger.specs.declared.response.Rejection as unmades;
ghost use Rattle.gl_audit.specs.Kept.{Breaks};
ghost use Rattle.gl_store.specs.Calls.{Refuses};
ghost use Rattle.gl_store_book.specs.Taken.{RefusesFor};

use gl_base::OrNoMemory;
use gl_ledger::{Broken, Refusal, Rejection};

/// A store refuses it.
pub(crate) fn by_store(error: OrNoMemory<Refusal>) -> OrNoMemory<Rejection>
    ensures { (expected : Result (Entry × givens.Response) unmades.Rejection) →
        Refuses expected error →
        Fails result expected }
{
    match error {
        OrNoMemory::NoMemory => OrNoMemory::NoMemory,
        OrNoMemory::Fault(why) => OrNoMemory::Fault(Rejection::ByStore(why)),
    }
}

/// It breaks a rule of the audit.
pub(crate) fn by_rule(error: OrNoMemory<Broken>) -> OrNoMemory<Rejection>
    ensures { (broken : Option breaches.Broken) → Breaks broken error → RefusesFor broken result }
{
    match error {
        OrNoMemory::NoMemory => OrNoMemory::NoMemory,
        OrNoMemory::Fault(broken) => OrNoMemory::Fault(Rejection::ByRule(broken)),
    }
}
