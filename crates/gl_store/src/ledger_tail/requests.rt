//! What requests make after the entries of a ledger.

ghost use Rattle.std.specs.Prelude.{◌≡◌, true, Ok, IfOk, IfErr};
ghost use Rattle.gl_tx.specs.Request.{is_request};
ghost use Rattle.gl_entry.specs.Entry.{is_entry};

use super::LedgerTail;
use crate::entries::{application_entry, limit_passed};
use gl_base::OrNoMemory;
use gl_entry::Entry;
use gl_ledger::Refusal;
use gl_requests::ServiceState;
use gl_tx::{Reply, Request, run};

impl LedgerTail {
    ghost use Rattle.gl_ledger.specs.Makers.{request_after};
    ghost use Rattle.gl_ledger.specs.Past.{past_over};
    ghost use Rattle.gl_ledger.specs.ServiceRow.{service_state};
    ghost use Rattle.gl_ledger.specs.declared.response.Response.TheVariants.{Replied};
    ghost use Rattle.gl_store.specs.Calls.{Refuses};
    ghost use Rattle.gl_store.specs.Tail.{ForBodies};

    /// The entry that a request makes after the entries in a view, and the reply. Nothing is added.
    /// Refused, in this order, where the service isn't open, where an operation fails, where the
    /// entry's body or the reply has more than 1 MiB, and where no seqno is left.
    pub fn entry_of_request(
        &self,
        view: u32,
        request: &Request,
    ) -> Result<(Entry, Reply), OrNoMemory<Refusal>>
        ensures made { IfOk result (λ made. ForBodies self.now (λ body.
            request_after (past_over body self.now.entries) view request.now
            ≡ Ok (made.0, Replied made.1))) }
        ensures fits { IfOk result (λ made. is_entry made.0 ≡ true) }
        ensures refused { IfErr result (λ e. ForBodies self.now (λ body.
            Refuses (request_after (past_over body self.now.entries) view request.now) e)) }
    {
        prove!(request.as_slice().len() <= 64);
        match self.state.service_state {
            ServiceState::Open => self.entry_of_run(view, request),
            state => Err(OrNoMemory::Fault(Refusal::ServiceState(state))),
        }
    }

    /// The same in a service that is open.
    fn entry_of_run(
        &self,
        view: u32,
        request: &Request,
    ) -> Result<(Entry, Reply), OrNoMemory<Refusal>>
        requires is_open { self.now.state.service_state ≡ ServiceState.Open }
        requires encoded { is_request request.now ≡ true }
        ensures made { IfOk result (λ made. ForBodies self.now (λ body.
            request_after (past_over body self.now.entries) view request.now
            ≡ Ok (made.0, Replied made.1))) }
        ensures fits { IfOk result (λ made. is_entry made.0 ≡ true) }
        ensures refused { IfErr result (λ e. ForBodies self.now (λ body.
            Refuses (request_after (past_over body self.now.entries) view request.now) e)) }
    {
        let seqno = self.next_seqno();
        let ran = match run(self.alloc, request, &self.state.tables) {
            Ok(ran) => ran,
            Err(error) => return Err(error.widen()),
        };
        let reply = ran.reply.encode(self.alloc)?;
        let entry = application_entry(self.alloc, view, seqno, request, ran.writes, &reply)?;
        if let Some(refusal) = limit_passed(entry.body_len(), &reply, seqno) {
            return Err(OrNoMemory::Fault(refusal));
        }
        Ok((entry, ran.reply))
    }
}
