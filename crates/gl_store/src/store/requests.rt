//! What a store makes of requests.

ghost use Rattle.std.specs.Prelude.{◌≡◌, ◌<◌, true, false, length, Ok, IfOk, IfErr, OnErr};
ghost use Rattle.gl_entry.specs.Entry.{is_entry};

use super::Store;
use gl_base::{OrNoMemory, TxId};
use gl_entry::Entry;
use gl_ledger::Refusal;
use gl_tx::{Reply, Request};

impl Store {
    ghost use Rattle.gl_ledger.specs.Ledger.{HasViewsUpTo};
    ghost use Rattle.gl_ledger.specs.Recordings.{last_entry};
    ghost use Rattle.gl_ledger.specs.declared.response.Response.TheVariants.{Replied};
    ghost use Rattle.gl_ledger.specs.Makers.{request_result};
    ghost use Rattle.gl_store.specs.Calls.{Executes, Refuses};
    ghost use Rattle.gl_ledger.specs.Past.{is_unopened};

    /// Runs a request and makes its entry, in a view that isn't below that of any entry before.
    /// Gives the entry's identifier and the reply. Refused, in this order, where the service isn't
    /// open, where an operation fails, where the entry's body or the reply has more than 1 MiB, and
    /// where no seqno is left. Running out of memory, too, leaves the store as it was.
    pub fn execute(
        &mut self,
        view: u32,
        request: &Request,
    ) -> Result<(TxId, Reply), OrNoMemory<Refusal>>
        requires up_to { HasViewsUpTo view self.old.ledger }
        requires some { 0 < length self.old.ledger }
        requires opened { is_unopened (last_entry self.old.ledger) ≡ false }
        ensures made { IfOk result (λ made.
            Executes self.old view request.now made.0 made.1 self.new) }
        ensures refused { IfErr result (λ e.
            Refuses (request_result self.old.ledger view request.now) e) }
        ensures err { OnErr result (self.new ≡ self.old) }
    {
        let seqno = self.next_seqno();
        let (entry, reply) = self.entry_of_request(view, request)?;
        self.push(entry)?;
        Ok((TxId { view, seqno }, reply))
    }

    /// The entry that a request makes after the ledger in a view, and the reply. The ledger stays
    /// without it. Refused as by `execute`.
    pub fn entry_of_request(
        &self,
        view: u32,
        request: &Request,
    ) -> Result<(Entry, Reply), OrNoMemory<Refusal>>
        ensures made { IfOk result (λ made.
            request_result self.now.ledger view request.now ≡ Ok (made.0, Replied made.1)) }
        ensures fits { IfOk result (λ made. is_entry made.0 ≡ true) }
        ensures refused { IfErr result (λ e.
            Refuses (request_result self.now.ledger view request.now) e) }
    {
        self.tail.entry_of_request(view, request)
    }
}
