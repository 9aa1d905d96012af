//! What founds the service of a store again, after a disaster.

ghost use Rattle.std.specs.Prelude.{◌≡◌, ◌+◌, ◌≤◌, ◌<◌, ◌^◌, [], ◌∷◌, ◌++◌, true, Ok, length, IfOk, IfErr, IfSome, IfNone, OnErr, OnOk};
ghost use Rattle.std.specs.Option.{option_copied};
ghost use Rattle.gl_base.specs.TxId.{last_seqno};
ghost use Rattle.gl_entry.specs.Entry.{is_entry};
ghost use Rattle.gl_requests.specs.Ranges.{is_recovery};
ghost use Rattle.gl_ledger.specs.Recovery.{view_of_last};
ghost use Rattle.gl_ledger.specs.Past.{signs_at};

use super::Store;
use gl_base::{MEBIBYTE, OrNoMemory};
use gl_entry::{Content, Entry};
use gl_ledger::Refusal;
use gl_requests::{GovernanceRequest, Recovery};

/// Whether an entry is a signature, if there is one.
fn is_signature(entry: Option<&Entry>) -> bool
    ensures { result ≡ signs_at (option_copied entry.entry) }
{
    match entry {
        None => false,
        Some(entry) => matches!(entry.content, Content::Signature(_)),
    }
}

/// The view after that of an entry, 1 without one. `None` where there is no such view.
fn next_view(entry: Option<&Entry>) -> Option<u32>
    ensures some { IfSome result (λ view. view ≡ view_of_last (option_copied entry.entry) + 1) }
    ensures none { IfNone result (2 ^ 32 ≤ view_of_last (option_copied entry.entry) + 1) }
{
    match entry {
        None => Some(1),
        Some(entry) => entry.view.checked_add(1),
    }
}

impl Store {
    ghost use Rattle.gl_ledger.specs.Recordings.{last_entry};
    ghost use Rattle.gl_ledger.specs.Makers.{by_store};
    ghost use Rattle.gl_ledger.specs.Recovery.{recovery_entry, recovery_result, recovery_view};
    ghost use Rattle.gl_store.specs.Calls.{Refuses};

    /// Whether the ledger ends with a signature, so that its service may be recovered after it.
    pub fn ends_with_signature(&self) -> bool
        ensures { result ≡ signs_at (last_entry self.now.ledger) }
    {
        is_signature(self.last_entry())
    }

    /// The view in which the service may be recovered, the one after that of the last entry. `None`
    /// where no view is left.
    pub fn recovery_view(&self) -> Option<u32>
        ensures some { IfSome result (λ view. view ≡ recovery_view self.now.ledger) }
        ensures none { IfNone result (2 ^ 32 ≤ recovery_view self.now.ledger) }
    {
        next_view(self.last_entry())
    }

    /// Recovers the service, under another key and with other nodes: adds the entry of a recovery
    /// after a ledger that ends with a signature. The entry after it has to be the signature that
    /// opens the service again. Refused, in this order, for what the recovery asks, and where the
    /// entry's body has more than 1 MiB. Running out of memory, too, leaves the store as it was.
    pub fn recover_service(&mut self, recovery: Recovery) -> Result<(), OrNoMemory<Refusal>>
        requires signed { signs_at (last_entry self.old.ledger) ≡ true }
        requires view { recovery_view self.old.ledger < 2 ^ 32 }
        requires left { length self.old.ledger + 2 ≤ last_seqno }
        requires fits { is_recovery recovery ≡ true }
        ensures made { OnOk result (self.new ≡ record self.old {
          ledger = self.old.ledger ++ recovery_entry recovery self.old.ledger ∷ [];
        }) }
        ensures accepted { OnOk result (recovery_result recovery self.old.ledger
            ≡ Ok (recovery_entry recovery self.old.ledger)) }
        ensures refused { IfErr result (λ e.
            Refuses (by_store (recovery_result recovery self.old.ledger)) e) }
        ensures err { OnErr result (self.new ≡ self.old) }
    {
        prove!(self.ledger_len() > 0);
        let entry = self.recovery_entry(recovery)?;
        self.push(entry)?;
        Ok(())
    }

    /// The entry of a recovery after the ledger. Refused as by `recover_service`.
    fn recovery_entry(&mut self, recovery: Recovery) -> Result<Entry, OrNoMemory<Refusal>>
        requires some { 0 < length self.old.ledger }
        requires view { recovery_view self.old.ledger < 2 ^ 32 }
        requires fits { is_recovery recovery ≡ true }
        ensures made { IfOk result (λ entry. entry ≡ recovery_entry recovery self.old.ledger) }
        ensures accepted { OnOk result (recovery_result recovery self.old.ledger
            ≡ Ok (recovery_entry recovery self.old.ledger)) }
        ensures refused { IfErr result (λ e.
            Refuses (by_store (recovery_result recovery self.old.ledger)) e) }
        ensures kept { self.new ≡ self.old }
    {
        let Some(view) = self.recovery_view() else {
            unreachable!();
        };
        let request = GovernanceRequest::Recover(recovery);
        let entry = match self.governance_entry(view, &request) {
            Ok(entry) => entry,
            Err(OrNoMemory::NoMemory) => return Err(OrNoMemory::NoMemory),
            Err(OrNoMemory::Fault(why)) => {
                return Err(OrNoMemory::Fault(Refusal::Governance(why)));
            }
        };
        let size = entry.body_len();
        if size > MEBIBYTE {
            return Err(OrNoMemory::Fault(Refusal::TooLarge { size }));
        }
        Ok(entry)
    }

    /// The last entry, if there is one.
    fn last_entry(&self) -> Option<&Entry>
        ensures { option_copied result ≡ last_entry self.now.ledger }
    {
        self.entry(self.ledger_len())
    }
}
