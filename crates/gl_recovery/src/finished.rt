//! Whether the recovery of a service is finished.

ghost use Rattle.std.specs.Prelude.{◌≡◌};
ghost use Rattle.gl_audit.specs.GovState.{history_of};
ghost use Rattle.gl_recovery.specs.Finish.{finished};

use gl_audit::GovState;
use gl_requests::ServiceState;
use thiserror::Error;

/// Why the recovery of a service isn't finished.
#[derive(Clone, Copy, Debug, PartialEq, Eq, Error)]
pub enum FinishFault {
    /// The service waits for its members' shares: `have` of them are given, and the dealing asks
    /// for `need`.
    #[error("{have} of {need} shares are given")]
    NotYet { have: u64, need: u8 },
    /// The service has no recovery to finish: it is in this state, none before it is founded, and
    /// it neither waits for shares nor is open after a recovery.
    #[error("the service is not being recovered")]
    NotRecovering { state: Option<ServiceState> },
}

/// Whether the recovery of a service is finished, so that it is open again. It isn't exactly while
/// the service waits for shares, where it reports how many are given and how many the dealing asks
/// for; nor where the service has no recovery to finish. Takes no memory.
#[tactic(auto, unfolding(crate::specs::Finish::finished))]
pub fn finish(gov: &GovState) -> Result<(), FinishFault>
    ensures { result ≡ finished (history_of gov.now) }
{
    let past = gov.history();
    match past.service_state() {
        Some(ServiceState::WaitingForRecoveryShares) => {
            let shares = gov.shares();
            Err(FinishFault::NotYet {
                have: shares.have,
                need: shares.need,
            })
        }
        Some(ServiceState::Open) if past.is_recovered() => Ok(()),
        state => Err(FinishFault::NotRecovering { state }),
    }
}
