//! How a node serves, and why it ends.

ghost use Rattle.std.specs.Prelude.{◌≡◌};
ghost use Rattle.gl_serve.specs.Running.{end_of};

use crate::session::SessionError;
use gl_entry::NodeId;
use thiserror::Error;

/// How a node serves.
#[derive(Clone, Copy, Debug)]
pub struct Serving<'a> {
    /// The peers: the first has connection 0, the next 1, and so on. Those after are clients'.
    pub peers: &'a [NodeId],
    /// So many ticks without word of a leader make a node stand for election: 1 at least.
    pub ticks: u32,
    /// How often the link may be asked for what comes next.
    pub turns: u64,
}

/// Why a serve ended before its link did.
#[derive(Clone, Copy, Debug, PartialEq, Eq, Error)]
pub enum ServeEnd {
    #[error("the node stopped, since its disk failed")]
    Stopped,
    #[error("out of memory")]
    NoMemory,
    #[error("the link failed")]
    LinkFailed,
    #[error("the link was asked as often as it may be")]
    Turns,
}

impl From<SessionError> for ServeEnd {
    ghost from_gives = { λ session_error end. end ≡ end_of session_error };

    fn from(session_error: SessionError) -> ServeEnd {
        match session_error {
            SessionError::Stopped => ServeEnd::Stopped,
            SessionError::NoMemory => ServeEnd::NoMemory,
        }
    }
}
