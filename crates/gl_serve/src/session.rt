//! What a serve keeps beside its node.

ghost use Rattle.std.specs.Prelude.{◌≡◌};
ghost use Rattle.gl_serve.specs.declared.session.SessionError.TheVariants.{NoMemory};

use std::alloc::{AllocError, Global};

/// Why a serve can't go on.
#[derive(Clone, Copy, Debug, PartialEq, Eq)]
pub(crate) enum SessionError {
    /// The disk failed at an event of the node.
    Stopped,
    NoMemory,
}

impl From<AllocError> for SessionError {
    ghost from_gives = { λ _ session_error. session_error ≡ NoMemory };

    fn from(_e: AllocError) -> SessionError {
        SessionError::NoMemory
    }
}

/// What is noted of a node.
#[derive(Clone, Copy, Debug)]
pub(crate) struct SessionState {
    /// The ticks that went by without word of a leader.
    pub(crate) idle: u32,
    /// Whether the node led as the last tick began.
    pub(crate) leading: bool,
    /// How many payloads were in the grammar, up to the last value of a u64.
    pub(crate) served: u64,
    /// The end that an event of the node made, if one did.
    pub(crate) over: Option<SessionError>,
}

/// What a serve keeps.
#[derive(Clone, Copy, Debug)]
pub(crate) struct Session {
    pub(crate) alloc: Global,
    pub(crate) session_state: SessionState,
    /// How many frames were lost, up to the last value of a u64.
    pub(crate) lost: u64,
}

/// What a turn of a serve came to.
#[derive(Clone, Copy, Debug, PartialEq, Eq)]
pub(crate) enum Progress {
    /// Something came, and all was done for it.
    Took,
    /// The link gave its end.
    Ended,
    /// The link failed.
    Failed,
}
