//! Why bytes are no message, and why a stream holds no frame.

ghost use Rattle.std.specs.Prelude.{◌≡◌};
ghost use Rattle.gl_base.specs.declared.fault.CodeFault.TheVariants.{Cut};
ghost use Rattle.gl_base.specs.declared.or_no_memory.OrNoMemory.TheVariants.{Fault};
ghost use Rattle.gl_messages.specs.declared.fault.MessageFault.TheVariants as messages;

use gl_base::{CodeFault, CutFault, OrNoMemory};
use gl_entry::EntryFault;
use thiserror::Error;

/// Why a stream holds no next frame.
#[derive(Clone, Copy, Debug, PartialEq, Eq, Error)]
pub enum FrameFault {
    /// The next frame announces a payload of more than 2 MiB.
    #[error("a frame announces {len} bytes")]
    FrameTooLong { len: u32 },
}

/// Why bytes are no message of a node: the first fault from the left. Places are counted from the
/// first byte of the message, from 0, also inside its entries.
#[derive(Clone, Copy, Debug, PartialEq, Eq, Error)]
pub enum MessageFault {
    /// A field is cut short, or holds what is not allowed there; or bytes are left over; or an
    /// entry that begins at the place passes the limit on bytes of an Append's entries.
    #[error("the message has a bad field")]
    Code(CodeFault),
    /// An entry of an Append is none.
    #[error("an entry of the message is none")]
    Entry(EntryFault),
    /// An entry of an Append has another place than the one after the place before it, or a view
    /// below that of the entry before or above the message's.
    #[error("an entry has {got} where {want} is wanted")]
    Order { want: u64, got: u64 },
}

impl From<CutFault> for MessageFault {
    ghost from_gives = { λ fault e. e ≡ messages.Code (Cut fault) };

    fn from(fault: CutFault) -> MessageFault {
        MessageFault::Code(CodeFault::Cut(fault))
    }
}

impl From<CodeFault> for MessageFault {
    ghost from_gives = { λ fault e. e ≡ messages.Code fault };

    fn from(fault: CodeFault) -> MessageFault {
        MessageFault::Code(fault)
    }
}

impl From<EntryFault> for MessageFault {
    ghost from_gives = { λ fault e. e ≡ messages.Entry fault };

    fn from(fault: EntryFault) -> MessageFault {
        MessageFault::Entry(fault)
    }
}

impl From<MessageFault> for OrNoMemory<MessageFault> {
    ghost from_gives = { λ fault e. e ≡ Fault fault };

    fn from(fault: MessageFault) -> OrNoMemory<MessageFault> {
        OrNoMemory::Fault(fault)
    }
}
