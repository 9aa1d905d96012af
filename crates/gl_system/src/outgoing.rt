//! The bytes of whole frames that wait until a socket takes them.

ghost use Rattle.std.specs.Prelude.{◌≡◌, ◌+◌, ◌<◌, ◌↔◌, ◌++◌, [], length, OnOk, OnErr};
ghost use Rattle.gl_system.specs.Outgoing.{room, Moves};

use bytes::BytesMut;
use std::io::{self, ErrorKind, Write};

/// At most so many bytes wait on a connection.
const ROOM: usize = 64 << 20;

/// A block up to so many bytes stays where all of its bytes are gone.
const KEPT: usize = 64 << 10;

/// Why a frame isn't sent.
#[derive(Clone, Copy, Debug, PartialEq, Eq)]
pub(crate) enum SendFault {
    /// The frame is lost: there is no connection, it broke, or too many bytes wait on it.
    Lost,
    NoMemory,
}

/// Takes a whole frame after the waiting bytes, or nothing of it.
pub(crate) fn put(waiting: &mut BytesMut, frame: &[u8]) -> Result<(), SendFault>
    ensures ok { OnOk result (waiting.new.items ≡ waiting.old.items ++ frame.now) }
    ensures full { (result ≡ Err SendFault.Lost)
        ↔ (room < length waiting.old.items + length frame.now) }
    ensures err { OnErr result (waiting.new.items ≡ waiting.old.items) }
{
    if frame.len() > ROOM || waiting.len() > ROOM - frame.len() {
        return Err(SendFault::Lost);
    }
    match waiting.extend_from_slice(frame) {
        Ok(()) => Ok(()),
        Err(_) => Err(SendFault::NoMemory),
    }
}

/// Writes the waiting bytes, from their front, until all are gone or a write fails.
pub(crate) fn write_out<W: Write>(waiting: &mut BytesMut, to: &mut W) -> io::Result<()>
    ensures moves { Moves waiting.old.items waiting.new.items
        (W.contents to.old) (W.contents to.new) }
    ensures all { OnOk result (waiting.new.items ≡ []) }
{
    while !waiting.is_empty() {
        let count = to.write(waiting.as_slice())?;
        if count == 0 {
            return Err(io::Error::from(ErrorKind::WriteZero));
        }
        waiting.advance(count);
    }
    Ok(())
}

/// Gives back a large block whose bytes are all gone.
pub(crate) fn release(waiting: &mut BytesMut)
    ensures { waiting.new.items ≡ waiting.old.items }
{
    if waiting.is_empty() && waiting.capacity() > KEPT {
        let alloc = *waiting.allocator();
        *waiting = BytesMut::new(alloc);
    }
}
