//! What is kept of the connections' streams.

ghost use Rattle.std.specs.Prelude.{◌≡◌, ℕ, [], IfOk, OnOk, Vec};
ghost use Rattle.std.specs.Option.{option_map};
ghost use Rattle.gl_serve.specs.declared.streams.Stream.TheVariants.{Heard};
ghost use Rattle.gl_serve.specs.Kept.{fed, next_of, stream_at};

use gl_base::OrNoMemory;
use gl_messages::{FrameFault, Frames};
use std::alloc::{AllocError, Global};
use std::collections::BTreeMap;

/// What is kept of the stream of a connection.
#[derive(Drop)]
pub(crate) enum Stream {
    /// The bytes that came, after the frames that were taken.
    Heard(Frames),
    /// Nothing any more: a length above 2 MiB came.
    Deaf,
}

impl Stream {
    /// Keeps bytes that came.
    fn feed(&mut self, bytes: &[u8]) -> Result<(), AllocError>
        ensures { OnOk result (self.new ≡ fed bytes.now self.old) }
    {
        match self {
            Stream::Heard(frames) => frames.feed(bytes),
            Stream::Deaf => Ok(()),
        }
    }

    /// Takes the next payload, if one is whole.
    fn take_payload(&mut self) -> Result<Option<Vec<u8>>, AllocError>
        ensures { IfOk result (λ payload.
            next_of self.old ≡ (option_map (λ p. p.items) payload, self.new)) }
    {
        let Stream::Heard(frames) = self else {
            return Ok(None);
        };
        match frames.next() {
            Ok(payload) => Ok(payload),
            Err(OrNoMemory::NoMemory) => Err(AllocError),
            Err(OrNoMemory::Fault(FrameFault::FrameTooLong { .. })) => {
                *self = Stream::Deaf;
                Ok(None)
            }
        }
    }
}

/// What is kept of the streams of all connections.
#[derive(Drop)]
pub(crate) struct Streams {
    alloc: Global,
    streams: BTreeMap<u64, Stream>,
}

impl Streams {
    pub(crate) fn new(alloc: Global) -> Self
        ensures { (conn : ℕ) → stream_at result conn ≡ Heard [] }
    {
        Streams {
            alloc,
            streams: BTreeMap::new(alloc),
        }
    }

    /// Keeps bytes that came on a connection.
    pub(crate) fn feed(&mut self, conn: u64, bytes: &[u8]) -> Result<(), AllocError>
        ensures fed { OnOk result
            (stream_at self.new conn ≡ fed bytes.now (stream_at self.old conn)) }
        ensures others { OnOk result ((other : ℕ) → (conn ≡ other → ⊥) →
            stream_at self.new other ≡ stream_at self.old other) }
    {
        match self.streams.get_mut(&conn) {
            Some(stream) => stream.feed(bytes),
            None => {
                let mut stream = Stream::Heard(Frames::new(self.alloc));
                stream.feed(bytes)?;
                self.streams.insert(conn, stream)?;
                Ok(())
            }
        }
    }

    /// Takes the next payload of a connection, if one is whole.
    pub(crate) fn take_payload(&mut self, conn: u64) -> Result<Option<Vec<u8>>, AllocError>
        ensures taken { IfOk result (λ payload. next_of (stream_at self.old conn)
            ≡ (option_map (λ p. p.items) payload, stream_at self.new conn)) }
        ensures others { OnOk result ((other : ℕ) → (conn ≡ other → ⊥) →
            stream_at self.new other ≡ stream_at self.old other) }
    {
        match self.streams.get_mut(&conn) {
            Some(stream) => stream.take_payload(),
            None => Ok(None),
        }
    }
}
