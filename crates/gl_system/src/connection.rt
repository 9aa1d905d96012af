//! One connection: its socket, and what waits until the socket takes it.

use crate::outgoing::{SendFault, put, release, write_out};
use crate::piece::{ReadFault, read_piece};
use bytes::BytesMut;
use mio::net::TcpStream;
use mio::{Interest, Registry, Token};
use std::alloc::Global;
use std::io::{self, ErrorKind};

/// The most bytes that one read gives.
const PIECE: usize = 64 << 10;

/// How many ticks a connection stays whose other side sends no more, for what is still to be
/// answered.
const LINGER: u32 = 1;

#[derive(Drop)]
pub(crate) struct Connection {
    stream: TcpStream,
    token: Token,
    outgoing: BytesMut,
    /// Whether the other side sends no more.
    has_ended: bool,
    /// For how many ticks it has been kept though bytes wait and none went out, or though the other
    /// side sends no more.
    idle: u32,
}

/// Whether a call failed only since it would have had to wait.
pub(crate) fn would_wait(error: &io::Error) -> bool {
    error.kind() == ErrorKind::WouldBlock
}

impl Connection {
    /// Has a stream be watched under its number. It sends at once what it is given.
    pub(crate) fn new(
        alloc: Global,
        registry: &Registry,
        mut stream: TcpStream,
        number: u64,
    ) -> io::Result<Self> {
        let token = Token(number as usize);
        stream.set_nodelay(true)?;
        registry.register(&mut stream, token, Interest::READABLE | Interest::WRITABLE)?;
        Ok(Connection {
            stream,
            token,
            outgoing: BytesMut::new(alloc),
            has_ended: false,
            idle: 0,
        })
    }

    /// What one read gives.
    pub(crate) fn read(&mut self, alloc: Global) -> Result<Vec<u8>, ReadFault> {
        read_piece(alloc, PIECE, &mut self.stream)
    }

    /// Has it be reported while there is something to read, or once the socket takes what waits.
    pub(crate) fn watch(&mut self, registry: &Registry) -> io::Result<()> {
        let interest = if self.outgoing.is_empty() {
            Interest::READABLE
        } else {
            Interest::READABLE | Interest::WRITABLE
        };
        registry.reregister(&mut self.stream, self.token, interest)
    }

    /// Notes that the other side sends no more.
    pub(crate) fn end(&mut self) {
        self.has_ended = true;
    }

    /// Takes a whole frame after what waits, or nothing of it.
    pub(crate) fn put(&mut self, frame: &[u8]) -> Result<(), SendFault> {
        put(&mut self.outgoing, frame)
    }

    /// Writes what waits, as far as the socket takes it at once. An error is one of the connection.
    pub(crate) fn flush(&mut self, registry: &Registry) -> io::Result<()> {
        let before = self.outgoing.len();
        let written = write_out(&mut self.outgoing, &mut self.stream);
        if self.outgoing.len() < before {
            self.idle = 0;
        }
        release(&mut self.outgoing);
        match written {
            Err(error) if would_wait(&error) => self.watch(registry),
            other => other,
        }
    }

    /// Counts a tick. Whether the connection stays. Where bytes wait and none goes out it does for
    /// so many ticks.
    pub(crate) fn stays(&mut self, patience: u32) -> bool {
        if !self.has_ended && self.outgoing.is_empty() {
            self.idle = 0;
            return true;
        }
        self.idle = self.idle.saturating_add(1);
        let most = if self.outgoing.is_empty() {
            LINGER
        } else {
            patience
        };
        self.idle <= most
    }
}
