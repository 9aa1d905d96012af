//! The sockets of a node, with one poll: those that it accepts and those that it makes.

ghost use Rattle.std.specs.Prelude.{◌≡◌};
ghost use Rattle.gl_system.specs.declared.sockets.NextFault.TheVariants.{NoMemory};

use crate::connection::{Connection, would_wait};
use crate::outgoing::SendFault;
use crate::piece::ReadFault;
use crate::ticker::Ticker;
use mio::net::{TcpListener, TcpStream};
use mio::{Events, Interest, Poll, Token};
use std::alloc::{AllocError, Global};
use std::collections::BTreeMap;
use std::io;
use std::net::{Net, SocketAddr};
use std::time::{Clock, Duration, Instant};

/// How many events one poll tells at most.
const EVENTS: usize = 256;

/// How many connections are accepted at a time. What is left is accepted at the next tick.
const ACCEPTED: usize = 256;

/// How many milliseconds a connection stays on which bytes wait and none goes out.
const PATIENCE: u32 = 10_000;

/// The listening socket. No connection gets this number.
const LISTENER: Token = Token(usize::MAX);

/// What comes.
#[derive(Debug, Drop)]
pub(crate) enum Arrival {
    Bytes(u64, Vec<u8>),
    Tick,
}

/// Why nothing comes.
#[derive(Clone, Copy, Debug, PartialEq, Eq)]
pub(crate) enum NextFault {
    /// The poll failed, or the clock.
    Failed,
    NoMemory,
}

impl From<AllocError> for NextFault {
    ghost from_gives = { λ _ fault. fault ≡ NoMemory };

    fn from(_error: AllocError) -> NextFault {
        NextFault::NoMemory
    }
}

#[derive(Drop)]
pub(crate) struct Sockets<'a, R> {
    rt: &'a R,
    alloc: Global,
    poll: Poll,
    /// What the last poll told, and how many of these events were handled.
    events: Events,
    handled: usize,
    listener: TcpListener,
    /// Where the peers listen. Connection i is the one to peer i.
    peers: Vec<SocketAddr>,
    connections: BTreeMap<u64, Connection>,
    /// The number of the next connection that is accepted.
    next_number: u64,
    ticker: Ticker,
    /// How many ticks a connection stays on which bytes wait and none goes out.
    patience: u32,
    /// How many connections broke or could not be made, up to the last value of a u64.
    broken: u64,
    /// Why the clock or the poll failed last, if one did.
    failure: Option<io::Error>,
}

impl<'a, R: Net + Clock> Sockets<'a, R> {
    /// Listens, and begins to connect to the peers. A tick's while is so many milliseconds.
    pub(crate) fn open(
        rt: &'a R,
        alloc: Global,
        listen: SocketAddr,
        peers: &[SocketAddr],
        tick: u32,
    ) -> io::Result<Self> {
        let poll = Poll::new(rt)?;
        let mut listener = TcpListener::bind(rt, listen)?;
        poll.registry()
            .register(&mut listener, LISTENER, Interest::READABLE)?;
        let mut sockets = Sockets {
            rt,
            alloc,
            poll,
            events: Events::with_capacity(alloc, EVENTS)?,
            handled: 0,
            listener,
            peers: peers.to_vec(alloc)?,
            connections: BTreeMap::new(alloc),
            next_number: peers.len() as u64,
            ticker: Ticker::new(Instant::now(rt)?, Duration::from_millis(u64::from(tick))),
            patience: (PATIENCE / tick.max(1)).max(1),
            broken: 0,
            failure: None,
        };
        sockets.connect_peers()?;
        Ok(sockets)
    }

    pub(crate) fn local_addr(&self) -> io::Result<SocketAddr> {
        self.listener.local_addr()
    }

    pub(crate) fn broken(&self) -> u64
        ensures { result ≡ self.now.broken }
    {
        self.broken
    }

    /// Why the clock or the poll failed last, if one did.
    pub(crate) fn failure(&self) -> Option<&io::Error> {
        self.failure.as_ref()
    }

    /// Notes why the clock or the poll failed, where it did.
    fn note<T>(&mut self, outcome: io::Result<T>) -> Result<T, NextFault> {
        match outcome {
            Ok(value) => Ok(value),
            Err(error) => {
                self.failure = Some(error);
                Err(NextFault::Failed)
            }
        }
    }

    /// Waits for what comes next.
    pub(crate) fn next(&mut self) -> Result<Arrival, NextFault> {
        // A loop is proved to end, so this one counts its turns.
        for _ in 0..u64::MAX {
            if let Some(arrival) = self.look()? {
                return Ok(arrival);
            }
        }
        Err(NextFault::Failed)
    }

    /// A tick that is due, else what the next event brings, else a poll.
    fn look(&mut self) -> Result<Option<Arrival>, NextFault> {
        let now = Instant::now(self.rt);
        let now = self.note(now)?;
        if self.ticker.is_due(now) {
            self.begin_tick()?;
            self.ticker.restart(now);
            return Ok(Some(Arrival::Tick));
        }
        if let Some(token) = self.next_token() {
            let arrival = self.handle(token)?;
            self.handled = self.handled.saturating_add(1);
            self.ticker.look();
            return Ok(arrival);
        }
        let left = self.ticker.left(now);
        self.handled = 0;
        let polled = self.poll.poll(&mut self.events, Some(left));
        self.note(polled)?;
        if self.events.is_empty() {
            self.ticker.look();
        }
        Ok(None)
    }

    /// Of whom the next event tells, if one is left.
    fn next_token(&self) -> Option<Token> {
        let event = self.events.iter().as_slice().get(self.handled)?;
        Some(event.token())
    }

    /// Accepts, or writes and reads on the connection of which an event tells.
    fn handle(&mut self, token: Token) -> Result<Option<Arrival>, AllocError> {
        if token == LISTENER {
            self.accept()?;
            return Ok(None);
        }
        let number = token.0 as u64;
        self.flush(number);
        match self.read(number)? {
            Some(bytes) => Ok(Some(Arrival::Bytes(number, bytes))),
            None => Ok(None),
        }
    }

    /// Writes what waits on a connection.
    fn flush(&mut self, number: u64) {
        let Some(connection) = self.connections.get_mut(&number) else {
            return;
        };
        if connection.flush(self.poll.registry()).is_err() {
            self.lose(number);
        }
    }

    /// A piece of what a connection has to give, if it has any.
    fn read(&mut self, number: u64) -> Result<Option<Vec<u8>>, AllocError> {
        let Some(connection) = self.connections.get_mut(&number) else {
            return Ok(None);
        };
        match connection.read(self.alloc) {
            Ok(piece) if piece.is_empty() => {
                self.end(number);
                Ok(None)
            }
            Ok(piece) => {
                if connection.watch(self.poll.registry()).is_err() {
                    self.lose(number);
                }
                Ok(Some(piece))
            }
            Err(ReadFault::Io(error)) => {
                if !would_wait(&error) {
                    self.lose(number);
                }
                Ok(None)
            }
            Err(ReadFault::NoMemory) => Err(AllocError),
        }
    }

    /// Takes a whole frame for a connection, and writes what its socket takes at once; or loses it.
    pub(crate) fn send(&mut self, number: u64, frame: &[u8]) -> Result<(), SendFault> {
        let Some(connection) = self.connections.get_mut(&number) else {
            return Err(SendFault::Lost);
        };
        connection.put(frame)?;
        if connection.flush(self.poll.registry()).is_err() {
            self.lose(number);
            return Err(SendFault::Lost);
        }
        Ok(())
    }

    /// The other side of a connection sends no more. A client may still wait for answers.
    fn end(&mut self, number: u64) {
        if number < self.peers.len() as u64 {
            self.lose(number);
        } else if let Some(connection) = self.connections.get_mut(&number) {
            connection.end();
        }
    }

    /// Lets go of a connection that broke.
    fn lose(&mut self, number: u64) {
        self.connections.remove(&number);
        self.count();
    }

    /// Counts a connection that broke or could not be made.
    fn count(&mut self) {
        self.broken = self.broken.saturating_add(1);
    }

    /// Accepts what still waits, lets go of what is over, and connects to the peers without a
    /// connection.
    fn begin_tick(&mut self) -> Result<(), AllocError> {
        self.accept()?;
        let patience = self.patience;
        self.connections
            .retain(|_, connection| connection.stays(patience));
        self.connect_peers()
    }

    /// Accepts the connections that wait.
    fn accept(&mut self) -> Result<(), AllocError> {
        for _ in 0..ACCEPTED {
            match self.listener.accept() {
                Ok((stream, _)) => self.add_client(stream)?,
                Err(error) => {
                    if !would_wait(&error) {
                        self.count();
                    }
                    return Ok(());
                }
            }
        }
        Ok(())
    }

    /// Adds a connection under the next number. Where no number is left it is closed.
    fn add_client(&mut self, stream: TcpStream) -> Result<(), AllocError> {
        let number = self.next_number;
        let Some(next) = number.checked_add(1) else {
            self.count();
            return Ok(());
        };
        self.next_number = next;
        self.add(number, stream)
    }

    /// Begins to connect to each peer to which there is no connection.
    fn connect_peers(&mut self) -> Result<(), AllocError> {
        for index in 0..self.peers.len() {
            let number = index as u64;
            if let Some(address) = self.peers.get(index).copied()
                && !self.connections.contains_key(&number)
            {
                match TcpStream::connect(self.rt, address) {
                    Ok(stream) => self.add(number, stream)?,
                    Err(_) => self.count(),
                }
            }
        }
        Ok(())
    }

    fn add(&mut self, number: u64, stream: TcpStream) -> Result<(), AllocError> {
        match Connection::new(self.alloc, self.poll.registry(), stream, number) {
            Ok(connection) => {
                self.connections.insert(number, connection)?;
            }
            Err(_) => self.count(),
        }
        Ok(())
    }
}
