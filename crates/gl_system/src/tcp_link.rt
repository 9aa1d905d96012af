//! TCP sockets and a timer as a link. It counts its failures, and tells nothing of content.

ghost use Rattle.std.specs.Prelude.{◌≡◌, ◌≤◌, ◌||◌, ◌↔◌, ℕ, [], length, true, false, Ok, Err, IsTrue, IfOk};
ghost use Rattle.gl_outside.specs.Fault.{Rose, next_call};
ghost use Rattle.gl_outside.specs.Link.{is_end};

use crate::outgoing::SendFault;
use crate::sockets::{Arrival, NextFault, Sockets};
use gl_outside::{Came, Link, Put};
use std::alloc::Global;
use std::io;
use std::net::{Net, SocketAddr};
use std::time::Clock;

/// A link over TCP sockets, with ticks of a timer. Without sockets each call fails.
///
/// Connections 0 to p-1 are those to the p peers, in their order. Each connection that is accepted,
/// from a client or from a peer, gets the next number from p on, which no other connection gets. A
/// connection to a peer that broke or could not be made is made again at the next tick.
#[derive(Drop)]
pub struct TcpLink<'a, R> {
    sockets: Option<Sockets<'a, R>>,
    /// How often `next` was called and how often it failed, up to the last value of a u64.
    pub calls: u64,
    pub faults: u64,
    /// How many frames were lost, up to the last value of a u64.
    pub send_faults: u64,
    /// Whether it was told to stop.
    pub stopped: bool,
    /// Whether it gave the end.
    pub ended: bool,
}

/// What a call of `next` tells.
fn report(arrival: Result<Arrival, NextFault>) -> Came
    ensures bytes { (conn : ℕ) (bytes : _) → arrival ≡ Ok (Arrival.Bytes conn bytes) →
        result ≡ Came.Bytes conn bytes }
    ensures tick { (result ≡ Came.Tick) ↔ (arrival ≡ Ok Arrival.Tick) }
    ensures failed { (result ≡ Came.Failed) ↔ (arrival ≡ Err NextFault.Failed) }
    ensures no_memory { (result ≡ Came.NoMemory) ↔ (arrival ≡ Err NextFault.NoMemory) }
    ensures goes_on { result ≡ Came.Ended → ⊥ }
{
    match arrival {
        Ok(Arrival::Bytes(conn, bytes)) => Came::Bytes(conn, bytes),
        Ok(Arrival::Tick) => Came::Tick,
        Err(NextFault::Failed) => Came::Failed,
        Err(NextFault::NoMemory) => Came::NoMemory,
    }
}

impl<'a, R> TcpLink<'a, R> {
    /// A link without sockets, for a program that serves nothing. Each call of it fails.
    pub fn none() -> Self
        ensures counts { (result.calls ≡ 0) × (result.faults ≡ 0) × (result.send_faults ≡ 0) }
        ensures goes_on { (result.stopped ≡ false) × (result.ended ≡ false) }
    {
        TcpLink {
            sockets: None,
            calls: 0,
            faults: 0,
            send_faults: 0,
            stopped: false,
            ended: false,
        }
    }

    /// Has the link end: from now on `next` gives the end.
    pub fn stop(&mut self)
        ensures { self.new ≡ record self.old { stopped = true } }
    {
        self.stopped = true;
    }
}

impl<'a, R: Net + Clock> TcpLink<'a, R> {
    /// Listens at an address, and begins to connect to the peers. A tick comes each time so many
    /// milliseconds are over. It fails where it can't listen, or where there is no memory.
    pub fn new(
        rt: &'a R,
        alloc: Global,
        listen: SocketAddr,
        peers: &[SocketAddr],
        tick: u32,
    ) -> io::Result<Self>
        ensures counts { IfOk result (λ link.
            (link.calls ≡ 0) × (link.faults ≡ 0) × (link.send_faults ≡ 0)) }
        ensures goes_on { IfOk result (λ link. (link.stopped ≡ false) × (link.ended ≡ false)) }
    {
        let sockets = Sockets::open(rt, alloc, listen, peers, tick)?;
        Ok(TcpLink {
            sockets: Some(sockets),
            calls: 0,
            faults: 0,
            send_faults: 0,
            stopped: false,
            ended: false,
        })
    }

    /// Where it listens, if it does.
    pub fn local_addr(&self) -> Option<SocketAddr> {
        self.sockets.as_ref()?.local_addr().ok()
    }

    /// Why a call of `next` failed last, if the system failed it.
    pub fn failure(&self) -> Option<&io::Error> {
        self.sockets.as_ref()?.failure()
    }

    /// How many connections broke or could not be made, up to the last value of a u64. A client
    /// that leaves doesn't count, nor one that is let go of since it takes nothing.
    pub fn broken(&self) -> u64 {
        match &self.sockets {
            Some(sockets) => sockets.broken(),
            None => 0,
        }
    }
}

impl<R: Net + Clock> Link for TcpLink<'_, R> {
    ghost honest = { false };

    ghost past = { λ _. [] };

    ghost inward = { λ l. record {
      coming = [];
      calls = l.calls;
      faults = l.faults;
      ended = l.ended;
    } };

    ghost send_faults = { λ l. l.send_faults };

    /// What comes next. It waits, a tick's while at most.
    fn next(&mut self) -> Came
        ensures stops { (result ≡ Came.Ended) ↔ IsTrue self.old.stopped }
        ensures kept_end { self.new.ended ≡ (self.old.ended || is_end result) }
        ensures calls { self.new.calls ≡ next_call self.old.calls }
        ensures stopped { self.new.stopped ≡ self.old.stopped }

        // Each failure is counted once.
        ensures counted { result ≡ Came.Failed → self.new.faults ≡ next_call self.old.faults }
        ensures failed { result ≡ Came.Failed → Rose self.old.faults self.new.faults }
        ensures quiet { (result ≡ Came.Failed → ⊥) → self.new.faults ≡ self.old.faults }
        ensures never_falls { self.old.faults ≤ self.new.faults }
        ensures send_faults { self.new.send_faults ≡ self.old.send_faults }
    {
        self.calls = self.calls.saturating_add(1);
        if self.stopped {
            self.ended = true;
            return Came::Ended;
        }
        let arrival = match &mut self.sockets {
            Some(sockets) => sockets.next(),
            None => Err(NextFault::Failed),
        };
        let came = report(arrival);
        if let Came::Failed = &came {
            self.faults = self.faults.saturating_add(1);
        }
        came
    }

    /// Takes the whole frame. What the socket doesn't take at once waits for it, on each connection
    /// at most 64 MiB.
    fn send(&mut self, conn: u64, frame: &[u8]) -> Put
        ensures whole { (n : ℕ) → result ≡ Put.Took n → n ≡ length frame.now }
        ensures next { (self.new.calls ≡ self.old.calls) × (self.new.faults ≡ self.old.faults) }
        ensures ended { self.new.ended ≡ self.old.ended }
        ensures stopped { self.new.stopped ≡ self.old.stopped }

        // Each lost frame is counted once.
        ensures counted { result ≡ Put.Failed →
            self.new.send_faults ≡ next_call self.old.send_faults }
        ensures failed { result ≡ Put.Failed → Rose self.old.send_faults self.new.send_faults }
        ensures quiet { (result ≡ Put.Failed → ⊥) → self.new.send_faults ≡ self.old.send_faults }
        ensures never_falls { self.old.send_faults ≤ self.new.send_faults }
    {
        let sent = match &mut self.sockets {
            Some(sockets) => sockets.send(conn, frame),
            None => Err(SendFault::Lost),
        };
        match sent {
            Ok(()) => Put::Took(frame.len()),
            Err(SendFault::NoMemory) => Put::NoMemory,
            Err(SendFault::Lost) => {
                self.send_faults = self.send_faults.saturating_add(1);
                Put::Failed
            }
        }
    }
}
