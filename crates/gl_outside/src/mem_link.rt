//! Links in memory, for a run whose outside is known.

ghost use Rattle.std.specs.Prelude.{◌≡◌, ◌⊎◌, ◌↔◌, ◌≤◌, ◌||◌, [], ◌++◌, length, true, false, IsTrue, ℕ, if◌then◌else◌};
ghost use Rattle.gl_outside.specs.Fault.{Rose, next_call};
ghost use Rattle.gl_outside.specs.Link.{given_by, gave, is_end, sent_by};
ghost use Rattle.gl_outside.specs.MemLink.{link_past, link_coming};
ghost use Rattle.gl_outside.specs.Plan.{faults_of, fails_next};

use crate::fault_plan::FaultPlan;
use crate::link::{Came, Link};
use crate::sink::Put;
use std::alloc::Global;

/// What is to come.
#[derive(Clone, Copy, Debug)]
pub enum Incoming<'a> {
    /// Bytes of a connection.
    Bytes(u64, &'a [u8]),
    Tick,
}

/// What came or was sent, with its connection.
#[derive(Debug, Drop)]
pub enum Traffic {
    Came(u64, Vec<u8>),
    Ticked,
    Sent(u64, Vec<u8>),
    Lost(u64, Vec<u8>),
}

/// A link in memory that fails only where memory runs out.
#[derive(Debug, Drop)]
pub struct SureLink<'a> {
    alloc: Global,
    /// All that is to come, and how much of it came.
    pub all: &'a [Incoming<'a>],
    pub done: usize,
    /// What came and was sent, in order.
    pub past: Vec<Traffic>,
    /// How often `next` was called, up to the last value of a u64.
    pub calls: u64,
    /// Whether it gave the end.
    pub ended: bool,
}

impl<'a> SureLink<'a> {
    pub fn new(alloc: Global, all: &'a [Incoming<'a>]) -> Self
        ensures all { (result.all ≡ all.entry) × (result.done ≡ 0) }
        ensures past { result.past.items ≡ [] }
        ensures none_yet { (result.calls ≡ 0) × (result.ended ≡ false) }
    {
        SureLink {
            alloc,
            all,
            done: 0,
            past: Vec::new(alloc),
            calls: 0,
            ended: false,
        }
    }

    /// Counts a call of `next`.
    fn count(&mut self)
        ensures calls { self.new.calls ≡ next_call self.old.calls }
        ensures all { (self.new.all ≡ self.old.all) × (self.new.done ≡ self.old.done) }
        ensures past { self.new.past ≡ self.old.past }
        ensures ended { self.new.ended ≡ self.old.ended }
    {
        self.calls = self.calls.saturating_add(1);
    }

    /// Sends a frame, which may be to get lost.
    fn put_frame(&mut self, conn: u64, frame: &[u8], fails: bool) -> Put
        ensures put { (result ≡ Put.NoMemory)
            ⊎ (result ≡ (if fails then Put.Failed else Put.Took (length frame.now))) }
        ensures past { link_past self.new ≡ link_past self.old ++ sent_by conn frame.now result }
        ensures all { (self.new.all ≡ self.old.all) × (self.new.done ≡ self.old.done) }
        ensures calls { self.new.calls ≡ self.old.calls }
        ensures ended { self.new.ended ≡ self.old.ended }
    {
        let Ok(copy) = frame.to_vec(self.alloc) else {
            return Put::NoMemory;
        };
        if fails {
            return match self.past.push(Traffic::Lost(conn, copy)) {
                Ok(()) => Put::Failed,
                Err(_) => Put::NoMemory,
            };
        }
        match self.past.push(Traffic::Sent(conn, copy)) {
            Ok(()) => Put::Took(frame.len()),
            Err(_) => Put::NoMemory,
        }
    }
}

impl Link for SureLink<'_> {
    ghost honest = { true };

    ghost past = { λ l. link_past l };

    ghost inward = { λ l. record {
      coming = link_coming l;
      calls = l.calls;
      faults = 0;
      ended = l.ended;
    } };

    ghost send_faults = { λ _. 0 };

    fn next(&mut self) -> Came {
        self.count();
        match self.all.get(self.done) {
            None => {
                self.ended = true;
                Came::Ended
            }
            Some(Incoming::Tick) => {
                if self.past.push(Traffic::Ticked).is_err() {
                    return Came::NoMemory;
                }
                self.done += 1;
                Came::Tick
            }
            Some(Incoming::Bytes(conn, bytes)) => {
                let conn = *conn;
                let Ok(given) = bytes.to_vec(self.alloc) else {
                    return Came::NoMemory;
                };
                let Ok(copy) = bytes.to_vec(self.alloc) else {
                    return Came::NoMemory;
                };
                if self.past.push(Traffic::Came(conn, copy)).is_err() {
                    return Came::NoMemory;
                }
                self.done += 1;
                Came::Bytes(conn, given)
            }
        }
    }

    fn send(&mut self, conn: u64, frame: &[u8]) -> Put {
        self.put_frame(conn, frame, false)
    }
}

/// A link in memory, of whose calls chosen ones fail.
#[derive(Debug, Drop)]
pub struct MemLink<'a> {
    /// How the calls go that are not chosen.
    pub inner: SureLink<'a>,
    /// Which calls of `next` are to fail.
    pub nexts: FaultPlan<'a>,
    /// Which calls of `send` are to fail. One that is out of memory is not counted.
    pub sends: FaultPlan<'a>,
}

impl<'a> MemLink<'a> {
    pub fn new(inner: SureLink<'a>, failing_nexts: &'a [u64], failing_sends: &'a [u64]) -> Self
        ensures inner { result.inner ≡ inner.entry }
        ensures nexts { result.nexts ≡ record { failing = failing_nexts.entry; calls = 0 } }
        ensures sends { result.sends ≡ record { failing = failing_sends.entry; calls = 0 } }
    {
        MemLink {
            inner,
            nexts: FaultPlan::new(failing_nexts),
            sends: FaultPlan::new(failing_sends),
        }
    }
}

impl Link for MemLink<'_> {
    ghost honest = { true };

    ghost past = { λ l. link_past l.inner };

    ghost inward = { λ l. record {
      coming = link_coming l.inner;
      calls = l.nexts.calls;
      faults = faults_of l.nexts;
      ended = l.inner.ended;
    } };

    ghost send_faults = { λ l. faults_of l.sends };

    fn next(&mut self) -> Came
        // The chosen calls fail, and the others are those of the link within.
        ensures chosen { IsTrue (fails_next self.old.nexts) ↔ (result ≡ Came.Failed) }
        ensures failing { self.new.nexts.failing ≡ self.old.nexts.failing }
        ensures calls { self.new.nexts.calls ≡ next_call self.old.nexts.calls }

        ensures past { link_past self.new.inner
            ≡ link_past self.old.inner ++ gave (given_by result) }
        ensures coming { link_coming self.old.inner
            ≡ given_by result ++ link_coming self.new.inner }
        ensures end { result ≡ Came.Ended → link_coming self.new.inner ≡ [] }
        ensures kept_end { self.new.inner.ended ≡ (self.old.inner.ended || is_end result) }

        ensures failed { result ≡ Came.Failed →
            Rose (faults_of self.old.nexts) (faults_of self.new.nexts) }
        ensures quiet { (result ≡ Came.Failed → ⊥) →
            faults_of self.new.nexts ≡ faults_of self.old.nexts }
        ensures never_falls { faults_of self.old.nexts ≤ faults_of self.new.nexts }
        ensures sends { self.new.sends ≡ self.old.sends }
    {
        if self.nexts.next_fails() {
            return Came::Failed;
        }
        self.inner.next()
    }

    fn send(&mut self, conn: u64, frame: &[u8]) -> Put
        // The chosen calls fail, unless they are out of memory.
        ensures chosen { (result ≡ Put.NoMemory → ⊥) →
            (IsTrue (fails_next self.old.sends) ↔ (result ≡ Put.Failed)) }
        ensures failing { self.new.sends.failing ≡ self.old.sends.failing }
        ensures numbered { (result ≡ Put.NoMemory → ⊥) →
            self.new.sends.calls ≡ next_call self.old.sends.calls }
        ensures uncounted { result ≡ Put.NoMemory → self.new.sends ≡ self.old.sends }

        ensures whole { (n : ℕ) → result ≡ Put.Took n → n ≡ length frame.now }
        ensures past { link_past self.new.inner
            ≡ link_past self.old.inner ++ sent_by conn frame.now result }
        ensures coming { link_coming self.new.inner ≡ link_coming self.old.inner }
        ensures nexts { self.new.nexts ≡ self.old.nexts }
        ensures kept_end { self.new.inner.ended ≡ self.old.inner.ended }

        ensures failed { result ≡ Put.Failed →
            Rose (faults_of self.old.sends) (faults_of self.new.sends) }
        ensures quiet { (result ≡ Put.Failed → ⊥) →
            faults_of self.new.sends ≡ faults_of self.old.sends }
        ensures never_falls { faults_of self.old.sends ≤ faults_of self.new.sends }
    {
        let mut sends = self.sends;
        let fails = sends.next_fails();
        let put = self.inner.put_frame(conn, frame, fails);
        if put != Put::NoMemory {
            self.sends = sends;
        }
        put
    }
}
