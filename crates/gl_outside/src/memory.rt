//! Sources and sinks in memory, for a run whose outside is known.

ghost use Rattle.std.specs.Prelude.{◌≡◌, ◌⊎◌, ◌++◌, ◌↔◌, ◌||◌, ◌≤◌, length, take, Some, min, IsTrue, IfOk, [], false};
ghost use Rattle.gl_outside.specs.Fault.{Rose, next_call};
ghost use Rattle.gl_outside.specs.Memory.{piece_of, piece_read};
ghost use Rattle.gl_outside.specs.Plan.{faults_of, fails_next};
ghost use Rattle.gl_outside.specs.Sink.{taken_count};
ghost use Rattle.gl_outside.specs.Source.{given_count, gave_end};

use crate::fault_plan::FaultPlan;
use crate::sink::{Put, Sink};
use crate::source::{Got, Source};
use std::alloc::Global;

/// Bytes in memory, read in pieces by reads that never fail.
#[derive(Clone, Copy, Debug)]
pub struct SureSource<'a> {
    /// The bytes that are left.
    pub left: &'a [u8],
    /// The most bytes that one read gives; 0 is taken as 1.
    pub piece: usize,
    /// Whether a read gave the end.
    pub ended: bool,
}

impl<'a> SureSource<'a> {
    pub fn new(bytes: &'a [u8], piece: usize) -> Self
        ensures { result ≡ record { left = bytes.entry; piece = piece; ended = false } }
    {
        SureSource {
            left: bytes,
            piece,
            ended: false,
        }
    }
}

impl Source for SureSource<'_> {
    ghost left = { λ s. Some s.left.now };

    ghost faults = { λ _. 0 };

    ghost ended = { λ s. s.ended };

    fn read(&mut self, buf: &mut [u8]) -> Got
        ensures given { result ≡ piece_read self.old.piece self.old.left.now (length buf.new) }
        ensures never_fails { result ≡ Got.Failed → ⊥ }
        ensures within { given_count result ≤ length buf.new }
        ensures taken { self.old.left.now ≡ take (given_count result) buf.new ++ self.new.left.now }

        ensures end { IsTrue (gave_end result (length buf.new)) → self.new.left.now ≡ [] }
        ensures kept_end { self.new.ended ≡ (self.old.ended || gave_end result (length buf.new)) }

        ensures piece { self.new.piece ≡ self.old.piece }
    {
        if self.left.is_empty() {
            self.ended = true;
            return Got::End;
        }
        let count = self.piece.max(1).min(buf.len()).min(self.left.len());
        let (prefix, rest) = self.left.split_at(count);
        let (start, _) = buf.split_at_mut(count);
        start.copy_from_slice(prefix);
        self.left = rest;
        Got::Bytes(count)
    }
}

/// Bytes in memory, read in pieces by reads of which chosen ones fail.
#[derive(Clone, Copy, Debug)]
pub struct MemSource<'a> {
    /// The bytes, and how they are read where no failure is chosen.
    pub inner: SureSource<'a>,
    /// Which reads are to fail.
    pub plan: FaultPlan<'a>,
}

impl<'a> MemSource<'a> {
    pub fn new(bytes: &'a [u8], piece: usize, failing: &'a [u64]) -> Self
        ensures inner { result.inner ≡ record { left = bytes.entry; piece = piece; ended = false } }
        ensures plan { result.plan ≡ record { failing = failing.entry; calls = 0 } }
    {
        MemSource {
            inner: SureSource::new(bytes, piece),
            plan: FaultPlan::new(failing),
        }
    }
}

impl Source for MemSource<'_> {
    ghost left = { λ s. Some s.inner.left.now };

    ghost faults = { λ s. faults_of s.plan };

    ghost ended = { λ s. s.inner.ended };

    fn read(&mut self, buf: &mut [u8]) -> Got
        // The chosen reads fail, and the others are those of the source within.
        ensures numbered { self.new.plan.calls ≡ next_call self.old.plan.calls }
        ensures chosen { IsTrue (fails_next self.old.plan) ↔ (result ≡ Got.Failed) }
        ensures given { (result ≡ Got.Failed → ⊥) →
            result ≡ piece_read self.old.inner.piece self.old.inner.left.now (length buf.new) }

        ensures within { given_count result ≤ length buf.new }
        ensures taken { self.old.inner.left.now
            ≡ take (given_count result) buf.new ++ self.new.inner.left.now }
        ensures end { IsTrue (gave_end result (length buf.new)) → self.new.inner.left.now ≡ [] }
        ensures kept_end { self.new.inner.ended ≡
            (self.old.inner.ended || gave_end result (length buf.new)) }

        ensures failed { result ≡ Got.Failed →
            Rose (faults_of self.old.plan) (faults_of self.new.plan) }
        ensures quiet { (result ≡ Got.Failed → ⊥) →
            faults_of self.new.plan ≡ faults_of self.old.plan }
        ensures never_falls { faults_of self.old.plan ≤ faults_of self.new.plan }

        ensures piece { self.new.inner.piece ≡ self.old.inner.piece }
        ensures failing { self.new.plan.failing ≡ self.old.plan.failing }
    {
        if self.plan.next_fails() {
            return Got::Failed;
        }
        self.inner.read(buf)
    }
}

/// A sink in memory that fails only where memory runs out.
#[derive(Debug, Drop)]
pub struct SureSink {
    /// The bytes that were written.
    pub held: Vec<u8>,
    /// The most bytes that one write takes; 0 is taken as 1.
    pub piece: usize,
}

impl SureSink {
    pub fn new(alloc: Global, piece: usize) -> Self
        ensures held { result.held.items ≡ [] }
        ensures piece { result.piece ≡ piece }
    {
        SureSink {
            held: Vec::new(alloc),
            piece,
        }
    }
}

impl Sink for SureSink {
    ghost holds = { λ s. Some s.held.items };

    ghost faults = { λ _. 0 };

    fn write(&mut self, piece: &[u8]) -> Put
        ensures took { result ≡ Put.NoMemory
            ⊎ result ≡ Put.Took (min (piece_of self.old.piece) (length piece.now)) }
        ensures appended { self.new.held.items
            ≡ self.old.held.items ++ take (taken_count result) piece.now }
        ensures piece { self.new.piece ≡ self.old.piece }
    {
        let count = self.piece.max(1).min(piece.len());
        let (prefix, _) = piece.split_at(count);
        match self.held.extend_from_slice(prefix) {
            Ok(()) => Put::Took(count),
            Err(_) => Put::NoMemory,
        }
    }
}

/// A sink in memory, of whose writes chosen ones fail.
#[derive(Debug, Drop)]
pub struct MemSink<'a> {
    /// The bytes, and how they are written where no failure is chosen.
    pub inner: SureSink,
    /// Which writes are to fail.
    pub plan: FaultPlan<'a>,
}

impl<'a> MemSink<'a> {
    pub fn new(alloc: Global, piece: usize, failing: &'a [u64]) -> Self
        ensures held { result.inner.held.items ≡ [] }
        ensures piece { result.inner.piece ≡ piece }
        ensures plan { result.plan ≡ record { failing = failing.entry; calls = 0 } }
    {
        MemSink {
            inner: SureSink::new(alloc, piece),
            plan: FaultPlan::new(failing),
        }
    }
}

impl Sink for MemSink<'_> {
    ghost holds = { λ s. Some s.inner.held.items };

    ghost faults = { λ s. faults_of s.plan };

    fn write(&mut self, piece: &[u8]) -> Put
        // The chosen writes fail, and the others are those of the sink within.
        ensures numbered { self.new.plan.calls ≡ next_call self.old.plan.calls }
        ensures chosen { IsTrue (fails_next self.old.plan) ↔ (result ≡ Put.Failed) }
        ensures took { (result ≡ Put.Failed → ⊥) → (result ≡ Put.NoMemory
            ⊎ result ≡ Put.Took (min (piece_of self.old.inner.piece) (length piece.now))) }
        ensures within { taken_count result ≤ length piece.now }
        ensures some { result ≡ Put.Took 0 → piece.now ≡ [] }
        ensures appended { self.new.inner.held.items
            ≡ self.old.inner.held.items ++ take (taken_count result) piece.now }

        ensures failed { result ≡ Put.Failed →
            Rose (faults_of self.old.plan) (faults_of self.new.plan) }
        ensures quiet { (result ≡ Put.Failed → ⊥) →
            faults_of self.new.plan ≡ faults_of self.old.plan }
        ensures never_falls { faults_of self.old.plan ≤ faults_of self.new.plan }

        ensures piece { self.new.inner.piece ≡ self.old.inner.piece }
        ensures failing { self.new.plan.failing ≡ self.old.plan.failing }
    {
        if self.plan.next_fails() {
            return Put::Failed;
        }
        self.inner.write(piece)
    }
}
