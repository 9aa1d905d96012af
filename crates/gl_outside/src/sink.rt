ghost use Rattle.std.specs.Prelude.{◌≡◌, ℕ, ◌≤◌, List, Option, [], length, take, OnOk, OnErr};
ghost use Rattle.std.specs.Io.KnownBytes.{Appends};
ghost use Rattle.gl_outside.specs.Fault.{Rose};
ghost use Rattle.gl_outside.specs.Sink.{taken_count, AppendsPrefix};

use thiserror::Error;

/// What a write came to.
#[derive(Clone, Copy, Debug, PartialEq, Eq)]
pub enum Put {
    /// So many bytes of the piece were taken, from its start. None are taken of an empty piece
    /// alone.
    Took(usize),
    /// The sink failed, and counted it. Nothing was taken.
    Failed,
    /// There was no memory. Nothing was taken.
    NoMemory,
}

/// Where bytes go.
pub trait Sink {
    // The bytes that were written, where the sink tells them.
    ghost holds: { Self → Option (List ℕ) };

    // How often the sink failed, up to the last value of a u64.
    ghost faults: { Self → ℕ };

    /// Writes some of the piece, from its start.
    fn write(&mut self, piece: &[u8]) -> Put
        ensures within { taken_count result ≤ length piece.now }
        ensures appended { Appends (holds self.old) (holds self.new)
            (take (taken_count result) piece.now) }
        ensures some { result ≡ Put.Took 0 → piece.now ≡ [] }

        ensures failed { result ≡ Put.Failed → Rose (faults self.old) (faults self.new) }
        ensures quiet { (result ≡ Put.Failed → ⊥) → faults self.new ≡ faults self.old }
        ensures never_falls { faults self.old ≤ faults self.new };
}

impl<K: Sink> Sink for &mut K {
    ghost holds = { λ s. K.holds s.now };

    ghost faults = { λ s. K.faults s.now };

    fn write(&mut self, piece: &[u8]) -> Put {
        Sink::write(&mut **self, piece)
    }
}

/// Why not all of the bytes were written. A prefix of them may have been.
#[derive(Clone, Copy, Debug, PartialEq, Eq, Error)]
pub enum SinkFault {
    #[error("the sink failed")]
    Failed,
    #[error("out of memory")]
    NoMemory,
}

/// Writes all of the bytes, by as many writes as that takes.
pub fn write_whole<K: Sink>(sink: &mut K, bytes: &[u8]) -> Result<(), SinkFault>
    ensures whole { OnOk result (Appends (K.holds sink.old) (K.holds sink.new) bytes.now) }
    ensures prefix { OnErr result (AppendsPrefix (K.holds sink.old) (K.holds sink.new) bytes.now) }

    ensures failed { result ≡ Err SinkFault.Failed → Rose (K.faults sink.old) (K.faults sink.new) }
    ensures quiet { (result ≡ Err SinkFault.Failed → ⊥) → K.faults sink.new ≡ K.faults sink.old }
    ensures never_falls { K.faults sink.old ≤ K.faults sink.new }
{
    let mut done = 0;
    while done < bytes.len() {
        let (_, rest) = bytes.split_at(done);
        match sink.write(rest) {
            Put::Took(count) => done += count,
            Put::Failed => return Err(SinkFault::Failed),
            Put::NoMemory => return Err(SinkFault::NoMemory),
        }
    }
    Ok(())
}
