ghost use Rattle.std.specs.Prelude.{◌≡◌, ℕ, Bool, ◌||◌, ◌≤◌, List, Option, length, take, IsTrue};
ghost use Rattle.std.specs.Io.KnownBytes.{Consumes, IsAtEnd};
ghost use Rattle.gl_outside.specs.Fault.{Rose};
ghost use Rattle.gl_outside.specs.Source.{given_count, gave_end};

/// What a read came to.
#[derive(Clone, Copy, Debug, PartialEq, Eq)]
pub enum Got {
    /// So many bytes stand at the start of the buffer. No bytes, for a buffer that has room, are
    /// taken as the end.
    Bytes(usize),
    /// There is nothing more to read.
    End,
    /// The source failed, and counted it. Nothing was consumed.
    Failed,
}

/// Where bytes come from.
pub trait Source {
    // The bytes that reads will give from here on, where the source tells them.
    ghost left: { Self → Option (List ℕ) };

    // How often the source failed, up to the last value of a u64.
    ghost faults: { Self → ℕ };

    // Whether a read gave the end.
    ghost ended: { Self → Bool };

    /// Reads some bytes into the start of the buffer.
    fn read(&mut self, buf: &mut [u8]) -> Got
        ensures within { given_count result ≤ length buf.new }
        ensures taken { Consumes (left self.old) (left self.new)
            (take (given_count result) buf.new) }

        ensures end { IsTrue (gave_end result (length buf.new)) → IsAtEnd (left self.new) }
        ensures kept_end { ended self.new ≡ (ended self.old || gave_end result (length buf.new)) }

        ensures failed { result ≡ Got.Failed → Rose (faults self.old) (faults self.new) }
        ensures quiet { (result ≡ Got.Failed → ⊥) → faults self.new ≡ faults self.old }
        ensures never_falls { faults self.old ≤ faults self.new };
}

impl<S: Source> Source for &mut S {
    ghost left = { λ s. S.left s.now };

    ghost faults = { λ s. S.faults s.now };

    ghost ended = { λ s. S.ended s.now };

    fn read(&mut self, buf: &mut [u8]) -> Got {
        Source::read(&mut **self, buf)
    }
}
