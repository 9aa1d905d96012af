//! Why a text was not read.

ghost use Rattle.std.specs.Prelude.{◌≡◌};
ghost use Rattle.gl_base.specs.declared.or_no_memory.OrNoMemory.TheVariants.{Fault};

use gl_base::OrNoMemory;

/// Why a part of a line was not read: it is no such part.
#[derive(Clone, Copy, Debug, PartialEq, Eq)]
pub enum LineFault {
    NoReading,
}

impl From<LineFault> for OrNoMemory<LineFault> {
    ghost from_gives = { λ fault e. e ≡ Fault fault };

    fn from(fault: LineFault) -> OrNoMemory<LineFault> {
        OrNoMemory::Fault(fault)
    }
}

/// Why a text is no schedule.
#[derive(Clone, Copy, Debug, PartialEq, Eq)]
pub enum ScheduleFault {
    /// The first line that says nothing, counted from 1. An open line, which has no newline, says
    /// nothing.
    BadLine(u64),
}

impl From<ScheduleFault> for OrNoMemory<ScheduleFault> {
    ghost from_gives = { λ fault e. e ≡ Fault fault };

    fn from(fault: ScheduleFault) -> OrNoMemory<ScheduleFault> {
        OrNoMemory::Fault(fault)
    }
}
