//! How a run of the program ends.

ghost use Rattle.std.specs.Prelude.{◌≡◌};
ghost use Rattle.ccfg.specs.ExpectedOutput.{exit_status};

/// How a run of the program ends.
#[derive(Clone, Copy, Debug, PartialEq, Eq)]
pub enum Ending {
    /// All of the text is written.
    Done,
    /// The verdict is no, or what is asked for is refused.
    NotValid,
    /// The words are not those of a command.
    OtherWords,
    SourceFailed,
    SinkFailed,
    DiskFailed,
    LinkFailed,
    Memory,
    /// The bytes pass a limit.
    PastLimit,
    /// The bytes have no reading.
    NoReading,
}

impl Ending {
    /// The exit status.
    pub fn status(self) -> u8
        ensures { result ≡ exit_status self }
    {
        match self {
            Ending::Done => 0,
            Ending::NotValid => 1,
            Ending::OtherWords => 2,
            Ending::SourceFailed => 3,
            Ending::SinkFailed => 4,
            Ending::DiskFailed => 5,
            Ending::LinkFailed => 6,
            Ending::Memory => 7,
            Ending::PastLimit => 8,
            Ending::NoReading => 9,
        }
    }
}
