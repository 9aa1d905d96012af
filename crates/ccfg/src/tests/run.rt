//! A run of the program as data: what it is given, and the expected output.

use crate::tests::part::Part;

/// What comes over a link.
#[derive(Clone, Copy)]
pub enum Arrival<'a> {
    /// Bytes of a connection.
    Bytes(u64, &'a [Part<'a>]),
    /// Each byte of them on its own.
    Single(u64, &'a [Part<'a>]),
    /// A payload, after its length.
    Payload(u64, &'a [Part<'a>]),
    /// So many ticks.
    Ticks(u32),
}

/// The expected output on the sink.
#[derive(Clone, Copy)]
pub enum Output<'a> {
    /// These bytes.
    Is(&'a [Part<'a>]),
    /// This text and a newline.
    Line(&'a str),
    /// Bytes that begin with these.
    Begins(&'a [Part<'a>]),
    /// Bytes that end with these.
    Ends(&'a [Part<'a>]),
    /// The first of these texts, and then somewhere each other one.
    Has(&'a [&'a str]),
    /// A request whose signature, of one level, is by this leaf of an h5w4 key.
    SignedBy(u8),
    /// What it is, later runs tell.
    Any,
}

/// A frame that is expected on a connection.
#[derive(Clone, Copy)]
pub enum Frame<'a> {
    /// These bytes, with the length before them.
    Whole(u64, &'a [Part<'a>]),
    /// This payload.
    Payload(u64, &'a [Part<'a>]),
    /// A payload that begins so.
    Begins(u64, &'a [Part<'a>]),
}

/// What is to fail in turn: the first call, the second, and so on.
#[derive(Clone, Copy, Debug)]
pub enum InTurn {
    /// Reads of the source: 3, nothing is written, and the disk stays as it was.
    Reads,
    /// Writes of the sink: 4 after a prefix of the expected output.
    Writes,
    /// Writes of a sink that takes each line whole: 4 after the lines before.
    Lines,
    /// Calls of the disk: 5, nothing is written, and nothing is sent of what isn't kept.
    Disk,
    /// The same of a file that doesn't open: the disk stays as it was besides.
    ForeignDisk,
    /// Calls for what comes next over the link: 6, and nothing is written.
    Nexts,
}

/// A run. Of each object the calls with these numbers fail, from 1.
#[derive(Clone, Copy)]
pub struct Run<'a> {
    pub name: &'static str,
    /// The words. For `$key of NAME` and `$node of NAME` stand the key and the identifier in the
    /// JSON that an earlier run wrote.
    pub words: &'a [&'a str],
    /// What the source gives, how many bytes of that at most, and the most that a read of it gives.
    pub input: &'a [Part<'a>],
    pub cut: usize,
    pub piece: usize,
    pub reads: &'a [u64],
    /// The most bytes that a write of the sink takes.
    pub sink_piece: usize,
    pub writes: &'a [u64],
    /// The bytes of the disk; without them each of its calls fails.
    pub disk: Option<&'a [Part<'a>]>,
    pub disk_calls: &'a [u64],
    /// What comes over the link.
    pub link: &'a [Arrival<'a>],
    pub nexts: &'a [u64],
    pub sends: &'a [u64],
    /// What is expected: the exit status,
    pub status: u8,
    /// what is written,
    pub output: Output<'a>,
    /// what the disk holds then, where the row tells it,
    pub disk_after: Option<&'a [Part<'a>]>,
    /// how often it was written and synced,
    pub disk_changes: Option<usize>,
    /// whether the source was read to its end,
    pub is_read_whole: Option<bool>,
    /// what is sent after so many first frames, all of it,
    pub first_frames: usize,
    pub sent: Option<&'a [Frame<'a>]>,
    /// what comes once calls fail in turn,
    pub in_turn: &'a [InTurn],
    /// and whether each prefix of the input is played too: of one that ends at a line what is
    /// printed for its lines, and of each other one that its last line is none.
    pub prefixes: bool,
}

impl<'a> Run<'a> {
    /// The same run of another input, and the expected output for it.
    pub fn with_input(&self, input: &'a [Part<'a>], status: u8, output: Output<'a>) -> Run<'a> {
        Run {
            input,
            status,
            output,
            ..*self
        }
    }

    /// The same run of other words, and what is to be written for them.
    pub fn with_words(&self, words: &'a [&'a str], output: Output<'a>) -> Run<'a> {
        Run {
            words,
            output,
            ..*self
        }
    }
}

/// Inputs of one run, each with the status and the line that are expected for it.
pub type Inputs = &'static [(&'static [Part<'static>], u8, &'static str)];

/// Words for one run, each with the line that is expected for them.
pub type Words = &'static [(&'static [&'static str], &'static str)];

/// A run without words, to take what a row doesn't say from.
pub const RUN: Run<'static> = Run {
    name: "",
    words: &[],
    input: &[],
    cut: usize::MAX,
    piece: 50,
    reads: &[],
    sink_piece: 7,
    writes: &[],
    disk: None,
    disk_calls: &[],
    link: &[],
    nexts: &[],
    sends: &[],
    status: 0,
    output: Output::Any,
    disk_after: None,
    disk_changes: None,
    is_read_whole: None,
    first_frames: 0,
    sent: None,
    in_turn: &[],
    prefixes: false,
};
