//! A file of the operating system as a disk. It tells nothing of what it holds.

ghost use Rattle.std.specs.Prelude.{◌≡◌, ◌^◌, ◌-◌, ◌≤◌, ◌↔◌, [], false, None, Some, IsTrue, IsSome, IsSomeAnd, IfOk, OnOk, OnErr, IsOk, IsErr};
ghost use Rattle.std.specs.Fs.{asks_read, asks_write, asks_append, asks_truncate, asks_create, asks_create_new};
ghost use Rattle.gl_outside.specs.Fault.{Counts, next_call};
ghost use Rattle.gl_system.specs.Place.{IsLength, ReadsAt, WritesAt};

use crate::place::{length, read_from, write_to};
use gl_outside::{Disk, DiskFailed};
use std::alloc::AllocError;
use std::fmt::{self, Display, Formatter};
use std::fs::{self, File, Files, OpenFile, OpenOptions};
use std::io::{self, Read, Seek, Write};
use std::os::unix::fs::OpenOptionsExt;
use std::path::Path;

/// A call of a disk over a file.
#[derive(Clone, Copy, Debug, PartialEq, Eq)]
pub enum DiskCall {
    Open,
    Lock,
    Len,
    Read,
    Write,
    Sync,
}

impl Display for DiskCall {
    fn fmt<W: fmt::Write>(&self, f: &mut Formatter<W>) -> fmt::Result {
        f.pad(match self {
            DiskCall::Open => "open",
            DiskCall::Lock => "lock",
            DiskCall::Len => "seek to the end",
            DiskCall::Read => "read",
            DiskCall::Write => "write",
            DiskCall::Sync => "sync",
        })
    }
}

/// A call that failed, and the system's error.
#[derive(Debug, Drop)]
pub struct DiskFailure {
    pub call: DiskCall,
    pub error: io::Error,
}

impl DiskFailure {
    fn new(call: DiskCall, error: io::Error) -> Self
        ensures { result ≡ record { call = call; error = error } }
    {
        DiskFailure { call, error }
    }
}

/// A file as a disk, which counts its errors. Without a file each call fails.
///
/// `F` is the type of the file; it is that of the operating system where none is said. Such a file
/// tells nothing of its bytes, and the disk tells nothing of them either: it isn't an honest one.
/// Places count bytes from 0. The system takes none from 2^63 on: a call there fails.
#[derive(Debug, Drop)]
pub struct FileDisk<F = File> {
    /// The file, where it could be opened.
    pub file: Option<F>,
    /// How many calls failed, up to the last value of a u64.
    pub faults: u64,
    /// The last call that the system failed, if there is one.
    pub failure: Option<DiskFailure>,
}

/// How the file is opened: to be read and written, made where there is none, and left as it stands
/// where there is one.
fn options() -> OpenOptions
    ensures reads { IsTrue (asks_read result) }
    ensures writes { IsTrue (asks_write result) }
    ensures makes { IsTrue (asks_create result) }
    ensures takes_what_is_there { asks_create_new result ≡ false }
    ensures keeps_bytes { asks_truncate result ≡ false }
    ensures writes_at_any_place { asks_append result ≡ false }
{
    let mut options = OpenOptions::new();
    options.read(true).write(true).create(true).truncate(false);
    options
}

/// Opens a file, and makes it where it isn't there, then for its owner alone. It has to have its
/// name after a stop too, so its folder is synced.
fn open_or_make<R: Files>(files: &R, path: &str) -> io::Result<R::File> {
    let file = options().mode(0o600).open(files, path)?;
    fs::open(files, folder_of(path))?.sync_all()?;
    Ok(file)
}

/// Opens a file for this process alone: it is locked until it is closed. Where another process has
/// the lock it isn't waited for.
fn open_locked<R: Files<File = File>>(files: &R, path: &str) -> Result<File, DiskFailure> {
    let file = open_or_make(files, path).map_err(|error| DiskFailure::new(DiskCall::Open, error))?;
    match file.try_lock() {
        Ok(()) => Ok(file),
        Err(error) => Err(DiskFailure::new(DiskCall::Lock, error.into())),
    }
}

/// The folder in which the path's last name stands.
fn folder_of(path: &str) -> Path<'_> {
    match Path::new(path).parent() {
        Some(folder) if !folder.as_str().is_empty() => folder,
        _ => Path::new("."),
    }
}

impl<F> FileDisk<F> {
    /// A disk over a file that is open for reading and writing.
    pub fn new(file: F) -> Self
        ensures { result ≡ record { file = Some file; faults = 0; failure = None } }
    {
        FileDisk {
            file: Some(file),
            faults: 0,
            failure: None,
        }
    }

    /// A disk without a file, and why it has none, where the system was asked for one.
    pub fn none(failure: Option<DiskFailure>) -> Self
        ensures { result ≡ record { file = None; faults = 0; failure = failure } }
    {
        FileDisk {
            file: None,
            faults: 0,
            failure,
        }
    }

    /// Counts a call, and fails. What the system answered, if it was asked, is noted.
    fn fail<T>(&mut self, failure: Option<DiskFailure>) -> Result<T, DiskFailed>
        ensures fails { IsErr result }
        ensures counted { self.new.faults ≡ next_call self.old.faults }
        ensures faults { Counts self.old.faults self.new.faults result }
        ensures file { self.new.file ≡ self.old.file }
        ensures noted { IsSome failure → self.new.failure ≡ failure }
        ensures kept { failure ≡ None → self.new.failure ≡ self.old.failure }
    {
        self.faults = self.faults.saturating_add(1);
        if failure.is_some() {
            self.failure = failure;
        }
        Err(DiskFailed)
    }
}

impl FileDisk {
    /// Opens the file at a path, as it stands, for this process alone. Where there is none it is
    /// made, empty, to be read and written by its owner alone (mode 0600). Where it can't be opened
    /// or made, its folder can't be synced, or another process has it, the disk has no file, and
    /// each call of it fails.
    pub fn open<R: Files<File = File>>(files: &R, path: &str) -> Self
        ensures { result.faults ≡ 0 }
    {
        match open_locked(files, path) {
            Ok(file) => FileDisk::new(file),
            Err(failure) => FileDisk::none(Some(failure)),
        }
    }
}

impl<F: Read + Write + Seek + OpenFile> Disk for FileDisk<F> {
    ghost honest = { false };

    ghost bytes = { λ _. [] };

    ghost past = { λ _. [] };

    ghost faults = { λ d. d.faults };

    ghost room_end = { λ _. 2 ^ 64 - 1 };

    ghost room_calls = { λ _. 2 ^ 64 - 1 };

    fn faults(&self) -> u64 {
        self.faults
    }

    /// Where the file ends.
    fn len(&mut self) -> Result<u64, DiskFailed>
        ensures len { IfOk result (λ n.
            IsSomeAnd self.old.file (IsLength F.stream_position F.stream_bytes n)) }
        ensures file { IsSome self.new.file ↔ IsSome self.old.file }
        ensures counted { OnErr result (self.new.faults ≡ next_call self.old.faults) }
        ensures faults { Counts self.old.faults self.new.faults result }
    {
        let failure = match &mut self.file {
            None => None,
            Some(file) => match length(file) {
                Ok(len) => return Ok(len),
                Err(error) => Some(DiskFailure::new(DiskCall::Len, error)),
            },
        };
        self.fail(failure)
    }

    /// Reads until the buffer is full. An end before that is a failure; the buffer may then hold
    /// the bytes up to the end.
    fn read_at(&mut self, at: u64, buf: &mut [u8]) -> Result<(), DiskFailed>
        ensures buf { self.old.file ≡ None → buf.new ≡ buf.old }
        ensures read { OnOk result (IsSomeAnd self.old.file (λ old. IsSomeAnd self.new.file
            (ReadsAt F.stream_position F.stream_bytes F.remaining at buf.new old))) }
        ensures file { IsSome self.new.file ↔ IsSome self.old.file }
        ensures counted { OnErr result (self.new.faults ≡ next_call self.old.faults) }
        ensures faults { Counts self.old.faults self.new.faults result }
    {
        let failure = match &mut self.file {
            None => None,
            Some(file) => match read_from(file, at, buf) {
                Ok(()) => return Ok(()),
                Err(error) => Some(DiskFailure::new(DiskCall::Read, error)),
            },
        };
        self.fail(failure)
    }

    /// Writes until the piece is written. Where it fails, a prefix of the piece may have been.
    /// Where the place is past the end, the system fills the gap with zeros.
    fn write_at(&mut self, at: u64, piece: &[u8]) -> Result<(), DiskFailed>
        ensures written { OnOk result (IsSomeAnd self.old.file (λ old. IsSomeAnd self.new.file
            (WritesAt F.stream_position F.stream_bytes F.contents at piece.now old))) }
        ensures file { IsSome self.new.file ↔ IsSome self.old.file }
        ensures counted { OnErr result (self.new.faults ≡ next_call self.old.faults) }
        ensures faults { Counts self.old.faults self.new.faults result }
    {
        let failure = match &mut self.file {
            None => None,
            Some(file) => match write_to(file, at, piece) {
                Ok(()) => return Ok(()),
                Err(error) => Some(DiskFailure::new(DiskCall::Write, error)),
            },
        };
        self.fail(failure)
    }

    /// Waits until the system has handed bytes and length of the file to its device (fsync).
    fn sync(&mut self) -> Result<(), DiskFailed>
        ensures file { self.new.file ≡ self.old.file }
        ensures no_file { self.old.file ≡ None → IsErr result }
        ensures counted { OnErr result (self.new.faults ≡ next_call self.old.faults) }
        ensures faults { Counts self.old.faults self.new.faults result }
    {
        let failure = match &self.file {
            None => None,
            Some(file) => match file.sync_all() {
                Ok(()) => return Ok(()),
                Err(error) => Some(DiskFailure::new(DiskCall::Sync, error)),
            },
        };
        self.fail(failure)
    }

    /// It takes no memory, so that callers without a file go on to the call that fails.
    fn room(&mut self, _end: u64, _calls: u64) -> Result<(), AllocError>
        ensures ok { IsOk result }
        ensures room { (_end ≤ 2 ^ 64 - 1) × (_calls ≤ 2 ^ 64 - 1) }
        ensures kept { self.new ≡ self.old }
    {
        Ok(())
    }
}
