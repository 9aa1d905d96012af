//! A disk over a file of the system, and over one in memory whose calls fail.

use gl_outside::{Disk, DiskFailed};
use gl_system::{DiskCall, FileDisk};
use std::alloc::Global;
use std::fs::{self, File, Files, Metadata, OpenFile};
use std::io::{self, Cursor, ErrorKind, Read, Seek, SeekFrom, Write};
use std::os::unix::fs::MetadataExt;
use std::process::Abort;
use std::test::*;

/// Writes a text after the bytes of a disk, and syncs.
fn append<D: Disk>(disk: &mut D, text: &[u8]) -> Result<(), Fail> {
    let at = disk.len()?;
    let Some(end) = at.checked_add(text.len() as u64) else {
        return Err(Fail::from("too long"));
    };
    disk.room(end, 2)?;
    disk.write_at(at, text)?;
    disk.sync()?;
    Ok(())
}

/// A file that is begun at a path, and written.
fn written<R: Files<File = File> + Abort>(rt: &R, path: &str) -> Result<FileDisk, Fail> {
    let _ = fs::remove_file(rt, path);
    let mut disk = FileDisk::open(rt, path);
    assert!(rt; disk.len() == Ok(0));
    append(&mut disk, b"abc")?;
    append(&mut disk, b"def")?;
    disk.write_at(4, b"XYZ")?;
    assert!(rt; fs::metadata(rt, path)?.mode() & 0o777 == 0o600);
    Ok(disk)
}

/// While a file is open no other disk has it, and its bytes stay.
fn find_locked<R: Files<File = File> + Abort>(rt: &R, path: &str) -> Result<(), Fail> {
    let mut disk = FileDisk::open(rt, path);
    assert!(rt; matches!(&disk.failure, Some(failure) if failure.call == DiskCall::Lock));
    assert!(rt; (disk.write_at(0, b"other"), disk.faults()) == (Err(DiskFailed), 1));
    Ok(())
}

/// What was written is found by another opening. Past the end there is nothing to read.
fn find<R: Files<File = File> + Abort>(rt: &R, path: &str) -> Result<(), Fail> {
    let mut disk = FileDisk::open(rt, path);
    let mut all = [0; 7];
    assert!(rt; disk.len() == Ok(7));
    disk.read_at(0, &mut all)?;
    assert!(rt; (all, disk.faults()) == (*b"abcdXYZ", 0));
    let past = [disk.read_at(1, &mut all), disk.read_at(u64::MAX, &mut [])];
    assert!(rt; past == [Err(DiskFailed); 2]);
    assert!(rt; disk.faults() == 2);
    Ok(())
}

#[test]
fn keeps_what_was_written(rt: HostRuntime) -> Result<(), Fail> {
    let _ = fs::create_dir(&rt, "gl_file_folder");
    for path in ["gl_file_kept.disk", "gl_file_folder/kept.disk"] {
        let disk = written(&rt, path)?;
        find_locked(&rt, path)?;
        assert!(rt; disk.faults() == 0);
        drop(disk);
        find(&rt, path)?;
        fs::remove_file(&rt, path)?;
    }
    fs::remove_dir(&rt, "gl_file_folder")?;
    Ok(())
}

#[test]
fn counts_each_call_without_a_file(rt: HostRuntime) -> Result<(), Fail> {
    for path in ["gl_file_no_folder/a.disk", ".", "", "a\0b"] {
        let mut disk = FileDisk::open(&rt, path);
        disk.room(8, 2)?;
        assert!(rt; disk.file.is_none(), "{path}");
        let len = disk.len();
        let calls = [disk.read_at(0, &mut []), disk.write_at(0, b""), disk.sync()];
        assert!(rt; (len, calls) == (Err(DiskFailed), [Err(DiskFailed); 3]));
        assert!(rt; disk.faults() == 4);
    }
    Ok(())
}

/// A file in memory that takes and gives at most two bytes a call, and of whose seeks, reads and
/// writes one fails. A sync fails once that one did.
#[derive(Drop)]
struct Faulty {
    inner: Cursor<Vec<u8>>,
    /// How many calls there were.
    calls: u64,
    /// The number of the call that fails, and how.
    failing: u64,
    kind: ErrorKind,
}

impl Faulty {
    fn new(alloc: Global, failing: u64, kind: ErrorKind) -> Self {
        Faulty {
            inner: Cursor::new(Vec::new(alloc)),
            calls: 0,
            failing,
            kind,
        }
    }

    fn turn(&mut self) -> io::Result<()> {
        self.calls = self.calls.saturating_add(1);
        if self.calls == self.failing {
            return Err(io::Error::from(self.kind));
        }
        Ok(())
    }
}

impl Read for Faulty {
    fn read(&mut self, buf: &mut [u8]) -> io::Result<usize> {
        self.turn()?;
        let count = buf.len().min(2);
        self.inner.read(&mut buf[..count])
    }
}

impl Write for Faulty {
    fn write(&mut self, buf: &[u8]) -> io::Result<usize> {
        self.turn()?;
        let count = buf.len().min(2);
        self.inner.write(&buf[..count])
    }

    fn flush(&mut self) -> io::Result<()> {
        Ok(())
    }
}

impl Seek for Faulty {
    fn seek(&mut self, to: SeekFrom) -> io::Result<u64> {
        self.turn()?;
        self.inner.seek(to)
    }
}

impl OpenFile for Faulty {
    fn metadata(&self) -> io::Result<Metadata> {
        Err(io::Error::from(ErrorKind::Unsupported))
    }

    fn set_len(&self, _size: u64) -> io::Result<()> {
        Err(io::Error::from(ErrorKind::Unsupported))
    }

    fn sync_all(&self) -> io::Result<()> {
        if self.calls < self.failing {
            return Ok(());
        }
        Err(io::Error::from(self.kind))
    }

    fn sync_data(&self) -> io::Result<()> {
        self.sync_all()
    }
}

#[test]
fn takes_pieces_whole_and_counts_each_failure_once(rt: HostRuntime) -> Result<(), Fail> {
    // A seek and four writes, then a sync, then a seek and four reads.
    for (failing, faults, last) in [
        (1, 3, Some(DiskCall::Read)),
        (2, 3, Some(DiskCall::Read)),
        (5, 3, Some(DiskCall::Read)),
        (6, 1, Some(DiskCall::Read)),
        (7, 1, Some(DiskCall::Read)),
        (10, 1, Some(DiskCall::Read)),
        (11, 0, None),
    ] {
        let mut disk = FileDisk::new(Faulty::new(rt.alloc(), failing, ErrorKind::Other));
        let wrote = disk.write_at(0, b"galdoxe");
        let synced = disk.sync();
        let mut back = [0; 7];
        let read = disk.read_at(0, &mut back);
        let printed = [wrote.is_ok(), synced.is_ok(), read.is_ok()];
        let output = [failing > 5, failing > 5, failing > 10];
        assert!(rt;
            (printed, disk.faults()) == (output, faults),
            "at {failing}"
        );
        let call = match &disk.failure {
            None => None,
            Some(failure) => Some(failure.call),
        };
        assert!(rt; call == last, "at {failing}");
        assert!(rt; read.is_err() || back == *b"galdoxe");
    }
    Ok(())
}

#[test]
fn goes_on_where_a_signal_came(rt: HostRuntime) -> Result<(), Fail> {
    for failing in [2, 8] {
        let mut disk = FileDisk::new(Faulty::new(rt.alloc(), failing, ErrorKind::Interrupted));
        disk.write_at(0, b"galdoxe")?;
        let mut back = [0; 7];
        disk.read_at(0, &mut back)?;
        assert!(rt; (back, disk.faults()) == (*b"galdoxe", 0));
    }
    Ok(())
}
