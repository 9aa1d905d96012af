//! Sources, sinks, disks, links and gates, over memory and over streams.

ghost use Rattle.std.specs.Prelude.{◌≤◌, IfOk};

use gl_outside::{
    Came, Disk, DiskFailed, Gate, Got, Incoming, Link, MemDisk, MemLink, MemSink, MemSource,
    OpenGate, Put, Sink, SinkFault, Source, StreamSink, StreamSource, SureDisk, SureLink, SureSink,
    SureSource, Tear, write_whole,
};
use std::alloc::Global;
use std::io::{ErrorKind, Read, Write};
use std::sync::{Mutex, Wait};
use std::test::*;
use std::{io, thread};

/// Reads until the end, over any failed reads, and counts those.
fn drain<S: Source + Drop>(mut source: S, out: &mut Vec<u8>) -> Result<u64, Fail> {
    let mut failed: u64 = 0;
    let mut buf = [0; 4];
    for _ in 0..100 {
        match source.read(&mut buf) {
            Got::Bytes(count) => out.extend_from_slice(&buf[..count])?,
            Got::End => return Ok(failed),
            Got::Failed => failed = failed.saturating_add(1),
        }
    }
    Err(Fail::from("no end"))
}

#[test]
fn gives_all_bytes_in_any_pieces_over_chosen_failures(rt: HostRuntime) -> Result<(), Fail> {
    for piece in 0..7 {
        let mut out = Vec::new(rt.alloc());
        let mut source = MemSource::new(b"galdoxe", piece, &[1, 3]);
        assert!(rt; drain(&mut source, &mut out)? == 2, "in pieces of {piece}");
        assert!(rt; out.as_slice() == b"galdoxe".as_slice());
        assert!(rt; (source.plan.faults(), source.inner.ended) == (2, true));
        out.clear();
        assert!(rt; drain(SureSource::new(b"galdoxe", piece), &mut out)? == 0);
        assert!(rt; out.as_slice() == b"galdoxe".as_slice());
    }
    Ok(())
}

#[test]
fn writes_all_bytes_or_a_prefix_of_them(rt: HostRuntime) -> Result<(), Fail> {
    let mut sure = SureSink::new(rt.alloc(), 3);
    write_whole(&mut sure, b"galdoxe")?;
    write_whole(&mut sure, b"")?;
    assert!(rt; sure.held.as_slice() == b"galdoxe".as_slice());
    let mut sink = MemSink::new(rt.alloc(), 3, &[3]);
    assert!(rt; write_whole(&mut &mut sink, b"galdoxe") == Err(SinkFault::Failed));
    assert!(rt; sink.inner.held.as_slice() == b"galdox".as_slice());
    assert!(rt; sink.plan.faults() == 1);
    write_whole(&mut sink, b"e")?;
    assert!(rt; sink.inner.held.as_slice() == b"galdoxe".as_slice());
    Ok(())
}

/// A stream whose first call does one byte, whose second fails, and that then does nothing more.
#[derive(Drop)]
struct Stream {
    calls: u8,
}

impl Stream {
    fn turn(&mut self, room: usize) -> io::Result<usize>
        ensures { IfOk result (λ n. n ≤ room) }
    {
        self.calls = self.calls.saturating_add(1);
        match self.calls {
            1 => Ok(room.min(1)),
            2 => Err(io::Error::from(ErrorKind::BrokenPipe)),
            _ => Ok(0),
        }
    }
}

impl Read for Stream {
    fn read(&mut self, buf: &mut [u8]) -> io::Result<usize> {
        self.turn(buf.len())
    }
}

impl Write for Stream {
    fn write(&mut self, buf: &[u8]) -> io::Result<usize> {
        self.turn(buf.len())
    }

    fn flush(&mut self) -> io::Result<()> {
        Ok(())
    }
}

#[test]
fn streams_count_their_errors(rt: HostRuntime) {
    let mut source = StreamSource::new(Stream { calls: 0 });
    let mut buf = [0; 2];
    assert!(rt; source.read(&mut buf) == Got::Bytes(1));
    assert!(rt; (source.read(&mut buf), source.faults) == (Got::Failed, 1));
    assert!(rt; source.read(&mut []) == Got::Bytes(0));
    assert!(rt; !source.ended);
    assert!(rt; (source.read(&mut buf), source.faults) == (Got::End, 1));
    assert!(rt; source.ended);

    let mut sink = StreamSink::new(Stream { calls: 0 });
    assert!(rt; sink.write(b"ab") == Put::Took(1));
    assert!(rt; (sink.write(b"ab"), sink.faults) == (Put::Failed, 1));
    assert!(rt; sink.write(b"") == Put::Took(0));
    assert!(rt; (sink.write(b"ab"), sink.faults) == (Put::Failed, 2));
}

#[test]
fn streams_over_memory_lose_nothing(rt: HostRuntime) -> Result<(), Fail> {
    let mut out = Vec::new(rt.alloc());
    drain(StreamSource::new(b"galdoxe".as_slice()), &mut out)?;
    assert!(rt; out.as_slice() == b"galdoxe".as_slice());
    let mut sink = StreamSink::new(Vec::new(rt.alloc()));
    write_whole(&mut sink, b"galdoxe")?;
    assert!(rt; sink.inner.as_slice() == b"galdoxe".as_slice());
    Ok(())
}

#[test]
fn each_call_of_a_disk_fails_in_turn(rt: HostRuntime) -> Result<(), Fail> {
    for chosen in 1..6 {
        let failing = [chosen];
        let mut disk = MemDisk::new(SureDisk::holding(rt.alloc(), b"abcd")?, &failing);
        let mut buf = [0; 2];
        disk.room(6, 2)?;
        let failed = [
            disk.len().is_err(),
            disk.read_at(1, &mut buf).is_err(),
            disk.write_at(4, b"ef").is_err(),
            disk.sync().is_err(),
        ];
        assert!(rt; failed == [chosen == 1, chosen == 2, chosen == 3, chosen == 4]);
        assert!(rt; disk.faults() == (if chosen < 5 { 1 } else { 0 }));
    }
    Ok(())
}

/// Whether a sync goes well, over any disk.
fn syncs<D: Disk + Drop>(mut disk: D) -> bool {
    disk.room(0, 1).is_ok() && disk.sync().is_ok()
}

/// Two writes, each after which comes a sync, of which the second fails.
fn twice_written(alloc: Global) -> Result<MemDisk<'static>, Fail> {
    let mut disk = MemDisk::new(SureDisk::holding(alloc, b"abcd")?, &[4]);
    disk.room(7, 4)?;
    let done = [
        disk.write_at(2, b"XYZ").is_ok(),
        disk.sync().is_ok(),
        disk.write_at(5, b"!?").is_ok(),
        disk.sync().is_ok(),
    ];
    if done != [true, true, true, false] {
        return Err(Fail::from("other calls failed"));
    }
    Ok(disk)
}

#[test]
fn a_stop_leaves_what_was_kept_and_torn_writes(rt: HostRuntime) -> Result<(), Fail> {
    let mut disk = twice_written(rt.alloc())?;
    let rows = [
        (0, Tear::Whole, b"abcd".as_slice()),
        (1, Tear::Old, b"abcd".as_slice()),
        (1, Tear::Half, b"abXd".as_slice()),
        (1, Tear::Whole, b"abXYZ".as_slice()),
        (1, Tear::Filled(b'-'), b"ab---".as_slice()),
        (2, Tear::Old, b"abXYZ".as_slice()),
        (3, Tear::Old, b"abXYZ".as_slice()),
        (3, Tear::Half, b"abXYZ!".as_slice()),
        (3, Tear::Filled(b'-'), b"abXYZ--".as_slice()),
    ];
    for (calls, tear, left) in rows {
        assert!(rt; calls <= disk.inner.calls.len());
        let image = disk.inner.image(rt.alloc(), calls, tear)?;
        assert!(rt; image.as_slice() == left, "behind call {calls}");
    }
    assert!(rt; syncs(&mut disk));
    Ok(())
}

#[test]
fn a_link_gives_in_order_and_fails_at_chosen_calls(rt: HostRuntime) -> Result<(), Fail> {
    let given = [Incoming::Bytes(1, b"ab"), Incoming::Tick];
    let mut link = MemLink::new(SureLink::new(rt.alloc(), &given), &[2], &[1]);
    assert!(rt; matches!(link.next(), Came::Bytes(1, _)));
    assert!(rt; matches!(link.next(), Came::Failed));
    assert!(rt; link.send(1, b"xyz") == Put::Failed);
    assert!(rt; (&mut link).send(2, b"xyz") == Put::Took(3));
    assert!(rt; matches!(link.next(), Came::Tick));
    assert!(rt; matches!(link.next(), Came::Ended));
    assert!(rt; (link.nexts.calls, link.nexts.faults(), link.sends.faults()) == (4, 1, 1));
    assert!(rt; link.inner.ended);
    Ok(())
}

/// A gate that notes under a lock which call entered last.
#[derive(Drop)]
struct NotingGate<'a, R> {
    rt: &'a R,
    last: Mutex<u64>,
}

impl<R: Wait> Gate for NotingGate<'_, R> {
    fn enter(&self, call: u64) {
        *self.last.lock(self.rt) = call;
    }
}

#[test]
fn a_gate_may_wait(rt: HostRuntime) {
    let gate = NotingGate {
        rt: &rt,
        last: Mutex::new(0),
    };
    gate.enter(7);
    assert!(rt; *gate.last.lock(&rt) == 7);
    OpenGate.enter(7);
}

#[test]
fn a_thread_takes_a_disk_and_shares_a_gate(rt: HostRuntime) {
    let disk = MemDisk::new(SureDisk::new(rt.alloc()), &[]);
    let gate = OpenGate;
    let shared = &gate;
    let there = move || {
        shared.enter(1);
        syncs(disk)
    };
    let (synced, _) = thread::join(&rt, there, || shared.enter(2));
    assert!(rt; synced);
}
