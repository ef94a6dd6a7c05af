//! The objects in memory, and those over std's readers and writers, which no contract can see into.

use crate::{
    Clock, Disk, Failed, FileDisk, MemClock, MemDisk, MemSink, MemSource, Sink, SinkError, Source,
    StdClock, StdSink, StdSource,
};
use std::cell::Cell;
use std::fs::File;
use std::io::{Read, Write};
use std::test::Fail;
use std::time::{self, Duration};
use std::{env, fs, io};

#[test]
fn reads_from_memory(rt: HostRuntime) -> Result<(), Fail> {
    let mut source = MemSource::new(rt.alloc(), &[7, 8, 9], &[2])?;
    let mut into = [0u8; 2];
    let table = [
        // what a call answers, and what then stands in the slice
        (Ok(2), [7, 8]),
        (Err(Failed), [7, 8]),
        (Ok(1), [9, 8]),
        (Ok(0), [9, 8]),
    ];
    for (want, bytes) in table {
        assert_eq!(rt; source.read(&mut into), want);
        assert_eq!(rt; into, bytes);
    }
    Ok(())
}

#[test]
fn writes_to_memory(rt: HostRuntime) -> Result<(), Fail> {
    let mut sink = MemSink::new(rt.alloc(), &[2, 4])?;
    assert_eq!(rt; sink.held().len(), 0);
    assert_eq!(rt; sink.flushed().len(), 0);
    assert_eq!(rt; sink.write(&[1, 2]), Ok(()));
    assert_eq!(rt; sink.write(&[3]), Err(SinkError::Failed));
    assert_eq!(rt; sink.flush(), Ok(()));
    assert_eq!(rt; sink.flush(), Err(Failed));
    assert_eq!(rt; sink.write(&[4]), Ok(()));
    assert_eq!(rt; sink.held(), [1u8, 2, 4].as_slice());
    assert_eq!(rt; sink.flushed(), [1u8, 2].as_slice());
    Ok(())
}

// Moves at most two bytes a call, and fails at its second one, be it a read, a write or a flush.
#[derive(Drop)]
struct FailsOnce<T> {
    inner: T,
    calls: u8,
}

impl<T> FailsOnce<T> {
    fn turn(&mut self, length: usize) -> io::Result<usize> {
        self.calls = self.calls.saturating_add(1);
        if self.calls == 2 {
            return Err(io::Error::from(io::ErrorKind::BrokenPipe));
        }
        Ok(length.min(2))
    }
}

impl<T: Read> Read for FailsOnce<T> {
    fn read(&mut self, into: &mut [u8]) -> io::Result<usize> {
        let count = self.turn(into.len())?.min(into.len());
        self.inner.read(&mut into[..count])
    }
}

impl<T: Write> Write for FailsOnce<T> {
    fn write(&mut self, bytes: &[u8]) -> io::Result<usize> {
        let count = self.turn(bytes.len())?.min(bytes.len());
        self.inner.write(&bytes[..count])
    }

    fn flush(&mut self) -> io::Result<()> {
        self.turn(0)?;
        self.inner.flush()
    }
}

#[test]
fn reads_from_a_reader(rt: HostRuntime) {
    let bytes = [7u8, 8, 9];
    let mut into = [0u8; 2];
    let mut whole = StdSource::new(bytes.as_slice());
    for (want, front) in [(2, [7, 8]), (1, [9, 8]), (0, [9, 8])] {
        assert_eq!(rt; whole.read(&mut into), Ok(want));
        assert_eq!(rt; into, front);
    }
    let inner = bytes.as_slice();
    let mut failing = StdSource::new(FailsOnce { inner, calls: 0 });
    for want in [Ok(2), Err(Failed), Ok(1), Ok(0)] {
        assert_eq!(rt; failing.read(&mut into), want);
    }
}

#[test]
fn writes_to_a_writer(rt: HostRuntime) -> Result<(), Fail> {
    let mut whole = Vec::new(rt.alloc());
    let mut sink = StdSink::new(&mut whole);
    assert_eq!(rt; sink.write(&[1, 2, 3]), Ok(()));
    assert_eq!(rt; sink.write(&[4]), Ok(()));
    assert_eq!(rt; sink.flush(), Ok(()));
    assert_eq!(rt; whole.as_slice(), [1u8, 2, 3, 4].as_slice());

    let mut cut = Vec::new(rt.alloc());
    let inner = &mut cut;
    let mut sink = StdSink::new(FailsOnce { inner, calls: 0 });
    assert_eq!(rt; sink.write(&[1, 2, 3]), Err(SinkError::Failed));
    assert_eq!(rt; sink.write(&[4]), Ok(()));
    assert_eq!(rt; cut.as_slice(), [1u8, 2, 4].as_slice());

    let inner: Vec<u8> = Vec::new(rt.alloc());
    let mut sink = StdSink::new(FailsOnce { inner, calls: 0 });
    assert_eq!(rt; sink.flush(), Ok(()));
    assert_eq!(rt; sink.flush(), Err(Failed));
    assert_eq!(rt; sink.flush(), Ok(()));
    Ok(())
}

#[test]
fn crashes_by_word(rt: HostRuntime) -> Result<(), Fail> {
    // The first two words of `Pcg32::seed_from_u64(7)` have the low bytes E9 and BE.
    let table: [(u64, &[u8]); 3] = [(0, &[1]), (1, &[2, 3]), (7, &[0xE9, 0xBE])];
    for (word, left) in table {
        // A byte that is stable, and two that are written over it and not yet synced.
        let mut disk = MemDisk::new(rt.alloc())?;
        disk.reserve(4, 8)?;
        assert_eq!(rt; disk.write(0, &[1]), Ok(()));
        assert_eq!(rt; disk.sync(), Ok(()));
        assert_eq!(rt; disk.write(0, &[2, 3]), Ok(()));
        disk.crash(word)?;
        assert_eq!(rt;
            disk.read(rt.alloc(), 0, 9)?.as_slice(),
            left,
            "after the word {word}"
        );
        assert_eq!(rt; disk.faults(), 0);
    }
    Ok(())
}

#[test]
fn keeps_bytes_in_a_file(rt: HostRuntime) -> Result<(), Fail> {
    let mut path = env::temp_dir(&rt)?;
    path.push("hunkesha_disk_in_a_test")?;
    let mut disk = FileDisk::new(
        File::options()
            .read(true)
            .write(true)
            .create(true)
            .truncate(true)
            .open(&rt, &path)?,
    );
    disk.reserve(9, 9)?;
    assert_eq!(rt; disk.write(0, &[7, 8]), Ok(()));
    assert_eq!(rt; disk.write(2, &[9]), Ok(()));
    assert_eq!(rt; disk.sync(), Ok(()));
    assert_eq!(rt; disk.size(), Ok(3));
    assert_eq!(rt;
        disk.read(rt.alloc(), 1, 9)?.as_slice(),
        [8u8, 9].as_slice()
    );
    let mut shut = FileDisk::new(File::open(&rt, &path)?);
    shut.reserve(9, 9)?;
    assert_eq!(rt; shut.write(0, &[1]), Err(Failed));
    assert_eq!(rt; shut.faults(), 1);
    assert_eq!(rt; shut.read(rt.alloc(), 0, 1)?.as_slice(), [7u8].as_slice());
    fs::remove_file(&rt, &path)?;
    Ok(())
}

// A clock that gives the listed seconds, and fails where none is listed.
#[derive(Drop)]
struct Seconds<'a> {
    readings: &'a [Option<u64>],
    reads: Cell<usize>,
}

impl<'a> time::Clock for Seconds<'a> {
    fn monotonic(&self) -> io::Result<Duration> {
        let read = self.reads.get();
        self.reads.set(read.saturating_add(1));
        match self.readings.get(read) {
            Some(Some(seconds)) => Ok(Duration::from_secs(*seconds)),
            _ => Err(io::Error::from(io::ErrorKind::Other)),
        }
    }

    fn since_1970(&self) -> io::Result<Duration> {
        self.monotonic()
    }
}

#[test]
fn tells_the_time(rt: HostRuntime) {
    let readings = [Some(5), Some(7), None, Some(6), Some(8)];
    let mut clock = StdClock::new(Seconds {
        readings: &readings,
        reads: Cell::new(0),
    });
    // A reading that fails and one that is smaller change nothing.
    for want in [2000, 2000, 2000, 3000] {
        assert_eq!(rt; clock.now(), want);
    }
    let mut system = StdClock::new(&rt);
    let first = system.now();
    assert!(rt; first <= system.now());
}

#[test]
fn tells_listed_moments(rt: HostRuntime) -> Result<(), Fail> {
    let moments = [3, 3, 8];
    let may = MemClock::may_tell(&moments);
    assert!(rt; may);
    let mut clock = MemClock::new(rt.alloc(), &moments)?;
    for want in [3, 3, 8, 8, 8] {
        assert_eq!(rt; clock.now(), want);
    }
    Ok(())
}
