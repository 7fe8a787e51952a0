//! A reader that knows its faults, a writer that fills up, and streams in memory.

use std::alloc::Global;
use std::io;
use std::io::{Error, ErrorKind, Read, Write};
use whole_streams::{ReadFault, Sink, Source, WriteFault, read_whole, write_whole};

// Bytes of which one read fails, after `before` reads. It shows that a reader can meet the trait
// with what it knows: its bytes, its fault and how many reads it still counts.
#[derive(Drop)]
struct OneFault<'a> {
    rest: &'a [u8],
    before: u32,
    failed: bool,
    counted: u32,
}

impl OneFault<'_> {
    ghost use Rattle.std.specs.Prelude.{◌≡◌, ◌-◌, Some, if◌then◌else◌};
    ghost use Rattle.std.specs.Io.{ReadsAtMost};
    ghost use Rattle.std.specs.Io.KnownBytes.{ReadConsumes};
    ghost use Rattle.whole_streams.specs.Counts.{CountsRead};

    fn one_read(&mut self, buf: &mut [u8]) -> io::Result<usize>
        ensures bound { ReadsAtMost result buf.new }
        ensures bytes { ReadConsumes (Some self.old.rest.now) (Some self.new.rest.now) result buf.new }
        ensures faults { CountsRead (Some (if self.old.failed then 1 else 0)) result
            (Some (if self.new.failed then 1 else 0)) }
        ensures reads { self.new.counted ≡ self.old.counted - 1 }
    {
        self.counted = self.counted.saturating_sub(1);
        if self.before == 0 && !self.failed {
            self.failed = true;
            return Err(Error::from(ErrorKind::Other));
        }
        self.before = self.before.saturating_sub(1);
        self.rest.read(buf)
    }
}

impl Read for OneFault<'_> {
    ghost use Rattle.std.specs.Prelude.{Some};

    ghost remaining = { λ s. Some s.rest.now };

    fn read(&mut self, buf: &mut [u8]) -> io::Result<usize> {
        self.one_read(buf)
    }
}

impl Source for OneFault<'_> {
    ghost use Rattle.std.specs.Prelude.{Some, if◌then◌else◌};

    ghost faults = { λ s. Some (if s.failed then 1 else 0) };

    ghost reads_left = { λ s. Some s.counted };

    fn take_some(&mut self, buf: &mut [u8]) -> io::Result<usize> {
        self.one_read(buf)
    }
}

// Whether six bytes, of which one read fails after `before` reads, are read as a whole exactly if `read`.
fn reads_so(alloc: Global, before: u32, read: bool) -> bool {
    let mut input = OneFault {
        rest: b"abcdef",
        before,
        failed: false,
        counted: 9,
    };
    match read_whole(alloc, &mut input) {
        Ok(bytes) => read && bytes.as_slice() == b"abcdef".as_slice(),
        Err(fault) => !read && fault == ReadFault::Stream,
    }
}

#[test]
fn reads_to_the_end_or_to_the_fault(rt: HostRuntime) {
    assert!(rt; reads_so(rt.alloc(), 0, false));
    assert!(rt; reads_so(rt.alloc(), 1, false));
    assert!(rt; reads_so(rt.alloc(), 2, true));
}

// Takes two bytes at a time, and then none.
#[derive(Drop)]
struct Full {
    bytes: Vec<u8>,
    most: usize,
}

impl Write for Full {
    fn write(&mut self, buf: &[u8]) -> io::Result<usize> {
        let room = self.most.saturating_sub(self.bytes.len());
        let count = buf.len().min(room).min(2);
        self.bytes.extend_from_slice(&buf[..count])?;
        Ok(count)
    }

    fn flush(&mut self) -> io::Result<()> {
        Ok(())
    }
}

impl Sink for Full {
    fn put_some(&mut self, buf: &[u8]) -> io::Result<usize> {
        self.write(buf)
    }
}

// Whether of six bytes as many are written as the writer takes, and less than all are a fault.
fn writes_so(alloc: Global, most: usize) -> bool {
    let mut output = Full {
        bytes: Vec::new(alloc),
        most,
    };
    let is_whole = write_whole(&mut output, b"abcdef") == Ok(());
    is_whole == (most >= 6) && output.bytes.as_slice() == &b"abcdef"[..most.min(6)]
}

#[test]
fn writes_all_or_a_beginning(rt: HostRuntime) {
    for most in 0..8 {
        assert!(rt; writes_so(rt.alloc(), most), "{most}");
    }
}

// Whether "abc" is written behind "->".
fn writes_abc(alloc: Global, bytes: &[u8]) -> bool {
    match Vec::from_slice(alloc, b"->") {
        Ok(mut output) => {
            write_whole(&mut output, bytes).is_ok() && output.as_slice() == b"->abc".as_slice()
        }
        Err(_) => false,
    }
}

fn reads_and_writes_abc(alloc: Global) -> bool {
    let mut input: &[u8] = b"abc";
    match read_whole(alloc, &mut input) {
        Ok(bytes) => writes_abc(alloc, bytes.as_slice()) && input.is_empty(),
        Err(_) => false,
    }
}

#[test]
fn streams_of_memory(rt: HostRuntime) {
    assert!(rt; reads_and_writes_abc(rt.alloc()));
}
