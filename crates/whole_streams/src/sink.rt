//! A writer whose faults are counted, and writing all of some bytes to it.

ghost use Rattle.std.specs.Prelude.{ℕ, Option, None, IfOk, IfErr};
ghost use Rattle.std.specs.Io.{WritesAtMost};
ghost use Rattle.std.specs.Io.KnownBytes.{Appends, WriteAppends};
ghost use Rattle.whole_streams.specs.Counts.{CountsOn, CountsWrite, HasGrown};
ghost use Rattle.whole_streams.specs.Streams.{AppendsBeginning};

use std::io;
use std::io::Write;

/// A writer that may know how many of its writes failed or took nothing.
pub trait Sink: Write {
    // How many writes failed, or took nothing, so far.
    ghost faults: { Self → Option ℕ } = { λ _. None };

    /// One write: how many bytes from the start of `buf` were taken.
    ///
    /// # Errors
    /// If the write failed; no byte is then taken.
    fn put_some(&mut self, buf: &[u8]) -> io::Result<usize>
        ensures bound { WritesAtMost result buf.now }
        ensures bytes { WriteAppends (Self.contents self.old) (Self.contents self.new) result buf.now }
        ensures faults { CountsWrite (faults self.old) result (faults self.new) };
}

impl Sink for Vec<u8> {
    fn put_some(&mut self, buf: &[u8]) -> io::Result<usize> {
        self.write(buf)
    }
}

/// A write failed or took nothing.
#[derive(Clone, Copy, Debug, Drop, PartialEq, Eq, thiserror::Error)]
#[error("stream")]
pub struct WriteFault;

/// Writes all of `bytes` by single writes.
///
/// # Errors
/// `WriteFault` if a write failed or took nothing; a beginning of `bytes` was then written.
pub fn write_whole<W: Sink>(output: &mut W, bytes: &[u8]) -> Result<(), WriteFault>
    ensures ok { IfOk result (λ _. Appends (W.contents output.old) (W.contents output.new) bytes.now) }
    ensures quiet { IfOk result (λ _. CountsOn (W.faults output.old) 0 (W.faults output.new)) }
    ensures begin { AppendsBeginning (W.contents output.old) (W.contents output.new) bytes.now }
    ensures fault { IfErr result (λ _. HasGrown (W.faults output.old) (W.faults output.new)) }
{
    let mut done = 0;
    while done < bytes.len() {
        match output.put_some(&bytes[done..]) {
            Ok(0) => return Err(WriteFault),
            Err(_) => return Err(WriteFault),
            Ok(count) => done += count,
        }
    }
    Ok(())
}
