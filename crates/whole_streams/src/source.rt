//! A reader whose faults are counted, and reading it to its end.

ghost use Rattle.std.specs.Prelude.{ℕ, Option, Some, None, IfOk, IfErr};
ghost use Rattle.std.specs.Io.{ReadsAtMost};
ghost use Rattle.std.specs.Io.KnownBytes.{ReadConsumes};
ghost use Rattle.whole_streams.specs.Counts.{CountsDown, CountsOn, CountsRead, FallsByAtMost};
ghost use Rattle.whole_streams.specs.Streams.{EndsAfter, WantsStreamFault, IsUnended};

use std::alloc::Global;
use std::io;
use std::io::Read;

/// A reader that may know how many of its reads failed, and how many reads are left of a number.
pub trait Source: Read {
    // How many reads failed so far.
    ghost faults: { Self → Option ℕ } = { λ _. None };
    // A number that every read takes one off, down to 0.
    ghost reads_left: { Self → Option ℕ } = { λ _. None };

    /// One read: how many bytes it put at the start of `buf`, and 0 at the end of the input.
    ///
    /// # Errors
    /// If the read failed; no byte is then taken from the input.
    fn take_some(&mut self, buf: &mut [u8]) -> io::Result<usize>
        ensures bound { ReadsAtMost result buf.new }
        ensures bytes { ReadConsumes (Self.remaining self.old) (Self.remaining self.new) result buf.new }
        ensures faults { CountsRead (faults self.old) result (faults self.new) }
        ensures reads { CountsDown (reads_left self.old) 1 (reads_left self.new) };
}

impl Source for &[u8] {
    ghost faults = { λ _. Some 0 };

    fn take_some(&mut self, buf: &mut [u8]) -> io::Result<usize> {
        self.read(buf)
    }
}

/// The number of reads after which an input counts as endless.
pub const READ_LIMIT: u32 = 1_073_741_824;

const _: () = prove!(READ_LIMIT == 1_073_741_824);

// A piece lies on the stack, which may be smaller in a thread of a caller's.
const PIECE: usize = 65_536;

const _: () = prove!(PIECE == 65_536);

/// Why an input was not read whole.
#[derive(Clone, Copy, Debug, Drop, PartialEq, Eq, thiserror::Error)]
pub enum ReadFault {
    /// A read failed, or `READ_LIMIT` reads came to no end.
    #[error("stream")]
    Stream,
    /// Memory ran out.
    #[error("memory")]
    Memory,
}

/// Reads `input` to its end, by at most `READ_LIMIT` reads.
///
/// # Errors
/// `Stream` if a read failed, or if `READ_LIMIT` reads each gave a byte and none met the end; `Memory` if
/// a growth was refused, and no read failed. What was read until then is dropped.
pub fn read_whole<R: Source>(alloc: Global, input: &mut R) -> Result<Vec<u8>, ReadFault>
    ensures ok { IfOk result (λ v. EndsAfter (R.remaining input.old) (R.remaining input.new) v.items) }
    ensures quiet { IfOk result (λ _. CountsOn (R.faults input.old) 0 (R.faults input.new)) }
    ensures fault { IfErr result (WantsStreamFault (R.faults input.old) (R.faults input.new)
        (IsUnended (R.remaining input.old) (R.remaining input.new) (R.reads_left input.old) (R.reads_left input.new))) }
    ensures reads { FallsByAtMost (R.reads_left input.old) READ_LIMIT (R.reads_left input.new) }
{
    let mut bytes = Vec::new(alloc);
    let mut piece = [0u8; PIECE];
    for _turn in 0..READ_LIMIT {
        match input.take_some(&mut piece) {
            Ok(0) => return Ok(bytes),
            Ok(count) => {
                if bytes.extend_from_slice(&piece[..count]).is_err() {
                    return Err(ReadFault::Memory);
                }
            }
            Err(_) => return Err(ReadFault::Stream),
        }
    }
    Err(ReadFault::Stream)
}
