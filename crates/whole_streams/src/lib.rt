//! Functions that read a whole input stream, and write a whole answer to an output stream, by
//! single reads and writes that may fail. `serving` reads the input of a command and writes its
//! answer by these functions.
//!
//! ```
//! let bytes = read_whole(alloc, &mut rt.stdin())?;
//! write_whole(&mut rt.stdout(), bytes.as_slice())?;
//! ```
//!
//! A stream that knows its faults counts them as a ghost, so that a contract can say "a read
//! failed" and not only "the result is an error". Standard input and output don't know their
//! faults: for them the contracts say what a generic function promises for every stream. What the
//! system does with the bytes is in no contract.
#![tactic(auto)]

mod sink;
mod source;
mod system;

pub use sink::{Sink, WriteFault, write_whole};
pub use source::{READ_LIMIT, ReadFault, Source, read_whole};
