//! Standard input, output and errors. Of their faults nothing is known.

use crate::sink::Sink;
use crate::source::Source;
use std::io;
use std::io::{Read, Write};
use std::rt::{Stderr, Stdin, Stdout};

impl Source for Stdin {
    fn take_some(&mut self, buf: &mut [u8]) -> io::Result<usize> {
        self.read(buf)
    }
}

impl Sink for Stdout {
    fn put_some(&mut self, buf: &[u8]) -> io::Result<usize> {
        self.write(buf)
    }
}

impl Sink for Stderr {
    fn put_some(&mut self, buf: &[u8]) -> io::Result<usize> {
        self.write(buf)
    }
}
