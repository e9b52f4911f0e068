//! `Pieces`: a reader that yields at most so many bytes in a read, for `amqp_bench_stream`.

ghost use Rattle.std.specs.Prelude.{◌<◌};

use std::io;
use std::io::Read;

/// Yields bytes, at most `most` in a read.
#[derive(Drop)]
pub struct Pieces<'a> {
    bytes: &'a [u8],
    most: usize,
    ghost some: { 0 < most },
}

impl<'a> Pieces<'a> {
    /// Yields the bytes, at most `most` in a read, or one if that is 0.
    pub fn new(bytes: &'a [u8], most: usize) -> Self {
        Pieces {
            bytes,
            most: most.max(1),
        }
    }

    /// The number of bytes that are left.
    pub fn count(&self) -> usize {
        self.bytes.len()
    }
}

impl Read for Pieces<'_> {
    fn read(&mut self, buf: &mut [u8]) -> io::Result<usize> {
        let most = buf.len().min(self.most);
        self.bytes.read(&mut buf[..most])
    }
}
