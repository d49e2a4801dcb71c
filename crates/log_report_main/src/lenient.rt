//! Readers that may be missing.
ghost use Rattle.std.specs.Prelude.{None};

use std::io::{self, Read};

/// A reader of no bytes where the first read fails. A later failure is its own.
#[derive(Drop)]
pub struct Lenient<R> {
    /// The reader.
    pub reader: R,
    has_begun: bool,
}

impl<R> Lenient<R> {
    /// A reader of which nothing has been read yet.
    pub fn new(reader: R) -> Lenient<R> {
        Lenient {
            reader,
            has_begun: false,
        }
    }
}

impl<R: Read> Read for Lenient<R> {
    ghost remaining = { λ lenient. None };

    fn read(&mut self, buf: &mut [u8]) -> io::Result<usize> {
        match self.reader.read(buf) {
            Err(_) if !self.has_begun => Ok(0),
            read => {
                self.has_begun = true;
                read
            }
        }
    }
}
