//! Reads and writes that a signal may interrupt.
ghost use Rattle.std.specs.Prelude.{◌≡◌, ◌≢◌, ◌||◌, false, IfErr};
ghost use Rattle.std.specs.Io.{ReadsAtMost, WritesAtMost};
ghost use Rattle.std.specs.Io.KnownBytes.{ReadConsumes, WriteAppends};
ghost use Rattle.std.specs.IoError.{error_kind};
ghost use Rattle.std.specs.declared.io.ErrorKind.TheVariants.{Interrupted};
ghost use Rattle.programs.specs.Ports.{took_some};

use std::io::{self, ErrorKind, Read, Write};

// Nothing says that a signal does not interrupt each of the calls, so their number has a bound.
const TRIES: u64 = u64::MAX;

// Reads as `Read::read` does, and again where a signal interrupts it. After 2^64 - 1 such reads the
// error is of kind `TimedOut`.
pub(crate) fn read_some<R: Read>(reader: &mut R, buf: &mut [u8]) -> io::Result<usize>
    ensures bound { ReadsAtMost result buf.new }
    ensures bytes { ReadConsumes (R.remaining reader.old) (R.remaining reader.new) result buf.new }
    ensures retried { IfErr result (λ e. error_kind e ≢ Interrupted) }
{
    for _ in 0..TRIES {
        match reader.read(buf) {
            Err(e) if e.kind() == ErrorKind::Interrupted => {}
            read => return read,
        }
    }
    Err(io::Error::from(ErrorKind::TimedOut))
}

// Writes as `Write::write` does, and again as above.
fn write_some<W: Write>(writer: &mut W, bytes: &[u8]) -> io::Result<usize>
    ensures bound { WritesAtMost result bytes.now }
    ensures bytes { WriteAppends (W.contents writer.old) (W.contents writer.new) result bytes.now }
    ensures retried { IfErr result (λ e. error_kind e ≢ Interrupted) }
{
    for _ in 0..TRIES {
        match writer.write(bytes) {
            Err(e) if e.kind() == ErrorKind::Interrupted => {}
            written => return written,
        }
    }
    Err(io::Error::from(ErrorKind::TimedOut))
}

fn took_some(written: &io::Result<usize>) -> bool
    ensures { result ≡ took_some written.now }
{
    match written {
        Ok(count) => *count > 0,
        Err(_) => false,
    }
}

/// A writer that writes again where a signal interrupts it, and records whether it has written
/// anything. After 2^64 - 1 such writes the error is of kind `TimedOut`.
#[derive(Drop)]
pub struct Retrying<W> {
    writer: W,
    has_written: bool,
}

impl<W> Retrying<W> {
    /// The same writer, which has written nothing yet.
    pub fn new(writer: W) -> Retrying<W>
        ensures { (result.writer ≡ writer) × (result.has_written ≡ false) }
    {
        Retrying {
            writer,
            has_written: false,
        }
    }

    /// Whether it has written a byte.
    pub fn has_written(&self) -> bool
        ensures { result ≡ self.now.has_written }
    {
        self.has_written
    }

    /// The writer.
    pub fn into_inner(self) -> W
        ensures { result ≡ self.writer }
    {
        self.writer
    }
}

impl<W: Write> Write for Retrying<W> {
    ghost contents = { λ retrying. W.contents retrying.writer };

    fn write(&mut self, bytes: &[u8]) -> io::Result<usize>
        ensures bound { WritesAtMost result bytes.now }
        ensures bytes { WriteAppends (W.contents self.old.writer) (W.contents self.new.writer)
            result bytes.now }
        ensures retried { IfErr result (λ e. error_kind e ≢ Interrupted) }
        ensures written { self.new.has_written ≡ (self.old.has_written || took_some result) }
    {
        let written = write_some(&mut self.writer, bytes);
        self.has_written = self.has_written || took_some(&written);
        written
    }

    fn flush(&mut self) -> io::Result<()> {
        self.writer.flush()
    }
}
