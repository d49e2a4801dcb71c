//! Readers and writers that record failures and their end.
use simd_json_print::text::Target;
use std::io;
use std::io::{ErrorKind, Read, Write};
use std::marker::Model;

/// A reader or a writer that records whether a call on it failed, and why, whether who reads what
/// it writes has closed it, and whether it ended. Only its own calls set what
/// [`failed`](Channel::failed), [`fault`](Channel::fault), [`closed`](Channel::closed) and
/// [`ended`](Channel::ended) return. Text is written to it as to any [`Target`].
///
/// ```
/// use programs::Channel;
/// use simd_json_print::text::Text;
/// use std::io::{self, Write};
///
/// // Writes [] and a line feed; later text can be written only if this has not failed.
/// fn put_empty<W: Write>(out: &mut Channel<W>) -> io::Result<()> {
///     let mut text = Text::<Channel<W>, 4096>::new(out);
///     text.put(b"[]\n");
///     text.finish()
/// }
/// ```
#[derive(Drop)]
pub struct Channel<T> {
    inner: T,
    fault: Option<io::Error>,
    closed: bool,
    ended: bool,
}

impl<T> Model for Channel<T> {
    ghost use Rattle.std.specs.Prelude.{is_some};
    ghost use Rattle.programs.specs.Ports.{Watched};

    ghost Value = { Watched T };

    ghost view = { λ c. record {
      inner = c.inner;
      failed = is_some c.fault;
      closed = c.closed;
      ended = c.ended;
    } };
}

impl<T> Channel<T> {
    ghost use Rattle.std.specs.Prelude.{◌≡◌, false, is_some};

    /// A reader or a writer that has neither failed nor ended.
    pub fn new(inner: T) -> Channel<T>
        ensures { result ≡ record { inner = inner; failed = false; closed = false; ended = false } }
    {
        Channel {
            inner,
            fault: None,
            closed: false,
            ended: false,
        }
    }

    /// Whether a read or a write returned an error, or a write wrote 0 bytes of a non-empty buffer.
    pub fn failed(&self) -> bool
        ensures { result ≡ self.now.failed }
    {
        self.fault.is_some()
    }

    /// The error of the last call that failed: of kind `WriteZero` if a write wrote 0 bytes of a
    /// non-empty buffer.
    pub fn fault(&self) -> Option<io::Error>
        ensures { is_some result ≡ self.now.failed }
    {
        self.fault
    }

    /// Whether a write returned an error of kind `BrokenPipe`.
    pub fn closed(&self) -> bool
        ensures { result ≡ self.now.closed }
    {
        self.closed
    }

    /// Whether a read into a non-empty buffer returned 0.
    pub fn ended(&self) -> bool
        ensures { result ≡ self.now.ended }
    {
        self.ended
    }

    /// The reader or the writer.
    pub fn into_inner(self) -> T
        ensures { result ≡ self.inner }
    {
        self.inner
    }
}

impl<R: Read> Channel<R> {
    ghost use Rattle.std.specs.Prelude.{◌≡◌, ◌||◌, length, is_err};
    ghost use Rattle.std.specs.Io.{ReadsAtMost};
    ghost use Rattle.std.specs.Io.KnownBytes.{ReadConsumes};
    ghost use Rattle.simd_json_print.specs.Texts.{took_none};

    /// Reads some bytes into the front of a buffer, as `Read::read` does.
    ///
    /// Returns the reader's error. The channel has failed then.
    pub fn read(&mut self, buf: &mut [u8]) -> io::Result<usize>
        ensures bound { ReadsAtMost result buf.new }
        ensures bytes { ReadConsumes (R.remaining self.old.inner) (R.remaining self.new.inner)
            result buf.new }
        ensures failed { self.new.failed ≡ (self.old.failed || is_err result) }
        ensures ended { self.new.ended ≡ (self.old.ended || took_none result (length buf.old)) }
        ensures closed { self.new.closed ≡ self.old.closed }
    {
        let read = self.inner.read(buf);
        match &read {
            Ok(0) if !buf.is_empty() => self.ended = true,
            Ok(_) => {}
            Err(e) => self.fault = Some(*e),
        }
        read
    }
}

// The only access to the writer, so that no failure goes unrecorded.
impl<W: Write> Target for Channel<W> {
    ghost use Rattle.std.specs.Prelude.{◌≡◌, ◌||◌, Some};
    ghost use Rattle.programs.specs.Statuses.{has_pipe_error};
    ghost use Rattle.simd_json_print.specs.Texts.{Takes};

    ghost state = { λ channel. record {
      held = W.contents channel.inner;
      failed = Some channel.failed;
    } };

    fn take_some(&mut self, bytes: &[u8]) -> io::Result<usize>
        ensures takes { Takes
            (record { held = W.contents self.old.inner; failed = Some self.old.failed })
            (record { held = W.contents self.new.inner; failed = Some self.new.failed })
            result bytes.now }
        ensures closed { self.new.closed ≡ (self.old.closed || has_pipe_error result) }
        ensures ended { self.new.ended ≡ self.old.ended }
    {
        let written = self.inner.write(bytes);
        match &written {
            Ok(n) if *n > 0 || bytes.is_empty() => {}
            Ok(_) => self.fault = Some(io::Error::from(ErrorKind::WriteZero)),
            Err(e) => {
                self.fault = Some(*e);
                self.closed = self.closed || e.kind() == ErrorKind::BrokenPipe;
            }
        }
        written
    }
}
