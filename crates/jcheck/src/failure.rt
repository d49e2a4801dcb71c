//! Why the check of a file ended before its end.
ghost use Rattle.std.specs.Prelude.{◌≡◌, false, is_some};
ghost use Rattle.jcheck.specs.Failures.{IsShortOfMemory, has_closed, is_of_output, what_failed};

use std::alloc::AllocError;
use std::fmt::{self, Display, Formatter, Write};
use std::io::{self, ErrorKind};

/// Why a check ended before the end of its input. Printed it is `out of memory`, or else the
/// error's own text.
#[derive(Clone, Copy, Debug)]
pub enum Failure {
    /// The input can't be read, or an allocation failed.
    Input(io::Error),
    /// The output can't be written.
    Output(io::Error),
}

impl Failure {
    /// Returns why an input was not read: this error, or else an allocation failed.
    pub fn of_input(fault: Option<io::Error>) -> Failure
        ensures input { is_of_output result ≡ false }
        ensures memory { is_some fault ≡ false → IsShortOfMemory result }
    {
        match fault {
            Some(e) => Failure::Input(e),
            None => Failure::from(AllocError),
        }
    }

    /// Returns whether who reads the output has closed it.
    pub fn has_closed(&self) -> bool
        ensures { result ≡ has_closed self.now }
    {
        match self {
            Failure::Input(_) => false,
            Failure::Output(e) => e.kind() == ErrorKind::BrokenPipe,
        }
    }

    /// Returns the name of what failed: that of the input, or `standard output`.
    pub fn what<'a>(&self, input: &'a str) -> &'a str
        ensures { result.now ≡ what_failed self.now input.now }
    {
        match self {
            Failure::Input(_) => input,
            Failure::Output(_) => "standard output",
        }
    }
}

impl From<AllocError> for Failure {
    ghost from_gives = { λ _ failure. IsShortOfMemory failure };

    fn from(error: AllocError) -> Failure {
        Failure::Input(io::Error::from(error))
    }
}

impl Display for Failure {
    ghost use Rattle.jcheck.specs.Failures.{known_text};

    ghost output = { known_text };

    fn fmt<W: Write>(&self, f: &mut Formatter<W>) -> fmt::Result {
        let (Failure::Input(e) | Failure::Output(e)) = self;
        match e.kind() {
            ErrorKind::OutOfMemory => f.write_str("out of memory"),
            _ => e.fmt(f),
        }
    }
}
