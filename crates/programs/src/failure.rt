//! Why a run over lines ended before the end of its input, and how its program ends.
ghost use Rattle.std.specs.Prelude.{◌≡◌, ◌++◌, option_map};
ghost use Rattle.std.specs.Io.KnownBytes.{Appends};
ghost use Rattle.programs.specs.Failures.{Begins, Ends, line_of, output_fault, run_status};
ghost use Rattle.programs.specs.declared.failure.Failure.TheVariants.{Resources};

use crate::channel::Channel;
use simd_json_print::text::Text;
use std::alloc::AllocError;
use std::io::{self, Eprint, Write};

/// Why a run ended before the end of its input.
#[derive(Clone, Copy, Debug, PartialEq, Eq)]
pub enum Failure {
    /// Reading failed.
    Read,
    /// Writing what was asked for failed.
    Write,
    /// Naming a rejected line failed.
    Name,
    /// Who reads the output has closed it. Holds whether no line was rejected so far.
    Closed(bool),
    /// An allocation failed, or the input did not end.
    Resources,
}

impl Failure {
    /// Returns why the output was not written, by whether its reader has closed it, and whether no
    /// line was rejected so far. Who has closed it has had enough of it.
    pub fn of_output(is_closed: bool, all_taken: bool) -> Failure
        ensures { result ≡ output_fault is_closed all_taken }
    {
        if is_closed {
            Failure::Closed(all_taken)
        } else {
            Failure::Write
        }
    }
}

impl From<AllocError> for Failure {
    ghost from_gives = { λ _ failure. failure ≡ Resources };

    fn from(_: AllocError) -> Failure {
        Failure::Resources
    }
}

/// Returns the exit status of a program of one run, and what failed: an output, whose error is to
/// follow, or an allocation. Where reading failed there is none, since it is the input's.
pub fn ending(ended: &Result<bool, Failure>) -> (u8, Option<&'static str>)
    ensures { (result.0 ≡ run_status ended.now)
        × (option_map (λ line. line.now) result.1 ≡ line_of ended.now) }
{
    match ended {
        Ok(true) | Err(Failure::Closed(true)) => (0, None),
        Ok(false) | Err(Failure::Closed(false)) => (1, None),
        Err(Failure::Read) => (3, None),
        Err(Failure::Write) => (3, Some("standard output")),
        Err(Failure::Name) => (3, Some("standard error")),
        Err(Failure::Resources) => (3, Some("out of memory")),
    }
}

/// Prints on standard error, after the program's name, why a run ended early, by the errors of its
/// outputs; nothing where who reads the output has closed it, or where reading failed.
pub fn print_ending(
    rt: &impl Eprint,
    program: &str,
    ended: &Result<bool, Failure>,
    output: Option<io::Error>,
    names: Option<io::Error>,
) {
    let fault = if let Err(Failure::Name) = ended {
        names
    } else {
        output
    };
    let _ = match (ending(ended).1, fault) {
        (None, _) => Ok(()),
        (Some(what), Some(e)) => eprintln!(rt; "{program}: {what}: {e}"),
        (Some(what), None) => eprintln!(rt; "{program}: {what}"),
    };
}

/// Writes the name of a rejected line: the label, and the words after it.
///
/// Fails with `Name` if writing fails. A prefix of the name was written then.
pub fn put_name<E: Write>(
    rejections: &mut Channel<E>,
    label: &str,
    words: &[u8],
) -> Result<(), Failure>
    ensures { Ends rejections.old rejections.new
        (Appends (E.contents rejections.old.inner) (E.contents rejections.new.inner)
        (label.now ++ words.now))
        (Begins (E.contents rejections.old.inner) (E.contents rejections.new.inner)
        (label.now ++ words.now)) result }
{
    let mut name = Text::<Channel<E>, 256>::new(rejections);
    name.put(label.as_bytes());
    name.put(words);
    match name.finish() {
        Ok(()) => Ok(()),
        Err(_) => Err(Failure::Name),
    }
}
