//! The program's arguments.
ghost use Rattle.std.specs.Prelude.{◌≡◌, map, string_bytes, IfOk, IfErr, Err};
ghost use Rattle.jtape.specs.Failures.{requested_of};
ghost use Rattle.jtape.specs.declared.runs.Failure.TheVariants.{Usage};
ghost use Rattle.jtape.specs.Settings.{mode_of, word_number, settings_of};

use crate::runs::Failure;
use programs::has_digits_alone;
use simd_json::DEFAULT_MAX_DEPTH;
use std::io;

/// What is printed: of the input as one document, or in mode `Lines` of each of its lines.
#[derive(Clone, Copy, Debug, Drop, PartialEq, Eq)]
pub enum Mode {
    /// A line for each node of the tape.
    Tape,
    /// A line for each structural index, in decimal.
    Positions,
    /// The document without whitespace between tokens, and a line feed.
    Compact,
    /// The document with a line for each member, and a line feed.
    Pretty,
    /// For each line that is not blank its document as by `Compact`, or a line with `! ` and its
    /// error.
    Lines,
}

/// Parses the program's arguments, of which the first is its name. Returns `Usage` if they can't be
/// read, or if [`settings`] returns `None` for the others.
pub fn requested(arguments: io::Result<Vec<String>>) -> Result<(Mode, usize), Failure>
    ensures requested { IfOk arguments (λ words.
        result ≡ requested_of (map string_bytes words.items)) }
    ensures unread { IfErr arguments (λ _. result ≡ Err Usage) }
{
    match arguments {
        Ok(words) => words
            .get(1..)
            .and_then(|words| settings(words))
            .ok_or(Failure::Usage),
        Err(_) => Err(Failure::Usage),
    }
}

/// Parses the arguments after the program's name: a mode, `tape`, `positions`, `compact`, `pretty`
/// or `lines`, and optionally the depth limit in digits, else [`DEFAULT_MAX_DEPTH`]. Returns `None`
/// for any others.
pub fn settings(words: &[String]) -> Option<(Mode, usize)>
    ensures { result ≡ settings_of (map string_bytes words.now) }
{
    match words {
        [mode] => Some((mode_named(mode.as_str())?, DEFAULT_MAX_DEPTH)),
        [mode, depth] => Some((mode_named(mode.as_str())?, number_named(depth.as_str())?)),
        _ => None,
    }
}

fn mode_named(word: &str) -> Option<Mode>
    ensures { result ≡ mode_of word.now }
{
    match word {
        "tape" => Some(Mode::Tape),
        "positions" => Some(Mode::Positions),
        "compact" => Some(Mode::Compact),
        "pretty" => Some(Mode::Pretty),
        "lines" => Some(Mode::Lines),
        _ => None,
    }
}

/// The number of a word of one or more digits, or `None` for any other word and for 2^64 or more.
pub fn number_named(word: &str) -> Option<usize>
    ensures { result ≡ word_number word.now }
{
    if has_digits_alone(word) {
        word.parse().ok()
    } else {
        None
    }
}
