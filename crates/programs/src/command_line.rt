//! The words of a program's command line, what it rejects of them beside what clap does, and how it
//! ends where it does, or where they ask for help alone.
ghost use Rattle.std.specs.Prelude.{◌≡◌, IfOk, map};
ghost use Rattle.std.specs.Char.{is_ascii_digit};
ghost use Rattle.std.specs.List.{list_all};
ghost use Rattle.clap.specs.Kinds.{FailsBy};
ghost use Rattle.clap.specs.Matches.{first_value, found_of};
ghost use Rattle.clap.specs.Values.{kind_of};
ghost use Rattle.clap.specs.declared.error.kind.ErrorKind.TheVariants.{ValueValidation};
ghost use Rattle.programs.specs.Asked.{IsReadBy, is_given, texts_of};
ghost use Rattle.programs.specs.Statuses.{fault_status, help_status, number_faults, words_status};

use crate::escapes::shown;
use clap::error::ErrorKind as Fault;
use clap::{ArgMatches, Command, Error};
use std::alloc::{AllocError, Global};
use std::env;
use std::io::{self, Eprint, ErrorKind};
use std::str::FromStr;

/// Returns the words of the command line; the first is the program's name.
///
/// Returns an error if a word is not UTF-8, or if an allocation fails.
pub fn arguments(rt: &HostRuntime) -> io::Result<Vec<String>> {
    Ok(env::args(rt)?.collect(rt.alloc())?)
}

/// Returns the exit status of a program without the words of its command line: 3 for want of
/// memory, or else 2. Standard error says why there are none.
pub fn words_status(rt: &impl Eprint, program: &str, e: &io::Error) -> u8
    ensures { result ≡ words_status e.now }
{
    let (status, reason) = match e.kind() {
        ErrorKind::OutOfMemory => (3, "out of memory"),
        ErrorKind::InvalidData => (2, "an argument is not UTF-8"),
        _ => (2, "the arguments can't be read"),
    };
    let _ = eprintln!(rt; "{program}: {reason}");
    status
}

/// Returns the exit status of a program that rejects its arguments: 3 for want of memory, or else
/// 2.
pub fn fault_status(e: &Error) -> u8
    ensures { result ≡ fault_status (kind_of e.now) }
{
    match e.kind() {
        Fault::OutOfMemory => 3,
        _ => 2,
    }
}

/// Returns the exit status of a program after it printed its help or its version on standard
/// output. If that failed, standard error says so: unless who reads the output has closed it.
pub fn help_status(rt: &impl Eprint, program: &str, printed: &io::Result<()>) -> u8
    ensures { result ≡ help_status printed.now }
{
    match printed {
        Ok(()) => 0,
        Err(e) if e.kind() == ErrorKind::BrokenPipe => 0,
        Err(e) => {
            let _ = eprintln!(rt; "{program}: standard output: {e}");
            3
        }
    }
}

/// Checks that the number of an option, if it is given, has digits alone: clap also takes a sign in
/// front of them. The error names the option by `argument`, as `--depth <N>`.
///
/// Fails with `ValueValidation` if the number has another byte, and with `OutOfMemory` if an
/// allocation fails.
pub fn check_digits(
    alloc: Global,
    command: &mut Command<'_>,
    matches: &ArgMatches<'_>,
    option: &str,
    argument: &str,
) -> Result<(), Error>
    ensures { FailsBy (number_faults (first_value (found_of matches.now) option.now)) result }
{
    match matches.get_str(option) {
        Some(number) if !has_digits_alone(number) => {
            let reason = "invalid digit found in string";
            Err(invalid_value(alloc, command, argument, number, reason)?)
        }
        _ => Ok(()),
    }
}

/// Returns the number of an option, or `None` if it is not given. The error names the option by
/// `argument`, as `--depth <N>`.
///
/// Fails with `ValueValidation` if the number has a byte that is no digit, or is too great for its
/// type, and with `OutOfMemory` if an allocation fails.
pub fn number<T: FromStr>(
    alloc: Global,
    command: &mut Command<'_>,
    matches: &ArgMatches<'_>,
    option: &str,
    argument: &str,
) -> Result<Option<T>, Error>
where
    T::Err: Drop,
    ensures { IfOk result (IsReadBy T.from_str_gives
        (first_value (found_of matches.now) option.now)) }
{
    check_digits(alloc, command, matches, option, argument)?;
    let Some(text) = matches.get_str(option) else {
        return Ok(None);
    };
    match text.parse() {
        Ok(number) => Ok(Some(number)),
        Err(_) => {
            let reason = "number too large to fit in target type";
            Err(invalid_value(alloc, command, argument, text, reason)?)
        }
    }
}

/// Whether the option without a value is among the words.
pub fn is_given(matches: &ArgMatches<'_>, option: &str) -> bool
    ensures { result ≡ is_given (found_of matches.now) option.now }
{
    matches.get_str(option) == Some("true")
}

/// Returns the values of an argument, in order.
pub fn texts<'a, 'm>(matches: &'m ArgMatches<'a>, argument: &str) -> &'m [&'a str]
    ensures { map (λ text. text.now) result.now ≡ texts_of (found_of matches.now) argument.now }
{
    matches.get_strs(argument).unwrap_or_default()
}

/// Whether each byte of a word is a decimal digit.
pub fn has_digits_alone(word: &str) -> bool
    ensures { result ≡ list_all is_ascii_digit word.now }
{
    word.as_bytes().iter().all(|byte| byte.is_ascii_digit())
}

/// Returns the error of a value that the argument does not take, in clap's words: its kind is
/// `ValueValidation`.
pub fn invalid_value(
    alloc: Global,
    command: &mut Command<'_>,
    argument: &str,
    value: &str,
    reason: &str,
) -> Result<Error, AllocError>
    ensures { IfOk result (λ e. kind_of e ≡ ValueValidation) }
{
    let value = shown(alloc, value)?;
    let message = format!(in alloc; "invalid value '{value}' for '{argument}': {reason}")?;
    command.error(Fault::ValueValidation, message.as_str())
}
