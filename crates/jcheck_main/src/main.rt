//! `jcheck [--depth N] [--lines] [--color WHEN] [FILE..]` checks whether each file is a JSON
//! document, and prints where and why one is not. The library `jcheck` checks and prints; here are
//! files, the terminal and the status.
#![tactic(auto)]

use jcheck::{
    DocumentChecker, Ended, Failure, Options, Style, asked, check_document, check_each,
    check_lines, is_colored,
};
use programs::{
    Channel, Retrying, Source, arguments, fault_status, help_status, shown, words_status,
};
use std::io::{IsTerminal, Read};
use std::process::ExitCode;
use std::{env, fs, io};

fn main(rt: HostRuntime) -> ExitCode {
    let code = match arguments(&rt) {
        Ok(words) => program(&rt, words.as_slice()),
        Err(e) => words_status(&rt, "jcheck", &e),
    };
    ExitCode::from(code)
}

fn program(rt: &HostRuntime, words: &[String]) -> u8 {
    match asked(rt.alloc(), words) {
        Ok(options) => check_files(rt, &options).status(),
        Err(e) if e.use_stderr() => {
            let _ = e.print(rt);
            fault_status(&e)
        }
        Err(e) => help_status(rt, "jcheck", &e.print(rt)),
    }
}

// How many characters a line of the terminal has: the number in `COLUMNS`, if it is not 0, or 80.
fn terminal_width(rt: &HostRuntime) -> usize {
    match env::var(rt, "COLUMNS") {
        Ok(columns) => match columns.as_str().parse::<usize>() {
            Ok(0) | Err(_) => 80,
            Ok(width) => width,
        },
        Err(_) => 80,
    }
}

fn check_files(rt: &HostRuntime, options: &Options<'_>) -> Ended {
    let mut checker = DocumentChecker::new(rt.alloc(), options.depth());
    let has_lines = options.has_lines();
    let style = Style {
        width: terminal_width(rt),
        is_colored: is_colored(
            options.color(),
            &env::var(rt, "NO_COLOR"),
            rt.stdout().is_terminal(),
        ),
    };
    check_each(
        |file| match shown(rt.alloc(), file) {
            Ok(name) => {
                let checked = check_file(rt, &mut checker, file, name.as_str(), has_lines, style);
                print_failure(rt, name.as_str(), &checked);
                checked
            }
            Err(e) => {
                let _ = eprintln!(rt; "jcheck: out of memory");
                Err(Failure::from(e))
            }
        },
        options.files(),
    )
}

// Who has closed the output has had enough of it.
fn print_failure(rt: &HostRuntime, name: &str, checked: &Result<bool, Failure>) {
    if let Err(failure) = checked
        && !failure.has_closed()
    {
        let _ = eprintln!(rt; "jcheck: {}: {failure}", failure.what(name));
    }
}

fn check_file(
    rt: &HostRuntime,
    checker: &mut DocumentChecker,
    file: &str,
    name: &str,
    has_lines: bool,
    style: Style,
) -> Result<bool, Failure> {
    let mut out = Channel::new(Retrying::new(io::writer(rt)));
    if !has_lines {
        let input = read_input(rt, file).map_err(Failure::Input)?;
        return check_document(checker, &mut out, name, input.as_slice(), style);
    }
    let mut reader = Channel::new(Source::new(rt, rt.reader(), file));
    check_lines(checker, &mut reader, &mut out, name, style)
}

// The bytes of a file, or of standard input for `-`.
fn read_input(rt: &HostRuntime, file: &str) -> io::Result<Vec<u8>> {
    if file != "-" {
        return fs::read(rt, file);
    }
    let mut input = Vec::new(rt.alloc());
    rt.reader().read_to_end(&mut input)?;
    Ok(input)
}
