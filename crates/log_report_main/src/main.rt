//! `log_report [OPTION].. KEY|POINTER [FILE..]` counts the lines of JSON Lines by their values at
//! keys or JSON Pointers, in memory that does not depend on how many there are. docs/PROGRAMS.md
//! says what it prints. The library `log_report` counts; here are files and the status.
#![tactic(auto)]

mod lenient;

use lenient::Lenient;
use log_report::{Input, Options, Selector, asked, run};
use programs::{
    Channel, Retrying, Source, arguments, ending, fault_status, help_status, print_ending, shown,
    words_status,
};
use std::alloc::AllocError;
use std::io::{self, IsTerminal};
use std::path::Path;
use std::process::ExitCode;

fn main(rt: HostRuntime) -> ExitCode {
    let status = match arguments(&rt) {
        Ok(words) => program(&rt, words.as_slice()),
        Err(e) => words_status(&rt, "log_report", &e),
    };
    ExitCode::from(status)
}

fn program(rt: &HostRuntime, words: &[String]) -> u8 {
    match asked(rt.alloc(), words) {
        Ok(options) if is_awaited(rt, &options) && print_file(rt, &options) => 2,
        Ok(options) => match report(rt, &options) {
            Ok(status) => status,
            Err(_) => {
                let _ = eprintln!(rt; "log_report: out of memory");
                3
            }
        },
        Err(e) if e.use_stderr() => {
            let _ = e.print(rt);
            fault_status(&e)
        }
        Err(e) => help_status(rt, "log_report", &e.print(rt)),
    }
}

// Whether lines would come from a terminal.
fn is_awaited(rt: &HostRuntime, options: &Options<'_>) -> bool {
    matches!(options.files(), ["-"]) && rt.stdin().is_terminal()
}

// If the first word is a file, prints so, and returns true.
fn print_file(rt: &HostRuntime, options: &Options<'_>) -> bool {
    let wanted = options.wanted();
    let Some(Selector::Key(word) | Selector::Pointer(word)) = wanted.selectors.first() else {
        return false;
    };
    let is_file = Path::new(*word).is_file(rt);
    if is_file && let Ok(word) = shown(rt.alloc(), *word) {
        let _ = eprintln!(rt;
            "log_report: `{word}` is a file; the first word is a key or a JSON Pointer"
        );
    }
    is_file
}

// Writes the report of the files that can be read, and prints on standard error why others can't.
// Returns an error if an allocation fails before.
fn report(rt: &HostRuntime, options: &Options<'_>) -> Result<u8, AllocError> {
    let names = names(rt, options.files())?;
    let mut inputs = Vec::new(rt.alloc());
    for (file, name) in options.files().iter().zip(names.iter()) {
        let reader = Channel::new(Lenient::new(Source::new(rt, rt.reader(), *file)));
        inputs.push(Input {
            file: name.as_str(),
            reader,
        })?;
    }
    let (mut out, mut err) = (
        Channel::new(Retrying::new(io::writer(rt))),
        Channel::new(Retrying::new(rt.stderr())),
    );
    let counted = run(
        rt.alloc(),
        &options.wanted(),
        inputs.as_mut_slice(),
        &mut out,
        &mut err,
    );
    let mut status = ending(&counted).0;
    for input in inputs {
        let name = input.file;
        if let Some((_, e)) = input.reader.into_inner().reader.fault() {
            let _ = eprintln!(rt; "log_report: {name}: {e}");
            status = 3;
        }
    }
    print_ending(rt, "log_report", &counted, out.fault(), err.fault());
    if status == 0 && !out.into_inner().has_written() {
        let _ = print_file(rt, options);
    }
    Ok(status)
}

// The names of files as they are printed.
fn names(rt: &HostRuntime, files: &[&str]) -> Result<Vec<String>, AllocError> {
    let mut names = Vec::new(rt.alloc());
    for file in files {
        names.push(shown(rt.alloc(), *file)?)?;
    }
    Ok(names)
}
