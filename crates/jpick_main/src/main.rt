//! `jpick [OPTION].. QUERY [FILE..]` prints what queries select of each line of JSON Lines.
//! docs/PROGRAMS.md says what it prints. The library `jpick` picks; here are files and the status.
#![tactic(auto)]

use bumpalo::Bump;
use jcheck::{Style, excerpt_at};
use jpick::{
    Hint, Options, Query, Taken, Unasked, Wanted, asked, pick_each, run, status_by_rows,
    write_header,
};
use programs::{
    Channel, Failure, Retrying, Source, arguments, ending, fault_status, help_status, print_ending,
    shown, words_status,
};
use simd_json_path::PathError;
use std::io::{self, ErrorKind, IsTerminal};
use std::path::Path;
use std::process::ExitCode;

// How the text of a query is shown.
const STYLE: Style = Style {
    width: 80,
    is_colored: false,
};

fn main(rt: HostRuntime) -> ExitCode {
    let code = match arguments(&rt) {
        Ok(words) => program(&rt, words.as_slice()),
        Err(e) => words_status(&rt, "jpick", &e),
    };
    ExitCode::from(code)
}

fn program(rt: &HostRuntime, words: &[String]) -> u8 {
    let arena = Bump::new(rt.alloc());
    match asked(rt.alloc(), &arena, words) {
        Ok(options) => match file_for_query(rt, &options) {
            Some(word) => print_unasked(rt, word),
            None => pick_files(rt, &options),
        },
        Err(Unasked::Text(e)) if e.use_stderr() => {
            let _ = e.print(rt);
            fault_status(&e)
        }
        Err(Unasked::Text(e)) => help_status(rt, "jpick", &e.print(rt)),
        Err(Unasked::NoQuery(word)) => print_unasked(rt, word),
        Err(Unasked::NoPath(word, e)) => print_wrong(rt, "a JSONPath", word, e),
        Err(Unasked::NoCondition(word, e)) => {
            print_wrong(rt, "a condition, as `@.status == 500`", word, e)
        }
        Err(Unasked::Memory) => out_of_memory(rt),
    }
}

// Prints that the word is no query.
fn print_unasked(rt: &HostRuntime, word: &str) -> u8 {
    let reason = if Path::new(word).is_file(rt) {
        "is a file; the first word is the query, a JSON Pointer or a JSONPath"
    } else if word.starts_with(".") {
        "is a path of jq; a JSONPath has `$` in front of it"
    } else {
        "is neither a JSON Pointer, as `/a/b`, nor a JSONPath, as `$.a.b`"
    };
    match shown(rt.alloc(), word) {
        Ok(word) => {
            let _ = eprintln!(rt; "jpick: `{word}` {reason}");
            2
        }
        Err(_) => out_of_memory(rt),
    }
}

// Prints what a query or a condition lacks, with a caret where it does, and what may be meant.
fn print_wrong(rt: &HostRuntime, what: &str, text: &str, error: PathError) -> u8 {
    let Ok(excerpt) = excerpt_at(rt.alloc(), text.as_bytes(), error.index, STYLE) else {
        return out_of_memory(rt);
    };
    let expected = error.expected;
    let _ = match Hint::of(text, error) {
        Some(hint) => { eprint!(rt; "jpick: not {what}: expected {expected}; {hint}\n{excerpt}") }
        None => eprint!(rt; "jpick: not {what}: expected {expected}\n{excerpt}"),
    };
    2
}

fn out_of_memory(rt: &HostRuntime) -> u8 {
    let _ = eprintln!(rt; "jpick: out of memory");
    3
}

// The query, if it names a file, and lines would come from a terminal.
fn file_for_query<'o>(rt: &HostRuntime, options: &'o Options<'_>) -> Option<&'o str> {
    let query = options.wanted().queries.first()?.text();
    let is_awaited = matches!(options.files(), ["-"]) && rt.stdin().is_terminal();
    (is_awaited && Path::new(query).is_file(rt)).then_some(query)
}

fn pick_files(rt: &HostRuntime, options: &Options<'_>) -> u8 {
    let wanted = options.wanted();
    if options.has_header() {
        let mut out = Channel::new(Retrying::new(io::writer(rt)));
        let headed = write_header(rt.alloc(), wanted, &mut out).and(Ok(true));
        if headed.is_err() {
            print_ending(rt, "jpick", &headed, out.fault(), None);
            return ending(&headed).0;
        }
    }
    print_one_query(rt, wanted);
    let mut has_rows = false;
    let status = pick_each(
        |file| {
            let (picked, has_more) = pick_file(rt, wanted, file);
            has_rows = has_rows || has_more;
            picked
        },
        options.files(),
    );
    status_by_rows(status, options.needs_rows(), has_rows)
}

// Prints that a JSON Pointer which looks like two is one.
fn print_one_query(rt: &HostRuntime, wanted: &Wanted<'_>) {
    for query in wanted.queries {
        if let Query::Pointer(text) = query
            && !wanted.is_quiet
            && text.contains(",/")
            && let Ok(text) = shown(rt.alloc(), text)
        {
            let _ = eprintln!(rt; "jpick: `{text}` is one query; write --and before a second one");
        }
    }
}

// Picks of a file, and prints on standard error why that ended early. Also returns whether a row
// was written.
fn pick_file(rt: &HostRuntime, wanted: &Wanted<'_>, file: &str) -> (Result<Taken, Failure>, bool) {
    let Ok(name) = shown(rt.alloc(), file) else {
        let _status = out_of_memory(rt);
        return (Err(Failure::Resources), false);
    };
    let mut reader = Channel::new(Source::new(rt, rt.reader(), file));
    let (mut out, mut err) = (
        Channel::new(Retrying::new(io::writer(rt))),
        Channel::new(Retrying::new(rt.stderr())),
    );
    let ended = run(
        rt.alloc(),
        wanted,
        name.as_str(),
        &mut reader,
        &mut out,
        &mut err,
    );
    if let Some((_, e)) = reader.into_inner().fault() {
        let hint = file_hint(file, e.kind());
        let _ = eprintln!(rt; "jpick: {name}: {e}{hint}");
    }
    let all_taken = ended.map(|taken| taken == Taken::All);
    print_ending(rt, "jpick", &all_taken, out.fault(), err.fault());
    (ended, out.into_inner().has_written())
}

// What may be meant by the name of a file that is not there.
fn file_hint(file: &str, kind: ErrorKind) -> &'static str {
    match file.as_bytes() {
        _ if kind != ErrorKind::NotFound => "",
        [b'$', ..] => "; write --and before a second query",
        [b'/', ..] if !file.contains(".") => "; write --and before a second query",
        [b'.', second, ..] if *second != b'/' && *second != b'.' => {
            "; a query begins with `/` or `$`"
        }
        _ => "",
    }
}
