//! What the program's arguments ask for.
ghost use Rattle.std.specs.Prelude.{◌≡◌, IfOk, codes, map, string_bytes};
ghost use Rattle.clap.specs.Simple.{App, HasMatchesOf};
ghost use Rattle.clap.specs.declared.parser.matches.ArgMatches.{ArgMatches};
ghost use Rattle.clap.specs.Matches.{first_value, found_of};
ghost use Rattle.jcheck.specs.Asked.{HasOptions, color_of};
ghost use Rattle.programs.specs.Asked.{or_input, texts_of};

use clap::builder::ValueParser;
use clap::{Arg, ArgAction, ArgMatches, Command, Error, value_parser};
use programs::{is_given, number, texts};
use simd_json_check::DEFAULT_MAX_DEPTH;
use std::alloc::{AllocError, Global};

const STANDARD_INPUT: &str = "-";

const FILES_HELP: &str = "Files to check; standard input where there is none, or for -";

const DEPTH_HELP: &str = "How many containers may be open at a time [default: 1024]";

const LINES_HELP: &str = "Check each line that is not blank as a document of its own";

const COLOR_HELP: &str = "When the caret is red; auto is on a terminal, unless NO_COLOR is set";

/// What the arguments ask for.
#[derive(Drop)]
pub struct Options<'a> {
    depth: usize,
    has_lines: bool,
    color: Option<bool>,
    files: Vec<&'a str>,
}

impl<'a> Options<'a> {
    // What was found in the words.
    fn of(
        alloc: Global,
        command: &mut Command<'_>,
        matches: &ArgMatches<'a>,
    ) -> Result<Options<'a>, Error>
        ensures { IfOk result (HasOptions (found_of matches.now)) }
    {
        let depth = number(alloc, command, matches, "depth", "--depth <N>")?;
        Ok(Options {
            depth: depth.unwrap_or(DEFAULT_MAX_DEPTH),
            has_lines: is_given(matches, "lines"),
            color: color(matches),
            files: files(alloc, matches)?,
        })
    }

    /// How many containers may be open at a time.
    pub fn depth(&self) -> usize
        ensures { result ≡ self.now.depth }
    {
        self.depth
    }

    /// Whether each line is a document of its own.
    pub fn has_lines(&self) -> bool
        ensures { result ≡ self.now.has_lines }
    {
        self.has_lines
    }

    /// Whether the caret is red, or `None` where that depends on the output.
    pub fn color(&self) -> Option<bool>
        ensures { result ≡ self.now.color }
    {
        self.color
    }

    /// The names of the files, of which there is at least one.
    pub fn files(&self) -> &[&'a str]
        ensures { result.now ≡ self.now.files.items }
    {
        self.files.as_slice()
    }
}

// Whether the caret is red, if --color says it.
fn color(matches: &ArgMatches<'_>) -> Option<bool>
    ensures { result ≡ color_of (first_value (found_of matches.now) (codes "color")) }
{
    match matches.get_str("color") {
        Some("always") => Some(true),
        Some("never") => Some(false),
        _ => None,
    }
}

// The names of the files, or that of standard input where there are none.
fn files<'a>(alloc: Global, matches: &ArgMatches<'a>) -> Result<Vec<&'a str>, AllocError>
    ensures { IfOk result (λ files. map (λ name. name.now) files.items
        ≡ or_input (texts_of (found_of matches.now) (codes "file"))) }
{
    let mut files = Vec::from_slice(alloc, texts(matches, "file"))?;
    if files.is_empty() {
        files.push(STANDARD_INPUT)?;
    }
    Ok(files)
}

/// Returns what the arguments ask for; the first word is the program's name. The error is the text
/// of `--help` or `--version`, or says what is not understood.
pub fn asked<'a>(alloc: Global, words: &'a [String]) -> Result<Options<'a>, Error>
    ensures { IfOk result (λ asked. (app : App) × (m : ArgMatches)
        × HasMatchesOf app (map string_bytes words.entry.now) m × HasOptions (found_of m) asked) }
{
    let mut command = command(alloc)?;
    let matches = command.try_get_matches_from_mut(words)?;
    Options::of(alloc, &mut command, &matches)
}

fn command<'a>(alloc: Global) -> Result<Command<'a>, Error> {
    let depth = Arg::new(alloc, "depth")
        .long("depth")
        .value_name("N")
        .value_parser(value_parser!(usize))
        .help(DEPTH_HELP);
    let lines = Arg::new(alloc, "lines")
        .long("lines")
        .action(ArgAction::SetTrue)
        .help(LINES_HELP);
    let color = Arg::new(alloc, "color")
        .long("color")
        .value_name("WHEN")
        .value_parser(ValueParser::Names(&["auto", "always", "never"]))
        .default_value("auto")
        .help(COLOR_HELP);
    let files = Arg::new(alloc, "file")
        .value_name("FILE")
        .action(ArgAction::Append)
        .num_args(0..)
        .help(FILES_HELP);
    Ok(
        Command::new(alloc, "jcheck")
            .version("0.4.0")
            .about("Checks that files are JSON (RFC 8259), and says where and why they are not")
            .arg(depth)?
            .arg(lines)?
            .arg(color)?
            .arg(files)?,
    )
}
