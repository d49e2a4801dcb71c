//! What the program's arguments ask for.
ghost use Rattle.std.specs.Prelude.{◌≡◌, ◌++◌, ℕ, List, codes, map, IfOk, OnOk};
ghost use Rattle.std.specs.List.{AllZip};
ghost use Rattle.clap.specs.Matches.{first_value, found_of};
ghost use Rattle.jpick.specs.Asked.{HasOptions, IsEachOf, IsFilterOf, IsQueryOf, begins_query};
ghost use Rattle.jpick.specs.Asked.{files_of, first_query, is_given, is_left_out, layout_of};
ghost use Rattle.jpick.specs.Asked.{texts_of};

use crate::fields::{Layout, Wanted};
use crate::query::Query;
use bumpalo::Bump;
use clap::{Arg, ArgAction, ArgMatches, Command, Error, value_parser};
use programs::check_digits;
use simd_json::{DEFAULT_MAX_DEPTH, Pointer};
use simd_json_path::{Filter, Path, PathError, PathExpected};
use std::alloc::{AllocError, AllocFailed, Global};

const STANDARD_INPUT: &str = "-";

// How many bytes a line may have, if no option says so.
const LONGEST: u32 = 65_536;

const QUERY_HELP: &str =
    "What is printed: a JSON Pointer (RFC 6901), as /user/name, or a JSONPath (RFC 9535), as \
     $.users[*].name; with --where, --each or --pretty it may be left out";

const EACH_HELP: &str =
    "Print rows of each value that this selects of a line; QUERY may be left out";

const AND_HELP: &str = "A further query, in a column of its own";

const FILE_HELP: &str = "Files to read; standard input where there is none, or for -";

const DOCUMENT_HELP: &str = "Read each file as one document, in memory that grows with it";

const RAW_HELP: &str = "Print a string as its text, without quotes and escapes";

const TSV_HELP: &str = "Print rows of tab separated text, with escapes as jq's @tsv";

const CSV_HELP: &str = "Print rows of comma separated text, quoted as jq's @csv";

const HEADER_HELP: &str = "Print the queries in a row of their own first";

const JSON_HELP: &str = "Print each row as a JSON array";

const PRETTY_HELP: &str = "Print a value over several lines";

const SORT_HELP: &str = "Print the members of each object in the order of their keys";

const ALL_HELP: &str = "Leave out a line where a QUERY selects nothing";

const STATUS_HELP: &str = "As --all; end with status 1 if no row is printed";

const WHERE_HELP: &str =
    "Only lines, or values by --each, where EXPR holds, as @.status >= 500 && @.level == \"error\" (RFC 9535)";

const QUIET_HELP: &str = "Do not name rejected lines";

const LIMIT_HELP: &str = "How many bytes a line may have [default: 65536]";

const DEPTH_HELP: &str = "How many containers may be open at a time [default: 1024]";

/// What the arguments ask for.
#[derive(Drop)]
pub struct Options<'a> {
    wanted: Wanted<'a>,
    has_header: bool,
    needs_rows: bool,
    files: Vec<&'a str>,
}

impl<'a> Options<'a> {
    // What was found in the words.
    fn of(
        alloc: Global,
        arena: &'a Bump,
        matches: &ArgMatches<'a>,
    ) -> Result<Options<'a>, Unasked<'a>>
        ensures { IfOk result (HasOptions (found_of matches.now)) }
    {
        let mut queries = Vec::new(alloc);
        push_queries(&mut queries, arena, first_query(matches))?;
        push_queries(&mut queries, arena, texts(matches, "and"))?;
        let filters = filters(alloc, arena, texts(matches, "where"))?;
        let needs_rows = is_given(matches, "exit-status");
        Ok(Options {
            wanted: Wanted {
                each: each(arena, matches)?,
                queries: arena.try_alloc_slice_copy(&queries)?,
                filters: arena.try_alloc_slice_copy(&filters)?,
                layout: layout(
                    is_given(matches, "tsv"),
                    is_given(matches, "csv"),
                    is_given(matches, "json"),
                ),
                is_raw: is_given(matches, "raw"),
                is_pretty: is_given(matches, "pretty"),
                has_sorted_keys: is_given(matches, "sort-keys"),
                needs_all: needs_rows || is_given(matches, "all"),
                is_quiet: is_given(matches, "quiet"),
                longest: matches.get_one::<u32>("limit").unwrap_or(LONGEST) as usize,
                depth: matches
                    .get_one::<usize>("depth")
                    .unwrap_or(DEFAULT_MAX_DEPTH),
                is_document: is_given(matches, "document"),
            },
            has_header: is_given(matches, "header"),
            needs_rows,
            files: files(alloc, matches)?,
        })
    }

    /// What is picked of each line.
    pub fn wanted(&self) -> &Wanted<'a>
        ensures { result.now ≡ self.now.wanted }
    {
        &self.wanted
    }

    /// Whether the row of the queries is printed first.
    pub fn has_header(&self) -> bool
        ensures { result ≡ self.now.has_header }
    {
        self.has_header
    }

    /// Whether the status is to say that no row was written.
    pub fn needs_rows(&self) -> bool
        ensures { result ≡ self.now.needs_rows }
    {
        self.needs_rows
    }

    /// The names of the files, of which there is at least one.
    pub fn files(&self) -> &[&'a str]
        ensures { result.now ≡ self.now.files.items }
    {
        self.files.as_slice()
    }
}

// Whether the query is left out: it may be where lines are filtered, values are printed over
// several lines, or there are rows of each of some. The first word is a file then, if there is one.
fn is_left_out(matches: &ArgMatches<'_>) -> bool
    ensures { result ≡ is_left_out (found_of matches.now) }
{
    let may_be = is_given(matches, "pretty")
        || matches.get_str("where").is_some()
        || matches.get_str("each").is_some();
    match matches.get_str("query") {
        Some(word) => may_be && !begins_query(word),
        None => may_be,
    }
}

// Whether it is empty, or begins as a JSON Pointer or a JSONPath does.
fn begins_query(word: &str) -> bool
    ensures { result ≡ begins_query word.now }
{
    matches!(word.as_bytes(), [] | [b'/' | b'$', ..])
}

// The text of the first query. One that is left out selects the whole value.
fn first_query<'a, 'm>(matches: &'m ArgMatches<'a>) -> &'m [&'a str]
    ensures { map (λ text. text.now) result.now ≡ first_query (found_of matches.now) }
{
    if is_left_out(matches) {
        return &[""];
    }
    texts(matches, "query")
}

// Whether the option without a value is among the words.
fn is_given(matches: &ArgMatches<'_>, name: &str) -> bool
    ensures { result ≡ is_given (found_of matches.now) name.now }
{
    matches.get_str(name) == Some("true")
}

// How rows are printed, by --tsv, --csv and --json, of which at most one may be given.
fn layout(tsv: bool, csv: bool, json: bool) -> Layout
    ensures { result ≡ layout_of tsv csv json }
{
    match (tsv, csv, json) {
        (true, _, _) => Layout::Tsv,
        (_, true, _) => Layout::Csv,
        (_, _, true) => Layout::Json,
        _ => Layout::Tabs,
    }
}

// The values of an argument, in order.
fn texts<'a, 'm>(matches: &'m ArgMatches<'a>, name: &str) -> &'m [&'a str]
    ensures { map (λ text. text.now) result.now ≡ texts_of (found_of matches.now) name.now }
{
    matches.get_strs(name).unwrap_or_default()
}

// The names of the files, or that of standard input where there are none.
fn files<'a>(alloc: Global, matches: &ArgMatches<'a>) -> Result<Vec<&'a str>, AllocError>
    ensures { IfOk result (λ files.
        map (λ name. name.now) files.items ≡ files_of (found_of matches.now)) }
{
    let mut files = Vec::new(alloc);
    if is_left_out(matches) {
        files.extend_from_slice(texts(matches, "query"))?;
    }
    files.extend_from_slice(texts(matches, "file"))?;
    if files.is_empty() {
        files.push(STANDARD_INPUT)?;
    }
    Ok(files)
}

/// Why there are no options.
#[derive(Drop)]
pub enum Unasked<'a> {
    /// The text of `--help` or `--version`, or what is not understood.
    Text(Error),
    /// A text that is neither a JSON Pointer nor begins with `$`.
    NoQuery(&'a str),
    /// A text that begins with `$` and is no JSONPath, where that is, and what it lacks there.
    NoPath(&'a str, PathError),
    /// A text that is no condition, where that is, and what it lacks there.
    NoCondition(&'a str, PathError),
    /// An allocation failed.
    Memory,
}

impl From<AllocError> for Unasked<'_> {
    fn from(_: AllocError) -> Self {
        Unasked::Memory
    }
}

impl<T: Drop> From<AllocFailed<T>> for Unasked<'_> {
    fn from(_: AllocFailed<T>) -> Self {
        Unasked::Memory
    }
}

impl From<Error> for Unasked<'_> {
    fn from(error: Error) -> Self {
        Unasked::Text(error)
    }
}

/// Returns what the arguments ask for; the first word is the program's name. What queries and
/// conditions are made of lies in the arena.
pub fn asked<'a>(
    alloc: Global,
    arena: &'a Bump,
    words: &'a [String],
) -> Result<Options<'a>, Unasked<'a>> {
    let mut command = command(alloc)?;
    let matches = command.try_get_matches_from_mut(words)?;
    check_digits(alloc, &mut command, &matches, "limit", "--longest <BYTES>")?;
    check_digits(alloc, &mut command, &matches, "depth", "--depth <N>")?;
    Options::of(alloc, arena, &matches)
}

// Appends the queries of texts.
fn push_queries<'a>(
    queries: &mut Vec<Query<'a>>,
    arena: &'a Bump,
    texts: &[&'a str],
) -> Result<(), Unasked<'a>>
    ensures { (old : List (List ℕ)) → AllZip IsQueryOf queries.old.items old
        → OnOk result (AllZip IsQueryOf queries.new.items
        (old ++ map (λ text. text.now) texts.now)) }
{
    for text in texts {
        queries.push(query_named(arena, *text)?)?;
    }
    Ok(())
}

// The query of `--each`, if that is given.
fn each<'a>(arena: &'a Bump, matches: &ArgMatches<'a>) -> Result<Option<Query<'a>>, Unasked<'a>>
    ensures { IfOk result (λ each.
        IsEachOf each (first_value (found_of matches.now) (codes "each"))) }
{
    match matches.get_str("each") {
        Some(text) => Ok(Some(query_named(arena, text)?)),
        None => Ok(None),
    }
}

// The query of a text. A pointer of more tokens than containers may be open leads nowhere.
fn query_named<'a>(arena: &'a Bump, text: &'a str) -> Result<Query<'a>, Unasked<'a>>
    ensures { IfOk result (λ query. IsQueryOf query text.now) }
{
    if let [b'$', ..] = text.as_bytes() {
        return match Path::new(arena, text) {
            Ok(path) => Ok(Query::Path(text, path)),
            Err(e) if e.expected == PathExpected::Memory => Err(Unasked::Memory),
            Err(e) => Err(Unasked::NoPath(text, e)),
        };
    }
    match Pointer::<DEFAULT_MAX_DEPTH>::new(text) {
        Some(_) => Ok(Query::Pointer(text)),
        None => Err(Unasked::NoQuery(text)),
    }
}

// The conditions of texts.
fn filters<'a>(
    alloc: Global,
    arena: &'a Bump,
    texts: &[&'a str],
) -> Result<Vec<Filter<'a>>, Unasked<'a>>
    ensures { IfOk result (λ filters. AllZip IsFilterOf filters.items
        (map (λ text. text.now) texts.now)) }
{
    let mut filters = Vec::new(alloc);
    for text in texts {
        filters.push(filter_named(arena, *text)?)?;
    }
    Ok(filters)
}

fn filter_named<'a>(arena: &'a Bump, text: &'a str) -> Result<Filter<'a>, Unasked<'a>>
    ensures { IfOk result (λ filter. IsFilterOf filter text.now) }
{
    match Filter::new(arena, text) {
        Ok(filter) => Ok(filter),
        Err(e) if e.expected == PathExpected::Memory => Err(Unasked::Memory),
        Err(e) => Err(Unasked::NoCondition(text, e)),
    }
}

fn flag<'a>(alloc: Global, name: &'a str, help: &'a str) -> Arg<'a> {
    Arg::new(alloc, name)
        .long(name)
        .action(ArgAction::SetTrue)
        .help(help)
}

// An option with a value, which may be given several times.
fn repeated<'a>(alloc: Global, name: &'a str, value: &'a str, help: &'a str) -> Arg<'a> {
    Arg::new(alloc, name)
        .long(name)
        .value_name(value)
        .action(ArgAction::Append)
        .allow_hyphen_values(true)
        .help(help)
}

fn command<'a>(alloc: Global) -> Result<Command<'a>, Error> {
    let query = Arg::new(alloc, "query")
        .value_name("QUERY")
        .required_unless_present("where")?
        .required_unless_present("pretty")?
        .required_unless_present("each")?
        .help(QUERY_HELP);
    let files = Arg::new(alloc, "file")
        .value_name("FILE")
        .action(ArgAction::Append)
        .num_args(0..)
        .help(FILE_HELP);
    let command = Command::new(alloc, "jpick").version("0.4.0").about(
        "Prints what JSON Pointers or JSONPaths select of each line of JSON Lines, or of documents",
    );
    let command = with_rows(alloc, command)?;
    let command = with_lines(alloc, command)?;
    Ok(command.arg(query)?.arg(files)?)
}

// The options that say what a row is.
fn with_rows<'a>(alloc: Global, command: Command<'a>) -> Result<Command<'a>, Error> {
    let each = Arg::new(alloc, "each")
        .long("each")
        .value_name("QUERY")
        .allow_hyphen_values(true)
        .help(EACH_HELP);
    Ok(
        command
            .arg(each)?
            .arg(repeated(alloc, "and", "QUERY", AND_HELP))?
            .arg(flag(alloc, "raw", RAW_HELP).short('r'))?
            .arg(
                flag(alloc, "tsv", TSV_HELP)
                    .conflicts_with("csv")?
                    .conflicts_with("json")?,
            )?
            .arg(flag(alloc, "csv", CSV_HELP).conflicts_with("json")?)?
            .arg(flag(alloc, "json", JSON_HELP))?
            .arg(
                flag(alloc, "pretty", PRETTY_HELP)
                    .conflicts_with("tsv")?
                    .conflicts_with("csv")?
                    .conflicts_with("json")?,
            )?
            .arg(flag(alloc, "sort-keys", SORT_HELP))?
            .arg(flag(alloc, "header", HEADER_HELP).conflicts_with("json")?)?,
    )
}

// The options that say of what there are rows.
fn with_lines<'a>(alloc: Global, command: Command<'a>) -> Result<Command<'a>, Error> {
    let limit = Arg::new(alloc, "limit")
        .long("longest")
        .value_name("BYTES")
        .value_parser(value_parser!(u32))
        .help(LIMIT_HELP);
    let depth = Arg::new(alloc, "depth")
        .long("depth")
        .value_name("N")
        .value_parser(value_parser!(usize))
        .help(DEPTH_HELP);
    Ok(
        command
            .arg(flag(alloc, "document", DOCUMENT_HELP).short('d'))?
            .arg(flag(alloc, "all", ALL_HELP))?
            .arg(flag(alloc, "exit-status", STATUS_HELP).short('e'))?
            .arg(repeated(alloc, "where", "EXPR", WHERE_HELP))?
            .arg(flag(alloc, "quiet", QUIET_HELP).short('q'))?
            .arg(limit)?
            .arg(depth)?,
    )
}
