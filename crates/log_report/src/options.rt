//! What the program's arguments ask for.
ghost use Rattle.std.specs.Prelude.{◌≡◌, ◌∷◌, ◌++◌, [], ℕ, List, codes, map, string_bytes};
ghost use Rattle.std.specs.Prelude.{IfErr, IfOk, OnOk, Some, true};
ghost use Rattle.std.specs.List.{list_all};
ghost use Rattle.std.specs.Result.{result_ok};
ghost use Rattle.clap.specs.Kinds.{FailsBy};
ghost use Rattle.clap.specs.Matches.{found_of};
ghost use Rattle.clap.specs.Simple.{App, HasMatchesOf};
ghost use Rattle.clap.specs.declared.parser.matches.ArgMatches.{ArgMatches};
ghost use Rattle.simd_json_parts.specs.Pointed.{is_pointer};
ghost use Rattle.programs.specs.Asked.{texts_of};
ghost use Rattle.log_report.specs.Asked.{AreOf, HasOptions, begins_with_key, files_of};
ghost use Rattle.log_report.specs.Asked.{is_selector, selector_faults, selector_of, unread_text};
ghost use Rattle.log_report.specs.Asked.{first_words, words_of};

use crate::rows::{Selector, Wanted};
use clap::{Arg, ArgAction, ArgMatches, Command, Error, value_parser};
use programs::{invalid_value, is_given, number, texts};
use simd_json_parts::pointer::is_well_formed;
use std::alloc::{AllocError, Global};

const STANDARD_INPUT: &str = "-";

const SELECTOR_HELP: &str =
    "Which value lines count by: a key, or a JSON Pointer, as /request/method";

const AND_HELP: &str = "A further value that they count by, in a column of its own";

const KEY_HELP: &str =
    "The same by a key, whatever it begins with; in front of other words, these are files";

// Why a word is neither a key nor a JSON Pointer.
const NO_ESCAPE: &str = "expected 0 or 1 after each ~";

const NO_SELECTOR: &str = "log_report counts by a key or a JSON Pointer: level, /level; \
     --key takes any key";

const TSV_HELP: &str = "Print tab separated text, with escapes as jq's @tsv";

const VALUES_HELP: &str =
    "How many values have a count of their own; each takes 2 KB of memory [default: 1024]";

const FILES_HELP: &str = "Files to read; standard input where there is none, or for -";

const LONGEST_HELP: &str = "How many bytes a line may have [default: 65536]";

/// What the arguments ask for.
#[derive(Drop)]
pub struct Options<'a> {
    selectors: Vec<Selector<'a>>,
    is_tsv: bool,
    values: u32,
    longest: usize,
    files: Vec<&'a str>,
}

impl<'a> Options<'a> {
    // What was found in the words.
    fn of(
        alloc: Global,
        command: &mut Command<'_>,
        matches: &ArgMatches<'a>,
    ) -> Result<Options<'a>, Error>
        ensures options { IfOk result (HasOptions (found_of matches.now)) }
        ensures selectors { IfOk result (λ asked. list_all is_selector asked.selectors.items
            ≡ true) }
    {
        let longest: Option<u32> = number(alloc, command, matches, "longest", "--longest <BYTES>")?;
        let values = number(alloc, command, matches, "values", "--values <N>")?;
        Ok(Options {
            selectors: selectors(alloc, command, matches)?,
            is_tsv: is_given(matches, "tsv"),
            values: values.unwrap_or(1024),
            longest: longest.unwrap_or(65_536) as usize,
            files: files(alloc, matches)?,
        })
    }

    /// What lines count by, and how the report is written.
    pub fn wanted(&self) -> Wanted<'_>
        ensures selectors { result.selectors.now ≡ self.now.selectors.items }
        ensures rest { (result.is_tsv ≡ self.now.is_tsv) × (result.values ≡ self.now.values)
            × (result.longest ≡ self.now.longest) }
    {
        Wanted {
            selectors: self.selectors.as_slice(),
            is_tsv: self.is_tsv,
            values: self.values,
            longest: self.longest,
        }
    }

    /// The names of the files, of which there is at least one.
    pub fn files(&self) -> &[&'a str]
        ensures { result.now ≡ self.now.files.items }
    {
        self.files.as_slice()
    }
}

/// Returns what the arguments ask for; the first word is the program's name. The error is the text
/// of `--help` or `--version`, or says what is not understood: also a malformed JSON Pointer, and a
/// word that looks like a path of jq or a JSONPath.
pub fn asked<'a>(alloc: Global, words: &'a [String]) -> Result<Options<'a>, Error>
    ensures options { IfOk result (λ asked. (app : App) × (m : ArgMatches)
        × HasMatchesOf app (map string_bytes words.entry.now) m × HasOptions (found_of m) asked) }
    ensures selectors { IfOk result (λ asked. list_all is_selector asked.selectors.items ≡ true) }
{
    let mut command = command(alloc)?;
    let matches = command.try_get_matches_from_mut(words)?;
    Options::of(alloc, &mut command, &matches)
}

// What lines count by: the first word, unless it is a file, and what --and and --key add.
fn selectors<'a>(
    alloc: Global,
    command: &mut Command<'_>,
    matches: &ArgMatches<'a>,
) -> Result<Vec<Selector<'a>>, Error>
    ensures each { IfOk result (λ selectors. AreOf (words_of (found_of matches.now))
        (texts_of (found_of matches.now) (codes "key")) selectors.items) }
    ensures well_formed { IfOk result (λ selectors. list_all is_selector selectors.items ≡ true) }
{
    let mut selectors = Vec::new(alloc);
    push_first(alloc, command, matches, &mut selectors)?;
    push_more(alloc, command, matches, &mut selectors)?;
    Ok(selectors)
}

// Appends the selector of the first word, unless it is a file.
fn push_first<'a>(
    alloc: Global,
    command: &mut Command<'_>,
    matches: &ArgMatches<'a>,
    selectors: &mut Vec<Selector<'a>>,
) -> Result<(), Error>
    ensures each { selectors.old.items ≡ []
        → OnOk result (AreOf (first_words (found_of matches.now)) [] selectors.new.items) }
    ensures well_formed { list_all is_selector selectors.old.items ≡ true
        → OnOk result (list_all is_selector selectors.new.items ≡ true) }
{
    match matches.get_str("word") {
        Some(word) if !begins_with_key(matches) => push_word(alloc, command, word, selectors),
        _ => Ok(()),
    }
}

// Whether --key comes before the first word, which is a file then.
fn begins_with_key(matches: &ArgMatches<'_>) -> bool
    ensures { result ≡ begins_with_key (found_of matches.now) }
{
    match (matches.index_of("key"), matches.index_of("word")) {
        (Some(key), Some(word)) => key < word,
        _ => false,
    }
}

// Appends what --and and --key add, in their order.
fn push_more<'a>(
    alloc: Global,
    command: &mut Command<'_>,
    matches: &ArgMatches<'a>,
    selectors: &mut Vec<Selector<'a>>,
) -> Result<(), Error>
    ensures each { (first : List (List ℕ)) → AreOf first [] selectors.old.items
        → OnOk result (AreOf (first ++ texts_of (found_of matches.now) (codes "and"))
        (texts_of (found_of matches.now) (codes "key")) selectors.new.items) }
    ensures well_formed { list_all is_selector selectors.old.items ≡ true
        → OnOk result (list_all is_selector selectors.new.items ≡ true) }
{
    let (words, keys) = (texts(matches, "and"), texts(matches, "key"));
    let (word_places, key_places) = (places(matches, "and"), places(matches, "key"));
    let (mut taken, mut taken_keys) = (0, 0);
    while taken < words.len() || taken_keys < keys.len() {
        if taken_keys == keys.len()
            || taken < words.len() && word_places.get(taken) < key_places.get(taken_keys)
        {
            push_word(alloc, command, words[taken], selectors)?;
            taken += 1;
        } else {
            selectors.push(Selector::Key(keys[taken_keys]))?;
            taken_keys += 1;
        }
    }
    Ok(())
}

// Appends the selector of a word.
fn push_word<'a>(
    alloc: Global,
    command: &mut Command<'_>,
    word: &'a str,
    selectors: &mut Vec<Selector<'a>>,
) -> Result<(), Error>
    ensures each { (words keys : List (List ℕ)) → AreOf words keys selectors.old.items
        → OnOk result (AreOf (words ++ word.now ∷ []) keys selectors.new.items) }
    ensures well_formed { list_all is_selector selectors.old.items ≡ true
        → OnOk result (list_all is_selector selectors.new.items ≡ true) }
{
    selectors.push(selector(alloc, command, word)?)?;
    Ok(())
}

// The selector of a word, or the error that says what it lacks.
fn selector<'a>(
    alloc: Global,
    command: &mut Command<'_>,
    word: &'a str,
) -> Result<Selector<'a>, Error>
    ensures kinds { FailsBy (selector_faults word.entry) result }
    ensures selector { IfOk result (λ selector. Some selector ≡ selector_of word.entry) }
{
    match Selector::of(word) {
        Ok(selector) => Ok(selector),
        Err(reason) => {
            let error = invalid_value(alloc, command, "<KEY|POINTER>", word, reason)?;
            Err(error)
        }
    }
}

impl<'a> Selector<'a> {
    // The key or the JSON Pointer that a word is, or what it lacks.
    fn of(word: &'a str) -> Result<Selector<'a>, &'static str>
        ensures selector { result_ok result ≡ selector_of word.entry }
        ensures reason { IfErr result (λ reason. reason.now ≡ unread_text word.now) }
    {
        match word.as_bytes() {
            [b'/', ..] if is_pointer(word) => Ok(Selector::Pointer(word)),
            [b'/', ..] => Err(NO_ESCAPE),
            [b'$' | b'.', ..] => Err(NO_SELECTOR),
            _ => Ok(Selector::Key(word)),
        }
    }
}

// Whether it is a JSON Pointer (RFC 6901, section 3). One that begins with `/` is malformed only
// where a `~` is followed by neither `0` nor `1`.
fn is_pointer(text: &str) -> bool
    ensures { result ≡ is_pointer text.now }
{
    let bytes = text.as_bytes();
    if bytes.is_empty() {
        return true;
    }
    if bytes[0] != b'/' {
        return false;
    }
    is_well_formed(bytes)
}

// The names of the files, or that of standard input where there are none. The first word is one
// after --key.
fn files<'a>(alloc: Global, matches: &ArgMatches<'a>) -> Result<Vec<&'a str>, AllocError>
    ensures { IfOk result (λ files. map (λ name. name.now) files.items
        ≡ files_of (found_of matches.now)) }
{
    let mut files = Vec::new(alloc);
    if begins_with_key(matches) {
        files.extend_from_slice(texts(matches, "word"))?;
    }
    files.extend_from_slice(texts(matches, "file"))?;
    if files.is_empty() {
        files.push(STANDARD_INPUT)?;
    }
    Ok(files)
}

// Where among the words the values of an argument are.
fn places<'m>(matches: &'m ArgMatches<'_>, name: &str) -> &'m [usize] {
    matches.indices_of(name).unwrap_or_default()
}

fn command<'a>(alloc: Global) -> Result<Command<'a>, Error> {
    let longest = Arg::new(alloc, "longest")
        .long("longest")
        .value_name("BYTES")
        .value_parser(value_parser!(u32))
        .help(LONGEST_HELP);
    let values = Arg::new(alloc, "values")
        .long("values")
        .value_name("N")
        .value_parser(value_parser!(u32))
        .help(VALUES_HELP);
    let and = Arg::new(alloc, "and")
        .long("and")
        .value_name("KEY|POINTER")
        .action(ArgAction::Append)
        .allow_hyphen_values(true)
        .help(AND_HELP);
    let key = Arg::new(alloc, "key")
        .long("key")
        .value_name("KEY")
        .action(ArgAction::Append)
        .allow_hyphen_values(true)
        .help(KEY_HELP);
    let tsv = Arg::new(alloc, "tsv")
        .long("tsv")
        .action(ArgAction::SetTrue)
        .help(TSV_HELP);
    let word = Arg::new(alloc, "word")
        .value_name("KEY|POINTER")
        .required_unless_present("key")?
        .help(SELECTOR_HELP);
    let files = Arg::new(alloc, "file")
        .value_name("FILE")
        .action(ArgAction::Append)
        .num_args(0..)
        .help(FILES_HELP);
    Ok(
        Command::new(alloc, "log_report")
            .version("0.4.0")
            .about("Counts the lines of JSON Lines by their values at keys or JSON Pointers")
            .arg(and)?
            .arg(key)?
            .arg(tsv)?
            .arg(longest)?
            .arg(values)?
            .arg(word)?
            .arg(files)?,
    )
}
