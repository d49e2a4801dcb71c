//! What each way to parse an input returns.
use crate::listing;
use crate::printing::assert_read_again;
use anyhow::{Result, bail};
use simd_json::{
    Buffers, DEFAULT_MAX_DEPTH, Deserializer, Error, INPUT_PADDING, Tape, fill_tape,
    fill_tape_padded, refill_tape, to_tape, to_tape_with_buffers,
};
use simd_json_check::{Location, locate};
use std::alloc::Global;

// The result of one way, and after it those that differ.
#[derive(Drop)]
struct Answer {
    alloc: Global,
    first: String,
    differing: String,
}

impl Answer {
    fn compare(&mut self, way: &str, found: String) -> Result<()> {
        if found != self.first {
            let differing = format!(in self.alloc; "; {way}: {found}")?;
            self.differing.push_str(differing.as_str())?;
        }
        Ok(())
    }

    fn joined(self) -> Result<String> {
        let Answer {
            alloc: _,
            first,
            differing,
        } = self;
        let mut joined = first;
        joined.push_str(differing.as_str())?;
        Ok(joined)
    }
}

/// The tape of an input or its error, and what the ways return that differ. `used` has the same
/// limit.
pub fn parse(alloc: Global, used: &mut Buffers, input: &[u8], limit: usize) -> Result<String> {
    let mut new = Buffers::empty(alloc, limit);
    let first = with_buffers(alloc, input, &mut new)?;
    let located = located_error(alloc, input, limit, first.as_str())?;
    let mut answer = Answer {
        alloc,
        first,
        differing: String::new(alloc),
    };
    answer.compare("locate", located)?;
    answer.compare("used buffers", with_buffers(alloc, input, used)?)?;
    answer.compare("fill_tape", filled(alloc, input, used)?)?;
    answer.compare("refill_tape", refilled(alloc, input, used)?)?;
    answer.compare("padded", padded_with_quotes(alloc, input, used)?)?;
    answer.compare("steps", stepped_with_buffers(alloc, input, used)?)?;
    assert_read_again(alloc, input, limit)?;
    if limit == DEFAULT_MAX_DEPTH {
        answer.compare("to_tape", with_defaults(alloc, input)?)?;
        answer.compare("steps of from_slice", stepped(alloc, input)?)?;
    }
    answer.joined()
}

fn listed(alloc: Global, parsed: &std::result::Result<Tape<'_>, Error>) -> Result<String> {
    match parsed {
        Ok(tape) => listing::nodes(alloc, tape.nodes()),
        Err(error) => listing::error(alloc, error),
    }
}

fn filled_with(
    alloc: Global,
    parsed: std::result::Result<(), Error>,
    tape: &Tape<'_>,
) -> Result<String> {
    match parsed {
        Ok(()) => listing::nodes(alloc, tape.nodes()),
        Err(error) if tape.is_empty() => listing::error(alloc, &error),
        Err(_) => bail!("nodes are left after an error"),
    }
}

fn with_buffers(alloc: Global, input: &[u8], buffers: &mut Buffers) -> Result<String> {
    let mut copy = Vec::from_slice(alloc, input)?;
    listed(alloc, &to_tape_with_buffers(copy.as_mut_slice(), buffers))
}

// An error of the whole input leaves its bytes as they were.
fn with_defaults(alloc: Global, input: &[u8]) -> Result<String> {
    let mut copy = Vec::from_slice(alloc, input)?;
    let (text, is_of_whole_input) = match to_tape(alloc, copy.as_mut_slice()) {
        Ok(tape) => (listing::nodes(alloc, tape.nodes())?, false),
        Err(error) => (listing::error(alloc, &error)?, error.character().is_none()),
    };
    if is_of_whole_input && copy.as_slice() != input {
        bail!("an input with an error of the whole is written to");
    }
    Ok(text)
}

// Over a tape of another document.
fn filled(alloc: Global, input: &[u8], buffers: &mut Buffers) -> Result<String> {
    let mut other = *b"7";
    let mut copy = Vec::from_slice(alloc, input)?;
    let mut tape = Tape::null(alloc)?;
    fill_tape(&mut other, buffers, &mut tape)?;
    let parsed = fill_tape(copy.as_mut_slice(), buffers, &mut tape);
    filled_with(alloc, parsed, &tape)
}

fn refilled(alloc: Global, input: &[u8], buffers: &mut Buffers) -> Result<String> {
    let mut copy = Vec::from_slice(alloc, input)?;
    let (parsed, tape) = refill_tape(copy.as_mut_slice(), buffers, Tape::null(alloc)?);
    filled_with(alloc, parsed, &tape)
}

// A quote would continue a document that it was taken for a part of.
fn padded_with_quotes(alloc: Global, input: &[u8], buffers: &mut Buffers) -> Result<String> {
    let mut copy = Vec::from_slice(alloc, input)?;
    copy.resize(input.len().saturating_add(INPUT_PADDING), b'"')?;
    padded(alloc, buffers, copy.as_slice(), input.len())
}

/// The tape of the first `len` bytes. Those after them stay as they are.
pub fn padded(alloc: Global, buffers: &mut Buffers, input: &[u8], len: usize) -> Result<String> {
    let mut copy = Vec::from_slice(alloc, input)?;
    let mut tape = Tape::null(alloc)?;
    let parsed = fill_tape_padded(copy.as_mut_slice(), len, buffers, &mut tape);
    let text = filled_with(alloc, parsed, &tape)?;
    drop(tape);
    if copy.get(len..) != input.get(len..) {
        bail!("padding is written to");
    }
    Ok(text)
}

fn stepped_with_buffers(alloc: Global, input: &[u8], buffers: &mut Buffers) -> Result<String> {
    let mut copy = Vec::from_slice(alloc, input)?;
    steps(
        alloc,
        Deserializer::from_slice_with_buffers(copy.as_mut_slice(), buffers),
    )
}

fn stepped(alloc: Global, input: &[u8]) -> Result<String> {
    let mut copy = Vec::from_slice(alloc, input)?;
    steps(alloc, Deserializer::from_slice(alloc, copy.as_mut_slice()))
}

// The nodes one after another; a document has no more of them than bytes.
fn steps(alloc: Global, parsed: std::result::Result<Deserializer<'_>, Error>) -> Result<String> {
    let mut steps = match parsed {
        Ok(steps) => steps,
        Err(error) => return listing::error(alloc, &error),
    };
    let mut nodes = Vec::new(alloc);
    for _ in 0..u64::MAX {
        if steps.is_at_end() {
            break;
        }
        nodes.push(steps.next_())?;
    }
    listing::nodes(alloc, nodes.as_slice())
}

// The error that is located, or the tape of a document.
fn located_error(alloc: Global, input: &[u8], limit: usize, tape: &str) -> Result<String> {
    match locate(alloc, input, limit)? {
        Some(location) => listing::error(alloc, location.error()),
        None => Ok(tape.to_string(alloc)?),
    }
}

/// At which byte an error is, and what is printed of it.
pub fn located(alloc: Global, input: &[u8], limit: usize) -> Result<String> {
    let mut copy = Vec::from_slice(alloc, input)?;
    let mut buffers = Buffers::empty(alloc, limit);
    let parsed = to_tape_with_buffers(copy.as_mut_slice(), &mut buffers).err();
    let parsed = match parsed {
        Some(error) => Some(Location::new(input, error)),
        None => None,
    };
    let location = locate(alloc, input, limit)?;
    if location != parsed {
        bail!("locate returns the place of another error");
    }
    match location {
        Some(location) => {
            let byte = location.byte();
            Ok(format!(in alloc; "{byte} {location}")?)
        }
        None => Ok("none".to_string(alloc)?),
    }
}

/// The structural indexes after a parse.
pub fn indexes(alloc: Global, input: &[u8], limit: usize) -> Result<String> {
    let mut copy = Vec::from_slice(alloc, input)?;
    let mut buffers = Buffers::empty(alloc, limit);
    let _ = to_tape_with_buffers(copy.as_mut_slice(), &mut buffers);
    let mut line = String::new(alloc);
    for index in buffers.structural_indexes() {
        let before = if line.is_empty() { "" } else { " " };
        line.push_str(format!(in alloc; "{before}{index}")?.as_str())?;
    }
    if line.is_empty() {
        line.push_str("none")?;
    }
    Ok(line)
}
