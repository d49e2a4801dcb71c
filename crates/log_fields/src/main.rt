//! `log_fields KEY ..` reads JSON Lines from standard input and prints for each line the values of
//! these keys, as they are written: a tab between two, and `-` for a key that is not there.
//!
//! A line is checked only where it is read. After a token that is not expected there, the rest of
//! the line's values are `-` too, and the place is reported on standard error. The program
//! stops with status 3 at a line of more than 65,536 bytes, at one that is not UTF-8 or leaves a
//! string open, and if reading, writing or an allocation fails.
#![tactic(auto)]

use anyhow::{Result, bail};
use memchr::memchr;
use simd_json_ondemand::{Document, ErrorType, Expected, Index, Unexpected, Value};
use std::io::{BufRead, BufReader, BufWriter, Write};
use std::process::ExitCode;
use std::{env, io};

const LONGEST: usize = 65_536;

fn main(rt: HostRuntime) -> ExitCode {
    match program(&rt) {
        Ok(()) => ExitCode::SUCCESS,
        Err(error) => {
            let _ = eprintln!(rt; "{error}");
            ExitCode::from(3)
        }
    }
}

fn program(rt: &HostRuntime) -> Result<()> {
    let words: Vec<String> = env::args(rt)?.collect(rt.alloc())?;
    let mut input = BufReader::new(rt.alloc(), rt.reader())?;
    let mut output = BufWriter::new(rt.alloc(), io::writer(rt))?;
    let mut index = Index::new(rt.alloc(), LONGEST)?;
    let mut line = Vec::with_capacity(rt.alloc(), LONGEST)?;
    for number in 1..u64::MAX {
        if !read_line(&mut input, &mut line)? {
            break;
        }
        match Document::scan(&mut index, line.as_slice()) {
            Ok(document) => {
                let stopped = print_fields(&mut output, document.as_value(), &words)?;
                if let Some(unexpected) = stopped {
                    let _ = eprintln!(rt; "line {number}: {unexpected}");
                }
            }
            Err(error) if *error.error() == ErrorType::Eof => {}
            Err(error) => return Err(error.into()),
        }
    }
    output.flush()?;
    Ok(())
}

// Prints the fields of a line. Returns where the line was read no further.
fn print_fields(
    output: &mut impl Write,
    line: Value<'_>,
    words: &[String],
) -> Result<Option<Unexpected>> {
    let mut stopped = None;
    let mut separator: &[u8] = b"";
    for key in words.iter().skip(1) {
        output.write_all(separator)?;
        separator = b"\t";
        let mut written: &[u8] = b"-";
        if stopped.is_none() {
            match field(line, key.as_str()) {
                Ok(Some(value)) => written = value,
                Ok(None) => {}
                Err(unexpected) => stopped = Some(unexpected),
            }
        }
        output.write_all(written)?;
    }
    output.write_all(b"\n")?;
    Ok(stopped)
}

// The value of a key, as it is written.
fn field<'d>(line: Value<'d>, key: &str) -> std::result::Result<Option<&'d [u8]>, Unexpected> {
    match line.try_get(key)? {
        Some(value) => match value.raw() {
            Some(bytes) => Ok(Some(bytes)),
            None => Err(value.unexpected(Expected::Value)),
        },
        None => Ok(None),
    }
}

// Reads a line without its line feed. Returns whether there is one.
fn read_line(input: &mut impl BufRead, line: &mut Vec<u8>) -> Result<bool> {
    line.clear();
    for _ in 0..u64::MAX {
        let block = input.fill_buf()?;
        if block.is_empty() {
            return Ok(!line.is_empty());
        }
        let end = memchr(b'\n', block);
        let piece = &block[..end.unwrap_or(block.len())];
        if piece.len() > LONGEST.saturating_sub(line.len()) {
            bail!("a line has more than {LONGEST} bytes");
        }
        line.extend_from_slice(piece)?;
        let used = piece.len() + usize::from(end.is_some());
        input.consume(used);
        if end.is_some() {
            return Ok(true);
        }
    }
    Ok(false)
}
