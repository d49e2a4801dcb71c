//! `typed_log` reads a log of one JSON document a line from standard input into a type of its own,
//! and prints the path and the time of each request that failed. It names a line that is not of the
//! type by its number on standard error, and stops with status 1 if reading, writing or an
//! allocation fails.
#![tactic(auto)]

use anyhow::Result;
use serde::Deserialize;
use simd_json::Buffers;
use simd_json_serde::{Scratch, from_slice_mut_with};
use std::io;
use std::io::{BufRead, BufReader, BufWriter, Read, Write};

// How many bytes a line may have, with its line feed.
const LONGEST: usize = 4096;

#[derive(Drop, Deserialize)]
struct Request<'a> {
    path: &'a str,
    status: u16,
    #[serde(rename = "took_ms")]
    took: Option<f64>,
}

fn main(rt: HostRuntime) -> Result<()> {
    let mut log = BufReader::new(rt.alloc(), rt.reader())?;
    let mut output = BufWriter::new(rt.alloc(), io::writer(&rt))?;
    report(&rt, &mut log, &mut output)?;
    output.flush()?;
    Ok(())
}

// All memory is reserved here: no line takes more, since a request borrows its strings.
fn report(rt: &HostRuntime, log: &mut impl BufRead, output: &mut impl Write) -> Result<()> {
    let mut line = Vec::with_capacity(rt.alloc(), LONGEST)?;
    let mut buffers = Buffers::new(rt.alloc(), 0)?;
    let mut scratch = Scratch::new(rt.alloc());
    buffers.reserve(LONGEST)?;
    scratch.reserve(LONGEST)?;
    for number in 1..u64::MAX {
        let len = next_line(log, &mut line)?;
        if len == 0 {
            break;
        }
        if len > LONGEST {
            let _ = eprintln!(rt; "line {number}: more than {LONGEST} bytes");
            continue;
        }
        if line.trim_ascii().is_empty() {
            continue;
        }
        match from_slice_mut_with::<Request<'_>>(&mut line, &mut buffers, &mut scratch) {
            Ok(request) => write_failure(output, &request)?,
            Err(error) => {
                let _ = eprintln!(rt; "line {number}: {error}");
            }
        }
    }
    Ok(())
}

// Keeps at most `LONGEST` bytes of the next line, and returns how many it has: none at the end.
fn next_line(log: &mut impl BufRead, line: &mut Vec<u8>) -> io::Result<usize> {
    line.clear();
    let kept = log.by_ref().take(LONGEST as u64).read_until(b'\n', line)?;
    if kept < LONGEST || line.ends_with(b"\n") {
        return Ok(kept);
    }
    Ok(kept.saturating_add(log.skip_until(b'\n')?))
}

fn write_failure(output: &mut impl Write, request: &Request<'_>) -> io::Result<()> {
    let Request { path, status, took } = request;
    if *status < 500 {
        return Ok(());
    }
    write!(output, "{status} {path}")?;
    if let Some(took) = took {
        write!(output, " {took} ms")?;
    }
    output.write_all(b"\n")
}
