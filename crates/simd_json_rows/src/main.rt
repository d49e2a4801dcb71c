//! `simd_json_rows` reads rows of worked inputs from standard input and prints each with the result
//! that it finds, so a file of rows is right where it comes out unchanged. CONTRIBUTING has the
//! form of a row.
#![tactic(auto)]

mod bytes;
mod doors;
mod listing;
mod paths;
mod pointers;
mod printing;
mod rows;

use anyhow::Result;
use rows::Rows;
use std::io;
use std::io::{BufRead, BufReader, BufWriter, Write};
use std::process::ExitCode;

fn main(rt: HostRuntime) -> ExitCode {
    match program(&rt) {
        Ok(()) => ExitCode::SUCCESS,
        Err(error) => {
            let _ = eprintln!(rt; "{error}");
            ExitCode::from(3)
        }
    }
}

fn program(rt: &HostRuntime) -> Result<()> {
    let mut lines = BufReader::new(rt.alloc(), rt.reader())?;
    let mut output = BufWriter::new(rt.alloc(), io::writer(rt))?;
    let mut rows = Rows::new(rt.alloc())?;
    let mut line = String::new(rt.alloc());
    for _ in 0..u64::MAX {
        line.clear();
        if lines.read_line(&mut line)? == 0 {
            break;
        }
        let found = rows.answered(line.as_str().trim_end_matches('\n'))?;
        output.write_all(found.as_bytes())?;
        output.write_all(b"\n")?;
    }
    output.flush()?;
    Ok(())
}
