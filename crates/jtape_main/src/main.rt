//! `jtape MODE [DEPTH]` reads one JSON document from standard input, or JSON Lines, and prints it
//! in the form of the mode. The library `jtape` does all but this: it takes the arguments from the
//! host, and gives the host the line on standard error and the status.
#![tactic(auto)]

use jtape::{Failure, Port, exit_status, requested, run};
use std::process::ExitCode;
use std::{env, io};

fn main(rt: HostRuntime) -> ExitCode {
    let mut reader = Port::new(rt.reader());
    let mut writer = Port::new(io::writer(&rt));
    let arguments = env::args(&rt).and_then(|words| Ok(words.collect(rt.alloc())?));
    let ended = match requested(arguments) {
        Ok((mode, depth)) => run(rt.alloc(), mode, depth, &mut reader, &mut writer).map_err(
            |fault| Failure::Run(fault),
        ),
        Err(failure) => Err(failure),
    };
    // Who has closed the output has had enough of it.
    if let Err(failure) = &ended
        && !writer.closed()
    {
        let _ = eprintln!(rt; "{failure}");
    }
    ExitCode::from(exit_status(ended))
}
