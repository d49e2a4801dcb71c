//! From a reader's bytes to a writer's, and how that ended: a message and an exit status.
ghost use Rattle.std.specs.Prelude.{◌≡◌, ◌≢◌, ◌↔◌, ◌⊎◌, ◌<◌, ℕ, List, Option, length, true, false};
ghost use Rattle.std.specs.Prelude.{IfOk, IfErr, OnOk, Err, Some};
ghost use Rattle.std.specs.Io.KnownBytes.{Consumes, IsAtEnd, Keeps};
ghost use Rattle.jtape.specs.Failures.{exit_status_of, answer_status};
ghost use Rattle.jtape.specs.Runs.{HasRun, HasBegun, HasStopped, OnAnswer, lacks_memory};
ghost use Rattle.simd_json_parts.specs.Faults.{whole_fault};
ghost use Rattle.simd_json_parts.specs.declared.error.ErrorType.{ErrorType};
ghost use Rattle.jtape.specs.declared.runs.RunFault.TheVariants as faults;
ghost use Rattle.jtape.specs.declared.words.Mode.TheVariants as modes;

use crate::output::write_output;
use crate::stream::write_stream;
use crate::words::Mode;
use programs::{Channel, read_all};
use simd_json::Error;
use std::alloc::{AllocError, Allocator};
use std::fmt;
use std::io::{Read, Write};
use std::marker::Model;

/// A reader or a writer for [`run`] that records whether a call on it failed and whether it ended.
/// Only the run's own calls set these flags, [`failed`](Port::failed), [`closed`](Port::closed) and
/// [`ended`](Port::ended).
#[derive(Drop)]
pub struct Port<T> {
    pub(crate) channel: Channel<T>,
}

impl<T> Model for Port<T> {
    ghost use Rattle.programs.specs.Ports.{Watched};

    ghost Value = { Watched T };

    ghost view = { λ port. port.channel };
}

impl<T> Port<T> {
    /// A port that has neither failed nor ended.
    pub fn new(inner: T) -> Port<T>
        ensures { result ≡ record { inner = inner; failed = false; closed = false; ended = false } }
    {
        Port {
            channel: Channel::new(inner),
        }
    }

    /// Whether a read or a write through the port returned an error, or a write wrote 0 bytes of a
    /// non-empty buffer.
    pub fn failed(&self) -> bool
        ensures { result ≡ self.now.failed }
    {
        self.channel.failed()
    }

    /// Whether a write returned an error of kind `BrokenPipe`: who reads the output has had enough.
    pub fn closed(&self) -> bool
        ensures { result ≡ self.now.closed }
    {
        self.channel.closed()
    }

    /// Whether a read into a non-empty buffer returned 0.
    pub fn ended(&self) -> bool
        ensures { result ≡ self.now.ended }
    {
        self.channel.ended()
    }

    /// The reader or the writer.
    pub fn into_inner(self) -> T
        ensures { result ≡ self.inner }
    {
        self.channel.into_inner()
    }
}

/// What a run returns. `Ok(false)`: in mode `Lines` some lines were rejected, and the others
/// printed. A mode of one document returns `Ok(true)`, or its error.
pub type Answer = Result<bool, RunFault>;

/// Why a run wrote less than all of its output.
#[derive(Debug, Drop, PartialEq)]
pub enum RunFault {
    /// The input was rejected, or an allocation failed.
    Refused(Error),
    /// The reader failed.
    Read,
    /// The writer failed.
    Write,
}

impl From<Error> for RunFault {
    ghost use Rattle.jtape.specs.declared.runs.RunFault.TheVariants.{Refused};

    ghost from_gives = { λ e fault. fault ≡ Refused e };

    fn from(e: Error) -> RunFault {
        RunFault::Refused(e)
    }
}

impl From<AllocError> for RunFault {
    ghost use Rattle.jtape.specs.declared.runs.RunFault.TheVariants.{Refused};

    ghost from_gives = { λ _ fault. fault ≡ Refused (whole_fault ErrorType.OutOfMemory) };

    fn from(failed: AllocError) -> RunFault {
        RunFault::Refused(Error::from(failed))
    }
}

impl From<programs::Failure> for RunFault {
    ghost use Rattle.jtape.specs.Runs.{run_fault};

    ghost from_gives = { λ failure fault. fault ≡ run_fault failure };

    fn from(failure: programs::Failure) -> RunFault {
        match failure {
            programs::Failure::Read => RunFault::Read,
            _ => RunFault::from(AllocError),
        }
    }
}

impl fmt::Display for RunFault {
    ghost use Rattle.jtape.specs.Failures.{fault_text};

    ghost output = { λ fault. Some (fault_text fault) };

    fn fmt<W: fmt::Write>(&self, f: &mut fmt::Formatter<W>) -> fmt::Result {
        match self {
            RunFault::Refused(e) => write!(f, "{e}"),
            RunFault::Read => f.write_str("reading failed"),
            RunFault::Write => f.write_str("writing failed"),
        }
    }
}

/// Why the program fails. It displays as the line for standard error.
#[derive(Debug, Drop, PartialEq)]
pub enum Failure {
    /// The arguments can't be read, or are not understood.
    Usage,
    /// The run failed.
    Run(RunFault),
}

impl From<RunFault> for Failure {
    ghost use Rattle.jtape.specs.declared.runs.Failure.TheVariants.{Run};

    ghost from_gives = { λ fault failure. failure ≡ Run fault };

    fn from(fault: RunFault) -> Failure {
        Failure::Run(fault)
    }
}

impl fmt::Display for Failure {
    ghost use Rattle.jtape.specs.Failures.{failure_text};

    ghost output = { λ failure. Some (failure_text failure) };

    fn fmt<W: fmt::Write>(&self, f: &mut fmt::Formatter<W>) -> fmt::Result {
        match self {
            Failure::Usage => f.write_str("usage: jtape MODE [DEPTH]"),
            Failure::Run(fault) => write!(f, "{fault}"),
        }
    }
}

/// The exit status of a run: 0 if all was printed, 1 if an input was rejected or an allocation
/// failed, 3 if the reader or the writer failed.
pub fn status(answer: &Answer) -> u8
    ensures { result ≡ answer_status answer.now }
{
    match answer {
        Ok(true) => 0,
        Ok(false) | Err(RunFault::Refused(_)) => 1,
        Err(RunFault::Read | RunFault::Write) => 3,
    }
}

/// The status that the program ends with: that of its run, or 2 where there was none.
pub fn exit_status(ended: Result<bool, Failure>) -> u8
    ensures { result ≡ exit_status_of ended }
{
    match ended {
        Ok(all) => status(&Ok(all)),
        Err(Failure::Usage) => 2,
        Err(Failure::Run(fault)) => status(&Err(fault)),
    }
}

/// Reads to the reader's end, and writes the document in the form of the mode. At most `depth`
/// containers may be open at a time. Output and result are a function of mode, depth limit and
/// input, unless an allocation (`OutOfMemory`), the reader (`Read`) or the writer (`Write`) fails.
///
/// Nothing is written before the reader's port has ended, nor if the input is rejected, nor after
/// `OutOfMemory` or `Read`; after `Write` a prefix of the output was written. Returns `Read`
/// exactly if the reader's port has failed, and `Write` exactly if the writer's has.
///
/// In mode `Lines` each line is a document of its own, or blank. For a rejected one its error is
/// printed; reading continues, and `Ok(false)` is returned. If an allocation fails at a line, the
/// text of all lines before it was written, and nothing else.
///
/// ```
/// use jtape::{Mode, Port, run, status};
///
/// fn pretty(rt: &impl AllocGlobal, json: &[u8]) -> (u8, Vec<u8>) {
///     let mut reader = Port::new(json);
///     let mut writer = Port::new(Vec::new(rt.alloc()));
///     let answer = run(rt.alloc(), Mode::Pretty, 1024, &mut reader, &mut writer);
///     (status(&answer), writer.into_inner())
/// }
/// ```
#[tactic(auto, using(crate::proofs::Outputs::one_document, crate::proofs::Outputs::read_faults))]
pub fn run<A: Allocator + Copy, R: Read, W: Write>(
    a: A,
    mode: Mode,
    depth: usize,
    reader: &mut Port<R>,
    writer: &mut Port<W>,
) -> Answer
    requires reader { (reader.old.failed ≡ false) × (reader.old.ended ≡ false) }
    requires writer { (writer.old.failed ≡ false) × (writer.old.ended ≡ false) }
    ensures output { OnAnswer result ((reader.new.ended ≡ true)
        × HasRun mode depth (R.remaining reader.old.inner) (R.remaining reader.new.inner)
        (W.contents writer.old.inner) (W.contents writer.new.inner) result) }
    ensures silent { mode ≢ modes.Lines → IfErr result (λ fault. fault ≢ faults.Write
        → Keeps (W.contents writer.old.inner) (W.contents writer.new.inner)) }
    ensures unread { result ≡ Err faults.Read
        → Keeps (W.contents writer.old.inner) (W.contents writer.new.inner) }
    ensures stopped { mode ≡ modes.Lines → result ≡ Err lacks_memory
        → Keeps (W.contents writer.old.inner) (W.contents writer.new.inner)
        ⊎ ((reader.new.ended ≡ true)
        × HasStopped depth (R.remaining reader.old.inner) (R.remaining reader.new.inner)
        (W.contents writer.old.inner) (W.contents writer.new.inner)) }
    ensures begun { result ≡ Err faults.Write → (reader.new.ended ≡ true)
        × HasBegun mode depth (R.remaining reader.old.inner) (R.remaining reader.new.inner)
        (W.contents writer.old.inner) (W.contents writer.new.inner) }
    ensures read { (result ≡ Err faults.Read) ↔ (reader.new.failed ≡ true) }
    ensures write { (result ≡ Err faults.Write) ↔ (writer.new.failed ≡ true) }
{
    let mut input = read_all(a, &mut reader.channel)?;
    match mode {
        Mode::Lines => write_stream(a, depth, input.as_mut_slice(), &mut writer.channel),
        _ => {
            write_output(a, mode, depth, input.as_mut_slice(), &mut writer.channel)?;
            Ok(true)
        }
    }
}
