// Readers and writers that fail, in each mode.
use crate::tests::{ALL, OF_DOCUMENTS, Ran, Tested, run_from, run_over};
use jtape::{Mode, RunFault, status};
use simd_json::DEFAULT_MAX_DEPTH;
use std::io::{self, Read, Write};
use std::process::Abort;

// Gives its bytes one at a time, and fails after them if it is asked to.
#[derive(Drop)]
pub(super) struct Slow<'a> {
    pub(super) rest: &'a [u8],
    pub(super) fails: bool,
}

impl Read for Slow<'_> {
    fn read(&mut self, buf: &mut [u8]) -> io::Result<usize> {
        if buf.is_empty() {
            return Ok(0);
        }
        if self.rest.is_empty() && self.fails {
            return Err(io::Error::from(io::ErrorKind::Interrupted));
        }
        match self.rest.split_first() {
            Some((byte, rest)) => {
                buf[0] = *byte;
                self.rest = rest;
                Ok(1)
            }
            None => Ok(0),
        }
    }
}

// The reader failed, and nothing was written.
fn assert_unread<R: Read + Drop>(rt: &impl Abort, ran: Ran<R, Vec<u8>>) -> R {
    assert_eq!(rt; status(&ran.answer), 3);
    assert_eq!(rt; ran.answer, Err(RunFault::Read));
    assert!(rt; ran.reader.failed() && !ran.reader.ended());
    assert_eq!(rt; ran.writer.into_inner().len(), 0);
    ran.reader.into_inner()
}

// A document before the error is not taken for the whole input.
#[test]
fn failing_readers_print_nothing(rt: HostRuntime) {
    let rows: [&[u8]; 3] = [b"", b"[1,", b"[1]"];
    for rest in rows {
        for mode in ALL {
            let (reader, writer) = (Slow { rest, fails: true }, Vec::new(rt.alloc()));
            let ran = run_from(rt.alloc(), mode, DEFAULT_MAX_DEPTH, reader, writer);
            assert_unread(&rt, ran);
        }
    }
}

// Is interrupted at its second call, and then continues.
#[derive(Drop)]
struct Interrupted<'a> {
    rest: &'a [u8],
    calls: usize,
}

impl Read for Interrupted<'_> {
    fn read(&mut self, buf: &mut [u8]) -> io::Result<usize> {
        self.calls = self.calls.saturating_add(1);
        if self.calls == 2 {
            return Err(io::Error::from(io::ErrorKind::Interrupted));
        }
        match self.rest.split_first() {
            Some((byte, rest)) if !buf.is_empty() => {
                buf[0] = *byte;
                self.rest = rest;
                Ok(1)
            }
            _ => Ok(0),
        }
    }
}

// No read follows one that was interrupted, though it would succeed.
#[test]
fn interrupted_reads_end_the_run(rt: HostRuntime) {
    for mode in ALL {
        let reader = Interrupted {
            rest: b"[1]",
            calls: 0,
        };
        let writer = Vec::new(rt.alloc());
        let ran = run_from(rt.alloc(), mode, DEFAULT_MAX_DEPTH, reader, writer);
        assert_eq!(rt; assert_unread(&rt, ran).calls, 2);
    }
}

// Takes at most three bytes a call. After a number of calls it takes none, or fails.
#[derive(Drop)]
struct Full {
    taken: Vec<u8>,
    calls: usize,
    good_calls: usize,
    fails: bool,
}

impl Write for Full {
    fn write(&mut self, buf: &[u8]) -> io::Result<usize> {
        self.calls = self.calls.saturating_add(1);
        if self.calls > self.good_calls {
            return if self.fails {
                Err(io::Error::from(io::ErrorKind::Interrupted))
            } else {
                Ok(0)
            };
        }
        let piece = &buf[..buf.len().min(3)];
        self.taken.extend_from_slice(piece)?;
        Ok(piece.len())
    }

    fn flush(&mut self) -> io::Result<()> {
        Ok(())
    }
}

// A run over `[1,2]`, a byte a read, into such a writer. What it took is a beginning of the output,
// three bytes a call. Where it failed, it is called no more.
fn assert_begun(
    rt: &(impl AllocGlobal + Abort),
    mode: Mode,
    good_calls: usize,
    fails: bool,
    output: &[u8],
) {
    let reader = Slow {
        rest: b"[1,2]",
        fails: false,
    };
    let writer = Full {
        taken: Vec::new(rt.alloc()),
        calls: 0,
        good_calls,
        fails,
    };
    let ran = run_from(rt.alloc(), mode, DEFAULT_MAX_DEPTH, reader, writer);
    let needed = output.len().div_ceil(3);
    let is_whole = good_calls >= needed;
    assert!(rt; ran.reader.ended() && !ran.reader.failed());
    assert_eq!(rt; ran.writer.failed(), !is_whole);
    assert_eq!(rt; status(&ran.answer), if is_whole { 0 } else { 3 });
    assert_eq!(rt;
        ran.answer,
        if is_whole {
            Ok(true)
        } else {
            Err(RunFault::Write)
        }
    );
    let writer = ran.writer.into_inner();
    assert_eq!(rt; writer.calls, needed.min(good_calls.saturating_add(1)));
    let taken = output.len().min(good_calls.saturating_mul(3));
    assert_eq!(rt; Some(writer.taken.as_slice()), output.get(..taken));
}

// The writer fails at each of its calls in turn, and then at none.
#[test]
fn failing_writers_are_reported(rt: HostRuntime) {
    let rows: [(Mode, &[u8]); 5] = [
        (Mode::Tape, b"Array 2 2\nU64 1\nU64 2\n"),
        (Mode::Positions, b"0\n1\n2\n3\n4\n"),
        (Mode::Compact, b"[1,2]\n"),
        (Mode::Pretty, b"[\n  1,\n  2\n]\n"),
        (Mode::Lines, b"[1,2]\n"),
    ];
    for (mode, output) in rows {
        for good_calls in 0..=output.len().div_ceil(3) {
            assert_begun(&rt, mode, good_calls, false, output);
            assert_begun(&rt, mode, good_calls, true, output);
        }
    }
}

// Takes a number of bytes in all, and then none.
#[derive(Drop)]
struct Short {
    taken: Vec<u8>,
    room: usize,
}

impl Write for Short {
    fn write(&mut self, buf: &[u8]) -> io::Result<usize> {
        let piece = &buf[..buf.len().min(self.room)];
        self.taken.extend_from_slice(piece)?;
        self.room -= piece.len();
        Ok(piece.len())
    }

    fn flush(&mut self) -> io::Result<()> {
        Ok(())
    }
}

// What a run over the input returned, and what a writer of so much room took of it.
fn run_into<'b>(
    rt: &impl AllocGlobal,
    mode: Mode,
    input: &'b [u8],
    room: usize,
) -> Ran<&'b [u8], Short> {
    let writer = Short {
        taken: Vec::new(rt.alloc()),
        room,
    };
    run_from(rt.alloc(), mode, DEFAULT_MAX_DEPTH, input, writer)
}

// A writer that is full in the midst of a large output has a beginning of it.
#[test]
fn large_outputs_are_begun(rt: HostRuntime) -> Tested {
    let mut input = Vec::from_slice(rt.alloc(), b"[0")?;
    for _ in 0..40_000 {
        input.extend_from_slice(b",\"abc\"")?;
    }
    input.push(b']')?;
    for mode in OF_DOCUMENTS {
        let ran = run_over(&rt, mode, DEFAULT_MAX_DEPTH, input.as_slice());
        let whole = ran.writer.into_inner();
        for room in [0, 1, 65_535, 65_536, 65_537, 200_000, whole.len()] {
            let ran = run_into(&rt, mode, input.as_slice(), room);
            assert_eq!(rt; ran.answer.is_ok(), room == whole.len());
            assert_eq!(rt; ran.writer.failed(), ran.answer.is_err());
            let taken = ran.writer.into_inner().taken;
            assert_eq!(rt; Some(taken.as_slice()), whole.as_slice().get(..room));
        }
    }
    Ok(())
}

// One string of 1.2 MB, and a writer that is full after 1 MB.
#[test]
fn a_megabyte_is_written_of_more(rt: HostRuntime) -> Tested {
    let mut input = Vec::from_slice(rt.alloc(), b"\"")?;
    input.resize(1_200_000, b'a')?;
    input.push(b'"')?;
    for mode in [Mode::Tape, Mode::Compact, Mode::Pretty, Mode::Lines] {
        let ran = run_into(&rt, mode, input.as_slice(), 1_000_000);
        assert_eq!(rt; ran.answer, Err(RunFault::Write));
        assert!(rt; ran.writer.failed() && !ran.reader.failed());
        assert_eq!(rt; ran.writer.into_inner().taken.len(), 1_000_000);
    }
    Ok(())
}
