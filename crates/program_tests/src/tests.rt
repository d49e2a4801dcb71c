//! By the program whose library they test; here are the readers and writers that they share.
use linked_list_allocator::LocalHeap;
use programs::Channel;
use std::alloc::Global;
use std::io::{self, ErrorKind, Read, Write};
use std::test::Fail;

mod checks;
mod counts;
mod lines;
mod options;
mod picks;
mod sorted;

type Tested = std::result::Result<(), Fail>;

// Gives its bytes a few at a time, and then ends or fails so.
#[derive(Drop)]
struct Blocks<'a> {
    rest: &'a [u8],
    size: usize,
    fault: Option<ErrorKind>,
}

impl Read for Blocks<'_> {
    fn read(&mut self, buf: &mut [u8]) -> io::Result<usize> {
        let count = self.rest.len().min(self.size).min(buf.len());
        if let Some(kind) = self.fault
            && count == 0
            && !buf.is_empty()
        {
            return Err(io::Error::from(kind));
        }
        let (block, rest) = self.rest.split_at(count);
        buf[..count].copy_from_slice(block);
        self.rest = rest;
        Ok(count)
    }
}

fn in_blocks(rest: &[u8], size: usize) -> Blocks<'_> {
    Blocks {
        rest,
        size,
        fault: None,
    }
}

// Fails with `Interrupted` at each call but every third, which is the reader's or the writer's.
#[derive(Drop)]
struct Interrupted<T> {
    inner: T,
    calls: usize,
}

impl<T> Interrupted<T> {
    fn call(&mut self) -> io::Result<()> {
        self.calls = self.calls.wrapping_add(1);
        match self.calls % 3 {
            0 => Ok(()),
            _ => Err(io::Error::from(ErrorKind::Interrupted)),
        }
    }
}

impl<R: Read> Read for Interrupted<R> {
    fn read(&mut self, buf: &mut [u8]) -> io::Result<usize> {
        self.call()?;
        self.inner.read(buf)
    }
}

impl<W: Write> Write for Interrupted<W> {
    fn write(&mut self, buf: &[u8]) -> io::Result<usize> {
        self.call()?;
        self.inner.write(buf)
    }

    fn flush(&mut self) -> io::Result<()> {
        Ok(())
    }
}

// Takes a byte a call, up to one call that takes none or fails so; each later one takes all that it
// is given.
#[derive(Drop)]
struct Full {
    taken: Vec<u8>,
    calls: usize,
    good_calls: usize,
    fault: Option<ErrorKind>,
}

impl Write for Full {
    fn write(&mut self, buf: &[u8]) -> io::Result<usize> {
        let call = self.calls;
        self.calls += 1;
        if call == self.good_calls {
            return match self.fault {
                Some(kind) => Err(io::Error::from(kind)),
                None => Ok(0),
            };
        }
        let most = if call < self.good_calls { 1 } else { buf.len() };
        let piece = &buf[..buf.len().min(most)];
        self.taken.extend_from_slice(piece)?;
        Ok(piece.len())
    }

    fn flush(&mut self) -> io::Result<()> {
        Ok(())
    }
}

fn failing(alloc: Global, good_calls: usize, fault: Option<ErrorKind>) -> Channel<Full> {
    Channel::new(Full {
        taken: Vec::new(alloc),
        calls: 0,
        good_calls,
        fault,
    })
}

// How a writer fails.
const FAULTS: [Option<ErrorKind>; 3] = [
    None,
    Some(ErrorKind::Interrupted),
    Some(ErrorKind::BrokenPipe),
];

// Reads its bytes, and at its first read takes all that is free in the heap.
#[derive(Drop)]
struct Hungry<'h> {
    rest: &'h [u8],
    heap: &'h LocalHeap,
    pieces: Vec<Vec<u8, &'h LocalHeap>>,
}

impl Read for Hungry<'_> {
    fn read(&mut self, buf: &mut [u8]) -> io::Result<usize> {
        for shift in 0..20u32 {
            for _ in 0..16 {
                if let Ok(piece) = Vec::with_capacity(self.heap, 1_048_576usize >> shift) {
                    self.pieces.push(piece)?;
                }
            }
        }
        self.rest.read(buf)
    }
}

// Lines with documents, rejected lines, and lines that are longer than 4,096 bytes.
fn many_lines(alloc: Global) -> std::result::Result<Vec<u8>, Fail> {
    let mut lines = Vec::new(alloc);
    for value in 0..1500 {
        writeln!(lines, "{{\"a\":[[\"\\n\"]],\"k\":\"{value}\"}}")?;
        lines.extend_from_slice(b"[1,]\n\xff\n[[[[[[[[[[[[[[[[[[[[[[[[[[[[[[[[[[\n")?;
        writeln!(lines, "{{\"k\":\"{value:>2000}\"}}")?;
        writeln!(lines, "{value:>6000}")?;
    }
    Ok(lines)
}
