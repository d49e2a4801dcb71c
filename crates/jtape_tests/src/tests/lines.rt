// Mode `lines`: lines of each length, and growths that fail.
use crate::tests::{Tested, run_from};
use jtape::{Mode, RunFault};
use linked_list_allocator::LocalHeap;
use simd_json::{Error, ErrorType};
use std::io::{self, Write};
use std::process::Abort;
use std::test::Fail;

// Strings of up to a number of letters, one a line.
fn strings(rt: &impl AllocGlobal, lengths: usize) -> std::result::Result<Vec<u8>, Fail> {
    let mut input = Vec::new(rt.alloc());
    for length in 0..lengths {
        input.push(b'"')?;
        let end = input.len().saturating_add(length);
        input.resize(end, b'a')?;
        input.extend_from_slice(b"\"\n")?;
    }
    Ok(input)
}

// Takes all that it is given, and counts how often.
#[derive(Drop)]
struct Counting {
    taken: Vec<u8>,
    calls: usize,
}

impl Write for Counting {
    fn write(&mut self, buf: &[u8]) -> io::Result<usize> {
        self.calls = self.calls.saturating_add(1);
        self.taken.extend_from_slice(buf)?;
        Ok(buf.len())
    }

    fn flush(&mut self) -> io::Result<()> {
        Ok(())
    }
}

// Lines of each length, wherever a block of the parser's begins: they are printed as they are, in
// 64 KiB and more a call.
#[test]
fn pieces_have_each_length(rt: HostRuntime) -> Tested {
    let rows = [(0, 0), (1, 1), (70, 1), (700, 4)];
    for (lengths, calls) in rows {
        let input = strings(&rt, lengths)?;
        let writer = Counting {
            taken: Vec::new(rt.alloc()),
            calls: 0,
        };
        let ran = run_from(rt.alloc(), Mode::Lines, 0, input.as_slice(), writer);
        assert_eq!(rt; ran.answer, Ok(true));
        let writer = ran.writer.into_inner();
        assert_eq!(rt; writer.taken.as_slice(), input.as_slice());
        assert_eq!(rt; writer.calls, calls);
    }
    Ok(())
}

// A line, and what is written for it.
type Piece = (&'static str, &'static str);

// Of these later lines mostly need more than earlier ones, and of those below the last one does:
// structural indexes, nodes, open containers, blocks with a backslash, and the line of an error.
const GROWING: &[Piece] = &[
    ("[1]", "[1]\n"),
    ("\"\\n\"", "\"\\n\"\n"),
    ("[1,]", "! InternalError at character 3 (']')\n"),
    ("[1,2,3,4,5,6,7,8,9]", "[1,2,3,4,5,6,7,8,9]\n"),
    ("", ""),
    (
        "[[1],[2],[3],[[[[[[4]]]]]],5,6,7,8]",
        "[[1],[2],[3],[[[[[[4]]]]]],5,6,7,8]\n",
    ),
    (LONG, LONG_LINE),
];

const LONG: &str = "[1,2,3,4,5,6,7,8,9,10,11,12,13,14,15,16,17,18,19,20,21]";

const LONG_LINE: &str = "[1,2,3,4,5,6,7,8,9,10,11,12,13,14,15,16,17,18,19,20,21]\n";

const ONE_LONG: &[Piece] = &[(LONG, LONG_LINE)];

const LAST_IS_LONG: &[Piece] = &[("1", "1\n"), (" 2", "2\n"), ("", ""), (LONG, LONG_LINE)];

const LAST_IS_DEEP: &[Piece] = &[
    ("[1]", "[1]\n"),
    ("[[[[[[[[[[[[7]]]]]]]]]]]]", "[[[[[[[[[[[[7]]]]]]]]]]]]\n"),
];

const LAST_HAS_AN_ERROR: &[Piece] = &[("1", "1\n"), ("\"", "! Syntax at character 0\n")];

const LAST_HAS_A_LONGER_ERROR: &[Piece] = &[
    ("\"", "! Syntax at character 0\n"),
    ("{\"a\":1,}", "! ExpectedObjectKey at character 7 ('}')\n"),
];

const LAST_AFTER_ERRORS: &[Piece] = &[
    ("[1,]", "! InternalError at character 3 (']')\n"),
    ("01", "! InvalidNumber at character 1 ('1')\n"),
    (LONG, LONG_LINE),
];

const LAST_HAS_ESCAPES: &[Piece] = &[
    ("\"a\"", "\"a\"\n"),
    (
        "\"\\na-string-of-more-than-two-blocks-of-bytes-with-a-backslash-in-each-of-them\\n\
        -and-another-that-is-here-and-ends\\n\"",
        "\"\\na-string-of-more-than-two-blocks-of-bytes-with-a-backslash-in-each-of-them\\n\
        -and-another-that-is-here-and-ends\\n\"\n",
    ),
];

// A run over the first of these lines, and whether it had memory for them. Blank lines follow, so
// that the input has as many bytes as all lines.
fn run_first(
    rt: &(impl AllocGlobal + Abort),
    bytes: usize,
    pieces: &[Piece],
    count: usize,
) -> std::result::Result<(bool, Vec<u8>), Fail> {
    let mut input = Vec::new(rt.alloc());
    for (i, (piece, _)) in pieces.iter().enumerate() {
        let end = input.len().saturating_add(piece.len());
        if i < count {
            input.extend_from_slice(piece.as_bytes())?;
        }
        input.resize(end, b'\n')?;
        input.push(b'\n')?;
    }
    let heap = LocalHeap::new(rt.alloc(), bytes)?;
    let ran = run_from(
        &heap,
        Mode::Lines,
        16,
        input.as_slice(),
        Vec::new(rt.alloc()),
    );
    assert!(rt; !ran.reader.failed() && !ran.writer.failed());
    let memory = Error::generic(ErrorType::OutOfMemory);
    let has_memory = ran.answer.is_ok();
    assert!(rt; has_memory || ran.answer == Err(RunFault::Refused(memory)));
    Ok((has_memory, ran.writer.into_inner()))
}

// For how many of the first lines a heap of this size has memory. `None` if it has none for the
// input.
fn count_with_memory(
    rt: &(impl AllocGlobal + Abort),
    bytes: usize,
    pieces: &[Piece],
) -> std::result::Result<Option<usize>, Fail> {
    let mut found = None;
    for count in 0..=pieces.len() {
        let (has_memory, _) = run_first(rt, bytes, pieces, count)?;
        if !has_memory {
            break;
        }
        found = Some(count);
    }
    Ok(found)
}

// Each heap is larger than the one before it, so that another allocation fails, and then none.
// Where one fails, exactly the text of the lines before was written. Returns in how many heaps
// memory was lacking for the last line.
fn assert_stopped(
    rt: &(impl AllocGlobal + Abort),
    pieces: &[Piece],
) -> std::result::Result<u32, Fail> {
    let mut lacking = 0u32;
    let mut whole = 0u32;
    for units in 0..400usize {
        let bytes = 64 + units * 16;
        let done = count_with_memory(rt, bytes, pieces)?;
        let mut wanted = String::new(rt.alloc());
        for (_, line) in pieces.iter().take(done.unwrap_or(0)) {
            wanted.push_str(line)?;
        }
        let (has_memory, written) = run_first(rt, bytes, pieces, pieces.len())?;
        assert_eq!(rt; has_memory, done == Some(pieces.len()), "{bytes:?}");
        assert_eq!(rt; written.as_slice(), wanted.as_bytes(), "{bytes:?}");
        if done.is_some_and(|done| done.saturating_add(1) == pieces.len()) {
            lacking = lacking.saturating_add(1);
        }
        whole = whole.saturating_add(u32::from(has_memory));
    }
    assert!(rt; whole > 0, "{pieces:?}");
    Ok(lacking)
}

#[test]
fn pieces_before_one_that_lacks_memory_are_written(rt: HostRuntime) -> Tested {
    assert_stopped(&rt, GROWING)?;
    for pieces in [
        ONE_LONG,
        LAST_IS_LONG,
        LAST_IS_DEEP,
        LAST_HAS_AN_ERROR,
        LAST_HAS_A_LONGER_ERROR,
        LAST_AFTER_ERRORS,
        LAST_HAS_ESCAPES,
    ] {
        let lacking = assert_stopped(&rt, pieces)?;
        assert!(rt; lacking > 0, "{pieces:?}");
    }
    Ok(())
}
