// Lines in blocks of each size, and readers and writers that fail.
use super::{Form, MORE, OPEN, Report, VALUE, assert_stopped, assert_written, plain, text_of};
use crate::tests::{Blocks, Tested};
use jcheck::{DocumentChecker, Failure, check_lines, is_closed};
use programs::Channel;
use std::io::ErrorKind;

const LINES: [(&[u8], &[Report]); 6] = [
    (b"", &[]),
    (b"1\n\n {} \r\n\"a\"\n", &[]),
    (
        b"1\n\n[1,]\n2",
        &[[
            "f:3:4",
            "expected a value, found `]`",
            "InternalError at byte 6",
            "[1,]",
            "   ^",
        ]],
    ),
    (
        b"x\r\n\"a",
        &[
            ["f:1:1", VALUE, "InternalError at byte 0", "x ", "^"],
            ["f:2:1", OPEN, "Syntax at byte 3", "\"a", "^"],
        ],
    ),
    (
        b"[[[[[1]]]]]\n1 2\n",
        &[
            [
                "f:1:5",
                "one container more than the depth limit",
                "DepthLimitExceeded at byte 4",
                "[[[[[1]]]]]",
                "    ^",
            ],
            ["f:2:3", MORE, "TrailingData at byte 14", "1 2", "  ^"],
        ],
    ),
    // what is open begins in the same line of the file
    (
        b"[]\n[\"a\",\n{\"\t\"}",
        &[
            [
                "f:2:5",
                "the input ends after this, within the array that begins at 2:1",
                "Syntax at byte 7",
                "[\"a\",",
                "    ^",
            ],
            [
                "f:3:3",
                "a tab in the string that begins at 3:2",
                "Syntax at byte 11",
                "{\" \"}",
                "  ^",
            ],
        ],
    ),
];

// However the input is cut into blocks.
#[test]
fn lines_have_their_numbers(rt: HostRuntime) -> Tested {
    for (input, reports) in &LINES {
        for size in 1..20 {
            assert_written(&rt, input, reports, Form::Lines(size), plain(80))?;
        }
    }
    Ok(())
}

// The reports on the lines that ended before a read fails are written before it. A broken pipe that
// is read is no output that is closed.
#[test]
fn a_failed_read_ends_the_check(rt: HostRuntime) -> Tested {
    let input = b"x\n1\nx\nx".as_slice();
    let first = ["f:1:1", VALUE, "InternalError at byte 0", "x", "^"];
    let third = ["f:3:1", VALUE, "InternalError at byte 4", "x", "^"];
    for (len, reports) in [
        (0, [].as_slice()),
        (1, &[]),
        (2, &[first]),
        (5, &[first]),
        (6, &[first, third]),
        (7, &[first, third]),
    ] {
        for size in 1..8 {
            let mut checker = DocumentChecker::new(rt.alloc(), 4);
            let mut reader = Channel::new(Blocks {
                rest: &input[..len],
                size,
                fault: Some(ErrorKind::BrokenPipe),
            });
            let mut out = Channel::new(Vec::new(rt.alloc()));
            let checked = check_lines(&mut checker, &mut reader, &mut out, "f", plain(80));
            let kind = match &checked {
                Err(Failure::Input(e)) => Some(e.kind()),
                _ => None,
            };
            assert_eq!(rt; kind, Some(ErrorKind::BrokenPipe));
            assert!(rt; !is_closed(&checked));
            assert!(rt; reader.failed() && !out.failed());
            let text = text_of(&rt, reports)?;
            assert_eq!(rt;
                String::from_utf8(out.into_inner())?.as_str(),
                text.as_str()
            );
        }
    }
    Ok(())
}

#[test]
fn failed_writes_end_the_check(rt: HostRuntime) -> Tested {
    for (input, reports) in &LINES {
        assert_stopped(&rt, input, reports, Form::Lines(3))?;
        assert_stopped(&rt, input, reports, Form::Lines(100))?;
    }
    Ok(())
}
