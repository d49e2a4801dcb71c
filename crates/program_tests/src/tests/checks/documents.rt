// Documents, how their lines are cut, and how checks of several files end.
use super::{BLANK, Form, MORE, OPEN, Report, VALUE, assert_stopped, assert_written, plain};
use crate::tests::Tested;
use jcheck::{Ended, Failure, Style, check_each, is_colored};
use std::env::VarError;
use std::io::{self, ErrorKind};

const REJECTED: [(&[u8], &[Report]); 22] = [
    (b"[1,[2]]\n", &[]),
    (
        b"[1,\n  2 3]\n",
        &[[
            "f:2:5",
            "expected `,` or `]` after an element, found `3`",
            "ExpectedArrayContent at byte 8",
            "  2 3]",
            "    ^",
        ]],
    ),
    // at the end of the input, and after the last line feed
    (b"", &[["f:1:1", BLANK, "Eof at byte 0", "", "^"]]),
    (b" \n ", &[["f:2:2", BLANK, "Eof at byte 3", " ", " ^"]]),
    // a tab and a carriage return are shown as spaces
    (
        b"{\t\"a\":\tx}\r\n",
        &[[
            "f:1:8",
            VALUE,
            "InternalError at byte 7",
            "{ \"a\": x} ",
            "       ^",
        ]],
    ),
    // characters of two to four bytes before the place
    (
        b"[\"\xc3\xa9\xe2\x82\xac\xf0\x9f\x98\x80\", nul]",
        &[[
            "f:1:9",
            "expected `null`",
            "ExpectedNull at byte 14",
            "[\"\u{e9}\u{20ac}\u{1f600}\", nul]",
            "         ^",
        ]],
    ),
    // wide characters take two columns each
    (
        b"[\"\xe5\x90\x8d\xe5\x89\x8d\",x]",
        &[[
            "f:1:7",
            VALUE,
            "InternalError at byte 10",
            "[\"\u{540d}\u{524d}\",x]",
            "        ^",
        ]],
    ),
    // byte order marks are shown
    (
        b"\xef\xbb\xbf{}",
        &[[
            "f:1:1",
            "byte order mark",
            "InternalError at byte 0",
            "<U+FEFF>{}",
            "^",
        ]],
    ),
    (
        b"[\xef\xbb\xbf]",
        &[[
            "f:1:2",
            "expected a value, found byte 239",
            "InternalError at byte 1",
            "[<U+FEFF>]",
            " ^",
        ]],
    ),
    // what is open, and where it begins
    (
        b"{\"a\": \"b,\n \"c\": 1}",
        &[[
            "f:1:10",
            "a line feed in the string that begins at 1:7",
            "Syntax at byte 9",
            "{\"a\": \"b,",
            "         ^",
        ]],
    ),
    (
        b"[\"\x1f\"]",
        &[[
            "f:1:3",
            "control character 31 in the string that begins at 1:2",
            "Syntax at byte 2",
            "[\" \"]",
            "  ^",
        ]],
    ),
    (
        b"[[1],\n {\"a\":{}, \"b\": [[], 2],\n\"]\":",
        &[[
            "f:3:4",
            "the input ends after this, within the object that begins at 2:2",
            "Syntax at byte 33",
            "\"]\":",
            "   ^",
        ]],
    ),
    (
        b"[1,2",
        &[[
            "f:1:4",
            "the input ends after this, within the array that begins at 1:1",
            "Syntax at byte 3",
            "[1,2",
            "   ^",
        ]],
    ),
    (
        b"[\"\xff\"]",
        &[[
            "f:1:3",
            "byte 255 begins no UTF-8 character",
            "InvalidUtf8 at byte 2",
            "[\"\u{fffd}\"]",
            "  ^",
        ]],
    ),
    (
        b"[\"a\", \"b]",
        &[["f:1:7", OPEN, "Syntax at byte 6", "[\"a\", \"b]", "      ^"]],
    ),
    // a line of which all is shown
    (
        b"[000000000000000000000000000000000000000000]",
        &[[
            "f:1:3",
            "malformed number",
            "InvalidNumber at byte 2",
            "[000000000000000000000000000000000000000000]",
            "  ^",
        ]],
    ),
    // more text after a container, a string, a number and a name
    (
        b"{\"a\":1} x",
        &[[
            "f:1:9",
            MORE,
            "TrailingData at byte 8",
            "{\"a\":1} x",
            "        ^",
        ]],
    ),
    (
        b"[1]\n\n  [2]",
        &[["f:3:3", MORE, "TrailingData at byte 7", "  [2]", "  ^"]],
    ),
    (
        b"[[]]]",
        &[["f:1:5", MORE, "TrailingData at byte 4", "[[]]]", "    ^"]],
    ),
    (
        b"\"a\\\"]\" 1",
        &[[
            "f:1:8",
            MORE,
            "TrailingData at byte 7",
            "\"a\\\"]\" 1",
            "       ^",
        ]],
    ),
    (
        b"12 3",
        &[["f:1:4", MORE, "TrailingData at byte 3", "12 3", "   ^"]],
    ),
    (
        b"null]",
        &[["f:1:5", MORE, "TrailingData at byte 4", "null]", "    ^"]],
    ),
];

#[test]
fn rejections_are_shown(rt: HostRuntime) -> Tested {
    for (input, reports) in &REJECTED {
        assert_written(&rt, input, reports, Form::Document, plain(80))?;
    }
    Ok(())
}

// Of 16 characters, 8 of them before the place: one that is cut on both sides, and one that just
// fits.
const CUT: [(&[u8], &[Report]); 2] = [
    (
        b"[\"0123456789\",x,\"0123456789\"]",
        &[[
            "f:1:15",
            VALUE,
            "InternalError at byte 14",
            "\u{2026}56789\",x,\"0123\u{2026}",
            "        ^",
        ]],
    ),
    (
        b"[\"0123\",x,\"012\"]",
        &[[
            "f:1:9",
            VALUE,
            "InternalError at byte 8",
            "[\"0123\",x,\"012\"]",
            "        ^",
        ]],
    ),
];

#[test]
fn long_lines_are_cut(rt: HostRuntime) -> Tested {
    for (input, reports) in &CUT {
        assert_written(&rt, input, reports, Form::Document, plain(16))?;
        assert_written(&rt, input, reports, Form::Lines(5), plain(16))?;
    }
    Ok(())
}

// Of `[1,x]` as many characters as there is room for, and the caret.
const NARROW: [(usize, &str, &str); 7] = [
    (0, "", "^"),
    (1, "\u{2026}", "^"),
    (2, "\u{2026}\u{2026}", " ^"),
    (3, "\u{2026}x]", " ^"),
    (4, "\u{2026},x]", "  ^"),
    (5, "\u{2026},x]", "  ^"),
    (6, "[1,x]", "   ^"),
];

#[test]
fn narrow_lines_are_cut(rt: HostRuntime) -> Tested {
    for (width, line, caret) in &NARROW {
        let report = ["f:1:4", VALUE, "InternalError at byte 3", *line, *caret];
        assert_written(&rt, b"[1,x]", &[report], Form::Document, plain(*width))?;
    }
    Ok(())
}

#[test]
fn carets_are_bold_and_red(rt: HostRuntime) -> Tested {
    let caret = "   \u{1b}[1;31m^\u{1b}[m";
    let report = ["f:1:4", VALUE, "InternalError at byte 3", "[1,x]", caret];
    let style = Style {
        width: 80,
        is_colored: true,
    };
    assert_written(&rt, b"[1,x]", &[report], Form::Document, style)?;
    assert_written(&rt, b"[1,x]", &[report], Form::Lines(2), style)
}

#[test]
fn failed_writes_end_the_check(rt: HostRuntime) -> Tested {
    for (input, reports) in &REJECTED {
        assert_stopped(&rt, input, reports, Form::Document)?;
    }
    Ok(())
}

// The worst of all inputs decides.
#[test]
fn ends_have_statuses(rt: HostRuntime) {
    assert_eq!(rt; Ended::Clean.and(Ended::Clean).status(), 0);
    assert_eq!(rt; Ended::Rejected.and(Ended::Clean).status(), 1);
    assert_eq!(rt; Ended::Clean.and(Ended::Rejected).status(), 1);
    assert_eq!(rt; Ended::Failed.and(Ended::Rejected).status(), 3);
    assert_eq!(rt; Ended::Rejected.and(Ended::Failed).status(), 3);
}

// How many files are checked, and the status of them all, where their checks return these in turn.
fn checked(results: [Result<bool, Failure>; 3]) -> (usize, u8) {
    let mut count = 0usize;
    let ended = check_each(
        |_file| {
            let result = results[count % 3];
            count = count.saturating_add(1);
            result
        },
        &["a", "b", "c"],
    );
    (count, ended.status())
}

// A file that can't be read does not keep the others from being checked, nor does an output that
// fails, unless it is closed.
#[test]
fn files_are_checked_in_turn(rt: HostRuntime) {
    let missing = Err(Failure::Input(io::Error::from(ErrorKind::NotFound)));
    let unread = Err(Failure::Input(io::Error::from(ErrorKind::BrokenPipe)));
    let full = Err(Failure::Output(io::Error::from(ErrorKind::StorageFull)));
    let closed = Err(Failure::Output(io::Error::from(ErrorKind::BrokenPipe)));
    assert_eq!(rt; checked([Ok(true), Ok(true), Ok(true)]), (3, 0));
    assert_eq!(rt; checked([Ok(true), Ok(false), Ok(true)]), (3, 1));
    assert_eq!(rt; checked([missing, Ok(false), Ok(true)]), (3, 3));
    assert_eq!(rt; checked([Ok(false), Ok(true), missing]), (3, 3));
    assert_eq!(rt; checked([unread, full, Ok(false)]), (3, 3));
    assert_eq!(rt; checked([Ok(true), closed, missing]), (2, 1));
    assert_eq!(rt; checked([missing, closed, Ok(true)]), (2, 3));
}

// As the arguments ask, else on a terminal: without `NO_COLOR`, with an empty one, with a word, and
// with one that can't be read.
#[test]
fn carets_are_red_on_terminals(rt: HostRuntime) -> Tested {
    let words = [
        Err(VarError::NotPresent),
        Ok(String::new(rt.alloc())),
        Ok(String::from_str(rt.alloc(), "0")?),
        Err(VarError::NotUnicode),
    ];
    let rows = [
        (Some(true), false, [true; 4]),
        (Some(false), true, [false; 4]),
        (None, false, [false; 4]),
        (None, true, [true, true, false, false]),
    ];
    for (asked, is_terminal, wanted) in rows {
        for (word, is_red) in words.iter().zip(wanted.iter()) {
            assert_eq!(rt; is_colored(asked, word, is_terminal), *is_red);
        }
    }
    Ok(())
}

// A failure names the input or the output, and is printed as its error.
#[test]
fn failures_name_what_failed(rt: HostRuntime) -> Tested {
    let error = io::Error::from(ErrorKind::StorageFull);
    assert_eq!(rt; Failure::Input(error).what("f"), "f");
    assert_eq!(rt; Failure::Output(error).what("f"), "standard output");
    let text = format!(in rt.alloc(); "{}", Failure::Output(error))?;
    assert_eq!(rt; text.as_str(), "no storage space");
    Ok(())
}
