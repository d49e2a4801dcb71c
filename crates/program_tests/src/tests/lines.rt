//! The lines of a reader, and how a run over them ends.
use crate::tests::{Blocks, Interrupted, Tested, in_blocks};
use programs::{
    Channel, Event, Failure, Lines, Opener, Retrying, Source, ending, put_name, read_all, shown,
};
use std::io::{self, ErrorKind, Read};

// An input, and its lines, of at most 3 bytes each: of longer ones the first 4.
const CUT: [(&[u8], &[&[u8]]); 5] = [
    (b"", &[b""]),
    (b"\n", &[b"", b""]),
    (b"ab\n\r\nabc", &[b"ab", b"\r", b"abc"]),
    (b"abcd\nabcdefgh\nab\n", &[b"abcd", b"abcd", b"ab", b""]),
    (b"\n\nabcdefgh", &[b"", b"", b"abcd"]),
];

// However the input is cut into blocks. A line may be overwritten before the next.
#[test]
fn lines_are_cut(rt: HostRuntime) -> Tested {
    for (input, wanted) in CUT {
        for size in 1..12 {
            let mut reader = Channel::new(in_blocks(input, size));
            let mut lines = Lines::new(3);
            let mut line = Vec::from_slice(rt.alloc(), b"xyz")?;
            let mut count = 0usize;
            for _ in 0..100 {
                let event = lines.next(&mut reader, &mut line)?;
                if event != Event::Block {
                    assert_eq!(rt; Some(line.as_slice()), wanted.get(count).copied());
                    count = count.saturating_add(1);
                    line.clear();
                    line.extend_from_slice(b"overwritten")?;
                }
                if event == Event::End {
                    break;
                }
            }
            assert_eq!(rt; count, wanted.len());
        }
    }
    Ok(())
}

// Standard input gives its bytes a few at a time: none of them is taken for the last.
#[test]
fn sources_give_all_bytes(rt: HostRuntime) -> Tested {
    let input = b"{\"k\":1}\n[1,]\n{\"k\":2}".as_slice();
    for size in 1..24 {
        let mut source = Source::new(&rt, in_blocks(input, size), "-");
        let mut read = Vec::new(rt.alloc());
        source.read_to_end(&mut read)?;
        assert_eq!(rt; read.as_slice(), input);
        assert_eq!(rt; source.read(&mut [0; 8])?, 0);
        assert!(rt; source.fault().is_none());
    }
    Ok(())
}

// A folder with one file, which gives its bytes a few at a time.
#[derive(Drop)]
struct Folder<'a> {
    name: &'a str,
    bytes: &'a [u8],
    size: usize,
}

impl<'a> Opener for Folder<'a> {
    ghost use Rattle.std.specs.Prelude.{None};

    type File = Blocks<'a>;

    ghost held = { λ _ _. None };

    fn open_file(&self, name: &str) -> io::Result<Blocks<'a>> {
        if name == self.name {
            Ok(in_blocks(self.bytes, self.size))
        } else {
            Err(io::Error::from(ErrorKind::NotFound))
        }
    }
}

// A file that is named is read to its end, and not standard input.
#[test]
fn files_are_read_to_their_ends(rt: HostRuntime) -> Tested {
    let bytes = b"{\"k\":1}\n[1,]\n{\"k\":2}".as_slice();
    for size in 1..24 {
        let folder = Folder {
            name: "f",
            bytes,
            size,
        };
        let mut source = Source::new(&folder, in_blocks(b"standard input", size), "f");
        let mut read = Vec::new(rt.alloc());
        source.read_to_end(&mut read)?;
        assert_eq!(rt; read.as_slice(), bytes);
        assert_eq!(rt; source.read(&mut [0; 8])?, 0);
        assert!(rt; source.fault().is_none());
    }
    Ok(())
}

// One that can't be opened is not empty: its fault names it, at each read.
#[test]
fn files_that_do_not_open_are_named(rt: HostRuntime) {
    let folder = Folder {
        name: "f",
        bytes: b"a",
        size: 1,
    };
    let mut source = Source::new(&folder, in_blocks(b"standard input", 3), "g");
    for _ in 0..2 {
        assert!(rt; source.read(&mut [0; 8]).is_err());
        let kept = source.fault().map(|(name, e)| (name, e.kind()));
        assert_eq!(rt; kept, Some(("g", ErrorKind::NotFound)));
    }
}

// A read that fails is kept, with the name.
#[test]
fn sources_keep_their_fault(rt: HostRuntime) -> Tested {
    let standard = Blocks {
        rest: b"a",
        size: 1,
        fault: Some(ErrorKind::StorageFull),
    };
    let mut source = Source::new(&rt, standard, "-");
    assert_eq!(rt; source.read(&mut [0; 8])?, 1);
    assert!(rt; source.fault().is_none());
    assert!(rt; source.read(&mut [0; 8]).is_err());
    let kept = source.fault().map(|(name, e)| (name, e.kind()));
    assert_eq!(rt; kept, Some(("-", ErrorKind::StorageFull)));
    Ok(())
}

// Control characters of C0 and C1 are escaped.
#[test]
fn texts_are_shown(rt: HostRuntime) -> Tested {
    let rows = [
        ("", ""),
        ("a b\\.json", "a b\\.json"),
        ("a\n\u{1b}[31mb", "a\\x0a\\x1b[31mb"),
        (
            "\0\u{7f}\u{80}\u{9b}\u{9f}\u{a0}\u{e9}",
            "\\x00\\x7f\\x80\\x9b\\x9f\u{a0}\u{e9}",
        ),
    ];
    for (text, wanted) in rows {
        assert_eq!(rt; shown(rt.alloc(), text)?.as_str(), wanted);
    }
    Ok(())
}

// What a signal interrupts is tried again, and is no failure.
#[test]
fn interrupted_calls_are_tried_again(rt: HostRuntime) -> Tested {
    let standard = Interrupted {
        inner: in_blocks(b"abcdef", 2),
        calls: 0,
    };
    let mut reader = Channel::new(Source::new(&rt, standard, "-"));
    assert_eq!(rt;
        read_all(rt.alloc(), &mut reader)?.as_slice(),
        b"abcdef".as_slice()
    );
    assert!(rt; !reader.failed() && reader.into_inner().fault().is_none());
    let mut writer = Channel::new(Retrying::new(Interrupted {
        inner: Vec::new(rt.alloc()),
        calls: 0,
    }));
    put_name(&mut writer, "f", b":1: x\n")?;
    assert!(rt; !writer.failed());
    let writer = writer.into_inner();
    assert!(rt; writer.has_written());
    let writer = writer.into_inner();
    assert_eq!(rt;
        (writer.inner.as_slice(), writer.calls),
        (b"f:1: x\n".as_slice(), 3)
    );
    Ok(())
}

// Reading fails in mid-line.
#[test]
fn a_failed_read_is_no_line(rt: HostRuntime) {
    let mut reader = Channel::new(Blocks {
        rest: b"a\nb",
        size: 10,
        fault: Some(ErrorKind::BrokenPipe),
    });
    let (mut lines, mut line) = (Lines::new(3), Vec::new(rt.alloc()));
    assert_eq!(rt; lines.next(&mut reader, &mut line), Ok(Event::Block));
    assert_eq!(rt; lines.next(&mut reader, &mut line), Ok(Event::Line));
    assert_eq!(rt; lines.next(&mut reader, &mut line), Ok(Event::Block));
    assert_eq!(rt; lines.next(&mut reader, &mut line), Err(Failure::Read));
}

// Who writes rows at a `Block` has written those of all lines before more is read.
#[test]
fn a_block_comes_before_each_read(rt: HostRuntime) {
    let mut reader = Channel::new(Blocks {
        rest: b"a\nb\nc\n",
        size: 4,
        fault: None,
    });
    let (mut lines, mut line) = (Lines::new(3), Vec::new(rt.alloc()));
    let (block, end) = ((Event::Block, b"".as_slice()), (Event::End, b"".as_slice()));
    let (a, b, c) = (b"a".as_slice(), b"b".as_slice(), b"c".as_slice());
    let events = [
        block,
        (Event::Line, a),
        (Event::Line, b),
        block,
        (Event::Line, c),
        block,
        end,
    ];
    for wanted in events {
        let event = lines.next(&mut reader, &mut line);
        assert_eq!(rt; event, Ok(wanted.0));
        assert_eq!(rt; line.as_slice(), wanted.1);
    }
}

// The output that failed is named, and a closed one is no failure.
#[test]
fn ends_have_statuses(rt: HostRuntime) {
    assert_eq!(rt; ending(&Ok(true)), (0, None));
    assert_eq!(rt; ending(&Ok(false)), (1, None));
    assert_eq!(rt; ending(&Err(Failure::Closed(true))), (0, None));
    assert_eq!(rt; ending(&Err(Failure::Closed(false))), (1, None));
    assert_eq!(rt; ending(&Err(Failure::Read)), (3, None));
    assert_eq!(rt; ending(&Err(Failure::Write)), (3, Some("standard output")));
    assert_eq!(rt; ending(&Err(Failure::Name)), (3, Some("standard error")));
    assert_eq!(rt;
        ending(&Err(Failure::Resources)),
        (3, Some("out of memory"))
    );
}

// The example of the crate's page: the number of lines that are empty.
fn empty_lines(rt: &impl AllocGlobal, input: &[u8]) -> Result<u64, Failure> {
    let (mut reader, mut lines) = (Channel::new(input), Lines::new(100));
    let mut line = Vec::with_capacity(rt.alloc(), 101)?;
    let mut count = 0u64;
    for _ in 0..u64::MAX {
        let event = lines.next(&mut reader, &mut line)?;
        if event != Event::Block && line.is_empty() {
            count = count.saturating_add(1);
        }
        if event == Event::End {
            return Ok(count);
        }
    }
    Err(Failure::Resources)
}

#[test]
fn empty_lines_are_counted(rt: HostRuntime) {
    assert_eq!(rt; empty_lines(&rt, b"a\n\n\nb\n"), Ok(3));
}
