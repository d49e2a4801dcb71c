//! Runs over lines, blocks and failures.
use crate::tests::{Blocks, FAULTS, Full, Hungry, Tested, failing, in_blocks, many_lines};
use bumpalo::Bump;
use jpick::{Layout, Query, Taken, Wanted, run};
use linked_list_allocator::LocalHeap;
use programs::{Channel, Failure};
use simd_json_path::{Choice, Filter, Path, PathError, Segment, Selector};
use std::alloc::Global;
use std::io::{self, ErrorKind, Write};

// What the queries select of lines of at most ten bytes.
fn wanted<'a>(queries: &'a [Query<'a>], layout: Layout) -> Wanted<'a> {
    Wanted {
        each: None,
        queries,
        filters: &[],
        layout,
        is_raw: false,
        is_pretty: false,
        has_sorted_keys: false,
        needs_all: false,
        is_quiet: false,
        longest: 10,
        depth: 1024,
        is_document: false,
    }
}

// What a run leaves.
#[derive(Drop)]
struct Ran {
    result: Result<Taken, Failure>,
    rows: Vec<u8>,
    rejections: Vec<u8>,
}

fn run_by(alloc: Global, wanted: &Wanted<'_>, size: usize, input: &[u8]) -> Ran {
    let mut reader = Channel::new(in_blocks(input, size));
    let mut out = Channel::new(Vec::new(alloc));
    let mut rejections = Channel::new(Vec::new(alloc));
    let result = run(alloc, wanted, "f", &mut reader, &mut out, &mut rejections);
    Ran {
        result,
        rows: out.into_inner(),
        rejections: rejections.into_inner(),
    }
}

fn ended(all_taken: bool) -> Result<Taken, Failure> {
    Ok(if all_taken { Taken::All } else { Taken::NotAll })
}

// An input, its rows, the lines that name rejected ones, and whether all lines were taken.
type Row = (&'static [u8], &'static [u8], &'static [u8], bool);

// In blocks of each size: where the blocks are cut does not matter.
#[test]
fn lines_are_picked_however_they_are_cut(rt: HostRuntime) {
    let rows: [Row; 9] = [
        (b"", b"", b"", true),
        (b" \t\r\n\r\n", b"", b"", true),
        (b"{\"k\":1}", b"1\n", b"", true),
        (b"{\"k\":1}\r\n{\"k\":2}\r\n", b"1\n2\n", b"", true),
        (b"[]\n{\"k\":\"a\"}", b"\n\"a\"\n", b"", true),
        (
            b"\n[1,]\n{\"k\":1}",
            b"1\n",
            b"f:2:4: expected a value, found `]` [InternalError]\n",
            false,
        ),
        (
            b"{\"k\":1234}\n{\"k\":12345}\n{\"k\":1}",
            b"1234\n1\n",
            b"f:2: longer than 10 bytes (--longest)\n",
            false,
        ),
        (
            b"{\"k\":1}\n           \n{\"k\":123456789}",
            b"1\n",
            b"f:2: longer than 10 bytes (--longest)\nf:3: longer than 10 bytes (--longest)\n",
            false,
        ),
        (
            b"[\"\\n\x01\"]\n[\xff",
            b"",
            b"f:1:5: control character 1 in the string that begins at 1:2 [Syntax]\n\
                f:2:2: byte 255 begins no UTF-8 character [InvalidUtf8]\n",
            false,
        ),
    ];
    let wanted = wanted(&[Query::Pointer("/k")], Layout::Tabs);
    for (input, picked, rejections, all_taken) in rows {
        for size in 1..24 {
            let ran = run_by(rt.alloc(), &wanted, size, input);
            assert_eq!(rt; ran.result, ended(all_taken));
            assert_eq!(rt; ran.rows.as_slice(), picked);
            assert_eq!(rt; ran.rejections.as_slice(), rejections);
        }
    }
}

const HINT: &str = "jpick: to read a file as one document, type: jpick -d ..\n";

// Where the first line ends within a document, nothing after it is taken, and its name is followed by
// how a document is read, unless rejected lines are not named.
#[test]
fn documents_end_the_run(rt: HostRuntime) -> Tested {
    let rows: [(&[u8], Taken, &str, &str); 6] = [
        (
            b"{\n \"k\":1}\n{\"k\":2}\n",
            Taken::Document,
            "f:1:1: the input ends after this, within the object that begins at 1:1 [Syntax]\n",
            "2\n",
        ),
        (
            b"[1,\n[2,\n",
            Taken::Document,
            "f:1:3: the input ends after this, within the array that begins at 1:1 [Syntax]\n",
            "",
        ),
        (
            b"[1,",
            Taken::Document,
            "f:1:3: the input ends after this, within the array that begins at 1:1 [Syntax]\n",
            "",
        ),
        (
            b"\"\n{\"k\":1}\n",
            Taken::NotAll,
            "f:1:1: the string that begins here has no end [Syntax]\n",
            "1\n",
        ),
        (
            b"\n[2,\n{\"k\":1}",
            Taken::NotAll,
            "f:2:3: the input ends after this, within the array that begins at 2:1 [Syntax]\n",
            "1\n",
        ),
        (
            b"[1,]\n{\"k\":1}",
            Taken::NotAll,
            "f:1:4: expected a value, found `]` [InternalError]\n",
            "1\n",
        ),
    ];
    let mut wanted = wanted(&[Query::Pointer("/k")], Layout::Tabs);
    for (input, taken, name, rows) in rows {
        for size in 1..24 {
            let is_document = taken == Taken::Document;
            wanted.is_quiet = false;
            let ran = run_by(rt.alloc(), &wanted, size, input);
            let hint = if is_document { HINT } else { "" };
            let named = format!(in rt.alloc(); "{name}{hint}")?;
            assert_eq!(rt; ran.result, Ok(taken));
            assert_eq!(rt;
                ran.rows.as_slice(),
                if is_document {
                    b"".as_slice()
                } else {
                    rows.as_bytes()
                }
            );
            assert_eq!(rt; String::from_utf8(ran.rejections)?.as_str(), named.as_str());
            wanted.is_quiet = true;
            let ran = run_by(rt.alloc(), &wanted, size, input);
            assert_eq!(rt; ran.result, Ok(Taken::NotAll));
            assert_eq!(rt; ran.rows.as_slice(), rows.as_bytes());
            assert_eq!(rt; ran.rejections.len(), 0);
        }
    }
    Ok(())
}

// An input is one document, which may have any size, and lines.
#[test]
fn documents_are_picked(rt: HostRuntime) {
    let rows: [Row; 5] = [
        (b"{\n\"k\": [1,\n 2]}\n", b"[1,2]\n", b"", true),
        (b"{\"j\": 12345678901234567890}", b"\n", b"", true),
        (
            b"{\"k\":1}\n{\"k\":2}\n",
            b"",
            b"f:2:1: more text after the document [TrailingData]\n",
            false,
        ),
        (
            b"[1,\n\n  2",
            b"",
            b"f:3:3: the input ends after this, within the array that begins at 1:1 [Syntax]\n",
            false,
        ),
        (
            b" \n",
            b"",
            b"f:2:1: expected a value, found only whitespace [Eof]\n",
            false,
        ),
    ];
    let mut wanted = wanted(&[Query::Pointer("/k")], Layout::Tabs);
    wanted.is_document = true;
    for (input, picked, rejections, all_taken) in rows {
        for size in 1..24 {
            let ran = run_by(rt.alloc(), &wanted, size, input);
            assert_eq!(rt; ran.result, ended(all_taken));
            assert_eq!(rt; ran.rows.as_slice(), picked);
            assert_eq!(rt; ran.rejections.as_slice(), rejections);
        }
    }
}

// Rejected lines are not named, but the run still returns that there are any.
#[test]
fn quiet_runs_name_nothing(rt: HostRuntime) {
    let mut wanted = wanted(&[Query::Pointer("/k")], Layout::Tabs);
    wanted.is_quiet = true;
    let ran = run_by(rt.alloc(), &wanted, 64, b"[1,]\n{\"k\":1}\n12345678901");
    assert_eq!(rt; ran.result, Ok(Taken::NotAll));
    assert_eq!(rt; ran.rows.as_slice(), b"1\n".as_slice());
    assert_eq!(rt; ran.rejections.len(), 0);
}

// The row of a document whose values are null, a truth value, numbers, strings and containers. The
// rows of `@tsv` and `@csv` for scalars are those of jq's manual and of its program.
#[test]
fn rows_have_layouts(rt: HostRuntime) {
    let input = b"{\"a\":\"x\\ty\\\\\\\"\\n\\r\",\"b\":null,\"c\":true,\"d\":-1.50,\
        \"e\":[1, \"\\\"\\n\"]}\n"
        .as_slice();
    let queries = ["/a", "/b", "/c", "/d", "/e", "/f"].map(Query::Pointer);
    let rows: [(Layout, bool, &[u8]); 5] = [
        (
            Layout::Tabs,
            false,
            b"\"x\\ty\\\\\\\"\\n\\r\"\tnull\ttrue\t-1.50\t[1,\"\\\"\\n\"]\t\n",
        ),
        (
            Layout::Tabs,
            true,
            b"x\ty\\\"\n\r\tnull\ttrue\t-1.50\t[1,\"\\\"\\n\"]\t\n",
        ),
        (
            Layout::Tsv,
            false,
            b"x\\ty\\\\\"\\n\\r\t\ttrue\t-1.50\t[1,\"\\\\\"\\\\n\"]\t\n",
        ),
        (
            Layout::Csv,
            false,
            b"\"x\ty\\\"\"\n\r\",,true,-1.50,\"[1,\"\"\\\"\"\\n\"\"]\",\n",
        ),
        (
            Layout::Json,
            true,
            b"[\"x\\ty\\\\\\\"\\n\\r\",null,true,-1.50,[1,\"\\\"\\n\"],null]\n",
        ),
    ];
    for (layout, is_raw, row) in rows {
        let mut wanted = wanted(queries.as_slice(), layout);
        wanted.is_raw = is_raw;
        wanted.longest = 100;
        let ran = run_by(rt.alloc(), &wanted, 64, input);
        assert_eq!(rt; ran.result, Ok(Taken::All));
        assert_eq!(rt; ran.rows.as_slice(), row);
    }
}

// Of a lone path that is not singular there is a row for each value, and of one among several a
// column with their array; of a singular one a row with the value, or without one.
#[test]
fn paths_are_rows_and_arrays(rt: HostRuntime) -> Tested {
    let input = b"{\"k\":[\"a\",null,[1, 2]]}\n{\"k\":[]}\n{}\n".as_slice();
    let rows: [(&[&str], Layout, &[u8]); 12] = [
        (&["$.k[*]"], Layout::Tabs, b"\"a\"\nnull\n[1,2]\n"),
        (&["$.k[*]"], Layout::Tsv, b"a\n\n[1,2]\n"),
        (&["$.k[*]"], Layout::Csv, b"\"a\"\n\n\"[1,2]\"\n"),
        (&["$.k[*]"], Layout::Json, b"[\"a\"]\n[null]\n[[1,2]]\n"),
        (
            &["$.k[*]", "$['k'][2]"],
            Layout::Tabs,
            b"[\"a\",null,[1,2]]\t[1,2]\n[]\t\n[]\t\n",
        ),
        (
            &["$.k[*]", "$['k'][2]"],
            Layout::Tsv,
            b"[\"a\",null,[1,2]]\t[1,2]\n[]\t\n[]\t\n",
        ),
        (
            &["$.k[*]", "$['k'][2]"],
            Layout::Csv,
            b"\"[\"\"a\"\",null,[1,2]]\",\"[1,2]\"\n\"[]\",\n\"[]\",\n",
        ),
        (
            &["$.k[*]", "$['k'][2]"],
            Layout::Json,
            b"[[\"a\",null,[1,2]],[1,2]]\n[[],null]\n[[],null]\n",
        ),
        (&["$.k[2]"], Layout::Tabs, b"[1,2]\n\n\n"),
        (&["$.k[2]", "/k/0"], Layout::Tabs, b"[1,2]\t\"a\"\n\t\n\t\n"),
        (&["$..[1]"], Layout::Tabs, b"null\n2\n"),
        (
            &["$.k[?@ == 'a']", "$[?@[1]]..*"],
            Layout::Tabs,
            b"[\"a\"]\t[\"a\",null,[1,2],1,2]\n[]\t[]\n[]\t[]\n",
        ),
    ];
    for (texts, layout, picked) in rows {
        let arena = Bump::new(rt.alloc());
        let mut queries = Vec::new(rt.alloc());
        for text in texts {
            queries.push(query(&arena, *text)?)?;
        }
        let mut wanted = wanted(queries.as_slice(), layout);
        wanted.longest = 100;
        let ran = run_by(rt.alloc(), &wanted, 16, input);
        assert_eq!(rt; ran.result, Ok(Taken::All));
        assert_eq!(rt; ran.rows.as_slice(), picked);
    }
    Ok(())
}

fn query<'a>(arena: &'a Bump, text: &'a str) -> Result<Query<'a>, PathError> {
    if text.starts_with('$') {
        return Ok(Query::Path(text, Path::new(arena, text)?));
    }
    Ok(Query::Pointer(text))
}

// Nine segments take more frames than are on the stack.
#[test]
fn paths_have_any_number_of_segments(rt: HostRuntime) -> Tested {
    let arena = Bump::new(rt.alloc());
    let queries = [query(&arena, "$[*][*][*][*][*][*][*][*][*]")?];
    let mut wanted = wanted(queries.as_slice(), Layout::Tabs);
    wanted.longest = 23;
    let input = b"[[[[[[[[[1,[2]]]]]]]]]]\n[[3]]\n".as_slice();
    let ran = run_by(rt.alloc(), &wanted, 16, input);
    assert_eq!(rt; ran.result, Ok(Taken::All));
    assert_eq!(rt; ran.rows.as_slice(), b"1\n[2]\n".as_slice());
    Ok(())
}

// A path of segments by hand, which `Path::new` would read as steps, is singular too.
#[test]
fn paths_of_names_are_singular(rt: HostRuntime) {
    let names = [Selector::Choice(Choice::Name("k"))];
    let selectors = [
        Selector::Choice(Choice::Name("k")),
        Selector::Choice(Choice::Index(0)),
    ];
    let rows: [(&[Selector<'_>], bool, &[u8]); 3] = [
        (names.as_slice(), false, b"1\n\n"),
        (selectors.as_slice(), false, b"1\n2\n"),
        (names.as_slice(), true, b"1\n"),
    ];
    for (selectors, is_descendant, picked) in rows {
        let segments = [Segment {
            selectors,
            is_descendant,
            steps: &[],
        }];
        let path = Path {
            steps: &[],
            segments: segments.as_slice(),
        };
        let queries = [Query::Path("by hand", path)];
        let wanted = wanted(queries.as_slice(), Layout::Tabs);
        let ran = run_by(rt.alloc(), &wanted, 16, b"{\"k\":1}\n[2]\n");
        assert_eq!(rt; ran.result, Ok(Taken::All));
        assert_eq!(rt; ran.rows.as_slice(), picked);
    }
}

// A line must pass all filters. More of them are in `tests/statuses.sh`.
#[test]
fn filters_pass_lines_over(rt: HostRuntime) -> Tested {
    let arena = Bump::new(rt.alloc());
    let filters = [
        Filter::new(&arena, "@.k")?,
        Filter::new(&arena, "@.k != 2")?,
    ];
    let wanted = Wanted {
        filters: filters.as_slice(),
        ..wanted(&[Query::Pointer("/k")], Layout::Tabs)
    };
    let ran = run_by(
        rt.alloc(),
        &wanted,
        16,
        b"{\"k\":1}\n{}\n[]\n{\"k\":[]}\n[1,]\n{\"k\":2}\n",
    );
    assert_eq!(rt; ran.result, Ok(Taken::NotAll));
    assert_eq!(rt; ran.rows.as_slice(), b"1\n[]\n".as_slice());
    Ok(())
}

// A value over several lines: not a string as its text, nor the array of a path beside other cells.
#[test]
fn values_are_printed_over_lines(rt: HostRuntime) -> Tested {
    let arena = Bump::new(rt.alloc());
    let rows: [(&[Query<'_>], bool, &[u8], &[u8]); 4] = [
        (
            &[Query::Pointer("")],
            false,
            b"{\"k\":[1]}",
            b"{\n  \"k\": [\n    1\n  ]\n}\n",
        ),
        (
            &[query(&arena, "$.*")?],
            false,
            b"[[],{},[0]]",
            b"[]\n{}\n[\n  0\n]\n",
        ),
        (
            &[query(&arena, "$.*")?],
            true,
            b"[\"a\",[\"\"]]",
            b"a\n[\n  \"\"\n]\n",
        ),
        (
            &[query(&arena, "$.*")?, Query::Pointer("/0")],
            false,
            b"[[2],4]",
            b"[[2],4]\t[\n  2\n]\n",
        ),
    ];
    for (queries, is_raw, input, picked) in rows {
        let mut wanted = wanted(queries, Layout::Tabs);
        wanted.is_pretty = true;
        wanted.is_raw = is_raw;
        wanted.longest = 16;
        let ran = run_by(rt.alloc(), &wanted, 16, input);
        assert_eq!(rt; ran.result, Ok(Taken::All));
        assert_eq!(rt; ran.rows.as_slice(), picked);
    }
    Ok(())
}

// A line is left out where one of the queries selects nothing.
#[test]
fn all_values_are_needed(rt: HostRuntime) {
    let mut wanted = wanted(&[Query::Pointer("/0"), Query::Pointer("/1")], Layout::Csv);
    wanted.needs_all = true;
    let ran = run_by(rt.alloc(), &wanted, 16, b"[1,2]\n[1]\n{}\n[null,0]\n");
    assert_eq!(rt; ran.result, Ok(Taken::All));
    assert_eq!(rt; ran.rows.as_slice(), b"1,2\n,0\n".as_slice());
}

// Lines 2 and 4 are rejected: one of many, and the last.
const TWO_REJECTED: &[u8] = b"{\"k\":1}\n[1,]\n{\"k\":23}\n           ";

const ROWS: &[u8] = b"1\n23\n";

const REJECTIONS: &[u8] =
    b"f:2:4: expected a value, found `]` [InternalError]\nf:4: longer than 10 bytes (--longest)\n";

#[derive(Drop)]
struct Stopped {
    result: Result<Taken, Failure>,
    out: Channel<Full>,
    rejections: Channel<Full>,
}

fn run_into(
    alloc: Global,
    fault: Option<ErrorKind>,
    mut out: Channel<Full>,
    mut rejections: Channel<Full>,
) -> Stopped {
    let mut reader = Channel::new(Blocks {
        rest: TWO_REJECTED,
        size: 9,
        fault,
    });
    let wanted = wanted(&[Query::Pointer("/k")], Layout::Tabs);
    let result = run(alloc, &wanted, "f", &mut reader, &mut out, &mut rejections);
    Stopped {
        result,
        out,
        rejections,
    }
}

// Reading fails in mid-stream: what ended before is picked and named.
#[test]
fn a_failed_read_ends_the_run(rt: HostRuntime) {
    let (out, rejections) = (
        failing(rt.alloc(), 100, None),
        failing(rt.alloc(), 100, None),
    );
    let ran = run_into(rt.alloc(), Some(ErrorKind::Interrupted), out, rejections);
    assert_eq!(rt; ran.result, Err(Failure::Read));
    assert_eq!(rt; ran.out.into_inner().taken.as_slice(), ROWS);
    assert_eq!(rt;
        Some(ran.rejections.into_inner().taken.as_slice()),
        REJECTIONS.get(..51)
    );
}

// The writer of rows fails at each of its bytes in turn. It has those before, and is called no
// more. Who closes it has had enough: the result says whether a line was rejected before. In blocks
// of 9 bytes the first row is written before the second line is read to its end.
#[test]
fn a_failed_row_ends_the_run(rt: HostRuntime) {
    for fault in FAULTS {
        for good_calls in 0..ROWS.len() {
            let failure = match fault {
                Some(ErrorKind::BrokenPipe) => Failure::Closed(good_calls < 2),
                _ => Failure::Write,
            };
            let out = failing(rt.alloc(), good_calls, fault);
            let ran = run_into(rt.alloc(), None, out, failing(rt.alloc(), 100, fault));
            assert_eq!(rt; ran.result, Err(failure));
            assert!(rt; ran.out.failed() && !ran.rejections.failed());
            let out = ran.out.into_inner();
            assert_eq!(rt; Some(out.taken.as_slice()), ROWS.get(..good_calls));
            assert_eq!(rt; out.calls, good_calls.saturating_add(1));
        }
    }
}

// So does the one of rejected lines.
#[test]
fn a_failed_rejection_ends_the_run(rt: HostRuntime) {
    for fault in FAULTS {
        for good_calls in 0..REJECTIONS.len() {
            let rejections = failing(rt.alloc(), good_calls, fault);
            let ran = run_into(
                rt.alloc(),
                None,
                failing(rt.alloc(), 100, fault),
                rejections,
            );
            assert_eq!(rt; ran.result, Err(Failure::Name));
            assert!(rt; ran.rejections.failed() && !ran.out.failed());
            let rejections = ran.rejections.into_inner();
            assert_eq!(rt;
                Some(rejections.taken.as_slice()),
                REJECTIONS.get(..good_calls)
            );
            assert_eq!(rt; rejections.calls, good_calls.saturating_add(1));
            assert!(rt; ROWS.starts_with(ran.out.into_inner().taken.as_slice()));
        }
    }
}

// Before a rejected line is named the rows before it are written, though more of its block is left.
#[test]
fn rows_are_written_before_a_rejection_is_named(rt: HostRuntime) {
    let mut reader = Channel::new(TWO_REJECTED);
    let mut out = Channel::new(Vec::new(rt.alloc()));
    let mut rejections = failing(rt.alloc(), 0, None);
    let wanted = wanted(&[Query::Pointer("/k")], Layout::Tabs);
    let result = run(
        rt.alloc(),
        &wanted,
        "f",
        &mut reader,
        &mut out,
        &mut rejections,
    );
    assert_eq!(rt; result, Err(Failure::Name));
    assert_eq!(rt; out.into_inner().as_slice(), b"1\n".as_slice());
}

// Counts what it is given.
#[derive(Drop)]
struct Counted {
    bytes: usize,
    rows: usize,
}

impl Write for Counted {
    fn write(&mut self, buf: &[u8]) -> io::Result<usize> {
        self.bytes += buf.len();
        self.rows += buf.iter().filter(|byte| **byte == b'\n').count();
        Ok(buf.len())
    }

    fn flush(&mut self) -> io::Result<()> {
        Ok(())
    }
}

// Of 59 nested arrays each three are selected: 32,509 rows of 1.1 MB, in a heap of 64 kB. So is their
// array, as a cell of its own.
#[test]
fn rows_take_no_memory(rt: HostRuntime) -> Tested {
    let mut line = Vec::new(rt.alloc());
    line.resize(60, b'[')?;
    line.resize(120, b']')?;
    let arena = Bump::new(rt.alloc());
    let queries = [query(&arena, "$..*..*..*")?, Query::Pointer("")];
    for (count, layout, rows, bytes) in [
        (1, Layout::Tabs, 32_509, 1_007_779),
        (2, Layout::Tabs, 1, 1_007_779 + 123),
        (2, Layout::Csv, 1, 1_007_779 + 127),
    ] {
        let heap = LocalHeap::new(rt.alloc(), 1 << 16)?;
        let mut wanted = wanted(&queries[..count], layout);
        wanted.longest = 120;
        let mut out = Channel::new(Counted { bytes: 0, rows: 0 });
        let mut reader = Channel::new(line.as_slice());
        let mut rejections = Channel::new(Vec::new(rt.alloc()));
        let result = run(&heap, &wanted, "f", &mut reader, &mut out, &mut rejections);
        assert_eq!(rt; result, Ok(Taken::All));
        let out = out.into_inner();
        assert_eq!(rt; (out.rows, out.bytes), (rows, bytes));
    }
    Ok(())
}

// After the first read every allocation would fail, and none is made.
#[test]
fn no_memory_is_taken_after_the_start(rt: HostRuntime) -> Tested {
    let input = many_lines(rt.alloc())?;
    let heap = LocalHeap::new(rt.alloc(), 1 << 22)?;
    let mut reader = Channel::new(Hungry {
        rest: input.as_slice(),
        heap: &heap,
        pieces: Vec::new(rt.alloc()),
    });
    let mut out = Channel::new(Vec::new(rt.alloc()));
    let mut rejections = Channel::new(Vec::new(rt.alloc()));
    let arena = Bump::new(rt.alloc());
    let queries = [query(&arena, "/a")?, query(&arena, "$..k")?];
    let mut wanted = wanted(queries.as_slice(), Layout::Tsv);
    wanted.longest = 4096;
    let result = run(&heap, &wanted, "f", &mut reader, &mut out, &mut rejections);
    assert_eq!(rt; result, Ok(Taken::NotAll));
    let rows = out.into_inner();
    assert!(rt; rows.starts_with(b"[[\"\\\\n\"]]\t[\"0\"]\n\t[\"    "));
    assert_eq!(rt;
        rows.as_slice()
            .iter()
            .filter(|byte| **byte == b'\n')
            .count(),
        3000
    );
    Ok(())
}

// A document of which reading or writing fails, and one for which memory does, at each allocation:
// nothing is written then, or a prefix of the row.
#[test]
fn documents_that_fail(rt: HostRuntime) -> Tested {
    let input = b"{\"k\":[[1],[2]]}\n".as_slice();
    let mut wanted = wanted(&[Query::Pointer("/k")], Layout::Tabs);
    wanted.is_document = true;
    let mut reader = Channel::new(Blocks {
        rest: input,
        size: 3,
        fault: Some(ErrorKind::Interrupted),
    });
    let mut out = Channel::new(Vec::new(rt.alloc()));
    let mut rejections = Channel::new(Vec::new(rt.alloc()));
    let result = run(
        rt.alloc(),
        &wanted,
        "f",
        &mut reader,
        &mut out,
        &mut rejections,
    );
    assert_eq!(rt; result, Err(Failure::Read));
    assert_eq!(rt; out.into_inner().len() + rejections.into_inner().len(), 0);
    for fault in FAULTS {
        let mut out = failing(rt.alloc(), 4, fault);
        let mut rejections = failing(rt.alloc(), 0, fault);
        let mut reader = Channel::new(input);
        let result = run(
            rt.alloc(),
            &wanted,
            "f",
            &mut reader,
            &mut out,
            &mut rejections,
        );
        let failure = match fault {
            Some(ErrorKind::BrokenPipe) => Failure::Closed(true),
            _ => Failure::Write,
        };
        assert_eq!(rt; result, Err(failure));
        assert_eq!(rt; out.into_inner().taken.as_slice(), b"[[1]".as_slice());
    }
    let (mut has_failed, mut has_run) = (false, false);
    for size in 1..96 {
        let heap = LocalHeap::new(rt.alloc(), size << 8)?;
        let mut reader = Channel::new(input);
        let mut out = Channel::new(Vec::new(rt.alloc()));
        let mut rejections = Channel::new(Vec::new(rt.alloc()));
        let result = run(&heap, &wanted, "f", &mut reader, &mut out, &mut rejections);
        let (rows, rejections) = (out.into_inner(), rejections.into_inner());
        assert_eq!(rt; rejections.len(), 0);
        if result == Err(Failure::Resources) {
            has_failed = true;
            assert_eq!(rt; rows.len(), 0);
        } else {
            has_run = true;
            assert_eq!(rt; result, Ok(Taken::All));
            assert_eq!(rt; rows.as_slice(), b"[[1],[2]]\n".as_slice());
        }
    }
    assert!(rt; has_failed && has_run);
    Ok(())
}

// Of a document that nests deeper than a line could, what is kept of open containers and the text of
// a column are allocated: in heaps of growing size each allocation fails in some, and no row is
// written then.
#[test]
fn memory_for_deep_documents_fails(rt: HostRuntime) -> Tested {
    let mut input = Vec::new(rt.alloc());
    input.resize(200, b'[')?;
    input.resize(400, b']')?;
    for (layout, has_sorted_keys) in [
        (Layout::Tabs, false),
        (Layout::Tsv, false),
        (Layout::Tsv, true),
    ] {
        let mut wanted = wanted(&[Query::Pointer("")], layout);
        wanted.is_document = true;
        wanted.has_sorted_keys = has_sorted_keys;
        let mut failures = 0usize;
        let mut has_run = false;
        for size in 1..240 {
            let heap = LocalHeap::new(rt.alloc(), size << 8)?;
            let mut reader = Channel::new(input.as_slice());
            let mut out = Channel::new(Vec::new(rt.alloc()));
            let mut rejections = Channel::new(Vec::new(rt.alloc()));
            let result = run(&heap, &wanted, "f", &mut reader, &mut out, &mut rejections);
            let rows = out.into_inner();
            if result == Ok(Taken::All) {
                has_run = true;
                assert_eq!(rt; rows.len(), 401);
                assert!(rt; rows.starts_with(input.as_slice()));
            } else {
                assert!(rt; !has_run);
                failures += 1;
                assert_eq!(rt; result, Err(Failure::Resources));
                assert_eq!(rt; rows.len(), 0);
            }
        }
        assert!(rt; has_run && failures > 20);
    }
    Ok(())
}

// Rows of each value that a query selects: tests and queries are of that value.
#[test]
fn rows_are_of_each_value(rt: HostRuntime) -> Tested {
    let input =
        b"{\"u\":[{\"n\":\"a\",\"g\":1},{\"n\":\"b\"},{\"g\":[2]}],\"v\":{\"g\":3}}\n{\"u\":[]}\n7\n".as_slice();
    let rows: [(&str, &[&str], Option<&str>, bool, &str); 12] = [
        (
            "$.u[*]",
            &["/n", "/g"],
            None,
            false,
            "\"a\"\t1\n\"b\"\t\n\t[2]\n",
        ),
        ("$.u[*]", &["/n", "/g"], None, true, "\"a\"\t1\n"),
        ("$.u[*]", &["/n"], Some("@.g"), false, "\"a\"\n\n"),
        ("$.u[*]", &["/n"], Some("@.g == 1"), false, "\"a\"\n"),
        ("$.u[*]", &["$.*"], None, false, "\"a\"\n1\n\"b\"\n[2]\n"),
        (
            "$.u[*]",
            &["", "$..*"],
            Some("@.n == 'b'"),
            false,
            "{\"n\":\"b\"}\t[\"b\"]\n",
        ),
        ("$..g", &[""], None, false, "1\n[2]\n3\n"),
        ("$", &["/v/g"], None, false, "3\n\n\n"),
        ("", &["/v/g"], None, false, "3\n\n\n"),
        ("/u", &["$[*].n"], None, false, "\"a\"\n\"b\"\n"),
        ("/u/1", &["/n"], None, false, "\"b\"\n"),
        ("/w", &["/n"], None, false, ""),
    ];
    let arena = Bump::new(rt.alloc());
    for (each, texts, filter, needs_all, expected) in rows {
        let mut queries = Vec::new(rt.alloc());
        for text in texts {
            queries.push(query(&arena, text)?)?;
        }
        let mut filters = Vec::new(rt.alloc());
        if let Some(text) = filter {
            filters.push(Filter::new(&arena, text)?)?;
        }
        let mut wanted = wanted(queries.as_slice(), Layout::Tabs);
        wanted.each = Some(query(&arena, each)?);
        wanted.filters = filters.as_slice();
        wanted.needs_all = needs_all;
        wanted.longest = 100;
        let ran = run_by(rt.alloc(), &wanted, 16, input);
        assert_eq!(rt; ran.result, Ok(Taken::All));
        assert_eq!(rt; String::from_utf8(ran.rows)?.as_str(), expected);
        assert_eq!(rt; ran.rejections.len(), 0);
    }
    Ok(())
}

// In heaps of growing size each allocation of the start fails in some: nothing is read or written
// then.
#[test]
fn too_little_memory_ends_the_run(rt: HostRuntime) -> Tested {
    let input = b"{\"k\":1}\n[1,]\n".as_slice();
    let wanted = wanted(&[Query::Pointer("/k")], Layout::Tabs);
    let (mut has_failed, mut has_run) = (false, false);
    for size in 1..96 {
        let heap = LocalHeap::new(rt.alloc(), size << 8)?;
        let mut reader = Channel::new(input);
        let mut out = Channel::new(Vec::new(rt.alloc()));
        let mut rejections = Channel::new(Vec::new(rt.alloc()));
        let result = run(&heap, &wanted, "f", &mut reader, &mut out, &mut rejections);
        let (rows, rejections) = (out.into_inner(), rejections.into_inner());
        if result == Err(Failure::Resources) {
            has_failed = true;
            assert_eq!(rt; reader.into_inner(), input);
            assert_eq!(rt; rows.len() + rejections.len(), 0);
        } else {
            has_run = true;
            assert_eq!(rt; result, Ok(Taken::NotAll));
            assert_eq!(rt; rows.as_slice(), b"1\n".as_slice());
            assert_eq!(rt;
                rejections.as_slice(),
                b"f:2:4: expected a value, found `]` [InternalError]\n".as_slice()
            );
        }
    }
    assert!(rt; has_failed && has_run);
    Ok(())
}
