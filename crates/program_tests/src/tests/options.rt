//! What the arguments of the programs ask for, and how files are picked of in turn.
use crate::tests::Tested;
use bumpalo::Bump;
use jpick::{Hint, Layout, Query, Taken, Unasked, asked, pick_each, status_by_rows};
use log_report::Selector;
use log_report::Selector::Key;
use programs::Failure;
use simd_json_path::{Comparable, Comparison, Filter, Path, PathError, PathExpected, Test};
use std::alloc::{AllocError, Global};

// The words of a command line.
fn words(alloc: Global, arguments: &[&str]) -> Result<Vec<String>, AllocError> {
    let mut words = Vec::new(alloc);
    words.push(String::from_str(alloc, "jpick")?)?;
    for argument in arguments {
        words.push(String::from_str(alloc, *argument)?)?;
    }
    Ok(words)
}

// Arguments; the layout; whether rows are raw, need all and are quiet; how many bytes a line may
// have; files. The queries are `/a` and `/b`.
type Row = (
    &'static [&'static str],
    Layout,
    [bool; 3],
    usize,
    &'static [&'static str],
);

#[test]
fn arguments_are_read(rt: HostRuntime) -> Tested {
    let none = [false; 3];
    let rows: [Row; 13] = [
        (&["/a", "--and", "/b"], Layout::Tabs, none, 65_536, &["-"]),
        (
            &["--tsv", "/a", "--and", "/b"],
            Layout::Tsv,
            none,
            65_536,
            &["-"],
        ),
        (
            &["--csv", "/a", "--and", "/b"],
            Layout::Csv,
            none,
            65_536,
            &["-"],
        ),
        (
            &["--json", "/a", "--and", "/b"],
            Layout::Json,
            none,
            65_536,
            &["-"],
        ),
        (
            &["/a", "--json", "--and", "/b"],
            Layout::Json,
            none,
            65_536,
            &["-"],
        ),
        (
            &["-r", "/a", "--and", "/b"],
            Layout::Tabs,
            [true, false, false],
            65_536,
            &["-"],
        ),
        (
            &["--raw", "/a", "--and", "/b"],
            Layout::Tabs,
            [true, false, false],
            65_536,
            &["-"],
        ),
        (
            &["--all", "/a", "--and", "/b"],
            Layout::Tabs,
            [false, true, false],
            65_536,
            &["-"],
        ),
        (
            &["-q", "/a", "--and", "/b"],
            Layout::Tabs,
            [false, false, true],
            65_536,
            &["-"],
        ),
        (
            &["--quiet", "/a", "--and", "/b"],
            Layout::Tabs,
            [false, false, true],
            65_536,
            &["-"],
        ),
        (
            &["--longest", "7", "/a", "--and", "/b"],
            Layout::Tabs,
            none,
            7,
            &["-"],
        ),
        (
            &["/a", "f", "--and", "/b", "--", "-", "--csv"],
            Layout::Tabs,
            none,
            65_536,
            &["f", "-", "--csv"],
        ),
        (
            &[
                "-rq",
                "--all",
                "--csv",
                "--longest=4294967295",
                "--and=/b",
                "/a",
                "--",
                "f",
            ],
            Layout::Csv,
            [true; 3],
            4_294_967_295,
            &["f"],
        ),
    ];
    for (arguments, layout, flags, longest, files) in rows {
        let words = words(rt.alloc(), arguments)?;
        let arena = Bump::new(rt.alloc());
        let Ok(options) = asked(rt.alloc(), &arena, words.as_slice()) else {
            assert!(rt; false);
            continue;
        };
        let wanted = options.wanted();
        assert_eq!(rt; wanted.layout, layout);
        assert_eq!(rt; [wanted.is_raw, wanted.needs_all, wanted.is_quiet], flags);
        assert_eq!(rt; wanted.longest, longest);
        match wanted.queries {
            [first, second] => assert_eq!(rt; (first.text(), second.text()), ("/a", "/b")),
            _ => assert!(rt; false),
        }
        assert_eq!(rt; wanted.filters.len(), 0);
        assert_eq!(rt; options.files(), files);
    }
    Ok(())
}

#[test]
fn a_depth_is_read(rt: HostRuntime) -> Tested {
    let rows: [(&[&str], usize); 2] = [(&["/a"], 1024), (&["--depth", "0", "/a"], 0)];
    for (arguments, depth) in rows {
        let words = words(rt.alloc(), arguments)?;
        let arena = Bump::new(rt.alloc());
        match asked(rt.alloc(), &arena, words.as_slice()) {
            Ok(options) => assert_eq!(rt; options.wanted().depth, depth),
            Err(_) => assert!(rt; false),
        }
    }
    Ok(())
}

// What jcheck is asked for.
#[test]
fn checks_are_asked_for(rt: HostRuntime) -> Tested {
    let rows: [(&[&str], usize, bool, Option<bool>, &[&str]); 4] = [
        (&[], 1024, false, None, &["-"]),
        (&["--color", "auto", "f"], 1024, false, None, &["f"]),
        (
            &["--color=always", "--depth", "0"],
            0,
            false,
            Some(true),
            &["-"],
        ),
        (
            &["--lines", "f", "-", "--depth=007", "--color", "never", "g"],
            7,
            true,
            Some(false),
            &["f", "-", "g"],
        ),
    ];
    for (arguments, depth, has_lines, color, files) in rows {
        let words = words(rt.alloc(), arguments)?;
        match jcheck::asked(rt.alloc(), words.as_slice()) {
            Ok(options) => {
                assert_eq!(rt; options.depth(), depth);
                assert_eq!(rt; (options.has_lines(), options.color()), (has_lines, color));
                assert_eq!(rt; options.files(), files);
            }
            Err(_) => assert!(rt; false),
        }
    }
    Ok(())
}

// How log_report counts and prints, and how long a line may be.
#[test]
fn counts_are_asked_for(rt: HostRuntime) -> Tested {
    let rows: [(&[&str], bool, u32, usize); 3] = [
        (&["a"], false, 1024, 65_536),
        (&["a", "--tsv", "--values", "3"], true, 3, 65_536),
        (&["--longest=7", "a"], false, 1024, 7),
    ];
    for (arguments, is_tsv, values, longest) in rows {
        let words = words(rt.alloc(), arguments)?;
        match log_report::asked(rt.alloc(), words.as_slice()) {
            Ok(options) => {
                let wanted = options.wanted();
                assert_eq!(rt; (wanted.is_tsv, wanted.values), (is_tsv, values));
                assert_eq!(rt; wanted.longest, longest);
            }
            Err(_) => assert!(rt; false),
        }
    }
    Ok(())
}

// What jcheck prints where an allocation fails.
#[test]
fn want_of_memory_is_said(rt: HostRuntime) -> Tested {
    let failure = jcheck::Failure::of_input(None);
    assert_eq!(rt;
        format!(in rt.alloc(); "{failure}")?.as_str(),
        "out of memory"
    );
    Ok(())
}

// A number has digits alone.
#[test]
fn numbers_are_read(rt: HostRuntime) -> Tested {
    let rows: [(&str, bool); 8] = [
        ("0", true),
        ("7", true),
        ("007", true),
        ("", false),
        ("+7", false),
        ("-0", false),
        ("7 ", false),
        ("x", false),
    ];
    for (number, is_read) in rows {
        let arena = Bump::new(rt.alloc());
        for option in ["--depth", "--longest", "--values"] {
            let of_jcheck = words(rt.alloc(), &[option, number])?;
            let others = words(rt.alloc(), &["/a", option, number])?;
            let is_checked = jcheck::asked(rt.alloc(), of_jcheck.as_slice()).is_ok();
            let is_counted = log_report::asked(rt.alloc(), others.as_slice()).is_ok();
            let is_picked = asked(rt.alloc(), &arena, others.as_slice()).is_ok();
            assert_eq!(rt; is_checked, is_read && option == "--depth");
            assert_eq!(rt; is_counted, is_read && option != "--depth");
            assert_eq!(rt; is_picked, is_read && option != "--values");
        }
    }
    Ok(())
}

// Lines are counted by any key but one that looks like a path of jq or a JSONPath, and by any JSON
// Pointer that is not malformed.
#[test]
fn selectors_are_read(rt: HostRuntime) -> Tested {
    let escape = "expected 0 or 1 after each ~";
    let path = "log_report counts by a key or a JSON Pointer: level, /level; --key takes any key";
    let rows: [(&str, Result<Selector<'_>, &str>); 19] = [
        ("", Ok(Key(""))),
        ("~", Ok(Key("~"))),
        ("a/~2", Ok(Key("a/~2"))),
        ("a.b", Ok(Key("a.b"))),
        ("[0]", Ok(Key("[0]"))),
        ("@.a", Ok(Key("@.a"))),
        ("/", Ok(Selector::Pointer("/"))),
        ("/~0", Ok(Selector::Pointer("/~0"))),
        ("/~01/~1", Ok(Selector::Pointer("/~01/~1"))),
        ("/.a/$", Ok(Selector::Pointer("/.a/$"))),
        ("/~", Err(escape)),
        ("/~2", Err(escape)),
        ("/~/0", Err(escape)),
        ("/a/~1~", Err(escape)),
        ("/~~0", Err(escape)),
        (".a", Err(path)),
        (".a.b", Err(path)),
        ("$.a", Err(path)),
        ("$", Err(path)),
    ];
    for (selector, wanted) in rows {
        for arguments in [[selector, "--and", "a"], ["a", "--and", selector]] {
            let words = words(rt.alloc(), arguments.as_slice())?;
            match (log_report::asked(rt.alloc(), words.as_slice()), wanted) {
                (Ok(options), Ok(wanted)) => {
                    assert!(rt; options.wanted().selectors.contains(&wanted));
                }
                (Err(e), Err(reason)) => {
                    let message = format!(in rt.alloc(); "{e}")?;
                    let told = format!(in rt.alloc();
                        "error: invalid value '{selector}' for '<KEY|POINTER>': {reason}\n"
                    )?;
                    assert!(rt; message.as_str().starts_with(told.as_str()));
                }
                _ => assert!(rt; false),
            }
        }
    }
    Ok(())
}

// What --key gives is a key, whatever it begins with; options are counted in their order, after the
// first word. Where --key comes before that, it is a file.
#[test]
fn keys_are_read(rt: HostRuntime) -> Tested {
    let rows: [(&[&str], &[Selector<'_>], &[&str]); 7] = [
        (&["--key", ".a"], &[Key(".a")], &["-"]),
        (&["--key", ".a", "f", "g"], &[Key(".a")], &["f", "g"]),
        (&["--key=/a", "--key", "$"], &[Key("/a"), Key("$")], &["-"]),
        (&["a", "--key", ".b", "f"], &[Key("a"), Key(".b")], &["f"]),
        (
            &["--and", "/b", "a", "--key", "c", "--and", "d", "--key=-e"],
            &[
                Key("a"),
                Selector::Pointer("/b"),
                Key("c"),
                Key("d"),
                Key("-e"),
            ],
            &["-"],
        ),
        (
            &["--and", "b", "--key", "c", "f"],
            &[Key("b"), Key("c")],
            &["f"],
        ),
        (
            &["--key", "c", "--key", "d", "f", "--and", "b"],
            &[Key("c"), Key("d"), Key("b")],
            &["f"],
        ),
    ];
    for (arguments, selectors, files) in rows {
        let words = words(rt.alloc(), arguments)?;
        match log_report::asked(rt.alloc(), words.as_slice()) {
            Ok(options) => {
                assert_eq!(rt; options.wanted().selectors, selectors);
                assert_eq!(rt; options.files(), files);
            }
            Err(_) => assert!(rt; false),
        }
    }
    Ok(())
}

// What begins with `$` is a JSONPath, and else a JSON Pointer.
#[test]
fn queries_are_read(rt: HostRuntime) -> Tested {
    let words = words(
        rt.alloc(),
        &["$.a", "--and", "/$", "--and=$[*].a", "--and", ""],
    )?;
    let arena = Bump::new(rt.alloc());
    let Ok(options) = asked(rt.alloc(), &arena, words.as_slice()) else {
        assert!(rt; false);
        return Ok(());
    };
    match options.wanted().queries {
        [
            Query::Path(first, name),
            Query::Pointer(second),
            Query::Path(third, all),
            Query::Pointer(last),
        ] => {
            assert_eq!(rt;
                [*first, *second, *third, *last],
                ["$.a", "/$", "$[*].a", ""]
            );
            assert_eq!(rt; (name.steps.len(), name.segments.len()), (1, 0));
            assert_eq!(rt; (all.steps.len(), all.segments.len()), (0, 1));
        }
        _ => assert!(rt; false),
    }
    Ok(())
}

// In the order of the words.
#[test]
fn conditions_are_read(rt: HostRuntime) -> Tested {
    let words = words(
        rt.alloc(),
        &["--where", "@.a", "/k", "--where=@.b < 1", "--where", "!@.c"],
    )?;
    let arena = Bump::new(rt.alloc());
    let Ok(options) = asked(rt.alloc(), &arena, words.as_slice()) else {
        assert!(rt; false);
        return Ok(());
    };
    match options.wanted().filters {
        [first, second, last] => {
            assert!(rt; matches!(first.test, Test::Exists(_)));
            assert!(rt;
                matches!(
                    second.test,
                    Test::Compare(
                        Comparable::Query(_),
                        Comparison::Less,
                        Comparable::Literal(_)
                    )
                )
            );
            assert!(rt; matches!(last.test, Test::Not(_)));
        }
        _ => assert!(rt; false),
    }
    Ok(())
}

#[test]
fn wrong_queries_are_named(rt: HostRuntime) -> Tested {
    let rows: [(&[&str], &str); 3] = [
        (&["a"], "a"),
        (&["/a", "--and", "/~"], "/~"),
        (&["/a", "--and", "@.a"], "@.a"),
    ];
    for (arguments, query) in rows {
        let words = words(rt.alloc(), arguments)?;
        let arena = Bump::new(rt.alloc());
        match asked(rt.alloc(), &arena, words.as_slice()) {
            Err(Unasked::NoQuery(word)) => assert_eq!(rt; word, query),
            _ => assert!(rt; false),
        }
    }
    Ok(())
}

// Where a text is no JSONPath or no condition, and what it lacks there.
#[test]
fn wrong_places_are_named(rt: HostRuntime) -> Tested {
    let rows: [(&[&str], &str, &str, usize, PathExpected); 6] = [
        (&["$.a["], "$.a[", "", 4, PathExpected::Selector),
        (&["/a", "--and", "$a"], "$a", "", 1, PathExpected::Segment),
        (
            &["/a", "--where", "/b=1"],
            "",
            "/b=1",
            0,
            PathExpected::Test,
        ),
        (
            &["/a", "--where", "@.b = 1"],
            "",
            "@.b = 1",
            4,
            PathExpected::End,
        ),
        (&["/a", "--where="], "", "", 0, PathExpected::Test),
        (
            &["/a", "--where", "match(@.b)"],
            "",
            "match(@.b)",
            9,
            PathExpected::Comma,
        ),
    ];
    for (arguments, path, condition, index, expected) in rows {
        let words = words(rt.alloc(), arguments)?;
        let arena = Bump::new(rt.alloc());
        let lacks = PathError { index, expected };
        match asked(rt.alloc(), &arena, words.as_slice()) {
            Err(Unasked::NoPath(word, e)) => {
                assert_eq!(rt; (word, "", e), (path, condition, lacks));
            }
            Err(Unasked::NoCondition(word, e)) => {
                assert_eq!(rt; ("", word, e), (path, condition, lacks));
            }
            _ => assert!(rt; false),
        }
    }
    Ok(())
}

// What people write of other languages, and what is meant where it is no query.
#[test]
fn hints_are_given(rt: HostRuntime) -> Tested {
    let rows: [(&str, Option<Hint>); 26] = [
        ("@.a = 1", Some(Hint::Equal)),
        ("@.a === 1", Some(Hint::Equal)),
        ("@.a & @.b", Some(Hint::And)),
        ("@.a and @.b", Some(Hint::And)),
        ("@.a == 1 AND @.b", Some(Hint::And)),
        ("@.a or @.b", Some(Hint::Or)),
        ("@.a OR @.b", Some(Hint::Or)),
        ("@.a | @.b", Some(Hint::Or)),
        ("not @.a", Some(Hint::Not)),
        ("NOT @.a", Some(Hint::Not)),
        ("not(@.a)", Some(Hint::Not)),
        ("@.a in [1, 2]", Some(Hint::In)),
        ("'a' IN @.b", Some(Hint::In)),
        ("@.a =~ /b/", Some(Hint::Pattern)),
        ("@.a like 'b'", Some(Hint::Pattern)),
        ("@.a LIKE 'b'", Some(Hint::Pattern)),
        ("a == 1", Some(Hint::Name)),
        ("nothing == 1", Some(Hint::Name)),
        ("_a == 1", Some(Hint::Name)),
        (".a == 1", Some(Hint::Name)),
        ("/a == 1", Some(Hint::Name)),
        ("@.a == b", Some(Hint::Name)),
        ("!a", Some(Hint::Name)),
        ("@.a-b == 1", Some(Hint::Quoted)),
        ("@.a == ", None),
        ("@.a == 1 }", None),
    ];
    let arena = Bump::new(rt.alloc());
    for (condition, wanted) in rows {
        match Filter::new(&arena, condition) {
            Err(e) => assert_eq!(rt; Hint::of(condition, e), wanted),
            Ok(_) => assert!(rt; false),
        }
    }
    let paths: [(&str, Option<Hint>); 7] = [
        ("$.a-b", Some(Hint::Quoted)),
        ("$.'a'", Some(Hint::Quoted)),
        ("$a", Some(Hint::Root)),
        ("$.a,$.b", Some(Hint::Further)),
        ("$[?@.a = 1]", Some(Hint::Equal)),
        ("$.a == 1", Some(Hint::Where)),
        ("$.", None),
    ];
    for (path, wanted) in paths {
        match Path::new(&arena, path) {
            Err(e) => assert_eq!(rt; Hint::of(path, e), wanted),
            Ok(_) => assert!(rt; false),
        }
    }
    Ok(())
}

// Where lines are filtered, values are printed over several lines, or there are rows of each of some,
// the query may be left out: the first word is a file, if it is no query.
#[test]
fn queries_are_left_out(rt: HostRuntime) -> Tested {
    let rows: [(&[&str], &[&str], &[&str]); 11] = [
        (&["--each", "$.a[*]", "f"], &[""], &["f"]),
        (&["--each=/a", "/b", "f"], &["/b"], &["f"]),
        (&["--pretty"], &[""], &["-"]),
        (&["-d", "--pretty", "f"], &[""], &["f"]),
        (&["--where", "@.a"], &[""], &["-"]),
        (&["--where", "@.a", "f", "g"], &[""], &["f", "g"]),
        (&["f", "--where", "@.a", "--and", "/b"], &["", "/b"], &["f"]),
        (&["--where", "@.a", "/b", "f"], &["/b"], &["f"]),
        (&["--where", "@.a", "$.b"], &["$.b"], &["-"]),
        (&["", "--where", "@.a", "f"], &[""], &["f"]),
        (&["/b", "f"], &["/b"], &["f"]),
    ];
    for (arguments, queries, files) in rows {
        let words = words(rt.alloc(), arguments)?;
        let arena = Bump::new(rt.alloc());
        let Ok(options) = asked(rt.alloc(), &arena, words.as_slice()) else {
            assert!(rt; false);
            continue;
        };
        assert_eq!(rt; options.wanted().queries.len(), queries.len());
        for (query, text) in options.wanted().queries.iter().zip(queries.iter()) {
            assert_eq!(rt; query.text(), *text);
        }
        assert_eq!(rt; options.files(), files);
    }
    Ok(())
}

// With -e a line of which a query selects nothing has no row, and without a row the status is 1.
#[test]
fn rows_are_needed(rt: HostRuntime) -> Tested {
    let rows: [(&[&str], bool); 3] = [
        (&["-e", "/a"], true),
        (&["/a", "--exit-status"], true),
        (&["/a", "--all"], false),
    ];
    for (arguments, needs_rows) in rows {
        let words = words(rt.alloc(), arguments)?;
        let arena = Bump::new(rt.alloc());
        match asked(rt.alloc(), &arena, words.as_slice()) {
            Ok(options) => {
                assert!(rt; options.wanted().needs_all);
                assert_eq!(rt; options.needs_rows(), needs_rows);
            }
            Err(_) => assert!(rt; false),
        }
    }
    assert_eq!(rt;
        [
            status_by_rows(0, true, false),
            status_by_rows(3, true, false),
            status_by_rows(0, true, true),
            status_by_rows(0, false, false),
        ],
        [1, 3, 0, 0]
    );
    Ok(())
}

// A query with `..` takes no more memory for a deeper document.
#[test]
fn any_depth_is_taken(rt: HostRuntime) -> Tested {
    let rows: [&[&str]; 4] = [
        &["$..a", "--depth=1000000"],
        &["/a", "--and", "$.a..b", "--depth=1000000"],
        &["$[?@..a]", "--depth=1000000"],
        &["", "--where", "@.a && $..b", "--depth=1000000"],
    ];
    for arguments in rows {
        let words = words(rt.alloc(), arguments)?;
        let arena = Bump::new(rt.alloc());
        assert!(rt; asked(rt.alloc(), &arena, words.as_slice()).is_ok());
    }
    Ok(())
}

// How many files are picked of, and the status, where their runs return these in turn.
fn picked(results: [Result<Taken, Failure>; 3]) -> (usize, u8) {
    let mut count = 0usize;
    let status = pick_each(
        |_file| {
            let result = results[count % 3];
            count = count.saturating_add(1);
            result
        },
        &["a", "b", "c"],
    );
    (count, status)
}

// A closed output skips the files after it, and so does a document in place of lines.
#[test]
fn files_are_picked_in_turn(rt: HostRuntime) {
    let (clean, rejected, unread) = (Ok(Taken::All), Ok(Taken::NotAll), Err(Failure::Read));
    assert_eq!(rt; picked([clean, clean, clean]), (3, 0));
    assert_eq!(rt; picked([rejected, clean, clean]), (3, 1));
    assert_eq!(rt; picked([clean, unread, rejected]), (3, 3));
    assert_eq!(rt; picked([Err(Failure::Write), clean, rejected]), (3, 3));
    assert_eq!(rt; picked([clean, Err(Failure::Closed(true)), unread]), (2, 0));
    assert_eq!(rt;
        picked([rejected, Err(Failure::Closed(true)), unread]),
        (2, 1)
    );
    assert_eq!(rt;
        picked([Err(Failure::Closed(false)), clean, unread]),
        (1, 1)
    );
    assert_eq!(rt; picked([unread, Err(Failure::Closed(true)), clean]), (2, 3));
    assert_eq!(rt; picked([rejected, Ok(Taken::Document), clean]), (2, 2));
    assert_eq!(rt; picked([unread, Ok(Taken::Document), clean]), (2, 3));
}
