// Queries that are read from text; worked ones are in tests/vectors/path.txt.
use crate::tests::{Tested, assert_path_selects};
use bumpalo::Bump;
use linked_list_allocator::LocalHeap;
use simd_json::to_tape;
use simd_json_path::{Filter, Path, PathError, PathExpected};
use std::process::Abort;

#[test]
fn a_text_selects_what_it_spells(rt: HostRuntime) -> Tested {
    let arena = Bump::new(rt.alloc());
    let path = Path::new(&arena, "$.a[-1]..['b', \"\\u0063\"]").expect(&rt, "a query");
    let document = "{\"a\":[{\"b\":0},{\"b\":1,\"d\":[{\"c\":2,\"b\":3}]}]}";
    assert_path_selects(&rt, document, &path, &["1", "3", "2"]);
    Ok(())
}

#[test]
fn an_error_has_a_place_and_words(rt: HostRuntime) -> Tested {
    let arena = Bump::new(rt.alloc());
    let Err(error) = Path::new(&arena, "$.a[") else {
        assert!(rt; false, "no query");
        return Ok(());
    };
    assert_eq!(rt; error.index, 4);
    assert_eq!(rt; error.expected, PathExpected::Selector);
    let words = format!(in rt.alloc(); "{error}")?;
    assert_eq!(rt; words.as_str(), "expected a selector at byte 4");
    Ok(())
}

#[test]
fn many_segments_are_read(rt: HostRuntime) -> Tested {
    let mut text = String::from_str(rt.alloc(), "$")?;
    for _ in 0..10_000 {
        text.push_str("[0]")?;
    }
    let arena = Bump::new(rt.alloc());
    let path = Path::new(&arena, text.as_str()).expect(&rt, "a query");
    assert_path_selects(&rt, "[[]]", &path, &[]);
    Ok(())
}

#[test]
fn a_test_holds_as_it_spells(rt: HostRuntime) -> Tested {
    let arena = Bump::new(rt.alloc());
    let mut input = Vec::from_slice(rt.alloc(), b"{\"price\":8.95,\"isbn\":null,\"tags\":[1,2]}")?;
    let tape = to_tape(rt.alloc(), input.as_mut_slice()).expect(&rt, "a document");
    let value = tape.as_value();
    let passed = [
        "@.price < 10 && @.isbn",
        " !(@.price<=8.949) && ! @.name ",
        "$.tags == @.tags && length(@.tags) == 2e0 && @.isbn == null",
        "@.name || count( @.tags[ -1 ] ) >= 1 && value(@['tags'][0]) != '1'",
    ];
    for text in passed {
        let filter = Filter::new(&arena, text).expect(&rt, "a test");
        assert!(rt; filter.holds(&value), "{text}");
    }
    let failed = [
        "@.price > 8.95",
        "!@.isbn",
        "@.name && @.isbn || @.name",
        "@.isbn == @.name",
    ];
    for text in failed {
        let filter = Filter::new(&arena, text).expect(&rt, "a test");
        assert!(rt; !filter.holds(&value), "{text}");
    }
    let Err(error) = Filter::new(&arena, "@.price < 10 & @.isbn") else {
        assert!(rt; false, "no test");
        return Ok(());
    };
    assert_eq!(rt; error.index, 13);
    assert_eq!(rt; error.expected, PathExpected::End);
    Ok(())
}

// Of a test that is asked for at each amount of memory: as far as one is missing that is said, and
// then there is enough. Returns how often it was missing.
fn missing(
    rt: &(impl AllocGlobal + Abort),
    read: impl Fn(&LocalHeap) -> Result<(), PathError>,
) -> usize {
    let mut missing = 0usize;
    let mut enough = 0usize;
    for units in 0..300usize {
        let heap = LocalHeap::new(rt.alloc(), 96 + units * 64).expect(rt, "memory");
        match read(&heap) {
            Ok(()) => enough += 1,
            Err(error) => {
                assert_eq!(rt; error.expected, PathExpected::Memory);
                assert_eq!(rt; enough, 0);
                missing += 1;
            }
        }
    }
    assert!(rt; enough > 0);
    missing
}

#[test]
fn memory_that_is_missing_is_named(rt: HostRuntime) -> Tested {
    let test = "@.price < 10 && (@['a\\u0062'][0] || !(@.c == \"d\\n\") || 1 < length(@.e)) \
        || count(@.f..['m', 1:2, *].g[*]) == 1 && value($['h'].i[2]) != 'j' \
        && @.k && @.l && @.m && @.n && @.o && match(@.p, '[q-s]+t')";
    let query = format!(in rt.alloc(); "$.a['b', 1:2, *, \"\\u0063\"]..[?{test}].d[0].e..f")?;
    let filters = missing(&rt, |heap| {
        let arena = Bump::new(heap);
        Filter::new(&arena, test)?;
        Ok(())
    });
    assert!(rt; filters > 8);
    let paths = missing(&rt, |heap| {
        let arena = Bump::new(heap);
        Path::new(&arena, query.as_str())?;
        Ok(())
    });
    assert!(rt; paths >= filters);
    Ok(())
}
