// Regular expressions by themselves; worked ones are in tests/vectors/path.txt.
use crate::tests::Tested;
use simd_json::to_tape;
use simd_json_path::{Comparable, Filter, Literal, Matcher, SingularQuery, Step, Test};
use simd_json_regexp::{MAX_NODES, Node, Pattern, PatternError, is_found, is_match};

#[test]
fn a_text_matches_as_a_whole_or_is_found(rt: HostRuntime) -> Tested {
    assert!(rt; is_match("[a-c]+\\.(x|y){2}", "abc.xy"));
    assert!(rt; !is_match("[a-c]+", "abcd"));
    assert!(rt; is_found("[a-c]+", "-abcd"));
    assert!(rt; !is_found("[a-c]{2}", "a-b-c"));
    assert!(rt; !is_match("[", "["));
    assert!(rt; !is_found("a{1000}", "a"));
    Ok(())
}

#[test]
fn a_pattern_is_read_once(rt: HostRuntime) -> Tested {
    let mut memory = [Node::EMPTY; MAX_NODES];
    let pattern = Pattern::new("\\p{Lu}\\p{Ll}*", &mut memory).expect(&rt, "a pattern");
    let nodes = Vec::from_slice(rt.alloc(), pattern.nodes())?;
    let copy = pattern.with_nodes(nodes.as_slice());
    for pattern in [pattern, copy] {
        assert!(rt; pattern.is_match("Éa"));
        assert!(rt; !pattern.is_match("aÉ"));
        assert!(rt; !pattern.is_match(""));
    }
    assert!(rt; !Pattern::never().is_match(""));
    let mut memory = [Node::EMPTY; MAX_NODES];
    let found = Pattern::within("a|b", &mut memory).expect(&rt, "a pattern");
    assert!(rt; found.is_match("xbx"));
    assert!(rt; !found.is_match("x"));
    Ok(())
}

#[test]
fn what_is_no_pattern_is_said(rt: HostRuntime) -> Tested {
    let rows = [
        ("[z-a]", PatternError::NoPattern),
        ("a{3,2}", PatternError::NoPattern),
        ("((a)", PatternError::NoPattern),
        ("a{600}", PatternError::TooLarge),
        ("(){2000}", PatternError::TooLarge),
    ];
    for (text, wanted) in rows {
        let mut memory = [Node::EMPTY; MAX_NODES];
        match Pattern::new(text, &mut memory) {
            Ok(_) => assert!(rt; false, "{text}"),
            Err(error) => assert_eq!(rt; error, wanted),
        }
        match Pattern::within(text, &mut memory) {
            Ok(_) => assert!(rt; false, "{text}"),
            Err(error) => assert_eq!(rt; error, wanted),
        }
    }
    Ok(())
}

// In the time of the length alone, whatever the pattern.
#[test]
fn long_texts_and_patterns_end(rt: HostRuntime) -> Tested {
    let mut text = String::new(rt.alloc());
    for _ in 0..20_000 {
        text.push_str("aaaaa")?;
    }
    assert!(rt; !is_match("(a*)*b", text.as_str()));
    assert!(rt; is_match("(a*)*b?", text.as_str()));
    assert!(rt; !is_found(text.as_str(), text.as_str()));
    let mut nested = String::new(rt.alloc());
    for _ in 0..60_000 {
        nested.push('(')?;
    }
    assert!(rt; !is_match(nested.as_str(), "("));
    Ok(())
}

#[test]
fn a_test_matches_by_hand(rt: HostRuntime) -> Tested {
    let mut input = Vec::from_slice(rt.alloc(), b"{\"a\":\"xyz\",\"b\":\"y\"}")?;
    let tape = to_tape(rt.alloc(), input.as_mut_slice()).expect(&rt, "a document");
    let a = [Step::Name("a")];
    let b = [Step::Name("b")];
    let a = Comparable::Query(SingularQuery::Relative(&a));
    let b = Comparable::Query(SingularQuery::Relative(&b));
    let mut memory = [Node::EMPTY; MAX_NODES];
    let pattern = Pattern::new("x.z", &mut memory).expect(&rt, "a pattern");
    let number = Comparable::Literal(Literal::Number("1"));
    let rows = [
        (Test::Matches(a, Matcher::Literal(pattern)), true),
        (Test::Matches(b, Matcher::Literal(pattern)), false),
        (Test::Matches(a, Matcher::Match(b)), false),
        (Test::Matches(a, Matcher::Search(b)), true),
        (Test::Matches(a, Matcher::Search(number)), false),
        (Test::Matches(number, Matcher::Match(b)), false),
    ];
    for (test, wanted) in &rows {
        let filter = Filter { test };
        assert_eq!(rt; filter.holds(&tape.as_value()), *wanted);
    }
    Ok(())
}
