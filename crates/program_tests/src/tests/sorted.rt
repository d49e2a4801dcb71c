//! Values whose members are printed in the order of their keys.
use crate::tests::Tested;
use jpick::put_sorted;
use linked_list_allocator::LocalHeap;
use simd_json::{Buffers, to_tape_with_buffers};
use simd_json_print::document::{Layout, Level};
use simd_json_print::text::Text;
use std::alloc::{AllocError, Allocator, Global};
use std::io::Write;
use std::test::Fail;

const DEEP: usize = 100_000;

// The text of a document that nests no deeper than `depth`, with memory for the order of its
// members from `a`, and whether it was put.
fn text_by<A: Allocator + Copy>(
    alloc: Global,
    a: A,
    input: &[u8],
    depth: usize,
    layout: Layout,
) -> Result<(Vec<u8>, Result<(), AllocError>), Fail> {
    let mut input = Vec::from_slice(alloc, input)?;
    let mut buffers = Buffers::with_max_depth(alloc, 0, depth)?;
    let tape = to_tape_with_buffers(input.as_mut_slice(), &mut buffers)?;
    let mut levels = Vec::new(alloc);
    levels.resize(depth, Level::EMPTY)?;
    let mut bytes = Vec::new(alloc);
    let mut text = Text::<Vec<u8>, 64>::new(&mut bytes);
    let put = put_sorted(&mut text, a, tape.as_value(), layout, levels.as_mut_slice());
    text.finish()?;
    Ok((bytes, put))
}

#[test]
fn members_are_sorted_by_keys(rt: HostRuntime) -> Tested {
    let rows: [(&str, &str); 15] = [
        ("17", "17"),
        (" [ \"b\" , { } , [ ] ] ", "[\"b\",{},[]]"),
        (r#"{"b":1,"a":2}"#, r#"{"a":2,"b":1}"#),
        (r#"{"a":1,"b":2,"c":3}"#, r#"{"a":1,"b":2,"c":3}"#),
        // equal keys keep their order
        (
            r#"{"b":1,"a":2,"b":3,"a":4,"b":5}"#,
            r#"{"a":2,"a":4,"b":1,"b":3,"b":5}"#,
        ),
        // a key that is empty, and keys that begin with another
        (
            r#"{"abc":1,"ab":2,"":3,"a":4,"b":5,"aa":6}"#,
            r#"{"":3,"a":4,"aa":6,"ab":2,"abc":1,"b":5}"#,
        ),
        // at each depth, and around what is nested
        (
            r#"{"z":[{"y":{"b":[],"a":{}},"x":[{"d":1,"c":2},3]},4],"m":{"k":0,"j":1},"a":5}"#,
            r#"{"a":5,"m":{"j":1,"k":0},"z":[{"x":[{"c":2,"d":1},3],"y":{"a":{},"b":[]}},4]}"#,
        ),
        (
            r#"[{"b":1,"a":2},{"d":3,"c":4},{},5]"#,
            r#"[{"a":2,"b":1},{"c":4,"d":3},{},5]"#,
        ),
        // values do not count
        (r#"{"a":"b","a":"a"}"#, r#"{"a":"b","a":"a"}"#),
        // escapes are decoded first
        (
            r#"{"\u0062":1,"a":2,"\n":3,"\"":4,"!":5}"#,
            r#"{"\n":3,"!":5,"\"":4,"a":2,"b":1}"#,
        ),
        (
            "{\"\u{e9}\":1,\"z\":2,\"e\":3}",
            "{\"e\":3,\"z\":2,\"\u{e9}\":1}",
        ),
        // by code points: in UTF-16 the last of these would be before the one in front of it
        (
            "{\"\u{1f600}\":1,\"\u{ffee}\":2,\"\u{e000}\":3,\"\u{d7ff}\":4}",
            "{\"\u{d7ff}\":4,\"\u{e000}\":3,\"\u{ffee}\":2,\"\u{1f600}\":1}",
        ),
        // upper case is before lower case
        (
            r#"{"a":1,"B":2,"_":3,"10":4,"9":5}"#,
            r#"{"10":4,"9":5,"B":2,"_":3,"a":1}"#,
        ),
        (
            r#"{"b":1.50,"a":-0,"c":true,"e":null,"d":18446744073709551615}"#,
            r#"{"a":0,"b":1.50,"c":true,"d":18446744073709551615,"e":null}"#,
        ),
        (r#"{"\u0000":1,"":2}"#, r#"{"":2,"\u0000":1}"#),
    ];
    for (input, expected) in rows {
        let (text, put) = text_by(rt.alloc(), rt.alloc(), input.as_bytes(), 8, Layout::Compact)?;
        assert!(rt; put.is_ok());
        assert_eq!(rt; text.as_slice(), expected.as_bytes());
    }
    Ok(())
}

#[test]
fn sorted_members_are_on_lines(rt: HostRuntime) -> Tested {
    let input = b"{\"b\":[1,{}],\"a\":{\"d\":2,\"c\":[]}}";
    let expected =
        b"{\n  \"a\": {\n    \"c\": [],\n    \"d\": 2\n  },\n  \"b\": [\n    1,\n    {}\n  ]\n}";
    let (text, put) = text_by(rt.alloc(), rt.alloc(), input, 8, Layout::Pretty)?;
    assert!(rt; put.is_ok());
    assert_eq!(rt; text.as_slice(), expected.as_slice());
    Ok(())
}

// More members than are sorted without memory, in heaps of growing size: each allocation fails in
// some, and nothing is put then.
#[test]
fn memory_for_sorting_fails(rt: HostRuntime) -> Tested {
    let (mut input, mut expected) = (Vec::new(rt.alloc()), Vec::new(rt.alloc()));
    for key in 0..24 {
        let mark = if key == 0 { '{' } else { ',' };
        write!(
            input,
            "{mark}\"{:02}\":{{\"y\":1,\"x\":{}}}",
            key * 7 % 24,
            key * 7 % 24
        )?;
        write!(expected, "{mark}\"{key:02}\":{{\"x\":{key},\"y\":1}}")?;
    }
    input.push(b'}')?;
    expected.push(b'}')?;
    let mut failures = 0usize;
    let mut has_put = false;
    for size in 2..240 {
        let heap = LocalHeap::new(rt.alloc(), size << 6)?;
        let (text, put) = text_by(rt.alloc(), &heap, input.as_slice(), 8, Layout::Compact)?;
        assert_eq!(rt; heap.used(), 0);
        if put.is_ok() {
            has_put = true;
            assert_eq!(rt; text.as_slice(), expected.as_slice());
        } else {
            assert!(rt; !has_put);
            failures += 1;
            assert_eq!(rt; text.len(), 0);
        }
    }
    assert!(rt; has_put && failures > 20);
    Ok(())
}

#[test]
fn many_members_and_deep_ones(rt: HostRuntime) -> Tested {
    let (mut input, mut expected) = (Vec::new(rt.alloc()), Vec::new(rt.alloc()));
    for key in 0..100_000 {
        let mark = if key == 0 { '{' } else { ',' };
        write!(input, "{mark}\"{:06}\":{key}", 99_999 - key)?;
        write!(expected, "{mark}\"{key:06}\":{}", 99_999 - key)?;
    }
    input.push(b'}')?;
    expected.push(b'}')?;
    let (text, put) = text_by(
        rt.alloc(),
        rt.alloc(),
        input.as_slice(),
        DEEP,
        Layout::Compact,
    )?;
    assert!(rt; put.is_ok() && text.as_slice() == expected.as_slice());
    input.clear();
    expected.clear();
    for _ in 0..DEEP {
        input.extend_from_slice(b"{\"b\":")?;
        expected.extend_from_slice(b"{\"a\":0,\"b\":")?;
    }
    input.push(b'1')?;
    expected.push(b'1')?;
    for _ in 0..DEEP {
        input.extend_from_slice(b",\"a\":0}")?;
        expected.push(b'}')?;
    }
    let (text, put) = text_by(
        rt.alloc(),
        rt.alloc(),
        input.as_slice(),
        DEEP,
        Layout::Compact,
    )?;
    assert!(rt; put.is_ok() && text.as_slice() == expected.as_slice());
    Ok(())
}
