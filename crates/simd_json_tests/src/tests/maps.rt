// Objects beside maps.
use simd_json::to_tape;
use std::alloc::Global;
use std::collections::HashMap;
use std::test::Fail;

// The map with these numbers at `a` and at `b`, where there are any.
fn map_of(alloc: Global, a: Option<u64>, b: Option<u64>) -> Result<HashMap<String, u64>, Fail> {
    let mut map = HashMap::new(alloc);
    if let Some(number) = a {
        map.insert(String::from_str(alloc, "a")?, number)?;
    }
    if let Some(number) = b {
        map.insert(String::from_str(alloc, "b")?, number)?;
    }
    Ok(map)
}

// Whether the document is equal to the map.
fn is_equal(
    alloc: Global,
    document: &[u8],
    map: &HashMap<String, u64>,
) -> Result<Option<bool>, Fail> {
    let mut input = Vec::from_slice(alloc, document)?;
    let tape = to_tape(alloc, input.as_mut_slice())?;
    if tape.is_empty() {
        return Ok(None);
    }
    let value = tape.as_value();
    Ok(Some(value.eq_map(map, |number, value| value.eq_u64(*number))))
}

#[test]
fn objects_are_compared_with_maps(rt: HostRuntime) -> Result<(), Fail> {
    let rows: [(&[u8], Option<u64>, Option<u64>, bool); 7] = [
        (b"{\"a\":1,\"b\":2}", Some(1), Some(2), true),
        (b"{\"a\":1,\"b\":2}", Some(1), None, false),
        (b"{\"a\":1,\"b\":2}", Some(1), Some(3), false),
        (b"{\"a\":1,\"a\":1}", Some(1), Some(1), false),
        (b"{\"a\":1,\"a\":2}", Some(1), None, false),
        (b"{}", None, None, true),
        (b"[]", None, None, false),
    ];
    for (document, a, b, equal) in rows {
        let map = map_of(rt.alloc(), a, b)?;
        assert_eq!(rt; is_equal(rt.alloc(), document, &map)?, Some(equal));
    }
    Ok(())
}
