// What the views return of documents with members.
use crate::tests::{Tested, array_len, object_len};
use simd_json::tape::Value;
use simd_json::to_tape;

fn is_text(value: Option<Value<'_, '_>>, text: &str) -> bool {
    match value {
        Some(value) => value.eq_str(text),
        None => false,
    }
}

#[test]
fn members_are_read_by_their_types(rt: HostRuntime) -> Tested {
    let mut input =
        *b"{\"snot\": 1, \"badger\":[2, 2.5], \"cake\":{\"frosting\": 3}, \"cookie\":4}";
    let tape = to_tape(rt.alloc(), &mut input)?;
    assert!(rt; !tape.is_empty());
    let value = tape.as_value();
    let object = value.as_object().expect(&rt, "it is an object");
    assert_eq!(rt; object.len(), 4);
    let numbers = [Some(1), None, None, Some(4)];
    for (member, number) in object.values().zip(&numbers) {
        assert_eq!(rt; member.as_u64(), *number);
    }
    let badger = value.get_array("badger").expect(&rt, "it is there");
    let second = badger.get(1).expect(&rt, "there are two");
    assert_eq!(rt; second.as_decimal(), Some("2.5"));
    Ok(())
}

#[test]
fn containers_at_keys_are_read(rt: HostRuntime) -> Tested {
    let mut input = *b"{\"array\":[\"a\",\"b\",\"c\"],\"object\":{\"x\":1,\"y\":2,\"z\":3}}";
    let tape = to_tape(rt.alloc(), &mut input)?;
    assert!(rt; !tape.is_empty());
    let value = tape.as_value();
    let array = value.get_array("array").expect(&rt, "it is there");
    let object = value.get_object("object").expect(&rt, "it is there");
    assert_eq!(rt; (array.len(), object.len()), (3, 3));
    assert!(rt; is_text(array.get(0), "a"));
    assert!(rt; is_text(array.get(1), "b"));
    assert!(rt; is_text(array.get(2), "c"));
    let mut keys = object.keys();
    assert_eq!(rt; keys.next(), Some("x"));
    assert_eq!(rt; keys.next(), Some("y"));
    assert_eq!(rt; keys.next(), Some("z"));
    let tried = value.try_get_array("array").expect(&rt, "it is an array");
    assert_eq!(rt; array_len(tried), Some(3));
    let tried = value
        .try_get_object("object")
        .expect(&rt, "it is an object");
    assert_eq!(rt; object_len(tried), Some(3));
    Ok(())
}
