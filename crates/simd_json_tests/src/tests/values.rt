// Values: kinds, look-up and iterators.
use crate::tests::{Tested, array_len, object_len};
use simd_json::tape::{Array, Object, Value};
use simd_json::{
    Buffers, INPUT_PADDING, Node, Tape, TryTypeError, ValueType, fill_tape_padded, to_tape,
};
use std::process::Abort;

// An integer that is written without `-`, of a value that is there. Here and below a call takes the
// place of `and_then` with a function, since it is proved in less time.
fn number(value: Option<Value<'_, '_>>) -> Option<u64> {
    match value {
        Some(value) => value.as_u64(),
        None => None,
    }
}

// The same, apart from a value that is missing.
fn number_there(value: Option<Value<'_, '_>>) -> Option<Option<u64>> {
    match value {
        Some(value) => Some(value.as_u64()),
        None => None,
    }
}

fn pair<'a>(pair: Option<(&'a str, Value<'_, '_>)>) -> Option<(&'a str, Option<u64>)> {
    match pair {
        Some((key, value)) => Some((key, value.as_u64())),
        None => None,
    }
}

#[test]
fn first_of_equal_keys_is_found(rt: HostRuntime) -> Tested {
    let mut input = *b"{\"a\":{\"b\":[[],{}]},\"a\":2}";
    let tape = to_tape(rt.alloc(), &mut input)?;
    assert_eq!(rt;
        tape.nodes().first(),
        Some(&Node::Object { len: 2, count: 8 })
    );
    assert!(rt; !tape.is_empty());
    let value = tape.as_value();
    assert!(rt; !value.contains_key("b"));
    assert!(rt; value.contains_key("a"));
    assert_equal_keys(&rt, &value.as_object().expect(&rt, "it is there"));
    assert_first(&rt, &value.get("a").expect(&rt, "it is there"));
    Ok(())
}

// Iterators give both pairs.
fn assert_equal_keys(rt: &impl Abort, object: &Object<'_, '_>) {
    assert_eq!(rt; object.len(), 2);
    let mut keys = object.keys();
    assert_eq!(rt; keys.next(), Some("a"));
    assert_eq!(rt; keys.next(), Some("a"));
    assert_eq!(rt; keys.next(), None);
    let mut values = object.values();
    assert!(rt; values.next().expect(rt, "it is there").is_object());
    assert_eq!(rt; number(values.next()), Some(2));
    assert!(rt; values.next().is_none());
    assert!(rt; values.next().is_none());
}

// The value of the first.
fn assert_first(rt: &impl Abort, inner: &Value<'_, '_>) {
    assert_eq!(rt; object_len(inner.into_object()), Some(1));
    let list = inner.get("b").expect(rt, "it is there");
    assert_eq!(rt; array_len(list.into_array()), Some(2));
    let first = list.get_idx(0).expect(rt, "it is there");
    assert!(rt; first.as_array().expect(rt, "it is there").is_empty());
    let second = list.get_idx(1).expect(rt, "it is there");
    assert!(rt; second.as_object().expect(rt, "it is there").is_empty());
    assert!(rt; list.get_idx(2).is_none());
}

#[test]
fn arrays_are_indexed_by_value(rt: HostRuntime) -> Tested {
    let mut input = *b"[1,[2,3],4]";
    let tape = to_tape(rt.alloc(), &mut input)?;
    assert!(rt; !tape.is_empty());
    let value = tape.as_value();
    let array = value.as_array().expect(&rt, "it is there");
    assert_indexed(&rt, &array);
    assert_iterated(&rt, &array);
    assert!(rt; value.get("a").is_none());
    assert!(rt; value.as_object().is_none());
    Ok(())
}

fn assert_indexed(rt: &impl Abort, array: &Array<'_, '_>) {
    assert_eq!(rt; (array.len(), array.iter().len()), (3, 3));
    let inner = array.get(1).expect(rt, "it is there");
    assert_eq!(rt; number(inner.get_idx(0)), Some(2));
    assert_eq!(rt; number(inner.get_idx(1)), Some(3));
    assert!(rt; inner.get_idx(2).is_none());
    assert_eq!(rt; number(array.get(2)), Some(4));
    assert!(rt; array.get(3).is_none());
}

fn assert_iterated(rt: &impl Abort, array: &Array<'_, '_>) {
    let mut values = array.iter();
    assert_eq!(rt; values.size_hint(), (3, Some(3)));
    assert_eq!(rt; number_there(values.next()), Some(Some(1)));
    assert_eq!(rt; number_there(values.next()), Some(None));
    assert_eq!(rt; (values.len(), values.size_hint()), (1, (1, Some(1))));
    assert_eq!(rt; number_there(values.next()), Some(Some(4)));
    assert!(rt; values.next().is_none());
    assert!(rt; values.next().is_none());
}

#[test]
fn values_come_in_order(rt: HostRuntime) -> Tested {
    let mut input = *b"[1,2,3,4]";
    let tape = to_tape(rt.alloc(), &mut input)?;
    assert!(rt; !tape.is_empty());
    let array = tape.as_value().as_array().expect(&rt, "it is there");
    let mut wanted = 0u64;
    for value in &array {
        wanted = wanted.saturating_add(1);
        assert_eq!(rt; value.as_u64(), Some(wanted));
    }
    assert_eq!(rt; wanted, 4);
    assert_eq!(rt; number(array.get(0)), Some(1));
    assert_eq!(rt; number(array.get(3)), Some(4));
    assert!(rt; array.get(4).is_none());
    Ok(())
}

#[test]
fn pairs_come_in_order(rt: HostRuntime) -> Tested {
    let mut input = *b"{\"snot\": 1, \"badger\":2, \"cake\":3, \"cookie\":4}";
    let tape = to_tape(rt.alloc(), &mut input)?;
    assert!(rt; !tape.is_empty());
    let object = tape.as_value().as_object().expect(&rt, "it is there");
    assert_eq!(rt; (object.len(), object.iter().len()), (4, 4));
    assert_eq!(rt; (object.keys().len(), object.values().len()), (4, 4));
    assert_pairs(&rt, &object);
    assert_keys(&rt, &object);
    assert_values(&rt, &object);
    assert_eq!(rt; number(object.get("cake")), Some(3));
    assert!(rt; object.get("monster").is_none());
    assert!(rt; object.get("cakes").is_none());
    Ok(())
}

fn assert_pairs(rt: &impl Abort, object: &Object<'_, '_>) {
    let mut pairs = object.iter();
    assert_eq!(rt; pairs.size_hint(), (4, Some(4)));
    assert_eq!(rt; pair(pairs.next()), Some(("snot", Some(1))));
    assert_eq!(rt; pairs.size_hint(), (3, Some(3)));
    assert_eq!(rt; pair(pairs.next()), Some(("badger", Some(2))));
    assert_eq!(rt; pair(pairs.next()), Some(("cake", Some(3))));
    assert_eq!(rt; pair(pairs.next()), Some(("cookie", Some(4))));
    assert!(rt; pairs.next().is_none());
}

fn assert_keys(rt: &impl Abort, object: &Object<'_, '_>) {
    let mut keys = object.keys();
    assert_eq!(rt; keys.size_hint(), (4, Some(4)));
    assert_eq!(rt; keys.next(), Some("snot"));
    assert_eq!(rt; keys.size_hint(), (3, Some(3)));
    assert_eq!(rt; keys.next(), Some("badger"));
    assert_eq!(rt; keys.next(), Some("cake"));
    assert_eq!(rt; keys.next(), Some("cookie"));
    assert!(rt; keys.next().is_none());
}

fn assert_values(rt: &impl Abort, object: &Object<'_, '_>) {
    let mut values = object.values();
    assert_eq!(rt; values.size_hint(), (4, Some(4)));
    assert_eq!(rt; number(values.next()), Some(1));
    assert_eq!(rt; values.size_hint(), (3, Some(3)));
    assert_eq!(rt; number(values.next()), Some(2));
    assert_eq!(rt; number(values.next()), Some(3));
    assert_eq!(rt; number(values.next()), Some(4));
    assert!(rt; values.next().is_none());
}

#[test]
fn look_up_answers_its_own_kind_alone(rt: HostRuntime) -> Tested {
    let mut input = *b"{\"the_answer\": 42}";
    let tape = to_tape(rt.alloc(), &mut input)?;
    assert!(rt; !tape.is_empty());
    let value = tape.as_value();
    assert_eq!(rt; number(value.get("the_answer")), Some(42));
    assert!(rt; value.get("does_not_exist").is_none());
    let found = value.try_get("the_answer").expect(&rt, "it is an object");
    assert!(rt; found.expect(&rt, "it is there").eq_u64(42));
    let missing = value.try_get("does_not_exist");
    assert!(rt; missing.expect(&rt, "it is an object").is_none());
    assert!(rt; value.get_idx(0).is_none());
    assert_eq!(rt;
        value.try_get_idx(0).err(),
        Some(TryTypeError {
            expected: ValueType::Array,
            got: ValueType::Object
        })
    );
    assert!(rt; value.as_array().is_none());
    assert!(rt; !value.is_array());
    assert!(rt; value.is_object());
    assert!(rt;
        value
            .get("the_answer")
            .expect(&rt, "it is there")
            .get("the_answer")
            .is_none()
    );
    Ok(())
}

#[test]
fn empty_containers_have_no_items(rt: HostRuntime) -> Tested {
    let mut input = *b"{\"array\":[],\"object\":{}}";
    let tape = to_tape(rt.alloc(), &mut input)?;
    assert!(rt; !tape.is_empty());
    let value = tape.as_value();
    let array = value
        .get("array")
        .expect(&rt, "it is there")
        .as_array()
        .expect(&rt, "it is there");
    let object = value
        .get("object")
        .expect(&rt, "it is there")
        .as_object()
        .expect(&rt, "it is there");
    assert_eq!(rt; (array.len(), object.len()), (0, 0));
    assert!(rt; array.iter().next().is_none());
    assert!(rt; object.iter().next().is_none());
    assert!(rt; object.keys().next().is_none());
    assert!(rt; object.values().next().is_none());
    Ok(())
}

#[test]
fn values_have_their_kinds(rt: HostRuntime) -> Tested {
    let mut input = *b"[null,true,\"a\",-1,1,1.5,[],{}]";
    let tape = to_tape(rt.alloc(), &mut input)?;
    assert!(rt; !tape.is_empty());
    let array = tape.as_value().as_array().expect(&rt, "it is there");
    let kinds = [
        ValueType::Null,
        ValueType::Bool,
        ValueType::String,
        ValueType::I64,
        ValueType::U64,
        ValueType::Decimal,
        ValueType::Array,
        ValueType::Object,
    ];
    assert_eq!(rt; array.len(), 8);
    for (value, kind) in array.iter().zip(&kinds) {
        assert_eq!(rt; value.value_type(), *kind);
        assert_eq!(rt; value.is_array(), *kind == ValueType::Array);
        assert_eq!(rt; value.is_object(), *kind == ValueType::Object);
    }
    assert_eq!(rt; Value::null().value_type(), ValueType::Null);
    Ok(())
}

#[test]
fn strings_outlive_their_value(rt: HostRuntime) -> Tested {
    let mut input = [0u8; 26 + INPUT_PADDING];
    input[..26].copy_from_slice(b"{\"content\":\"hello\\nworld\"}");
    let mut buffers = Buffers::new(rt.alloc(), 26)?;
    let mut tape = Tape::null(rt.alloc())?;
    fill_tape_padded(&mut input, 26, &mut buffers, &mut tape)?;
    assert!(rt; !tape.is_empty());
    let content = tape.as_value().get_str("content");
    assert!(rt; tape.reset().is_empty());
    assert_eq!(rt; content, Some("hello\nworld"));
    Ok(())
}
