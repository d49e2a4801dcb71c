// JSON Pointers (RFC 6901) that are split, and recipes; worked ones are in
// tests/vectors/pointers.txt.
use crate::tests::tape_of;
use simd_json::{Pointer, PointerError, PointerExpected, ValueType};
use std::slice;

const MEMORY: &str = "there is memory";

#[test]
fn pointers_are_split_within_their_limit(rt: HostRuntime) {
    let whole = Pointer::<0>::new("").expect(&rt, "it has no token");
    assert_eq!(rt; whole.as_str(), "");
    assert!(rt; Pointer::<0>::new("/").is_none());
    let keys = Pointer::<3>::new("/a/~01/").expect(&rt, "it has three tokens");
    assert_eq!(rt; keys.as_str(), "/a/~01/");
    assert!(rt; Pointer::<2>::new("/a/~01/").is_none());
    for malformed in ["a", "a/0", " /a", "/~", "/~2", "/a/~/b", "/a~0~"] {
        assert!(rt; Pointer::<4>::new(malformed).is_none(), "{malformed:?}");
    }
}

#[test]
fn errors_are_printed_in_words(rt: HostRuntime) {
    let mut input = *b"{\"a\":[1]}";
    let tape = tape_of(&rt, &mut input);
    let value = tape.as_value();
    let stop = value
        .try_pointer("/a/x")
        .err()
        .expect(&rt, "it leads nowhere");
    let wanted = PointerError {
        index: 2,
        expected: PointerExpected::Index,
        got: ValueType::Array,
    };
    assert_eq!(rt; stop, wanted);
    let printed = stop.to_string(rt.alloc()).expect(&rt, MEMORY);
    assert_eq!(rt;
        printed.as_str(),
        "expected an array index, found an array at byte 2"
    );
    let rejected = value.try_as_u64().err().expect(&rt, "it is an object");
    let printed = rejected.to_string(rt.alloc()).expect(&rt, MEMORY);
    assert_eq!(rt;
        printed.as_str(),
        "expected an unsigned integer that fits, found an object"
    );
}

// The example of `Pointer`, as it is written there.
mod servers {
    use simd_json::Pointer;
    use simd_json::tape::Value;

    // How many of the servers listen on a port.
    pub(super) fn listening(servers: &[Value<'_, '_>]) -> usize {
        let Some(port) = Pointer::<2>::new("/listen/port") else {
            return 0;
        };
        servers
            .iter()
            .filter(|server| server.at(&port).is_some())
            .count()
    }
}

#[test]
fn servers_that_listen_are_counted(rt: HostRuntime) {
    let mut input = *b"{\"listen\":{\"port\":80}}";
    let tape = tape_of(&rt, &mut input);
    let server = tape.as_value();
    assert_eq!(rt; servers::listening(slice::from_ref(&server)), 1);
}

// The recipes of docs/READING.md, as they stand there.
mod places {
    use simd_json::PointerError;
    use simd_json::tape::Value;

    // The port of the first server, or where it is missing.
    pub(super) fn port(config: &Value<'_, '_>) -> Result<Option<u16>, PointerError> {
        Ok(config.try_pointer("/servers/0/port")?.as_u16())
    }
}

mod walks {
    use simd_json::tape::Value;

    // How deep arrays and objects are nested in the value.
    #[tactic(auto, using(simd_json::proofs::Walks::walks))]
    pub(super) fn depth(value: Value<'_, '_>) -> usize {
        let mut deepest = 0;
        if let Some(array) = value.as_array() {
            for element in &array {
                deepest = depth(element).max(deepest);
            }
        } else if let Some(object) = value.as_object() {
            for (_, member) in &object {
                deepest = depth(member).max(deepest);
            }
        } else {
            return 0;
        }
        deepest.saturating_add(1)
    }

    // How many values there are in the value, itself among them.
    #[tactic(auto, using(simd_json::proofs::Walks::walks))]
    pub(super) fn count(value: Value<'_, '_>) -> usize {
        let mut all = 1usize;
        if let Some(array) = value.as_array() {
            for element in &array {
                all = all.saturating_add(count(element));
            }
        }
        if let Some(object) = value.as_object() {
            for member in object.values() {
                all = all.saturating_add(count(member));
            }
        }
        all
    }

    // How many strings there are in the value, at most 32 levels down.
    pub(super) fn strings(value: &Value<'_, '_>) -> usize {
        let mut count = 0usize;
        for beneath in value.descendants::<32>() {
            if beneath.as_str().is_some() {
                count = count.saturating_add(1);
            }
        }
        count
    }
}

mod floats {
    use simd_json::tape::Value;
    use std::num::{nearest_i64_to_f64, nearest_u64_to_f64};

    // A decimal, or an integer of at most 64 bits, as the nearest float. None past the greatest
    // float, as for `1e309`.
    pub(super) fn float(value: &Value<'_, '_>) -> Option<f64> {
        if let Some(literal) = value.as_decimal() {
            let number: f64 = fast_float::parse(literal).ok()?;
            return number.is_finite().then_some(number);
        }
        if let Some(number) = value.as_i64() {
            return Some(nearest_i64_to_f64(number));
        }
        Some(nearest_u64_to_f64(value.as_u64()?))
    }
}

mod selections {
    use simd_json::tape::Object;
    use simd_json::write_quoted;
    use std::io;
    use std::io::Write;

    // The members of an object but those with a key, as an object.
    pub(super) fn write_without<W: Write>(
        object: &Object<'_, '_>,
        left_out: &str,
        w: &mut W,
    ) -> io::Result<()> {
        w.write_all(b"{")?;
        let mut is_first = true;
        for (key, value) in object {
            if key == left_out {
                continue;
            }
            if !is_first {
                w.write_all(b",")?;
            }
            is_first = false;
            write_quoted(w, key)?;
            w.write_all(b":")?;
            value.write(w)?;
        }
        w.write_all(b"}")
    }
}

#[test]
fn recipes_do_as_they_say(rt: HostRuntime) {
    let mut input = *b"{\"servers\":[{\"port\":8080}],\"q\\\"x\":1.50,\"n\":-3,\"big\":1e309}";
    let tape = tape_of(&rt, &mut input);
    let value = tape.as_value();
    assert!(rt; places::port(&value) == Ok(Some(8080)));
    let decimal = value.pointer("/q\"x").expect(&rt, "it is there");
    assert!(rt; floats::float(&decimal) == Some(1.5));
    let integer = value.pointer("/n").expect(&rt, "it is there");
    assert!(rt; floats::float(&integer) == Some(-3.0));
    let big = value.pointer("/big").expect(&rt, "it is there");
    assert!(rt; floats::float(&big).is_none());
    assert!(rt; floats::float(&value).is_none());
}

#[test]
fn walks_see_each_value(rt: HostRuntime) {
    let mut input = *b"{\"a\":[\"x\",{\"b\":\"y\"}],\"c\":\"z\",\"d\":1}";
    let tape = tape_of(&rt, &mut input);
    let value = tape.as_value();
    assert_eq!(rt; walks::depth(value), 3);
    assert_eq!(rt; walks::count(value), 7);
    assert_eq!(rt; walks::strings(&value), 3);
}

#[test]
fn selections_are_quoted(rt: HostRuntime) {
    let mut input = *b"{\"a\":[1, 2],\"b\":3,\"q\\\"x\":1.50}";
    let tape = tape_of(&rt, &mut input);
    let object = tape.as_value().as_object().expect(&rt, "it is one");
    let mut text = Vec::new(rt.alloc());
    selections::write_without(&object, "b", &mut text).expect(&rt, MEMORY);
    assert_eq!(rt;
        text.as_slice(),
        b"{\"a\":[1,2],\"q\\\"x\":1.50}".as_slice()
    );
}
