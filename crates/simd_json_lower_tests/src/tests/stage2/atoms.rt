use simd_json_stages::stage2::{is_valid_false_atom, is_valid_null_atom, is_valid_true_atom};

// The ten bytes that an atom may end before.
const TERMINATORS: &[u8] = b"[]{}:, \t\n\r";

#[test]
fn true_ends_at_a_terminator_or_at_the_end(rt: HostRuntime) {
    assert!(rt; is_valid_true_atom(b"true"));
    assert!(rt; is_valid_true_atom(b"true,false"));
    for c in 0..=u8::MAX {
        let is_valid = TERMINATORS.contains(&c);
        assert_eq!(rt;
            is_valid_true_atom(&[b't', b'r', b'u', b'e', c]),
            is_valid,
            "{c:?}"
        );
    }
    let others: [&[u8]; 10] = [
        b"", b"t", b"tru", b"tru ", b"trux", b"True", b"TRUE", b" true", b"false", b"null",
    ];
    for bytes in others {
        assert!(rt; !is_valid_true_atom(bytes), "{bytes:?}");
    }
}

#[test]
fn false_ends_at_a_terminator_or_at_the_end(rt: HostRuntime) {
    assert!(rt; is_valid_false_atom(b"false"));
    assert!(rt; is_valid_false_atom(b"false]true"));
    for c in 0..=u8::MAX {
        let is_valid = TERMINATORS.contains(&c);
        assert_eq!(rt;
            is_valid_false_atom(&[b'f', b'a', b'l', b's', b'e', c]),
            is_valid,
            "{c:?}"
        );
    }
    let others: [&[u8]; 10] = [
        b"", b"f", b"fals", b"fals ", b"falsy", b"False", b"FALSE", b" false", b"true", b"null",
    ];
    for bytes in others {
        assert!(rt; !is_valid_false_atom(bytes), "{bytes:?}");
    }
}

#[test]
fn null_ends_at_a_terminator_or_at_the_end(rt: HostRuntime) {
    assert!(rt; is_valid_null_atom(b"null"));
    assert!(rt; is_valid_null_atom(b"null}null"));
    for c in 0..=u8::MAX {
        let is_valid = TERMINATORS.contains(&c);
        assert_eq!(rt;
            is_valid_null_atom(&[b'n', b'u', b'l', b'l', c]),
            is_valid,
            "{c:?}"
        );
    }
    let others: [&[u8]; 10] = [
        b"", b"n", b"nul", b"nul ", b"nulx", b"Null", b"NULL", b" null", b"true", b"false",
    ];
    for bytes in others {
        assert!(rt; !is_valid_null_atom(bytes), "{bytes:?}");
    }
}
