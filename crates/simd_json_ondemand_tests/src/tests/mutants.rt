// Inputs that are changed at random, with a fixed seed, beside a tape.
use super::check::checked;
use super::tape::{assert_integers, assert_others, assert_string};
use super::{MEMORY, takes_all};
use simd_json::{Tape, tape, to_tape};
use simd_json_ondemand::{Checker, Document, Value};
use std::process::Abort;

const SEEDS: &[&[u8]] = &[
    b"[0,-0,1,-1,12,255,65536,4294967296,18446744073709551616,-9223372036854775809]",
    b"[0.5,-1e3,1.25E-7,12345678.12345678,1e+400,340282366920938463463374607431768211455]",
    b"[true,false,null,[],{},\"\",[null],{\"\":false}]",
    b" { \"a\" : [ 1 , { \"b\" : 2 } ] ,\n\t\"a\" : 3 , \"b\" : { \"a\" : { } } }\r\n",
    b"{\"created_at\":\"Sun Aug 31\",\"id\":505874924095815681,\"user\":{\"id\":1186275104,\
        \"id_str\":\"1186275104\",\"name\":\"AYUMI\",\"screen_name\":\"ayuu0123\"},\
        \"retweet_count\":0}",
    b"{\"\\u0061\":1,\"a\\n\\\"b\":2,\"12345678\":3,\"1234567\\u0038\":4,\
        \"caf\xc3\xa9 \\ud83d\\ude00\":5}",
    b"[\"a\\n\\u00e9\\ud83d\\ude00\\\"b\\\\\",\"\\\\\\\\\",\"\\/\\b\\f\\r\\t\",\"\\u0000\\uffff\"]",
    b"[\"a long string without an escape, of more than 32 bytes\",\
        \"and one with it, behind 32 bytes\\t\"]",
    b"[[[[[[[[[[[[[[[[1]]]]]]]],2]]]],3],[[],[[]],[[],[]]]]],[{\"a\":[{\"b\":[{\"c\":[{}]}]}]}]]",
    b"[{\"a\":{\"b\":{\"c\":{\"d\":{\"e\":{\"f\":{\"g\":{\"h\":{}}}}}}}},\
        \"b\":[[1,2,3],[4,5,6],[7,8,9]],\"z\":9}]",
    b"\"caf\xc3\xa9 \\\"\\\\\"",
    b"-12.5e3",
];

// A sequence of numbers that looks random (xorshift, with a period of 2^64 - 1).
#[derive(Drop)]
struct Numbers {
    state: u64,
}

impl Numbers {
    fn below(&mut self, end: usize) -> usize {
        self.state ^= self.state << 13;
        self.state ^= self.state >> 7;
        self.state ^= self.state << 17;
        (self.state >> 11) as usize % end.max(1)
    }

    fn one_of<'a>(&mut self, list: &'a [u8]) -> u8 {
        list.get(self.below(list.len())).copied().unwrap_or(b' ')
    }

    // One byte other, more or less, or the end cut off.
    fn change(&mut self, text: &mut Vec<u8>, rt: &impl Abort) {
        let byte = self.one_of(b"[]{},:\"\\ \n01234567890-.eEutrfalsnb/\x1f\xc3\xa9");
        let at = self.below(text.len());
        match self.below(16) {
            0 => text.truncate(at),
            1..6 if at < text.len() => {
                let _ = text.remove(at);
            }
            6..11 if at <= text.len() => text.insert(at, byte).expect(rt, MEMORY),
            _ => {
                if let Some(place) = text.get_mut(at) {
                    *place = byte;
                }
            }
        }
    }

    // One to three such changes of a seed.
    fn mutant(&mut self, text: &mut Vec<u8>, rt: &impl Abort) {
        let seed = SEEDS.get(self.below(SEEDS.len())).copied().unwrap_or(b"0");
        text.clear();
        text.extend_from_slice(seed).expect(rt, MEMORY);
        for _ in 0..=self.below(3) {
            self.change(text, rt);
        }
    }
}

// The same kind, and the same string or scalar.
fn assert_alike(
    rt: &impl Abort,
    value: Option<Value<'_>>,
    wanted: Option<tape::Value<'_, '_>>,
    buffer: &mut Vec<u8>,
    case: &[u8],
) {
    assert_eq!(rt; value.is_some(), wanted.is_some(), "{case:?}");
    if let (Some(value), Some(wanted)) = (value, wanted) {
        assert_others(rt, value, wanted, case);
        assert_eq!(rt; value.as_i128(), wanted.as_i128(), "{case:?}");
        assert_string(rt, value, wanted, buffer, case);
    }
}

// The bytes of a value are a document of its own, of the same kind, and a scalar is the value.
fn assert_raw(
    rt: &(impl AllocGlobal + Abort),
    value: Value<'_>,
    wanted: tape::Value<'_, '_>,
    buffer: &mut Vec<u8>,
    case: &[u8],
) {
    let raw = value.raw().expect(rt, "a value has bytes");
    let mut checker = Checker::empty(rt.alloc());
    let document = Document::check(&mut checker, raw, 1024).expect(rt, "it is a document");
    assert_alike(rt, Some(document.as_value()), Some(wanted), buffer, case);
}

// The elements are those of the tape, in order, and at their indexes.
fn assert_elements<'d, 't, 'i>(
    rt: &impl Abort,
    value: Value<'d>,
    wanted: tape::Value<'t, 'i>,
    left: &mut Vec<(Value<'d>, tape::Value<'t, 'i>)>,
    buffer: &mut Vec<u8>,
    case: &[u8],
) {
    let (Some(mut elements), Some(others)) = (value.as_array(), wanted.as_array()) else {
        return;
    };
    let mut i = 0_usize;
    for other in others.iter() {
        let element = elements.next().expect(rt, "an element is left");
        left.push((element, other)).expect(rt, MEMORY);
        assert_alike(rt, value.get_idx(i), Some(other), buffer, case);
        i = i.saturating_add(1);
    }
    assert!(rt; elements.next().is_none());
    assert!(rt; value.get_idx(i).is_none());
}

// The members are those of the tape, in order, and by their keys.
fn assert_members<'d, 't, 'i>(
    rt: &impl Abort,
    value: Value<'d>,
    wanted: tape::Value<'t, 'i>,
    left: &mut Vec<(Value<'d>, tape::Value<'t, 'i>)>,
    buffer: &mut Vec<u8>,
    case: &[u8],
) {
    let (Some(mut members), Some(others)) = (value.as_object(), wanted.as_object()) else {
        return;
    };
    let mut searched = members;
    for (name, other) in others.iter() {
        let (key, member) = members.next().expect(rt, "a member is left");
        left.push((member, other)).expect(rt, MEMORY);
        assert_eq!(rt;
            key.decode(buffer).expect(rt, MEMORY),
            Some(name),
            "{case:?}"
        );
        assert_alike(rt, searched.find(name), Some(other), buffer, case);
        assert_alike(rt, value.get(name), wanted.get(name), buffer, case);
    }
    assert!(rt; members.next().is_none());
    assert!(rt; searched.next().is_none());
    assert_alike(rt, value.get("a"), wanted.get("a"), buffer, case);
}

// Each value of a document returns what that of the tape does.
fn assert_document(rt: &(impl AllocGlobal + Abort), root: Value<'_>, input: &[u8]) {
    let mut copy = Vec::from_slice(rt.alloc(), input).expect(rt, MEMORY);
    let tape: Tape<'_> = to_tape(rt.alloc(), &mut copy).expect(rt, "it is a document");
    let mut buffer = Vec::new(rt.alloc());
    let mut left = Vec::new(rt.alloc());
    left.push((root, tape.as_value())).expect(rt, MEMORY);
    for _ in 0..input.len() {
        let Some((value, wanted)) = left.pop() else {
            return;
        };
        assert_integers(rt, value, wanted, input);
        assert_alike(rt, Some(value), Some(wanted), &mut buffer, input);
        assert_raw(rt, value, wanted, &mut buffer, input);
        assert_elements(rt, value, wanted, &mut left, &mut buffer, input);
        assert_members(rt, value, wanted, &mut left, &mut buffer, input);
    }
    assert!(rt; left.is_empty());
}

// Of other bytes each value that is found is read, and all calls return.
fn walk(rt: &(impl AllocGlobal + Abort), root: Value<'_>, input: &[u8]) {
    let mut buffer = Vec::new(rt.alloc());
    let mut left = Vec::new(rt.alloc());
    left.push(root).expect(rt, MEMORY);
    for _ in 0..input.len() {
        let Some(value) = left.pop() else {
            return;
        };
        read(rt, value, &mut buffer);
        if let Some(elements) = value.as_array() {
            for element in elements {
                left.push(element).expect(rt, MEMORY);
            }
        }
        if let Some(members) = value.as_object() {
            for (key, member) in members {
                read(rt, key, &mut buffer);
                left.push(member).expect(rt, MEMORY);
            }
        }
    }
    assert!(rt; left.is_empty());
}

// What is a value of one kind is none of another.
fn read(rt: &impl Abort, value: Value<'_>, buffer: &mut Vec<u8>) {
    let raw = value.raw();
    let string = value.decode(buffer).expect(rt, MEMORY).is_some();
    let scalar = value.as_null().is_some() || value.as_bool().is_some();
    let number = value.as_decimal().is_some()
        || value.as_i128().is_some()
        || value.as_u128().is_some();
    assert!(rt; !(string && (scalar || number)));
    assert!(rt; !(scalar && number));
    assert!(rt; raw.is_some() || !(string || scalar || number));
    assert!(rt; value.get("a").is_none() || value.is_object());
    assert!(rt; value.get_idx(1).is_none() || value.is_array());
    assert!(rt; value.value_type().is_some() || raw.is_none());
}

#[test]
fn mutants_are_read_as_by_a_tape(rt: HostRuntime) {
    let mut numbers = Numbers {
        state: 0x9e37_79b9_7f4a_7c15,
    };
    let mut checker = Checker::empty(rt.alloc());
    let mut text = Vec::new(rt.alloc());
    let mut documents = 0_usize;
    let mutants = if takes_all(&rt) { 100_000 } else { 2_000 };
    for _ in 0..mutants {
        numbers.mutant(&mut text, &rt);
        let error = checked(&rt, &mut checker, &text, 1024);
        let Ok(document) = Document::scan(&mut checker.index, &text) else {
            assert!(rt; error.is_some());
            continue;
        };
        walk(&rt, document.as_value(), &text);
        if error.is_none() {
            assert_document(&rt, document.as_value(), &text);
            documents = documents.saturating_add(1);
        }
    }
    let fifth = mutants / 5;
    assert!(rt; documents > fifth && documents < mutants - fifth);
}
