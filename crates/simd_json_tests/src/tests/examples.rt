// The examples of the README, of the entry points and of the views, as they are there.
ghost use Rattle.std.specs.Prelude.{length};

use crate::tests::spans::empty_list;
use crate::tests::tape_of;
use simd_json::{Buffers, SpanSink, fill_spans, keep_spans};

mod first_call {
    use simd_json::{Result, to_tape};

    // What is at the key `the_answer`, where it is an integer that fits.
    pub(super) fn the_answer(rt: &impl AllocGlobal) -> Result<Option<u64>> {
        let mut input = *br#"{"the_answer": 42}"#;
        let tape = to_tape(rt.alloc(), &mut input)?;
        Ok(tape.as_value().get_u64("the_answer"))
    }
}

mod entry_points {
    use simd_json::{
        Buffers, INPUT_PADDING, Result, Tape, fill_tape, fill_tape_padded, refill_tape, reserve,
        to_tape, to_tape_with_buffers,
    };

    pub(super) fn first_len(rt: &impl AllocGlobal) -> Result<usize> {
        let mut input = *b"[1,[2,3],4]";
        let tape = to_tape(rt.alloc(), &mut input)?;
        Ok(tape.nodes().len())
    }

    pub(super) fn count_positions(rt: &impl AllocGlobal) -> Result<usize> {
        let mut input = *b"[1,[2,3],4]";
        let mut buffers = Buffers::with_max_depth(rt.alloc(), input.len(), 2)?;
        let _tape = to_tape_with_buffers(&mut input, &mut buffers)?;
        Ok(buffers.structural_indexes().len())
    }

    pub(super) fn is_shallow(rt: &impl AllocGlobal, input: &mut [u8]) -> bool {
        let mut buffers = Buffers::empty(rt.alloc(), 2);
        to_tape_with_buffers(input, &mut buffers).is_ok()
    }

    pub(super) fn count_nodes(rt: &impl AllocGlobal, log: &mut [u8]) -> Result<usize> {
        let mut buffers = Buffers::new(rt.alloc(), 0)?;
        let mut tape = Tape::null(rt.alloc())?;
        reserve(log.len(), &mut buffers, &mut tape)?;
        let mut nodes = 0usize;
        for line in log.split_mut(|byte| *byte == b'\n') {
            fill_tape(line, &mut buffers, &mut tape)?;
            nodes = nodes.saturating_add(tape.nodes().len());
        }
        Ok(nodes)
    }

    pub(super) fn count_in_place(rt: &impl AllocGlobal) -> Result<usize> {
        let mut buffers = Buffers::new(rt.alloc(), 0)?;
        let mut kept = Tape::null(rt.alloc())?;
        reserve(5, &mut buffers, &mut kept)?;
        let mut nodes = 0usize;
        let mut input = [0u8; 5];
        for digit in b'0'..=b'9' {
            input.copy_from_slice(&[b'[', digit, b',', digit, b']']);
            let (result, tape) = refill_tape(&mut input, &mut buffers, kept);
            result?;
            nodes = nodes.saturating_add(tape.nodes().len());
            kept = tape.reset();
        }
        Ok(nodes)
    }

    pub(super) fn read_twice(rt: &impl AllocGlobal) -> Result<usize> {
        let (mut first, mut second) = (*b"[1,2]", *b"[[3]]");
        let mut buffers = Buffers::empty(rt.alloc(), 2);
        let mut tape = Tape::null(rt.alloc())?;
        reserve(5, &mut buffers, &mut tape)?;
        fill_tape(&mut first, &mut buffers, &mut tape)?;
        fill_tape(&mut second, &mut buffers, &mut tape)?;
        Ok(tape.nodes().len())
    }

    pub(super) fn read_padded(rt: &impl AllocGlobal) -> Result<usize> {
        let mut input = [b'1'; 2 + INPUT_PADDING];
        let mut buffers = Buffers::new(rt.alloc(), 2)?;
        let mut tape = Tape::null(rt.alloc())?;
        fill_tape_padded(&mut input, 2, &mut buffers, &mut tape)?;
        Ok(tape.nodes().len())
    }
}

mod sinks {
    use simd_json::{Container, SpanSink, StaticNode};

    // Keeps the place of the longest string, and hands all nodes on.
    #[derive(Drop)]
    pub(super) struct LongestString<S> {
        pub(super) at: usize,
        pub(super) len: usize,
        pub(super) nodes: S,
    }

    impl<S: SpanSink> SpanSink for LongestString<S> {
        ghost placed = { λ s. S.placed s.nodes };

        ghost node_room = { λ s. S.node_room s.nodes };

        ghost Lender = { S.Lender };

        ghost lender = { λ s. S.lender s.nodes };

        fn push_string(&mut self, at: usize, string: &str) {
            if string.len() > self.len {
                self.at = at;
                self.len = string.len();
            }
            self.nodes.push_string(at, string);
        }

        fn push_decimal(&mut self, at: usize, literal: &str) {
            self.nodes.push_decimal(at, literal);
        }

        fn push_wide(&mut self, at: usize, literal: &str, value: StaticNode) {
            self.nodes.push_wide(at, literal, value);
        }

        fn push_static(&mut self, value: StaticNode) {
            self.nodes.push_static(value);
        }

        fn push_header(&mut self, container: Container) {
            self.nodes.push_header(container);
        }

        fn set_counts(&mut self, header: usize, container: Container, len: usize, count: usize) {
            self.nodes.set_counts(header, container, len, count);
        }

        fn len(&self) -> usize {
            self.nodes.len()
        }
    }
}

mod kept {
    use simd_json::{Container, SpanNode, StaticNode};

    /// Where a text lies; where there is none, 0 bytes at 0.
    #[derive(Clone, Copy, Drop)]
    pub(super) struct Place {
        pub(super) at: usize,
        pub(super) len: usize,
    }

    impl SpanNode for Place {
        ghost form = { λ p. record { at = p.at; len = length p.text } };

        fn string(at: usize, len: usize) -> Place {
            Place { at, len }
        }

        fn decimal(at: usize, len: usize) -> Place {
            Place { at, len }
        }

        fn wide_integer(at: usize, len: usize, _value: StaticNode) -> Place {
            Place { at, len }
        }

        fn short_scalar(_value: StaticNode) -> Place {
            Place { at: 0, len: 0 }
        }

        fn header(_container: Container, _len: usize, _count: usize) -> Place {
            Place { at: 0, len: 0 }
        }
    }
}

mod views {
    use simd_json::TryTypeError;
    use simd_json::tape::Value;

    pub(super) fn port(settings: &Value<'_, '_>) -> Result<Option<u16>, TryTypeError> {
        settings.try_get_u16("port")
    }

    pub(super) fn is_answer(value: &Value<'_, '_>) -> bool {
        value.eq_u64(42) || value.eq_str("42")
    }

    pub(super) fn total(numbers: &Value<'_, '_>) -> Option<u64> {
        let array = numbers.as_array()?;
        let mut total = 0u64;
        for value in &array {
            total = total.checked_add(value.as_u64()?)?;
        }
        Some(total)
    }
}

#[test]
fn views_are_used_as_shown(rt: HostRuntime) {
    let mut input = *b"{\"port\":8080,\"answer\":\"42\",\"numbers\":[1,2,3]}";
    let tape = tape_of(&rt, &mut input);
    let value = tape.as_value();
    assert_eq!(rt; views::port(&value), Ok(Some(8080)));
    let answer = value.get("answer").expect(&rt, "it is there");
    assert!(rt; views::is_answer(&answer));
    let numbers = value.get("numbers").expect(&rt, "it is there");
    assert_eq!(rt; views::total(&numbers), Some(6));
}

#[test]
fn a_value_is_read(rt: HostRuntime) {
    assert_eq!(rt; first_call::the_answer(&rt), Ok(Some(42)));
}

#[test]
fn entry_points_are_used_as_shown(rt: HostRuntime) {
    let mut log = *b"[1]\n{}\n3";
    let (mut shallow, mut deep) = (*b"[[1]]", *b"[[[]]]");
    assert_eq!(rt; entry_points::first_len(&rt), Ok(6));
    assert_eq!(rt; entry_points::count_positions(&rt), Ok(11));
    assert!(rt; entry_points::is_shallow(&rt, &mut shallow));
    assert!(rt; !entry_points::is_shallow(&rt, &mut deep));
    assert_eq!(rt; entry_points::count_nodes(&rt, &mut log), Ok(4));
    assert_eq!(rt; entry_points::count_in_place(&rt), Ok(30));
    assert_eq!(rt; entry_points::read_twice(&rt), Ok(3));
    assert_eq!(rt; entry_points::read_padded(&rt), Ok(1));
}

#[test]
fn a_sink_keeps_the_place_of_a_string(rt: HostRuntime) {
    let mut input = *b"[\"a\",\"b\\u0063d\",\"e\"]";
    let mut buffers = Buffers::empty(rt.alloc(), 1);
    let mut longest = sinks::LongestString {
        at: 0,
        len: 0,
        nodes: empty_list(&rt),
    };
    assert_eq!(rt; fill_spans(&mut input, &mut buffers, &mut longest), Ok(()));
    assert_eq!(rt;
        &input[longest.at..longest.at.saturating_add(longest.len)],
        b"bcd".as_slice()
    );
    assert_eq!(rt; longest.nodes.len(), 4);
}

#[test]
fn places_of_texts_are_kept(rt: HostRuntime) {
    let mut input = *b"{\"a\":[1,\"x\\ny\",2.50]}";
    let mut buffers = Buffers::empty(rt.alloc(), 2);
    let mut places: Vec<kept::Place> = Vec::new(rt.alloc());
    let kept = keep_spans(&mut input, &mut buffers, &mut places);
    assert_eq!(rt; kept, Ok(true));
    let wanted = [(0, 0), (2, 1), (0, 0), (0, 0), (9, 3), (15, 4)];
    assert_eq!(rt; places.len(), wanted.len());
    for (place, (at, len)) in places.iter().zip(wanted) {
        assert_eq!(rt; (place.at, place.len), (at, len));
    }
    assert_eq!(rt; &input[9..12], b"x\ny".as_slice());
}
