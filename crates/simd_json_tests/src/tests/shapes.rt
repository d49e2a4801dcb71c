// Long runs of one thing, whose results are known.
use crate::tests::{Tested, text};
use simd_json::ErrorType::{InternalError, Syntax};
use simd_json::{
    Buffers, DEFAULT_MAX_DEPTH, Error, INPUT_PADDING, Node, Tape, fill_tape, to_tape,
    to_tape_with_buffers,
};
use std::process::Abort;

fn is_backslashes(node: Option<&Node<'_>>, len: usize) -> bool {
    matches!(node, Some(Node::String(s)) if s.len() == len && s.bytes().all(|b| b == b'\\'))
}

// An even run of backslashes is a string of half as many, an odd one leaves the string open.
fn assert_run(
    rt: &(impl AllocGlobal + Abort),
    spaces: usize,
    run: usize,
    kept: &mut Buffers,
) -> Tested {
    let case = (spaces, run);
    let before = text(rt.alloc(), b"", b" ", spaces, b"\"")?;
    let mut input = text(rt.alloc(), &before, b"\\", run, b"\"")?;
    let mut tape = Tape::null(rt.alloc())?;
    let error = fill_tape(input.as_mut_slice(), kept, &mut tape).err();
    let listed = kept.structural_indexes();
    let lens = (tape.nodes().len(), listed.len());
    if run % 2 == 0 {
        assert_eq!(rt; error, None, "{case:?}");
        assert!(rt; is_backslashes(tape.nodes().first(), run / 2), "{case:?}");
        assert_eq!(rt; lens, (1, 1), "{case:?}");
        assert!(rt; listed.iter().all(|i| *i as usize == spaces), "{case:?}");
    } else {
        assert_eq!(rt; error, Some(Error::generic(Syntax)), "{case:?}");
        assert_eq!(rt; lens, (0, 0), "{case:?}");
    }
    Ok(())
}

// Wherever blocks end.
#[test]
fn backslashes_in_a_string_are_counted(rt: HostRuntime) -> Tested {
    let mut kept = Buffers::new(rt.alloc(), 0)?;
    for spaces in 0..=127usize {
        for run in 0..=130usize {
            assert_run(&rt, spaces, run, &mut kept)?;
        }
    }
    Ok(())
}

#[test]
fn backslashes_outside_strings_are_counted(rt: HostRuntime) -> Tested {
    for run in 1..=130usize {
        let mut input = text(rt.alloc(), b"", b"\\", run, b"\"")?;
        let wanted = if run % 2 == 1 {
            Error::new(0, Some('\\'), InternalError)
        } else {
            Error::generic(Syntax)
        };
        let error = to_tape(rt.alloc(), input.as_mut_slice()).err();
        assert_eq!(rt; error, Some(wanted), "{run:?}");
    }
    Ok(())
}

// As many arrays as may be open, one in another.
#[test]
fn as_many_containers_as_allowed_are_open(rt: HostRuntime) -> Tested {
    for (limit, depth) in [
        (DEFAULT_MAX_DEPTH, 1024usize),
        (100_000, 100_000),
        (usize::MAX, 100_000),
    ] {
        let open = text(rt.alloc(), b"", b"[", depth, b"")?;
        let mut input = text(rt.alloc(), &open, b"]", depth, b"")?;
        let mut buffers = Buffers::with_max_depth(rt.alloc(), 0, limit)?;
        let tape = to_tape_with_buffers(input.as_mut_slice(), &mut buffers)?;
        assert_eq!(rt; tape.nodes().len(), depth, "{limit:?}");
        for (node, count) in tape.nodes().iter().rev().zip(0..depth) {
            let len = count.min(1);
            assert_eq!(rt; *node, Node::Array { len, count }, "{limit:?}");
        }
    }
    assert_eq!(rt; INPUT_PADDING, 64);
    Ok(())
}

// A decimal has no range: it keeps all of its digits.
#[test]
fn long_decimals_are_kept(rt: HostRuntime) -> Tested {
    for before in [b"0.".as_slice(), b"1e"] {
        let literal = text(rt.alloc(), before, b"9", 10_000, b"")?;
        let mut input = literal.clone()?;
        let tape = to_tape(rt.alloc(), input.as_mut_slice())?;
        assert_eq!(rt; tape.nodes().len(), 1);
        let is_kept = matches!(tape.nodes().first(),
            Some(Node::Decimal(digits)) if digits.as_bytes() == literal.as_slice());
        assert!(rt; is_kept, "{before:?}");
    }
    Ok(())
}
