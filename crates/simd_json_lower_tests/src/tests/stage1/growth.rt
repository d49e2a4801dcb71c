//! Each growth of the lists fails in turn, and none is tried before the encoding is known.
use super::*;
use linked_list_allocator::LocalHeap;

// The lengths that the lists have where a growth fails, one after another, as the heap gets larger
// by steps. Where no growth fails, the result is the wanted one; lists that have capacity for all
// from the start ask for no more.
fn failed_lengths(
    rt: &(impl AllocGlobal + Abort),
    text: &[u8],
    step: usize,
    want: Found,
) -> std::result::Result<Vec<(usize, usize)>, Fail> {
    let mut failed: Vec<(usize, usize)> = Vec::new(rt.alloc());
    let mut whole = 0u32;
    for steps in 0..300usize {
        let heap = LocalHeap::new(rt.alloc(), step.saturating_mul(steps))?;
        let mut positions = Vec::new(&heap);
        let mut blocks = Vec::new(&heap);
        match BlockStage1Parse::find_structural_bits(text, &mut positions, &mut blocks) {
            Ok(found) => {
                assert_eq!(rt; found, want);
                whole = whole.saturating_add(1);
            }
            Err(e) => {
                assert_eq!(rt; e, Error::generic(ErrorType::OutOfMemory));
                let lengths = (positions.len(), blocks.len());
                if failed.last() != Some(&lengths) {
                    failed.push(lengths)?;
                }
            }
        }
    }
    assert!(rt; whole > 0);
    Ok(failed)
}

// No growth is tried where both lists are as long as the input has bytes and blocks, whatever they
// hold.
fn needs_no_growth(rt: &(impl AllocGlobal + Abort), text: &[u8], want: Found) -> Tested {
    let heap = LocalHeap::new(
        rt.alloc(),
        text.len().saturating_mul(5).saturating_add(4096),
    )?;
    let mut positions = Vec::new(&heap);
    let mut blocks = Vec::new(&heap);
    positions.resize(text.len(), 7)?;
    blocks.resize(text.len().div_ceil(BLOCK_LEN), 7)?;
    let mut others = Vec::new(&heap);
    for _ in 0..text.len().saturating_add(4096) {
        if others.push([0u64; 4]).is_err() {
            break;
        }
    }
    assert!(rt; others.push([0u64; 4]).is_err());
    let answer = BlockStage1Parse::find_structural_bits(text, &mut positions, &mut blocks);
    assert_eq!(rt; answer, Ok(want));
    assert_eq!(rt; positions.len(), text.len());
    Ok(())
}

// Without a backslash the list of blocks of one window does not grow.
#[test]
fn each_growth_of_one_window_fails(rt: HostRuntime) -> Tested {
    for (before, byte, len, want, lengths) in [
        (
            b"".as_slice(),
            b',',
            200,
            Found {
                positions: 200,
                escape_blocks: 0,
            },
            [(0, 0)].as_slice(),
        ),
        (
            b"\"",
            b'\\',
            2558,
            Found {
                positions: 1,
                escape_blocks: 40,
            },
            &[(0, 0), (2560, 0)],
        ),
        (
            b"[",
            b',',
            40,
            Found {
                positions: 42,
                escape_blocks: 0,
            },
            &[(0, 0)],
        ),
    ] {
        let text = text(rt.alloc(), before, byte, len, before)?;
        let step = if len < 1000 { 16 } else { 64 };
        let failed = failed_lengths(&rt, &text, step, want)?;
        assert_eq!(rt; failed.as_slice(), lengths);
        needs_no_growth(&rt, &text, want)?;
    }
    Ok(())
}

// The list of structural indexes grows again where a later window has more than was guessed, and
// the list of blocks too.
#[test]
fn each_growth_of_several_windows_fails(rt: HostRuntime) -> Tested {
    let mut text = text(rt.alloc(), b"", b' ', 8192, b"")?;
    for _ in 0..20_000 {
        text.push(b',')?;
    }
    let want = Found {
        positions: 20_000,
        escape_blocks: 0,
    };
    let failed = failed_lengths(&rt, &text, 1024, want)?;
    assert_eq!(rt; failed.first(), Some(&(0, 0)));
    assert!(rt; failed.len() > 2, "{failed:?}");
    for lengths in failed.windows(2) {
        assert!(rt;
            lengths[0].0 < lengths[1].0 || lengths[0].1 < lengths[1].1,
            "{failed:?}"
        );
    }
    needs_no_growth(&rt, &text, want)
}

// An error of the encoding comes first, wherever it is and however little memory there is.
#[test]
fn the_encoding_comes_before_memory(rt: HostRuntime) -> Tested {
    for at in [0usize, 63, 64, 8190, 8191, 8192, 8193, 16_383, 19_999] {
        for bad in [b"\xff".as_slice(), b"\xc3", b"\xe2\x82", b"\x80"] {
            let text = text(rt.alloc(), b"", b',', at, bad)?;
            let text = self::text(rt.alloc(), &text, b',', 20_000, b"")?;
            for size in [0usize, 1024, 65_536, 262_144] {
                let heap = LocalHeap::new(rt.alloc(), size)?;
                let mut positions = Vec::new(&heap);
                let mut blocks = Vec::new(&heap);
                let answer = BlockStage1Parse::find_structural_bits(
                    &text,
                    &mut positions,
                    &mut blocks,
                );
                assert_eq!(rt; answer, Err(Error::generic(ErrorType::InvalidUtf8)));
                assert_eq!(rt; positions.len(), 0);
                assert_eq!(rt; blocks.len(), 0);
            }
        }
    }
    Ok(())
}

// With capacity from the start, windows are tested one by one, and characters across their ends are
// whole.
#[test]
fn characters_across_windows_are_read(rt: HostRuntime) -> Tested {
    for character in ["\u{e9}", "\u{20ac}", "\u{1f600}"] {
        for at in (506..514usize)
            .chain(7674..7682)
            .chain(8186..8194)
            .chain(8698..8706)
        {
            let head = text(rt.alloc(), b"\"", b'a', at, character.as_bytes())?;
            let text = text(rt.alloc(), &head, b'a', 9000, b"\"")?;
            let mut positions = Vec::new(rt.alloc());
            let mut blocks = Vec::new(rt.alloc());
            positions.resize(text.len(), 0)?;
            blocks.resize(text.len().div_ceil(BLOCK_LEN), 0)?;
            let answer = BlockStage1Parse::find_structural_bits(&text, &mut positions, &mut blocks);
            let want = Found {
                positions: 1,
                escape_blocks: 0,
            };
            assert_eq!(rt; answer, Ok(want));
            for cut in 1..character.len() {
                let mut cut = text_without(rt.alloc(), &text, at.saturating_add(1), cut)?;
                let answer = BlockStage1Parse::find_structural_bits(
                    &cut,
                    &mut positions,
                    &mut blocks,
                );
                assert_eq!(rt; answer, Err(Error::generic(ErrorType::InvalidUtf8)));
                cut.clear();
            }
        }
    }
    Ok(())
}

// The encoding of each group of 512 bytes is tested, whether others are ASCII or not.
#[test]
fn each_group_is_tested(rt: HostRuntime) -> Tested {
    let (mut positions, mut blocks) = (Vec::new(rt.alloc()), Vec::new(rt.alloc()));
    positions.resize(20_000, 0)?;
    blocks.resize(400, 0)?;
    for group in 0..34usize {
        for (other, character) in [
            (0usize, ""),
            (3, "\u{e9}"),
            (17, "\u{20ac}"),
            (33, "\u{e9}"),
        ] {
            let mut text = text(rt.alloc(), b"\"", b'a', 18_000, b"\"")?;
            for (place, byte) in text[512 * other + 200..].iter_mut().zip(character.bytes()) {
                *place = byte;
            }
            let answer = BlockStage1Parse::find_structural_bits(&text, &mut positions, &mut blocks);
            assert!(rt; answer.is_ok(), "{other}");
            for at in [1usize, 63, 300, 511] {
                let was = text[512 * group + at];
                text[512 * group + at] = 0x80;
                let answer = BlockStage1Parse::find_structural_bits(
                    &text,
                    &mut positions,
                    &mut blocks,
                );
                assert_eq!(rt;
                    answer,
                    Err(Error::generic(ErrorType::InvalidUtf8)),
                    "{group} {other} {at}"
                );
                text[512 * group + at] = was;
            }
        }
    }
    Ok(())
}

// A string without some of its bytes.
fn text_without(
    alloc: Global,
    text: &[u8],
    at: usize,
    count: usize,
) -> std::result::Result<Vec<u8>, AllocError> {
    let mut rest = Vec::new(alloc);
    for (i, &byte) in text.iter().enumerate() {
        if i < at || i >= at.saturating_add(count) {
            rest.push(byte)?;
        }
    }
    Ok(rest)
}
