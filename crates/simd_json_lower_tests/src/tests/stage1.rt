use simd_json_parts::error::{Error, ErrorType, Result};
use simd_json_stages::stage1::{BLOCK_LEN, BlockStage1Parse, Found, Stage1Parse};
use std::alloc::{AllocError, Global};
use std::process::Abort;
use std::test::Fail;

mod growth;
mod random;
mod slow;

type Tested = std::result::Result<(), Fail>;

// A stretch of one byte between two strings.
fn text(
    alloc: Global,
    before: &[u8],
    byte: u8,
    len: usize,
    after: &[u8],
) -> std::result::Result<Vec<u8>, AllocError> {
    let mut text = Vec::new(alloc);
    text.extend_from_slice(before)?;
    for _ in 0..len {
        text.push(byte)?;
    }
    text.extend_from_slice(after)?;
    Ok(text)
}

// The structural indexes, and the blocks with a backslash, in lists that grow from nothing.
fn found(alloc: Global, text: &[u8]) -> Result<(Vec<u32>, Vec<u32>)> {
    let mut positions = Vec::new(alloc);
    let mut blocks = Vec::new(alloc);
    let found = BlockStage1Parse::find_structural_bits(text, &mut positions, &mut blocks)?;
    positions.truncate(found.positions);
    blocks.truncate(found.escape_blocks);
    Ok((positions, blocks))
}

#[test]
fn each_bracket_is_a_position(rt: HostRuntime) -> Tested {
    let mut text = text(rt.alloc(), b"", b'[', 100_000, b"")?;
    for _ in 0..100_000 {
        text.push(b']')?;
    }
    let (positions, _) = found(rt.alloc(), &text)?;
    assert_eq!(rt; positions.len(), 200_000);
    for (i, &position) in positions.iter().enumerate() {
        assert_eq!(rt; position as usize, i);
    }
    Ok(())
}

#[test]
fn known_escape_blocks(rt: HostRuntime) -> Tested {
    for (before, byte, len, after, want) in [
        (
            b"{\"a\":\"no escape\"}".as_slice(),
            0,
            0,
            b"".as_slice(),
            [].as_slice(),
        ),
        (b"\"\\n\"", 0, 0, b"", &[0]),
        (b"\"\\n\\n\"", 0, 0, b"", &[0]),
        (b"\\", b' ', 62, b"\\", &[0]),
        (b"\\", b' ', 63, b"\\", &[0, 1]),
        (b"", b' ', 63, b"\\", &[0]),
        (b"", b' ', 64, b"\\", &[1]),
        (b"", b' ', 127, b"\\\\", &[1, 2]),
        (b"\\", b' ', 300, b"\\", &[0, 4]),
        (b"\"", b'\\', 254, b"\"", &[0, 1, 2, 3]),
        (b"\"", b'a', 200, b"\\n\"", &[3]),
    ] {
        let text = text(rt.alloc(), before, byte, len, after)?;
        let (_, blocks) = found(rt.alloc(), &text)?;
        assert_eq!(rt; blocks.as_slice(), want, "{text:?}");
    }
    Ok(())
}
