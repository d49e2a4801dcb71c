//! Random texts, which are read as slowly by the definition.
use super::slow::found_slowly;
use super::*;
use crate::tests::takes_all;

// A sequence of numbers that looks random (xorshift, with a period of 2^64 - 1).
#[derive(Drop)]
struct Numbers {
    state: u64,
}

impl Numbers {
    fn next(&mut self) -> u64 {
        self.state ^= self.state << 13;
        self.state ^= self.state >> 7;
        self.state ^= self.state << 17;
        self.state
    }

    fn below(&mut self, end: usize) -> usize {
        (self.next() >> 11) as usize % end.max(1)
    }

    // A text of up to this many bytes out of some.
    fn text(
        &mut self,
        alloc: Global,
        max_len: usize,
        bytes: &[u8],
    ) -> std::result::Result<Vec<u8>, AllocError> {
        let mut text = Vec::new(alloc);
        for _ in 0..self.below(max_len) {
            text.push(bytes.get(self.below(bytes.len())).copied().unwrap_or(b' '))?;
        }
        Ok(text)
    }
}

// Texts of up to this many bytes out of some, with lists that are kept from one to the next.
fn agree(
    rt: &(impl AllocGlobal + Abort),
    seed: u64,
    texts: usize,
    max_len: usize,
    bytes: &[u8],
) -> Tested {
    let mut numbers = Numbers { state: seed };
    let (mut positions, mut blocks) = (Vec::new(rt.alloc()), Vec::new(rt.alloc()));
    for _ in 0..texts {
        let text = numbers.text(rt.alloc(), max_len, bytes)?;
        let found = BlockStage1Parse::find_structural_bits(&text, &mut positions, &mut blocks).map(
            |found| (
                &positions[..found.positions],
                &blocks[..found.escape_blocks],
            ),
        );
        let slowly = found_slowly(rt.alloc(), &text, 0);
        match (found, slowly) {
            (Ok(found), Ok(slowly)) => {
                assert_eq!(rt;
                    found,
                    (slowly.0.as_slice(), slowly.1.as_slice()),
                    "{text:?}"
                );
            }
            (Err(found), Err(slowly)) => assert_eq!(rt; found, slowly, "{text:?}"),
            _ => assert!(rt; false, "{text:?}"),
        }
    }
    Ok(())
}

#[test]
fn agrees_on_random_texts(rt: HostRuntime) -> Tested {
    let texts = if takes_all(&rt) { 200_000 } else { 2_000 };
    agree(&rt, 0x9e37_79b9_7f4a_7c15, texts, 301, b"\\\"a ,\n")
}

// Few quotes and backslashes, so that most strings are not rejected.
#[test]
fn agrees_on_mostly_plain_texts(rt: HostRuntime) -> Tested {
    let bytes = b"aaaaaaaaaaaa        ,,,,::{}[]1234\t\r\\\"\"";
    let texts = if takes_all(&rt) { 20_000 } else { 2_000 };
    agree(&rt, 0x2545_f491_4f6c_dd1d, texts, 301, bytes)
}

#[test]
fn agrees_on_all_bytes(rt: HostRuntime) -> Tested {
    let mut bytes = [0u8; 256];
    for (byte, i) in bytes.iter_mut().zip(0..=u8::MAX) {
        *byte = i;
    }
    let texts = if takes_all(&rt) { 50_000 } else { 2_000 };
    agree(&rt, 0x1234_5678_9abc_def1, texts, 20, &bytes)?;
    let ascii = bytes.get(..128).unwrap_or(&bytes);
    agree(&rt, 0x0bad_cafe_dead_beef, texts, 301, ascii)
}

// Over several windows.
#[test]
fn agrees_on_long_texts(rt: HostRuntime) -> Tested {
    let bytes = b"aaaaaaaaaaaa        ,,,,::{}[]1234\t\r\\\"\"";
    let texts = if takes_all(&rt) { 200 } else { 20 };
    agree(&rt, 0x7e57_7e57_7e57_7e57, texts, 50_000, bytes)
}

// Strings of some hundred bytes, so that blocks are passed over.
#[test]
fn agrees_on_long_strings(rt: HostRuntime) -> Tested {
    let mut bytes = [b'a'; 600];
    bytes[..6].copy_from_slice(b"\"\\,{ 1");
    let texts = if takes_all(&rt) { 100 } else { 20 };
    agree(&rt, 0x1357_9bdf_0246_8ace, texts, 20_000, &bytes)?;
    let mut bytes = [b'a'; 4000];
    bytes[..8].copy_from_slice(b"\"\"\"\"\\,{ ");
    agree(&rt, 0x8ace_0246_9bdf_1357, texts, 40_000, &bytes)
}
