// All texts of a few tokens, one right after another.
use crate::tests::{Kept, Tested, compare, takes_all};
use std::process::Abort;

const TOKENS: usize = 9;

fn tokens() -> [&'static [u8]; TOKENS] {
    [b"[", b"]", b"{", b"}", b",", b":", b"\"a\"", b"1", b"true"]
}

// The text of a number of tokens, which are the digits of another number.
fn compare_text(
    rt: &(impl AllocGlobal + Abort),
    number: usize,
    count: usize,
    kept: &mut Kept,
) -> Tested {
    let mut text = Vec::new(rt.alloc());
    let mut digits = number;
    for _ in 0..count {
        text.extend_from_slice(tokens()[digits % TOKENS])?;
        digits /= TOKENS;
    }
    compare(rt, &text, kept)
}

#[test]
fn texts_of_six_tokens_are_answered_as_by_the_reference(rt: HostRuntime) -> Tested {
    let mut kept = Kept::new(rt.alloc())?;
    let most = if takes_all(&rt) { 6 } else { 4 };
    let mut texts = 1usize;
    for count in 0..=most {
        for number in 0..texts {
            compare_text(&rt, number, count, &mut kept)?;
        }
        texts = texts.saturating_mul(TOKENS);
    }
    Ok(())
}
