// Inputs that are changed at random, with a fixed seed.
use crate::tests::{Kept, Tested, compare, inputs, takes_all};
use std::alloc::AllocError;

// A sequence of numbers that looks random (xorshift, with a period of 2^64 - 1).
#[derive(Drop)]
struct Numbers {
    state: u64,
}

impl Numbers {
    fn next(&mut self) -> u64 {
        self.state ^= self.state << 13;
        self.state ^= self.state >> 7;
        self.state ^= self.state << 17;
        self.state
    }

    fn below(&mut self, end: usize) -> usize {
        (self.next() >> 11) as usize % end.max(1)
    }

    fn one_of(&mut self, bytes: &[u8]) -> u8 {
        bytes.get(self.below(bytes.len())).copied().unwrap_or(b' ')
    }

    // Mostly one that JSON gives a meaning.
    fn byte(&mut self) -> u8 {
        if self.below(8) == 0 {
            self.next().to_le_bytes()[0]
        } else {
            self.one_of(b"[]{},:\"\\ \n\t0123456789-+.eEutrfalsn/bD8\x1f")
        }
    }
}

fn set(text: &mut Vec<u8>, i: usize, byte: u8) {
    if let Some(place) = text.get_mut(i) {
        *place = byte;
    }
}

fn swap(text: &mut Vec<u8>, i: usize, j: usize) {
    if let (Some(first), Some(second)) = (text.get(i).copied(), text.get(j).copied()) {
        set(text, i, second);
        set(text, j, first);
    }
}

// One byte more, one less, another one, or two that change places.
fn mutate(numbers: &mut Numbers, text: &mut Vec<u8>) -> std::result::Result<(), AllocError> {
    let i = numbers.below(text.len().saturating_add(1));
    match numbers.below(4) {
        0 if i <= text.len() => text.insert(i, numbers.byte())?,
        1 if i < text.len() => {
            let _ = text.remove(i);
        }
        2 => set(text, i, numbers.byte()),
        _ => swap(text, i, numbers.below(text.len())),
    }
    Ok(())
}

#[test]
fn mutations_are_answered_as_by_the_reference(rt: HostRuntime) -> Tested {
    let inputs = inputs();
    let mut numbers = Numbers {
        state: 0x9e37_79b9_7f4a_7c15,
    };
    let mut kept = Kept::new(rt.alloc())?;
    let mut text = Vec::new(rt.alloc());
    let mutations = if takes_all(&rt) { 100_000 } else { 2_000 };
    for _ in 0..mutations {
        text.clear();
        // Often behind spaces, so that it lies across the end of a block.
        let spaces = numbers.below(2).saturating_mul(numbers.below(131));
        text.resize(spaces, b' ')?;
        text.extend_from_slice(inputs[numbers.below(inputs.len()) % inputs.len()])?;
        for _ in 0..=numbers.below(4) {
            mutate(&mut numbers, &mut text)?;
        }
        compare(&rt, &text, &mut kept)?;
    }
    Ok(())
}
