//! The digits among bytes.
ghost use Rattle.std.specs.Prelude.{◌≡◌, ◌<◌, length, drop, slice_index};
ghost use Rattle.simd_json_number.specs.Numbers.{digits};

// So many zeros, and then the digits among bytes.
#[derive(Clone, Copy, Debug)]
pub(crate) struct Digits<'text> {
    pub(crate) zeros: usize,
    pub(crate) bytes: &'text [u8],
}

impl Digits<'_> {
    ghost use Rattle.simd_json_number.specs.Padded.{digits_left};

    // The next digit, and 0 after the last one.
    pub(crate) fn next(&mut self) -> u8
        ensures digit { result ≡ slice_index (digits_left self.old) 0 }
        ensures left { digits_left self.new ≡ drop 1 (digits_left self.old) }
        ensures below { result < 10 }
    {
        if self.zeros > 0 {
            self.zeros -= 1;
            return 0;
        }
        let mut left = self.bytes;
        while let Some((first, others)) = left.split_first() {
            left = others;
            if first.is_ascii_digit() {
                *self = Digits {
                    zeros: 0,
                    bytes: left,
                };
                return *first - b'0';
            }
        }
        *self = Digits {
            zeros: 0,
            bytes: left,
        };
        0
    }
}

// How many digits there are among bytes.
pub(crate) fn count_digits(bytes: &[u8]) -> usize
    ensures { result ≡ length (digits bytes.now) }
{
    let mut count = 0;
    for byte in bytes {
        if byte.is_ascii_digit() {
            count += 1;
        }
    }
    count
}
