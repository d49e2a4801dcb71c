//! How a rejected line is named.
ghost use Rattle.std.specs.Prelude.{◌≡◌, IfOk};
ghost use Rattle.programs.specs.Rejections.{rejection_words};

use arrayvec::ArrayVec;
use simd_json_check::{Error, Location};
use std::io::{self, Write};

/// Text that is no longer than this names a rejected line, after the name of its file.
pub type Words = ArrayVec<u8, 256>;

/// Returns what names a rejected text after the name of its file: `:LINE:COLUMN: REASON [KIND]` and
/// a line feed, where its first line has this number. Without an error the text is longer than
/// `longest` bytes. `text` holds the bytes as they were before a parse.
///
/// Returns an error if the words have more than 256 bytes, which does not happen.
pub fn rejection_words(
    longest: usize,
    number: u64,
    text: &[u8],
    error: Option<Error>,
) -> io::Result<Words>
    ensures { IfOk result (λ words. words.items
        ≡ rejection_words longest number text.now error) }
{
    let mut words = Words::new();
    let Some(e) = error else {
        writeln!(words, ":{number}: longer than {longest} bytes (--longest)")?;
        return Ok(words);
    };
    let location = Location::new(text, e).in_file(number as usize);
    writeln!(words, ":{location} [{}]", location.kind())?;
    Ok(words)
}
