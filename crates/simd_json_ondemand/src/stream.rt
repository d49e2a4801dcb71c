//! JSON Lines: the lines of an input, each a document of its own.
ghost use Rattle.std.specs.Prelude.{◌≡◌, [], ◌∷◌, MatchOption};
ghost use Rattle.simd_json_parts.specs.Pieces.{pieces};
ghost use Rattle.simd_json_ondemand.specs.Lines.{filled, lines_left};
ghost use Rattle.std.specs.Iterator.{YieldsFirstRef, item_count};

use memchr::memchr;
use simd_json_parts::charutils::is_blank;
use std::iter::FusedIterator;

/// The lines of an input that are left: an iterator, which can be copied.
#[derive(Clone, Copy, Debug)]
pub struct InputLines<'i> {
    // none after the last line
    rest: Option<&'i [u8]>,
}

/// Returns the lines of an input: what is between line feeds, before the first and after the last.
/// Blank lines, which are empty or whitespace alone (RFC 8259, section 2), are skipped.
///
/// ```
/// use simd_json_ondemand::{Document, Index, Result, lines};
///
/// // The sum of a field of log lines.
/// fn sum(rt: &impl AllocGlobal, log: &[u8], key: &str) -> Result<u64> {
///     let mut index = Index::new(rt.alloc(), 1024)?;
///     let mut sum = 0u64;
///     for line in lines(log) {
///         let root = Document::scan(&mut index, line)?.as_value();
///         if let Some(value) = root.get(key) {
///             sum = sum.saturating_add(value.as_u64().unwrap_or(0));
///         }
///     }
///     Ok(sum)
/// }
/// ```
pub fn lines(input: &[u8]) -> InputLines<'_>
    ensures { lines_left result ≡ filled (pieces input.now) }
{
    InputLines { rest: Some(input) }
}

impl<'i> InputLines<'i> {
    ghost use Rattle.simd_json_ondemand.specs.Lines.{pieces_left};

    // The next line, blank or not.
    #[inline(always)]
    fn next_piece(&mut self) -> Option<&'i [u8]>
        ensures { MatchOption result ((pieces_left self.old ≡ []) × (self.new ≡ self.old))
            (λ line. pieces_left self.old ≡ line.now ∷ pieces_left self.new) }
    {
        let rest = self.rest?;
        match memchr(b'\n', rest) {
            Some(end) => {
                self.rest = Some(&rest[end + 1..]);
                Some(&rest[..end])
            }
            None => {
                self.rest = None;
                Some(rest)
            }
        }
    }
}

impl<'i> Iterator for InputLines<'i> {
    type Item = &'i [u8];

    ghost use Rattle.simd_json_ondemand.specs.Lines.{lines_left};

    ghost next_gives = { YieldsFirstRef lines_left };

    ghost remaining = { item_count lines_left };

    fn next(&mut self) -> Option<&'i [u8]> {
        while let Some(line) = self.next_piece() {
            if !is_blank(line) {
                return Some(line);
            }
        }
        None
    }
}

impl<'i> FusedIterator for InputLines<'i> {}
