//! The bytes of a value as they are written.
ghost use Rattle.std.specs.Prelude.{◌≡◌, true, Some, is_some, option_map};
ghost use Rattle.simd_json_parts.specs.Bytes.{byte_at, is_closing, is_opening};
ghost use Rattle.simd_json_parts.specs.Document as parts;

use crate::skip::skip;
use crate::value::Value;

impl<'d> Value<'d> {
    ghost use Rattle.simd_json_ondemand.specs.Docs.{doc, text, index_of};
    ghost use Rattle.simd_json_ondemand.specs.Written.{enclosed, written};

    /// Returns the bytes of the value as they are written: of a string with its quotes, of a
    /// number, `true`, `false` or `null`, or of an array or an object from its opening to its
    /// closing bracket; or `None` where no value begins.
    ///
    /// The closing bracket is found by counting. What is inside is not tested, nor are the escapes
    /// of a string. If fewer brackets are closed than opened, the bytes end at the last token, and
    /// `None` is returned unless that is a closing bracket.
    pub fn raw(self) -> Option<&'d [u8]>
        ensures document { (d : parts.Document) → doc self.entry ≡ Some d
            → is_some result ≡ true }
        ensures any { option_map (λ bytes. bytes.now) result ≡ written self.entry }
    {
        if opens(self.first()) {
            self.container()
        } else {
            self.literal()
        }
    }

    // The bytes of the container here, if it is closed.
    #[tactic(auto, using(simd_json_check::proofs::Scans::within))]
    fn container(self) -> Option<&'d [u8]>
        requires { is_opening (byte_at (text self.document) (index_of self)) ≡ true }
        ensures { option_map (λ bytes. bytes.now) result ≡ enclosed self.entry }
    {
        let document = self.document;
        let last = skip(document.input, document.indexes, self.at) - 1;
        if closes(document.byte(last)) {
            let begin = document.indexes[self.at] as usize;
            let end = document.indexes[last] as usize + 1;
            Some(&document.input[begin..end])
        } else {
            None
        }
    }
}

fn opens(c: u8) -> bool
    ensures { result ≡ is_opening c }
{
    c == b'[' || c == b'{'
}

fn closes(c: u8) -> bool
    ensures { result ≡ is_closing c }
{
    c == b']' || c == b'}'
}
