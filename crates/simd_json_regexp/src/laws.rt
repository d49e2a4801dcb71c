//! What holds of regular expressions. Each function has an empty body: its contract is the law.
ghost use Rattle.std.specs.Prelude.{◌≡◌, ◌↔◌, ℕ, List, true};
ghost use Rattle.simd_json_regexp.specs.Marks.{matches};
ghost use Rattle.simd_json_regexp.specs.Regexps.{Matches, Regexp};
ghost use Rattle.simd_json_regexp.specs.Searches.{Finds, within};

/// What is matched character by character is what the regular expression describes.
pub fn matches_what_is_described()
    ensures { (p : Regexp) (cs : List ℕ) → (matches p cs ≡ true) ↔ Matches p cs }
{}

/// A text is found exactly if some of its characters in a row match.
pub fn finds_what_matches()
    ensures { (p : Regexp) (cs : List ℕ) → (matches (within p) cs ≡ true) ↔ Finds p cs }
{}
