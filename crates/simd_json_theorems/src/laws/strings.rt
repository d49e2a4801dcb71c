//! Laws of strings.
ghost use Rattle.std.specs.Prelude.{◌≡◌, ◌≤◌, ◌<◌, ◌+◌, ◌++◌, ◌∷◌, ℕ, suc, List, length, take};
ghost use Rattle.std.specs.Prelude.{drop, IsTrue};
ghost use Rattle.std.specs.Prelude.{IsUtf8, encode_utf8_all, Ok, IsFalse};
ghost use Rattle.simd_json_parts.specs.Bytes.{quote, byte_at};
ghost use Rattle.simd_json_parts.specs.InputFaults.{has_bad_string};
ghost use Rattle.simd_json_parts.specs.Positions.{is_inside, is_real_quote};
ghost use Rattle.simd_json_parts.specs.Strings.{ArePieces};
ghost use Rattle.simd_json_parts.specs.StringAt.{string_at, closing_quote, read_pieces};
ghost use Rattle.simd_json_scalars.specs.StringRead.{further};

/// Pieces spell one string.
pub fn pieces_spell_one_string()
    ensures { (bs cs ds : List ℕ) → ArePieces bs cs → ArePieces bs ds
        → encode_utf8_all cs ≡ encode_utf8_all ds }
{}

/// A string literal of the grammar at an index is read as its string, up to its closing quote,
/// whatever is before and after it.
pub fn strings_are_read()
    ensures { (b : List ℕ) (i : ℕ) (content rest cs : List ℕ)
        → drop i b ≡ quote ∷ (content ++ quote ∷ rest) → ArePieces content cs
        → string_at b i ≡ Ok (encode_utf8_all cs, suc (suc i + length content)) }
{}

/// Of the content of a string, which is UTF-8 without a control byte and without a quote that would
/// end it, a prefix is read that is pieces, as the string of their characters, and no longer prefix
/// is pieces.
pub fn longest_pieces()
    ensures pieces { (bs : List ℕ) → IsUtf8 bs → ((i : ℕ) → i < length bs → 32 ≤ byte_at bs i)
        → ((i : ℕ) → i < length bs → IsFalse (is_real_quote bs i))
        → (own : List ℕ) × (cs : List ℕ) × (bs ≡ own ++ (read_pieces 0 bs).1) × ArePieces own cs
        × ((read_pieces 0 bs).0 ≡ encode_utf8_all cs) }
    ensures longest { (bs : List ℕ) (n : ℕ) (cs : List ℕ) → n ≤ length bs → ArePieces (take n bs) cs
        → n + length (read_pieces 0 bs).1 ≤ length bs }
{}

/// A string is determined by the bytes from its opening quote on, which are UTF-8 if all are: what
/// is before does not matter.
pub fn strings_stand_by_themselves()
    ensures string { (b : List ℕ) (i : ℕ) → byte_at b i ≡ quote
        → string_at b i ≡ further i (string_at (drop i b) 0) }
    ensures closing { (b : List ℕ) (i : ℕ) → byte_at b i ≡ quote
        → closing_quote b i ≡ i + closing_quote (drop i b) 0 }
    ensures utf8 { (b : List ℕ) (i : ℕ) → i < length b → byte_at b i ≡ quote → IsUtf8 b
        → IsUtf8 (drop i b) }
{}

/// Where no string is bad, each string that is opened is closed.
pub fn opened_strings_are_closed()
    ensures { (b : List ℕ) (i : ℕ) → i < length b → IsTrue (is_inside b i)
        → IsFalse (has_bad_string b) → closing_quote b i < length b }
{}
