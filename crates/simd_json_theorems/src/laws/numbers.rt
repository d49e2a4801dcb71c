//! Laws of numbers, and of the patterns that they are.
ghost use Rattle.std.specs.Prelude.{◌≡◌, ◌↔◌, ◌≤◌, ◌+◌, ◌++◌, ◌∷◌, ◌⊎◌, ℕ, List, length, take};
ghost use Rattle.std.specs.Prelude.{drop, IsTrue};
ghost use Rattle.std.specs.Prelude.{Ok, true};
ghost use Rattle.std.specs.Char.{is_ascii_digit};
ghost use Rattle.simd_json_parts.specs.Bytes.{is_terminator, byte_at};
ghost use Rattle.simd_json_parts.specs.Derivatives.{matches, is_possible, longest_prefix};
ghost use Rattle.simd_json_parts.specs.Document.{integer, decimal};
ghost use Rattle.simd_json_parts.specs.Integers.{max_magnitude};
ghost use Rattle.simd_json_parts.specs.NumberAt.{number_at};
ghost use Rattle.simd_json_parts.specs.Numbers.{number_literal, integer_literal, decimal_literal};
ghost use Rattle.simd_json_parts.specs.Numbers.{has_minus};
ghost use Rattle.simd_json_parts.specs.Numbers.{magnitude};
ghost use Rattle.simd_json_parts.specs.Patterns.{Pattern, Matches, Begins};

/// The test of a pattern is its set.
pub fn patterns_are_sets()
    ensures { (p : Pattern) (bs : List ℕ) → (matches p bs ≡ true) ↔ Matches p bs }
{}

/// The longest prefix begins a list of the set, and no longer prefix does.
pub fn longest_prefixes()
    ensures begins { (p : Pattern) (bs : List ℕ) → is_possible p ≡ true
        → Begins p (take (longest_prefix p bs) bs) }
    ensures longest { (p : Pattern) (bs : List ℕ) (n : ℕ) → n ≤ length bs → Begins p (take n bs)
        → n ≤ longest_prefix p bs }
{}

/// A number literal is an integer's or a decimal's, and no literal is both.
pub fn numbers_are_integers_or_decimals()
    ensures either { (bs : List ℕ) → Matches number_literal bs
        ↔ (Matches integer_literal bs ⊎ Matches decimal_literal bs) }
    ensures not_both { (bs : List ℕ) → Matches integer_literal bs → Matches decimal_literal bs → ⊥ }
{}

/// A zero that begins a number is its only digit before the fraction and the exponent.
pub fn leading_zeros_stand_alone()
    ensures unsigned { (x : ℕ) (bs : List ℕ) → IsTrue (is_ascii_digit x)
        → Matches number_literal (48 ∷ x ∷ bs) → ⊥ }
    ensures signed { (x : ℕ) (bs : List ℕ) → IsTrue (is_ascii_digit x)
        → Matches number_literal (45 ∷ 48 ∷ x ∷ bs) → ⊥ }
{}

/// A number of the grammar at an index, with a terminator or the end after it, is read whole; an
/// integer, where it is in the range of its sign.
pub fn numbers_are_read()
    ensures integers { (b : List ℕ) (i : ℕ) (xs rest : List ℕ) → drop i b ≡ xs ++ rest
        → IsTrue (is_terminator (byte_at rest 0))
        → Matches integer_literal xs → magnitude xs ≤ max_magnitude (has_minus xs)
        → number_at b i ≡ Ok (integer (has_minus xs) (magnitude xs), i + length xs) }
    ensures decimals { (b : List ℕ) (i : ℕ) (xs rest : List ℕ) → drop i b ≡ xs ++ rest
        → IsTrue (is_terminator (byte_at rest 0))
        → Matches decimal_literal xs → number_at b i ≡ Ok (decimal xs, i + length xs) }
{}
