//! Laws of positions, and of the tokens there.
ghost use Rattle.std.specs.Prelude.{◌≡◌, ◌≢◌, ◌↔◌, ◌≤◌, ◌<◌, ◌+◌, ◌-◌, [], ◌⊎◌, ℕ, List};
ghost use Rattle.std.specs.Prelude.{length, IsTrue};
ghost use Rattle.std.specs.Prelude.{Contains, Some, None, IsFalse};
ghost use Rattle.std.specs.List.Sorted.{IsStrictlyIncreasing};
ghost use Rattle.simd_json_parts.specs.Bytes.{quote, is_whitespace, byte_at};
ghost use Rattle.simd_json_parts.specs.InputFaults.{has_bad_string};
ghost use Rattle.simd_json_parts.specs.Positions.{positions, is_position, is_inside};
ghost use Rattle.simd_json_parts.specs.StringAt.{closing_quote};
ghost use Rattle.simd_json_parts.specs.Tokens.{Token, token_end, tokens};
ghost use Rattle.simd_json_parts.specs.TokensAlong.{tokens_along};

/// Positions rise, and they are the indexes that the definition picks.
pub fn positions_rise()
    ensures rise { (b : List ℕ) → IsStrictlyIncreasing (positions b) }
    ensures picked { (b : List ℕ) (i : ℕ) → Contains (positions b) i
        ↔ ((i < length b) × IsTrue (is_position b i)) }
{}

/// Where some byte is inside a string, and so where some string is bad, there is a position. So an
/// input without positions has no bad string, and it does not matter which of these two errors is
/// looked for first.
pub fn strings_have_positions()
    ensures inside { (b : List ℕ) (i : ℕ) → i < length b → IsTrue (is_inside b i)
        → positions b ≢ [] }
    ensures bad { (b : List ℕ) → IsTrue (has_bad_string b) → positions b ≢ [] }
{}

/// Tokens are at positions: the tokens that the descent reads, up to the first that has an error or
/// is stray, are those at the positions, one after another. So what lies between positions hides no
/// token and no error.
pub fn tokens_stand_at_positions()
    ensures { (b : List ℕ) → tokens b ≡ tokens_along b (positions b) }
{}

/// The first byte of each token that the descent reads is a position, no other byte of it is one,
/// and between its end and the next position there is only whitespace.
pub fn only_whitespace_stands_between_tokens()
    ensures first { (b : List ℕ) (t : Token) → Contains (tokens b) t
        → Contains (positions b) t.index }
    ensures within { (b : List ℕ) (t : Token) (end k : ℕ) → Contains (tokens b) t
        → token_end t ≡ Some end → t.index < k → k < end → IsFalse (is_position b k) }
    ensures after { (b : List ℕ) (t : Token) (end k : ℕ) → Contains (tokens b) t
        → token_end t ≡ Some end → end ≤ k → k < length b
        → ((j : ℕ) → end ≤ j → j ≤ k → IsFalse (is_position b j))
        → IsTrue (is_whitespace (byte_at b k)) }
{}

/// So a string that is closed ends at the byte before the next position, or before the end of the
/// input, where that byte is a quote: its closing quote is known without reading it.
pub fn strings_end_before_the_next_position()
    ensures { (b : List ℕ) (t : Token) (next : ℕ) → Contains (tokens b) t
        → byte_at b t.index ≡ quote → closing_quote b t.index < length b
        → t.index + 1 < next → Contains (positions b) next ⊎ (next ≡ length b)
        → ((j : ℕ) → t.index < j → j < next → IsFalse (is_position b j))
        → byte_at b (next - 1) ≡ quote → closing_quote b t.index + 1 ≡ next }
{}

/// At each position the descent reads a token, unless it has stopped at a token before, which has
/// an error or is stray.
pub fn positions_without_a_token_lie_after_a_fault()
    ensures { (b : List ℕ) (i : ℕ) → Contains (positions b) i
        → ((t : Token) × Contains (tokens b) t × (t.index ≡ i))
        ⊎ ((t : Token) × Contains (tokens b) t × (token_end t ≡ None) × (t.index < i)) }
{}
