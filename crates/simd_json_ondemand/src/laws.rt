//! Laws of the definitions. Each function has an empty body: its contract is the law, which is
//! proved.
ghost use Rattle.std.specs.Prelude.{◌≡◌, ◌≤◌, ℕ, List, length, drop, Ok};
ghost use Rattle.simd_json_parts.specs.Descent.{value_from};
ghost use Rattle.simd_json_parts.specs.Document.{Document};
ghost use Rattle.simd_json_parts.specs.Tokens.{Token};
ghost use Rattle.simd_json_parts.specs.TokensAlong.{tokens_along};
ghost use Rattle.simd_json_parts.specs.declared.error.Error.{Error};
ghost use Rattle.simd_json_ondemand.specs.Closing.{span};

/// Brackets tell where a value ends: a value that the descent reads takes exactly its span of
/// the structural indexes.
pub fn brackets_tell_where_values_end()
    ensures { (b : List ℕ) (missing : Error) (levels : ℕ) (is : List ℕ) (d : Document)
        (rest : List Token)
        → value_from b missing levels (tokens_along b is) ≡ Ok (d, rest)
        → (rest ≡ tokens_along b (drop (span b is) is)) × (span b is ≤ length is) }
{}
