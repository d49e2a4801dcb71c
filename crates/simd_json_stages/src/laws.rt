//! Laws of this crate's definitions. Each function has an empty body: its contract is the law, and
//! what it says is proved.
ghost use Rattle.std.specs.Prelude.{◌≡◌, ◌≢◌, ◌≤◌, ◌<◌, ◌+◌, ◌/◌, ℕ, suc, List, length, Contains};
ghost use Rattle.simd_json_parts.specs.Bytes.{backslash, byte_at};
ghost use Rattle.simd_json_stages.specs.EscapeBlocks.{backslash_blocks, listed_start};

/// Each backslash lies in a listed block of 64 bytes. So a string all of whose bytes lie in other
/// blocks has no escape.
pub fn backslashes_lie_in_listed_blocks()
    ensures { (b : List ℕ) (i : ℕ) → i < length b → byte_at b i ≡ backslash
        → Contains (backslash_blocks b) (i / 64) }
{}

/// No backslash lies before the first listed block, nor between one and the next. So a reader that
/// steps through both lists knows that a string which ends before the next listed block has no
/// escape.
pub fn no_backslash_stands_between_listed_blocks()
    ensures first { (b : List ℕ) (i : ℕ) → i < listed_start b 0 → byte_at b i ≢ backslash }
    ensures next { (b : List ℕ) (m i : ℕ) → m < length (backslash_blocks b)
        → listed_start b m + 64 ≤ i → i < listed_start b (suc m) → byte_at b i ≢ backslash }
{}
