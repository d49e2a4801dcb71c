//! What holds of queries, frames and comparisons. Each function has an empty body: its contract is
//! the law.
ghost use Rattle.std.specs.Prelude.{true, ◌≡◌, ◌≤◌, ℕ, Bool, Some, is_some, length, map, min};
ghost use Rattle.std.specs.List.{list_all};
ghost use Rattle.simd_json_parts.specs.Document.{Document};
ghost use Rattle.simd_json_parts.specs.Limits.{depth};
ghost use Rattle.simd_json_path.specs.Comparisons.{IsComparison, same_to};
ghost use Rattle.simd_json_path.specs.Locations.{located};
ghost use Rattle.simd_json_path.specs.Paths.{is_singular, selected};
ghost use Rattle.simd_json_path.specs.Frames.{selected_within};
ghost use Rattle.simd_json_path.specs.declared.path.Path.{Path};

/// With as many frames as there are segments, as [`Path::frames`](crate::Path::frames) returns, no
/// item is an error, and what is selected is what RFC 9535 says.
pub fn frames_suffice()
    ensures { (path : Path) (d : Document) (count : ℕ)
        → length path.segments.now ≤ count
        → selected_within count path d ≡ map Some (selected path d) }
{}

/// Where no item is an error, nothing is left out, however many frames there were.
pub fn without_an_error_nothing_is_left_out()
    ensures { (path : Path) (d : Document) (count : ℕ)
        → list_all is_some (selected_within count path d) ≡ true
        → selected_within count path d ≡ map Some (selected path d) }
{}

/// Where one of two values nests no deeper than the levels to which they are compared, they are
/// equal exactly where RFC 9535 (section 2.3.5.2.2) says so: the bound makes no difference.
pub fn levels_suffice()
    ensures { (same : Document → Document → Bool) (levels : ℕ) (d e : Document)
        → IsComparison same
        → min (depth d) (depth e) ≤ levels
        → same_to levels d e ≡ same d e }
{}

/// A comparison without a bound is one that goes as deep as the first of the two values nests.
pub fn a_comparison_exists()
    ensures { IsComparison (λ d e. same_to (depth d) d e) }
{}

/// The values with normalized paths that [`Path::locate`](crate::Path::locate) returns are those
/// that are selected, in their order.
pub fn what_is_located_is_what_is_selected()
    ensures { (path : Path) (d : Document) → map (λ n. n.1) (located path d) ≡ selected path d }
{}

/// A singular query selects at most one value.
pub fn a_singular_query_selects_at_most_one()
    ensures { (path : Path) (d : Document) → is_singular path ≡ true
        → length (selected path d) ≤ 1 }
{}
