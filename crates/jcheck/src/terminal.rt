//! What is printed on a terminal in colour.
ghost use Rattle.std.specs.Prelude.{◌≡◌, string_bytes};
ghost use Rattle.std.specs.Result.{result_map_both};
ghost use Rattle.jcheck.specs.Colors.{is_colored};

use std::env::VarError;

/// Returns whether the caret is red: as the arguments ask, or else if the output is a terminal and
/// the environment's `NO_COLOR` is empty or not there.
pub fn is_colored(
    asked: Option<bool>,
    no_color: &Result<String, VarError>,
    is_terminal: bool,
) -> bool
    ensures { result ≡ is_colored asked
        (result_map_both string_bytes (λ e. e) no_color.now) is_terminal }
{
    match (asked, no_color) {
        (Some(is_red), _) => is_red,
        (None, Ok(word)) => is_terminal && word.is_empty(),
        (None, Err(VarError::NotPresent)) => is_terminal,
        (None, Err(_)) => false,
    }
}
