//! Texts as they are printed.
ghost use Rattle.std.specs.Prelude.{◌≡◌, ◌++◌, IfOk, OnOk, encode_utf8, flat_map, string_bytes};
ghost use Rattle.std.specs.Char.Escape.{hex_digit_at};
ghost use Rattle.programs.specs.Shown.{shown, shown_text};

use std::alloc::{AllocError, Global};

/// Returns the name of a file, or another text that a message repeats, with its control characters
/// escaped, as `\x1b`: a terminal would obey them.
///
/// Returns an error if an allocation fails.
pub fn shown(alloc: Global, text: &str) -> Result<String, AllocError>
    ensures { IfOk result (λ shown. string_bytes shown ≡ shown_text text.now) }
{
    let mut shown = String::new(alloc);
    for c in text.chars() {
        push_shown(&mut shown, c)?;
    }
    Ok(shown)
}

fn push_shown(text: &mut String, c: char) -> Result<(), AllocError>
    ensures { OnOk result (string_bytes text.new
        ≡ string_bytes text.old ++ flat_map encode_utf8 (shown c)) }
{
    if !c.is_control() {
        return text.push(c);
    }
    let code = c as u32;
    text.push('\\')?;
    text.push('x')?;
    text.push(hex_digit(code / 16))?;
    text.push(hex_digit(code))
}

// The last hexadecimal digit of a number.
fn hex_digit(number: u32) -> char
    ensures { result ≡ hex_digit_at 1 number }
{
    char::from_digit(number % 16, 16).unwrap_or('0')
}
