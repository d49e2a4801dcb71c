//! Characters of a pattern (RFC 9485, section 4).
ghost use Rattle.std.specs.Prelude.{◌≡◌, ◌∷◌, [], ◌==◌, ◌||◌, Some, None, MatchOption, cond};
ghost use Rattle.std.specs.Prelude.{option_map};
ghost use Rattle.std.specs.Str.{chars};
ghost use Rattle.simd_json_regexp.specs.Characters.{after, category, category_number, category_or};
ghost use Rattle.simd_json_regexp.specs.Characters.{escape, escaped, group_numbers};
ghost use Rattle.simd_json_regexp.specs.Characters.{is_special, item, letter_number, mark_number};
ghost use Rattle.simd_json_regexp.specs.Characters.{name, number_number, one_item, other_number};
ghost use Rattle.simd_json_regexp.specs.Characters.{punctuation_number, read, second_letter};
ghost use Rattle.simd_json_regexp.specs.Characters.{separator_number, symbol_number, text_of};
ghost use Rattle.simd_json_regexp.specs.declared.item.Item.TheVariants as kinds;

use crate::item::Item;

// The first character, and what is after it.
#[tactic(auto, using(std::proofs::lemmas::Str::chars_past_char))]
pub(crate) fn next(rest: &str) -> Option<(char, &str)>
    ensures { MatchOption result (chars rest.now ≡ []) (λ r. chars rest.now ≡ r.0 ∷ chars r.1.now) }
{
    let mut all = rest.chars();
    let first = all.next()?;
    Some((first, all.as_str()))
}

// What is after a character, if it is the first.
pub(crate) fn after(rest: &str, c: char) -> Option<&str>
    ensures { option_map text_of result ≡ after c (chars rest.now) }
{
    let (first, others) = next(rest)?;
    if first == c { Some(others) } else { None }
}

// One character outside brackets, and what is after it.
pub(crate) fn item(rest: &str) -> Option<(Item, &str)>
    ensures { option_map read result ≡ item (chars rest.now) }
{
    let (first, others) = next(rest)?;
    if first == '.' {
        return Some((Item::InLine, others));
    }
    if first == '\\' {
        return escaped_item(others);
    }
    if is_special(first) {
        return None;
    }
    Some((Item::Range(first, first), others))
}

// A category, or a character, after a backslash.
fn escaped_item(rest: &str) -> Option<(Item, &str)>
    ensures { option_map read result
        ≡ category_or (one_item (escape (chars rest.now))) (chars rest.now) }
{
    let (first, others) = next(rest)?;
    match first {
        'p' => category(others, false),
        'P' => category(others, true),
        _ => {
            let meant = escaped(first)?;
            Some((Item::Range(meant, meant), others))
        }
    }
}

// The character that is meant after a backslash.
pub(crate) fn escape(rest: &str) -> Option<(char, &str)>
    ensures { option_map read result ≡ escape (chars rest.now) }
{
    let (first, others) = next(rest)?;
    let meant = escaped(first)?;
    Some((meant, others))
}

fn escaped(c: char) -> Option<char>
    ensures { result ≡ escaped c }
{
    match c {
        'n' => Some('\n'),
        'r' => Some('\r'),
        't' => Some('\t'),
        _ => escaped_itself(c),
    }
}

fn escaped_itself(c: char) -> Option<char>
    ensures { result ≡ cond (is_special c || (c == 45) || (c == 94)) (Some c) None }
{
    if is_special(c) || c == '-' || c == '^' {
        return Some(c);
    }
    None
}

fn is_special(c: char) -> bool
    ensures { result ≡ is_special c }
{
    matches!(c, '('..='+' | '.' | '?' | '['..=']' | '{'..='}')
}

// What is after `\p`, or after `\P`.
pub(crate) fn category(rest: &str, is_other: bool) -> Option<(Item, &str)>
    ensures { option_map read result
        ≡ category (cond is_other kinds.OtherCategory kinds.Category) (chars rest.now) }
{
    let others = after(rest, '{')?;
    let ((first, last), behind) = name(others)?;
    if is_other {
        return Some((Item::OtherCategory(first, last), behind));
    }
    Some((Item::Category(first, last), behind))
}

// The numbers of the categories with a name, and what is after the `}` at its end.
fn name(rest: &str) -> Option<((u8, u8), &str)>
    ensures { option_map read result ≡ name (chars rest.now) }
{
    let (group, others) = next(rest)?;
    second_letter(group, others)
}

fn second_letter(group: char, rest: &str) -> Option<((u8, u8), &str)>
    ensures { option_map read result ≡ second_letter group (chars rest.now) }
{
    let (letter, others) = next(rest)?;
    if letter == '}' {
        let numbers = group_numbers(group)?;
        return Some((numbers, others));
    }
    let number = category_number(group, letter)?;
    let behind = after(others, '}')?;
    Some(((number, number), behind))
}

fn group_numbers(c: char) -> Option<(u8, u8)>
    ensures { result ≡ group_numbers c }
{
    match c {
        'L' => Some((0, 4)),
        'M' => Some((5, 7)),
        'N' => Some((8, 10)),
        'P' => Some((11, 17)),
        'S' => Some((18, 21)),
        'Z' => Some((22, 24)),
        'C' => Some((25, 29)),
        _ => None,
    }
}

fn category_number(group: char, c: char) -> Option<u8>
    ensures { result ≡ category_number group c }
{
    match group {
        'L' => letter_number(c),
        'M' => mark_number(c),
        'N' => number_number(c),
        'P' => punctuation_number(c),
        'S' => symbol_number(c),
        'Z' => separator_number(c),
        'C' => other_number(c),
        _ => None,
    }
}

fn letter_number(c: char) -> Option<u8>
    ensures { result ≡ letter_number c }
{
    match c {
        'u' => Some(0),
        'l' => Some(1),
        't' => Some(2),
        'm' => Some(3),
        'o' => Some(4),
        _ => None,
    }
}

fn mark_number(c: char) -> Option<u8>
    ensures { result ≡ mark_number c }
{
    match c {
        'n' => Some(5),
        'c' => Some(6),
        'e' => Some(7),
        _ => None,
    }
}

fn number_number(c: char) -> Option<u8>
    ensures { result ≡ number_number c }
{
    match c {
        'd' => Some(8),
        'l' => Some(9),
        'o' => Some(10),
        _ => None,
    }
}

fn punctuation_number(c: char) -> Option<u8>
    ensures { result ≡ punctuation_number c }
{
    match c {
        'c' => Some(11),
        'd' => Some(12),
        's' => Some(13),
        'e' => Some(14),
        'i' => Some(15),
        'f' => Some(16),
        'o' => Some(17),
        _ => None,
    }
}

fn symbol_number(c: char) -> Option<u8>
    ensures { result ≡ symbol_number c }
{
    match c {
        'm' => Some(18),
        'c' => Some(19),
        'k' => Some(20),
        'o' => Some(21),
        _ => None,
    }
}

fn separator_number(c: char) -> Option<u8>
    ensures { result ≡ separator_number c }
{
    match c {
        's' => Some(22),
        'l' => Some(23),
        'p' => Some(24),
        _ => None,
    }
}

// `Cs` is no name: no character of a text is a surrogate.
fn other_number(c: char) -> Option<u8>
    ensures { result ≡ other_number c }
{
    match c {
        'c' => Some(25),
        'f' => Some(26),
        'o' => Some(28),
        'n' => Some(29),
        _ => None,
    }
}
