//! Kinds of characters (RFC 9485, section 4).
ghost use Rattle.std.specs.Prelude.{◌≡◌};
ghost use Rattle.simd_json_regexp.specs.Items.{allows, has_category, is_between, is_in_line};

use ucd_category::GeneralCategory;

/// What one character may be.
#[derive(Clone, Copy, Debug)]
pub enum Item {
    /// Any character.
    Any,
    /// Any character but line feed and carriage return: `.`.
    InLine,
    /// A character between two, or one of them.
    Range(char, char),
    /// A character whose general category has a number between two, or one of them: `\p{..}`.
    Category(u8, u8),
    /// A character whose general category has no such number: `\P{..}`.
    OtherCategory(u8, u8),
}

impl Item {
    ghost use Rattle.std.specs.Prelude.{◌≡◌};
    ghost use Rattle.simd_json_regexp.specs.Items.{allows};

    // Whether it is this character.
    pub(crate) fn allows(&self, c: char) -> bool
        ensures { result ≡ allows self.now c }
    {
        match *self {
            Item::Any => true,
            Item::InLine => is_in_line(c),
            Item::Range(low, high) => is_between(low, high, c),
            Item::Category(first, last) => has_category(first, last, c),
            Item::OtherCategory(first, last) => !has_category(first, last, c),
        }
    }
}

fn is_in_line(c: char) -> bool
    ensures { result ≡ is_in_line c }
{
    c != '\n' && c != '\r'
}

fn is_between(low: char, high: char, c: char) -> bool
    ensures { result ≡ is_between low high c }
{
    low <= c && c <= high
}

fn has_category(first: u8, last: u8, c: char) -> bool
    ensures { result ≡ has_category first last c }
{
    let number = GeneralCategory::for_char(c).number();
    u32::from(first) <= number && number <= u32::from(last)
}
