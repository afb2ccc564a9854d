// The fields of a line: found, read as decimal numbers and written (document 01, "Lines and rows").
#![tactic(auto)]

ghost use Rattle.std.specs.Prelude.{◌≡◌, ◌∷◌, ◌+◌, ◌≤◌, length, drop, position, Some};
ghost use Rattle.std.proofs.lemmas.List.Edits.{sets};
ghost use Rattle.language.specs.Decimals.{digit_of, scan, decimal_of, digits};
ghost use Rattle.language.specs.TextLines.{field, is_end, tab};
ghost use Rattle.fields.specs.Places.{number_at};

use language::LARGEST;

// The most digits that a number has.
const MOST_DIGITS: usize = 5;

// The number of a digit's byte.
fn read_digit(b: u8) -> Option<u32>
    ensures { result ≡ digit_of b }
{
    match b {
        b'0'..=b'9' => Some(u32::from(b - b'0')),
        _ => None,
    }
}

// The number of a run of digits.
fn read_digits(s: &[u8]) -> Option<u32>
    ensures { result ≡ scan (Some 0) s.now }
{
    let mut value: u32 = 0;
    for &b in s {
        let grown = value * 10 + read_digit(b)?;
        if LARGEST < grown {
            return None;
        }
        value = grown;
    }
    Some(value)
}

// The number that a field holds.
#[tactic(auto, unfolding(language::specs::Decimals::decimal_of))]
pub fn read_decimal(s: &[u8]) -> Option<u32>
    ensures { result ≡ decimal_of s.now }
{
    if s.is_empty() || MOST_DIGITS < s.len() || (s[0] == b'0' && 1 < s.len()) {
        return None;
    }
    read_digits(s)
}

// Where the first tab or line feed of a text is.
fn find_end(s: &[u8]) -> Option<usize>
    ensures { result ≡ position is_end s.now }
{
    s.iter().position(|&b| b == b'\t' || b == b'\n')
}

// The field at a place: the bytes before the next tab or line feed.
pub fn find_field(s: &[u8], at: usize) -> &[u8]
    requires { at ≤ length s.now }
    ensures { result.now ≡ field (drop at s.now) }
{
    let rest = &s[at..];
    match find_end(rest) {
        Some(end) => &rest[..end],
        None => rest,
    }
}

// A tab at a place, and the number after it, with the place after that.
pub fn read_number(s: &[u8], at: usize) -> Option<(u32, usize)>
    ensures { result ≡ number_at at s.now }
{
    if s.len() <= at || s[at] != b'\t' {
        return None;
    }
    let f = find_field(s, at + 1);
    Some((read_decimal(f)?, at + 1 + f.len()))
}

// Writes a number's digits at a place, and returns the place after them.
#[tactic(auto, using(crate::proofs::Decimals::length_low, crate::proofs::Decimals::length_high))]
pub fn write_decimal(text: &mut [u8], at: usize, n: u32) -> usize
    requires { at + length (digits n) ≤ length text.old }
    ensures { (result ≡ at + length (digits n)) ×
        (text.new ≡ sets text.old at (digits n)) }
{
    if n < 10 {
        text[at] = b'0' + n as u8;
        return at + 1;
    }
    let last = write_decimal(text, at, n / 10);
    text[last] = b'0' + (n % 10) as u8;
    last + 1
}

// Writes a tab and a number at a place, and returns the place after them.
pub fn write_number(text: &mut [u8], at: usize, n: u32) -> usize
    requires { at + 1 + length (digits n) ≤ length text.old }
    ensures { (result ≡ at + 1 + length (digits n)) ×
        (text.new ≡ sets text.old at (tab ∷ digits n)) }
{
    text[at] = b'\t';
    write_decimal(text, at + 1, n)
}
