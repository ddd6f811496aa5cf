// Numbers from a place of a text on.
ghost use Rattle.std.specs.Prelude.{◌≡◌, ◌+◌, length, drop, MatchBool};
ghost use Rattle.text_numbers.specs.Reading.{starts_with, keyed, word_or};
ghost use Rattle.text_numbers.specs.Number.{read_digits, read_number, hex_value, read_hex};

use crate::text::{byte_at, starts_with};

// The digits from a place on; none as soon as their value is above max.
fn read_digits(s: &[u8], at: usize, max: u32) -> Option<(u32, usize)>
    ensures { result ≡ read_digits max 0 (drop at s.now) at }
{
    let limit = u64::from(max);
    let rest = s.get(at..).unwrap_or(&[]);
    let mut value: u64 = 0;
    for (i, b) in rest.iter().enumerate() {
        if !b.is_ascii_digit() {
            return Some((value as u32, at + i));
        }
        value = value * 10 + u64::from(*b - b'0');
        if limit < value {
            return None;
        }
    }
    Some((value as u32, at + rest.len()))
}

// A decimal number without leading zeros, at most max.
pub fn read_long(s: &[u8], at: usize, max: u32) -> Option<(u32, usize)>
    ensures { result ≡ read_number max s.now at }
{
    let first = byte_at(s, at);
    if first == b'0' {
        let next = at + 1;
        let second = byte_at(s, next);
        return if second.is_ascii_digit() {
            None
        } else {
            Some((0, next))
        };
    }
    if first.is_ascii_digit() {
        read_digits(s, at, max)
    } else {
        None
    }
}

// The same, of up to 16 bits.
pub fn read_number(s: &[u8], at: usize, max: u16) -> Option<(u16, usize)>
    ensures { result ≡ read_number max s.now at }
{
    let (value, next) = read_long(s, at, u32::from(max))?;
    Some((value as u16, next))
}

// The value of a lowercase hexadecimal digit.
#[tactic(auto, unfolding(crate::specs::Number::is_digit, crate::specs::Number::hex_value))]
fn hex_value(b: u8) -> Option<u8>
    ensures { result ≡ hex_value b }
{
    match b {
        b'0'..=b'9' => Some(b - b'0'),
        b'a'..=b'f' => Some(b - b'a' + 10),
        _ => None,
    }
}

// Eight lowercase hexadecimal digits.
pub fn read_hex(s: &[u8], at: usize) -> Option<(u32, usize)>
    ensures { result ≡ read_hex s.now at }
{
    let digits = s.get(at..)?.first_chunk::<8>()?;
    let mut value: u32 = 0;
    for b in digits {
        value = value * 16 + u32::from(hex_value(*b)?);
    }
    Some((value, at + 8))
}

// A key, and then what is read behind it.
pub fn keyed<T, F: FnOnce(usize) -> Option<(T, usize)>>(
    s: &[u8],
    at: usize,
    key: &[u8],
    read: F,
) -> Option<(T, usize)>
    requires { F.IsAlwaysCallable read }
    ensures { MatchBool (starts_with key.now (drop at s.now)) (F.post read (at + length key.now) result) (result ≡ None) }
{
    if starts_with(s, at, key) {
        read(at + key.len())
    } else {
        None
    }
}

// A word that stands for one value.
pub fn word<T: Drop>(s: &[u8], at: usize, text: &[u8], value: T) -> Option<(T, usize)>
    ensures { result ≡ word_or text.now value (λ t n. None) s.now at }
{
    keyed(s, at, text, |next| Some((value, next)))
}

// A key, and then a number of up to 16 bits.
pub fn number_at(s: &[u8], at: usize, key: &[u8], max: u16) -> Option<(u16, usize)>
    ensures { result ≡ keyed key.now (read_number max) s.now at }
{
    keyed(s, at, key, |next| read_number(s, next, max))
}

// A key, and then a number of up to 32 bits.
pub fn long_at(s: &[u8], at: usize, key: &[u8], max: u32) -> Option<(u32, usize)>
    ensures { result ≡ keyed key.now (read_number max) s.now at }
{
    keyed(s, at, key, |next| read_long(s, next, max))
}

// A key, and then eight hexadecimal digits.
pub fn hex_at(s: &[u8], at: usize, key: &[u8]) -> Option<(u32, usize)>
    ensures { result ≡ keyed key.now read_hex s.now at }
{
    keyed(s, at, key, |next| read_hex(s, next))
}
