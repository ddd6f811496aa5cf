// Texts in columns, put at a place of a buffer: blanks, and texts and numbers filled up with them.
#![tactic(auto)]

ghost use Rattle.std.specs.Prelude.{◌≡◌, ◌+◌, ◌-◌, ◌≤◌, ◌<◌, ◌^◌, length};
ghost use Rattle.text_numbers.specs.Print.{print_number};
ghost use Rattle.text_numbers.specs.Inner.{Put};
ghost use Rattle.page_columns.specs.Columns.{blanks, right, left};
ghost use Rattle.page_columns.specs.Inner.{digit_or_blank};

use text_numbers::{put_byte, put_bytes};

static BLANKS: [u8; 60] = [b' '; 60];

// The powers of ten of all columns but the last, of five.
static POWERS: [usize; 4] = [10000, 1000, 100, 10];

// So many blanks.
pub fn put_blanks(out: &mut [u8], at: usize, n: usize) -> usize
    requires { (at < 2 ^ 32) × (n ≤ 60) }
    ensures put { Put (blanks n) at out.old result out.new }
    ensures value { result ≡ at + n }
{
    put_bytes(out, at, &BLANKS[..n])
}

// A text, right-justified in so many columns.
pub fn put_right(out: &mut [u8], at: usize, width: usize, text: &[u8]) -> usize
    requires { (at < 2 ^ 31) × (width ≤ 60) × (length text.now ≤ 20) }
    ensures put { Put (right width text.now) at out.old result out.new }
    ensures upper_bound { result ≤ at + 80 }
{
    let rest = width.saturating_sub(text.len());
    let n = put_blanks(out, at, rest);
    put_bytes(out, n, text)
}

// A text, left-justified in so many columns.
pub fn put_left(out: &mut [u8], at: usize, width: usize, text: &[u8]) -> usize
    requires { (at < 2 ^ 31) × (width ≤ 60) × (length text.now ≤ 20) }
    ensures put { Put (left width text.now) at out.old result out.new }
    ensures upper_bound { result ≤ at + 80 }
{
    let rest = width.saturating_sub(text.len());
    let n = put_bytes(out, at, text);
    put_blanks(out, n, rest)
}

// The digit of a number at a power of ten; a blank where the number has none there.
fn digit_or_blank(v: usize, power: usize) -> u8
    requires { 1 ≤ power }
    ensures { result ≡ digit_or_blank v power }
{
    if v < power {
        return b' ';
    }
    b'0' + ((v / power) % 10) as u8
}

// A number that fits, right-justified in W columns, column by column.
pub fn put_in<const W: usize>(out: &mut [u8], at: usize, v: usize) -> usize
    requires { (at < 2 ^ 31) × (1 ≤ W) × (W ≤ 5) × (v < 10 ^ W) }
    ensures put { Put (right W (print_number v)) at out.old result out.new }
    ensures value { result ≡ at + W }
{
    for (i, power) in POWERS[5 - W..].iter().enumerate() {
        put_byte(out, at + i, digit_or_blank(v, *power));
    }
    put_byte(out, at + (W - 1), b'0' + (v % 10) as u8);
    at + W
}

// A number, right-justified in so many columns: the last digit, and before it those of the number without it, or blanks.
pub fn put_number_right(out: &mut [u8], at: usize, width: usize, v: usize) -> usize
    requires { (at < 2 ^ 31) × (width ≤ 60) }
    ensures put { Put (right width (print_number v)) at out.old result out.new }
    ensures value { length (print_number v) ≤ width → result ≡ at + width }
    ensures upper_bound { result ≤ at + 80 }
{
    let before = width.saturating_sub(1);
    let n = if v < 10 {
        put_blanks(out, at, before)
    } else {
        put_number_right(out, at, before, v / 10)
    };
    put_byte(out, n, b'0' + (v % 10) as u8);
    n + 1
}
