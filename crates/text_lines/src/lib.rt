// The lines of a text, each without the LF that ends it.
#![tactic(auto)]

pub mod limits; // how long a text may be

ghost use Rattle.std.specs.Prelude.{◌≡◌, [], get_or, take, drop};
ghost use Rattle.text_lines.specs.Lines.{lines, line_start, ends_with_lf};
ghost use Rattle.text_lines.specs.Inner.{line_length, first_line, newlines};

pub use limits::{Limit, limit_of};

const LF: u8 = b'\n';

// How many bytes stand before the first LF; all of them where there is none.
pub fn line_length(s: &[u8]) -> usize
    ensures { result ≡ line_length s.now }
{
    s.iter().position(|b| *b == LF).unwrap_or(s.len())
}

// How many LF there are.
pub fn count_lines(s: &[u8]) -> usize
    ensures { result ≡ newlines s.now }
{
    let mut n = 0;
    for b in s {
        if *b == LF {
            n += 1;
        }
    }
    n
}

// Whether the text is empty or its last byte is LF.
pub fn ends_with_lf(s: &[u8]) -> bool
    ensures { result ≡ ends_with_lf s.now }
{
    s.last().is_none_or(|b| *b == LF)
}

// The first n bytes, or all where there are fewer.
pub fn front(s: &[u8], n: usize) -> &[u8]
    ensures { result.now ≡ take n s.now }
{
    s.get(..n).unwrap_or(s)
}

// The text from a position on; empty past its end.
pub fn rest(text: &[u8], at: usize) -> &[u8]
    ensures { result.now ≡ drop at text.now }
{
    text.get(at..).unwrap_or(&[])
}

// The line that starts at a position, as a part of the text.
pub fn line_from(text: &[u8], at: usize) -> &[u8]
    ensures { result.now ≡ first_line (drop at text.now) }
{
    let rest = rest(text, at);
    front(rest, line_length(rest))
}

// Where the line of that number starts; where the last one ends, if there are fewer.
pub fn line_start(text: &[u8], number: usize) -> usize
    ensures { result ≡ line_start text.now number }
{
    let mut at = 0;
    for _ in 0..number {
        if text.len() <= at {
            return at;
        }
        let rest = rest(text, at);
        at += line_length(rest) + 1;
    }
    at
}

// The line of that number, as a part of the text; empty where there is none.
pub fn nth_line(text: &[u8], number: usize) -> &[u8]
    ensures { result.now ≡ get_or (lines text.now) number [] }
{
    line_from(text, line_start(text, number))
}
