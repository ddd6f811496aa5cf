// The limits of a text: at most 65,535 bytes and 256 lines, each ended by LF.
ghost use Rattle.std.specs.Prelude.{◌≡◌};
ghost use Rattle.text_lines.specs.Limits.{limit_of};

use crate::{count_lines, ends_with_lf};

// A limit that a text exceeds.
#[derive(Clone, Copy)]
pub enum Limit {
    TooLong,
    Unended,
    TooManyLines,
}

// The first limit that a text exceeds, if any.
pub fn limit_of(text: &[u8]) -> Option<Limit>
    ensures { result ≡ limit_of text.now }
{
    if 65535 < text.len() {
        return Some(Limit::TooLong);
    }
    if !ends_with_lf(text) {
        return Some(Limit::Unended);
    }
    if 256 < count_lines(text) {
        return Some(Limit::TooManyLines);
    }
    None
}
