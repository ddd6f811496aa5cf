// A field of a match, read from a place of a text: `*` or a number, and a prefix.
ghost use Rattle.std.specs.Prelude.{◌≡◌};
ghost use Rattle.text_numbers.specs.Reading.{keyed};
ghost use Rattle.text_fields.specs.Read.{read_exact, read_prefix};

use flow::{Exact, Prefix};
use text_numbers::{hex_at, keyed, number_at, read_number, word};

// `*`, or a number at most max.
#[tactic(auto, unfolding(crate::specs::Read::read_exact, text_numbers::specs::Reading::word_or, text_numbers::specs::Reading::mapped))]
fn read_exact(s: &[u8], at: usize, max: u16) -> Option<(Exact, usize)>
    ensures { result ≡ read_exact max s.now at }
{
    word(s, at, b"*", Exact::Any).or_else(|| read_number(s, at, max).map(|(n, next)| (
        Exact::Is(n),
        next,
    )))
}

// A key, and then `*` or a number at most max.
pub fn exact_at(s: &[u8], at: usize, key: &[u8], max: u16) -> Option<(Exact, usize)>
    ensures { result ≡ keyed key.now (read_exact max) s.now at }
{
    keyed(s, at, key, |next| read_exact(s, next, max))
}

// A key, and then a prefix.
#[tactic(auto, unfolding(crate::specs::Read::read_prefix, text_numbers::specs::Reading::both, text_numbers::specs::Reading::and_then, text_numbers::specs::Reading::mapped, text_numbers::specs::Reading::keyed))]
pub fn prefix_at(s: &[u8], at: usize, key: &[u8]) -> Option<(Prefix, usize)>
    ensures { result ≡ keyed key.now read_prefix s.now at }
{
    let (value, next) = hex_at(s, at, key)?;
    let (n, next) = number_at(s, next, b"/", 32)?;
    Some((
        Prefix {
            value,
            length: n as u8,
        },
        next,
    ))
}
