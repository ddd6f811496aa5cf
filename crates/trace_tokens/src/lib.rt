// The tokens of `in` or `out`: `-`, or one to four numbers with commas, strictly rising.
#![tactic(auto)]

ghost use Rattle.std.specs.Prelude.{◌≡◌, ◌∷◌, get_or, length, ◌≤◌};
ghost use Rattle.text_numbers.specs.Reading.{keyed, mapped};
ghost use Rattle.trace_tokens.specs.TokenLists.{next_token, read_more, read_tokens, tokens_from};

use text_numbers::{byte_at, keyed, read_number};
use trace_events::Tokens;

// What follows a token: a number above it and the place after that, the list's end, or neither. (An Option in an Option
// would name neither of the last two.)
#[derive(Clone, Copy)]
pub enum NextToken {
    Token { value: u16, next: usize },
    End,
    Bad,
}

// What follows the token `last` at a place.
#[tactic(auto, unfolding(crate::specs::TokenLists::next_token))]
fn next_token(s: &[u8], at: usize, last: u16) -> NextToken
    ensures { result ≡ next_token last s.now at }
{
    let comma = byte_at(s, at);
    if comma != b',' {
        return NextToken::End;
    }
    match read_number(s, at + 1, 65535) {
        Some((value, next)) if last < value => NextToken::Token { value, next },
        _ => NextToken::Bad,
    }
}

// The first so many of four numbers, behind which zeros stand.
fn tokens_in(numbers: [u16; 4], count: usize) -> Tokens
    requires { count ≤ 4 }
    ensures { result ≡ record { t0 = get_or numbers 0 0; t1 = get_or numbers 1 0; t2 = get_or numbers 2 0; t3 = get_or numbers 3 0; count = count } }
{
    let [t0, t1, t2, t3] = numbers;
    Tokens {
        t0,
        t1,
        t2,
        t3,
        count: count as u8,
    }
}

// The numbers behind the first one.
fn read_more(s: &[u8], at: usize, first: u16) -> Option<(Tokens, usize)>
    ensures { result ≡ mapped (λ ts. tokens_from (first ∷ ts)) (read_more 3 first) s.now at }
{
    let mut numbers = [first, 0, 0, 0];
    let mut next = at;
    for i in 1..4 {
        match next_token(s, next, numbers[i - 1]) {
            NextToken::Token {
                value,
                next: behind,
            } => {
                numbers[i] = value;
                next = behind;
            }
            NextToken::End => {
                return Some((tokens_in(numbers, i), next));
            }
            NextToken::Bad => {
                return None;
            }
        }
    }
    Some((tokens_in(numbers, 4), next))
}

// `-`, or one to four numbers.
#[tactic(auto, unfolding(crate::specs::TokenLists::read_tokens, crate::specs::TokenLists::read_token_list, crate::specs::TokenLists::read_some, crate::specs::TokenLists::tokens_from, text_numbers::specs::Reading::and_then, text_numbers::specs::Reading::mapped))]
fn read_tokens(s: &[u8], at: usize) -> Option<(Tokens, usize)>
    ensures { result ≡ read_tokens s.now at }
{
    let first = byte_at(s, at);
    if first == b'-' {
        return Some((Tokens::none(), at + 1));
    }
    let (value, next) = read_number(s, at, 65535)?;
    read_more(s, next, value)
}

// A key, and then tokens.
pub fn tokens_at(s: &[u8], at: usize, key: &[u8]) -> Option<(Tokens, usize)>
    ensures { result ≡ keyed key.now read_tokens s.now at }
{
    keyed(s, at, key, |next| read_tokens(s, next))
}
