// The head of a line: `in`, `out`, `from` and `to`.
#![tactic(auto)]

ghost use Rattle.std.specs.Prelude.{◌≡◌};
ghost use Rattle.refusals.specs.Checks.{refuse_none};
ghost use Rattle.trace_head.specs.Heads.{read_head};

use refusals::Refusal;
use text_numbers::long_at;
use trace_events::Head;
use trace_tokens::tokens_at;

// Where one of the four has no value, the line is refused: as `malformed`, which has its number.
#[tactic(auto, unfolding(crate::specs::Heads::read_head, text_numbers::specs::Reading::both, text_numbers::specs::Reading::and_then, text_numbers::specs::Reading::mapped))]
pub fn head_at(s: &[u8], at: usize, malformed: Refusal) -> Result<(Head, usize), Refusal>
    ensures { result ≡ refuse_none (read_head s.now at) malformed }
{
    let Some((ins, next)) = tokens_at(s, at, b"in=") else {
        return Err(malformed);
    };
    let Some((outs, next)) = tokens_at(s, next, b" out=") else {
        return Err(malformed);
    };
    let Some((from, next)) = long_at(s, next, b" from=", 4294967295) else {
        return Err(malformed);
    };
    let Some((to, next)) = long_at(s, next, b" to=", 4294967295) else {
        return Err(malformed);
    };
    Ok((
        Head {
            ins,
            outs,
            from,
            to,
        },
        next,
    ))
}
