// The answer of the replay call.
ghost use Rattle.std.specs.Prelude.{◌≡◌};
ghost use Rattle.exports_values.specs.Values.{replay_as};

use refusals::{Refusal, Refused};

// The lengths of the end tables and of the answers, or what is refused.
#[repr(C)]
#[derive(Clone, Copy)]
pub struct Replayed {
    pub refused: Refused,
    pub tables: usize,
    pub answers: usize,
}

#[tactic(auto, unfolding(crate::specs::Values::replay_as))]
pub fn replay_as<'a>(
    trace: &'a [u8],
    tables: &'a [u8],
    answer: Result<(usize, usize), Refusal>,
) -> Replayed
    ensures { result ≡ replay_as trace.now tables.now answer }
{
    match answer {
        Ok((tables, answers)) => Replayed {
            refused: Refused::nothing(),
            tables,
            answers,
        },
        Err(r) => Replayed {
            refused: Refused::from(trace, tables, r),
            tables: 0,
            answers: 0,
        },
    }
}
