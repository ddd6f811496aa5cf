// The answer of the list call.
ghost use Rattle.std.specs.Prelude.{◌≡◌};
ghost use Rattle.exports_values.specs.Values.{list_as};

use call_answers::Counts;
use refusals::{Refusal, Refused};

// The four counts, or what is refused.
#[repr(C)]
#[derive(Clone, Copy)]
pub struct Listed {
    pub refused: Refused,
    pub pairs: usize,
    pub ordered: usize,
    pub commuting: usize,
    pub listed: usize,
}

#[tactic(auto, unfolding(crate::specs::Values::list_as))]
pub fn list_as(trace: &[u8], answer: Result<Counts, Refusal>) -> Listed
    ensures { result ≡ list_as trace.now answer }
{
    match answer {
        Ok(c) => Listed {
            refused: Refused::nothing(),
            pairs: c.pairs,
            ordered: c.ordered,
            commuting: c.commuting,
            listed: c.listed,
        },
        Err(r) => Listed {
            refused: Refused::from(trace, b"", r),
            pairs: 0,
            ordered: 0,
            commuting: 0,
            listed: 0,
        },
    }
}
