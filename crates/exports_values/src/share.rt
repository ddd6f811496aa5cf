// The answer of the share call.
ghost use Rattle.std.specs.Prelude.{◌≡◌};
ghost use Rattle.exports_values.specs.Values.{share_as};

use call_answers::Share;
use refusals::{Refusal, Refused};

// Quotient, remainder and divisor, or what is refused.
#[repr(C)]
#[derive(Clone, Copy)]
pub struct Shared {
    pub refused: Refused,
    pub quotient: usize,
    pub remainder: usize,
    pub divisor: usize,
}

#[tactic(auto, unfolding(crate::specs::Values::share_as))]
pub fn share_as(trace: &[u8], answer: Result<Share, Refusal>) -> Shared
    ensures { result ≡ share_as trace.now answer }
{
    match answer {
        Ok(x) => Shared {
            refused: Refused::nothing(),
            quotient: x.quotient,
            remainder: x.remainder,
            divisor: x.divisor,
        },
        Err(r) => Shared {
            refused: Refused::from(trace, b"", r),
            quotient: 0,
            remainder: 0,
            divisor: 0,
        },
    }
}
