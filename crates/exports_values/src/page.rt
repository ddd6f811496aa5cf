// The answer of the page call.
ghost use Rattle.std.specs.Prelude.{◌≡◌};
ghost use Rattle.exports_values.specs.Values.{page_as};

use refusals::{Refusal, Refused};

// The length of the page, or what is refused.
#[repr(C)]
#[derive(Clone, Copy)]
pub struct Paged {
    pub refused: Refused,
    pub length: usize,
}

#[tactic(auto, unfolding(crate::specs::Values::page_as))]
pub fn page_as(trace: &[u8], answer: Result<usize, Refusal>) -> Paged
    ensures { result ≡ page_as trace.now answer }
{
    match answer {
        Ok(length) => Paged {
            refused: Refused::nothing(),
            length,
        },
        Err(r) => Paged {
            refused: Refused::from(trace, b"", r),
            length: 0,
        },
    }
}
