// The answer of the normaliser's call.
ghost use Rattle.std.specs.Prelude.{◌≡◌};
ghost use Rattle.exports_values.specs.Values.{normal_as};

use refusals::{Refusal, Refused};

// The length of the normal text, or what is refused.
#[repr(C)]
#[derive(Clone, Copy)]
pub struct Normalised {
    pub refused: Refused,
    pub length: usize,
}

#[tactic(auto, unfolding(crate::specs::Values::normal_as))]
pub fn normal_as(tables: &[u8], answer: Result<usize, Refusal>) -> Normalised
    ensures { result ≡ normal_as tables.now answer }
{
    match answer {
        Ok(length) => Normalised {
            refused: Refused::nothing(),
            length,
        },
        Err(r) => Normalised {
            refused: Refused::from(b"", tables, r),
            length: 0,
        },
    }
}
