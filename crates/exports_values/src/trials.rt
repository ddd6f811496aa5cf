// The answer of the call that tries orders.
ghost use Rattle.std.specs.Prelude.{◌≡◌};
ghost use Rattle.exports_values.specs.Values.{trials_as};

use refusals::{Refusal, Refused};

// How many orders were tried, or what is refused.
#[repr(C)]
#[derive(Clone, Copy)]
pub struct Tried {
    pub refused: Refused,
    pub orders: usize,
}

#[tactic(auto, unfolding(crate::specs::Values::trials_as))]
pub fn trials_as<'a>(trace: &'a [u8], tables: &'a [u8], answer: Result<usize, Refusal>) -> Tried
    ensures { result ≡ trials_as trace.now tables.now answer }
{
    match answer {
        Ok(orders) => Tried {
            refused: Refused::nothing(),
            orders,
        },
        Err(r) => Tried {
            refused: Refused::from(trace, tables, r),
            orders: 0,
        },
    }
}
