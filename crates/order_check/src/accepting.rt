// The refusals that concern an order: 21, then 22.
ghost use Rattle.std.specs.Prelude.{◌≡◌, true, ℕ, ◌<◌, ◌≤◌};
ghost use Rattle.happens_before.specs.Inner.{bit};
ghost use Rattle.order_check.specs.Schedule.{check_by};

use crate::completeness::is_complete;
use crate::search::first_early;
use refusals::Refusal;

// Whether the order of n events is accepted, by the rows of happens-before.
pub fn check_order(n: usize, rows: &[[u64; 4]; 256], order: &[u8]) -> Result<(), Refusal>
    requires { (n ≤ 256) × ((i j : ℕ) → bit rows.now i j ≡ true → i < n) }
    ensures { result ≡ check_by (bit rows.now) n order.now }
{
    if !is_complete(order, n) {
        return Err(Refusal::OrderIncomplete);
    }
    match first_early(rows, order) {
        Some(p) => Err(Refusal::EventTooEarly(p)),
        None => Ok(()),
    }
}
