// The search for an event that stands before one which happens before it.
ghost use Rattle.std.specs.Prelude.{◌≡◌, true, ℕ, ◌<◌, ◌≤◌, length};
ghost use Rattle.order_meaning.specs.Orders.{IsOrderOf};
ghost use Rattle.happens_before.specs.Inner.{bit};
ghost use Rattle.order_check.specs.Schedule.{early_from};

use happens_before::{lacks, with};

// The lowest place of a complete order whose event must be preceded by one that is not placed yet. What is placed and what must precede
// are sets, compared word by word.
pub fn first_early(rows: &[[u64; 4]; 256], order: &[u8]) -> Option<usize>
    requires order_of { IsOrderOf (length order.now) order.now × (length order.now ≤ 256) }
    requires by_index { (i j : ℕ) → bit rows.now i j ≡ true → i < length order.now }
    ensures { result ≡ early_from (bit rows.now) 0 order.now }
{
    let mut placed = [0u64; 4];
    let mut early = None;
    'search: for (p, &event) in order.iter().enumerate() {
        placed = with(placed, event);
        let earlier = rows[event as usize];
        for w in 0..4 {
            if lacks(placed[w], earlier[w]) {
                early = Some(p);
                break 'search;
            }
        }
    }
    early
}
