// The slot of a row.
ghost use Rattle.std.specs.Prelude.{◌≡◌, true, ◌<◌, ◌≤◌};
ghost use Rattle.rows.specs.Rows.{rows_of, same_slot, SortedRows, any_row};
ghost use Rattle.slots.specs.Inner.{mark_at};

use rows::{Row, Rows};
use rows_search::place_of;

// The slot of a row that has one.
pub fn slot_of(slots: &Rows, row: &Row) -> usize
    requires few { slots.now.len ≤ 512 }
    requires sorted { SortedRows (rows_of slots.now) }
    requires found { any_row (same_slot row.now) (rows_of slots.now) ≡ true }
    ensures slot { mark_at (same_slot row.now) (rows_of slots.now) result ≡ true }
    ensures few { result < 512 }
{
    place_of(&slots.rows[..slots.len], row).unwrap_or(0)
}
