// The starting rows as slots.
ghost use Rattle.std.specs.Prelude.{◌≤◌};
ghost use Rattle.rows.specs.Rows.{rows_of, SortedRows};
ghost use Rattle.slots_plan.specs.Inner.{StartFound, StartsAs};

use crate::slot::slot_of;
use bit_sets::{none, with};
use flow::Action;
use rows::Rows;
use slots::State;

// The slot of each starting row is held, with its action.
pub fn start_of(slots: Rows, start: Rows) -> State
    requires { (slots.len ≤ 512) × (start.len ≤ 512) × SortedRows (rows_of slots) × SortedRows (rows_of start) × StartFound (rows_of start) (rows_of slots) }
    ensures { StartsAs (rows_of slots) (rows_of start) result }
{
    let mut set = none();
    let mut actions = [Action::Drop; 512];
    for row in &start.rows[..start.len] {
        let at = slot_of(&slots, row);
        let more = with(set, at);
        set = more;
        actions[at] = row.entry.action;
    }
    State { set, actions }
}
