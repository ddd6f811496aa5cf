// The priority of each slot.
ghost use Rattle.std.specs.Prelude.{◌≤◌};
ghost use Rattle.rows.specs.Rows.{rows_of};
ghost use Rattle.slots_plan.specs.Inner.{Ranked};

use rows::Rows;

pub fn priorities_of(slots: Rows) -> [u16; 512]
    requires { slots.len ≤ 512 }
    ensures { Ranked (rows_of slots) result }
{
    let n = slots.len;
    let mut priorities = [0u16; 512];
    for i in 0..n {
        let x = slots.rows[i];
        let entry = x.entry;
        let key = entry.key;
        priorities[i] = key.priority;
    }
    priorities
}
