// An entry with the switch whose table holds it, and the rows of all switches.
ghost use Rattle.std.specs.Prelude.{◌≡◌};
ghost use Rattle.rows.specs.Rows.{row_order, on_switch, passes, assign_row};

use crate::filter::Filter;
use flow::{Action, Entry};
use std::cmp::Ordering;

#[derive(Clone, Copy)]
pub struct Row {
    pub switch: u8,
    pub entry: Entry,
}

// The rows are the first `len` of the array: fixed memory, no heap.
#[derive(Clone, Copy)]
pub struct Rows {
    pub rows: [Row; 512],
    pub len: usize,
}

impl Row {
    // By switch, then in table order.
    #[tactic(auto, unfolding(crate::specs::Rows::row_order))]
    pub fn order(self, other: Row) -> Ordering
        ensures { result ≡ row_order self other }
    {
        let by_entry = self.entry.order(other.entry);
        self.switch.cmp(&other.switch).then(by_entry)
    }

    // The row is of the switch, and its key passes the filter.
    #[tactic(auto, unfolding(crate::specs::Rows::on_switch))]
    pub fn passes(self, switch: u8, filter: Filter) -> bool
        ensures { result ≡ on_switch switch (passes filter) self }
    {
        switch == self.switch && filter.passes(self.entry.key)
    }

    // The row, with the action if it is chosen.
    #[tactic(auto, unfolding(crate::specs::Rows::assign_row))]
    pub fn assigned(self, chosen: bool, action: Action) -> Row
        ensures { result ≡ assign_row chosen action self }
    {
        if !chosen {
            return self;
        }
        Row {
            entry: Entry {
                action,
                ..self.entry
            },
            ..self
        }
    }
}
