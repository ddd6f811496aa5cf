// The slots held at a moment, and what each event does to them.
ghost use Rattle.std.specs.Prelude.{◌≡◌, None, ◌<◌};
ghost use Rattle.rows_step.specs.declared.work.Change.{Change};

use flow::Action;
use rows_step::Change;

// The slots held, and of each its action. Fixed arrays, since there is no heap.
#[derive(Clone, Copy)]
pub struct State {
    pub set: [u64; 8],
    pub actions: [Action; 512],
}

// The slot that an event puts in where it meets none, and its action.
#[derive(Clone, Copy)]
pub struct Put {
    pub slot: usize,
    pub action: Action,
    ghost inside: { slot < 512 },
}

// What an event answers: nothing, the best of the slots that it meets, or whether it meets none.
#[derive(Clone, Copy)]
pub enum Reply {
    Silent,
    Best,
    Done,
}

// What becomes of the slots that an event meets, the slot that it puts in, and its answer.
#[derive(Clone, Copy)]
pub struct Plan {
    pub change: Change,
    pub put: Option<Put>,
    pub reply: Reply,
}

// For each event the slots that it asks about and its plan, and for each slot its priority.
#[derive(Clone, Copy)]
pub struct Steps {
    pub masks: [[u64; 8]; 256],
    pub plans: [Plan; 256],
    pub priorities: [u16; 512],
}

impl Plan {
    // Of an event that does nothing.
    pub fn idle() -> Self
        ensures { (result.change ≡ Change.Keep) × (result.put ≡ None) }
    {
        Plan {
            change: Change::Keep,
            put: None,
            reply: Reply::Silent,
        }
    }
}
