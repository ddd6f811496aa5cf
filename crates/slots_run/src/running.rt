// The events of an order, taken from the front, on slots.
ghost use Rattle.std.specs.Prelude.{List};
ghost use Rattle.slots.specs.Inner.{SlotsOf, Inside};
ghost use Rattle.slots_run.specs.Types.{Event, Row};
ghost use Rattle.slots_run.specs.Inner.{EndsAs};

use crate::stepping::step;
use replay_answers::{Kept, no_answers};
use slots::{State, Steps};

// What an order leaves, and the answer of each event under its number.
#[derive(Clone, Copy)]
pub struct Ended {
    pub state: State,
    pub answers: [Kept; 256],
}

pub fn run(steps: &Steps, start: State, order: &[u8]) -> Ended
    ensures { (es : List Event) (slots : List Row) → SlotsOf es slots steps.now → Inside slots start.set → EndsAs es slots order.now start result }
{
    let mut answers = no_answers();
    let mut set = start.set;
    let mut actions = start.actions;
    for &event in order {
        let e = usize::from(event);
        let stepped = step(
            steps.masks[e],
            steps.plans[e],
            &steps.priorities,
            set,
            &mut actions,
        );
        set = stepped.set;
        answers[e] = Kept {
            answer: stepped.answer,
        };
    }
    Ended {
        state: State { set, actions },
        answers,
    }
}
