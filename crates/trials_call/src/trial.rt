// One order, tried.
ghost use Rattle.std.specs.Prelude.{◌≡◌, true, List, ℕ, ◌<◌, ◌≤◌};
ghost use Rattle.rows.specs.Rows.{tables_of};
ghost use Rattle.happens_before.specs.Inner.{bit};
ghost use Rattle.order_trials.specs.Trials.{order_byte};
ghost use Rattle.trials_call.specs.Types.{Event, Row};
ghost use Rattle.trials_call.specs.Inner.{Ready};

use order_check::check_order;
use slots::{State, Steps};
use slots_run::Ended;

// What all orders of a trace's events are tried with: how many events there are, which happen before each, what each does to slots, and
// the slots at the start.
#[derive(Drop)]
pub struct Shared {
    pub count: usize,
    pub earlier: [[u64; 4]; 256],
    pub steps: Steps,
    pub start: State,
    ghost few: { count ≤ 256 },
    ghost events: { (i j : ℕ) → bit earlier i j ≡ true → i < count },
}

// The byte of an order: 2 where it is refused, else whether it ends as the recorded order does.
pub(crate) fn trial(shared: &Shared, recorded: Ended, order: &[u8]) -> u8
    ensures { (delay : ℕ) (es : List Event) (rs : List Row) → Ready delay es rs shared.now.count shared.now.earlier shared.now.steps shared.now.start recorded → result ≡ order_byte delay es (tables_of rs) order.now }
{
    if check_order(shared.count, &shared.earlier, order).is_err() {
        return 2;
    }
    let end = slots_run::run(&shared.steps, shared.start, order);
    if slots_run::same(end, recorded, shared.count) {
        0
    } else {
        1
    }
}
