// The check of the clocks: one pass over the lines, from the last to the first.
ghost use Rattle.std.specs.Prelude.{◌≡◌, ◌≤◌, Ok};
ghost use Rattle.trace_events.specs.Events.{events_of};
ghost use Rattle.refusals.specs.Checks.{◌▹◌};
ghost use Rattle.trace_clocks.specs.Backward.{check_clocks};

use crate::earliest::Earliest;
use refusals::Refusal;
use trace_events::Trace;

// The lowest line that the time rule puts behind a later one: the last that the pass comes to.
pub fn check_clocks(t: Trace, delay: u32) -> Result<(), Refusal>
    requires { t.len ≤ 256 }
    ensures { (result ▹ λ _. Ok (events_of t)) ≡ check_clocks delay (events_of t) }
{
    let mut later = Earliest::none();
    let mut outcome = Ok(());
    for i in (0..t.len).rev() {
        let line = t.events[i].side();
        if later.is_before(line, delay) {
            outcome = Err(Refusal::TimeBackward(i));
        }
        later = later.with_line(line);
    }
    outcome
}
