// The list of a trace's events, written into the caller's buffer.
ghost use Rattle.std.specs.Prelude.{◌≡◌, ◌≤◌, length};
ghost use Rattle.trace_events.specs.Events.{events_of};
ghost use Rattle.refusals.specs.Checks.{written};
ghost use Rattle.list_call.specs.Races.{list_races, list_answer, list_out};
ghost use Rattle.list_call.specs.Inner.{fitted, Lists};

use call_answers::Counts;
use refusals::Refusal;
use trace_events::Trace;

// 31 where the buffer is too short; else the list from its start.
fn put_list(t: Trace, delay: u32, out: &mut [u8]) -> Result<Counts, Refusal>
    requires { t.len ≤ 256 }
    ensures { Lists (fitted delay (events_of t) (length out.old)) result out.old out.new }
{
    let mut pairs = list_pairs::pair_room();
    let counts = list_pairs::list_of(t, delay, &mut pairs);
    let needed = 2 * counts.listed;
    if out.len() < needed {
        return Err(Refusal::ListShort(needed));
    }
    out[..needed].copy_from_slice(&pairs[..needed]);
    Ok(counts)
}

// The list of a trace under a delay: the listed pairs from the buffer's start and the four counts, or what is refused.
#[tactic(auto, unfolding(crate::specs::Races::list_races, crate::specs::Inner::fitted))]
pub fn list_races(trace: &[u8], delay: u32, out: &mut [u8]) -> Result<Counts, Refusal>
    ensures value { result ≡ list_answer (list_races delay trace.now (length out.old)) }
    ensures out_after { out.new ≡ written (list_out (list_races delay trace.now (length out.old))) out.old }
{
    let events = trace_text::read_trace(trace, delay)?;
    put_list(events, delay, out)
}
