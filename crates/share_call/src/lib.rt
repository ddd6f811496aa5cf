// The commuting share of a trace: the public call.
#![tactic(auto)]

ghost use Rattle.std.specs.Prelude.{◌≡◌, ◌≤◌};
ghost use Rattle.trace_events.specs.Events.{events_of};
ghost use Rattle.list_pairs.specs.List.{counts_of};
ghost use Rattle.share.specs.Share.{share_of};
ghost use Rattle.share_call.specs.Shared.{shared};

use call_answers::Share;
use refusals::Refusal;
use trace_events::Trace;

// The share of the counts that the list has.
fn share_in(t: Trace, delay: u32) -> Share
    requires { t.len ≤ 256 }
    ensures { result ≡ share_of (counts_of delay (events_of t)) }
{
    let mut pairs = list_pairs::pair_room();
    let counts = list_pairs::list_of(t, delay, &mut pairs);
    share::share_of(counts)
}

// How many of 1,000 unordered pairs of a trace commute under a delay, with what is left over, or what is refused.
#[tactic(auto, unfolding(crate::specs::Shared::shared))]
pub fn share(trace: &[u8], delay: u32) -> Result<Share, Refusal>
    ensures { result ≡ shared delay trace.now }
{
    let events = trace_text::read_trace(trace, delay)?;
    Ok(share_in(events, delay))
}
