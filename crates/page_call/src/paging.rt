// The page of a trace's list, written into the caller's buffer.
ghost use Rattle.std.specs.Prelude.{◌≡◌, length};
ghost use Rattle.trace_events.specs.Events.{events_of};
ghost use Rattle.refusals.specs.Checks.{written};
ghost use Rattle.page_call.specs.Paged.{paged, page_answer};
ghost use Rattle.page_call.specs.Inner.{fitted, Pages, Ranged};

use page_text::{put_counts, put_pairs};
use refusals::Refusal;
use trace_events::Trace;

// 51 where the buffer is too short; else the page from its start.
fn put_page(t: Trace, delay: u32, out: &mut [u8]) -> Result<usize, Refusal>
    requires { Ranged t }
    ensures { Pages (fitted delay (events_of t) (length out.old)) result out.old out.new }
{
    let mut pairs = list_pairs::pair_room();
    let counts = list_pairs::list_of(t, delay, &mut pairs);
    let needed = 61 * (counts.listed + 4);
    if out.len() < needed {
        return Err(Refusal::PageShort(needed));
    }
    let n = 2 * counts.listed;
    let at = put_pairs(out, t, &pairs[..n]);
    Ok(put_counts(out, at, counts))
}

// The page of a trace under a delay, from the buffer's start, or what is refused. The bytes past it, or all after a refusal, stay as they were.
#[tactic(auto, unfolding(crate::specs::Paged::paged, crate::specs::Inner::fitted))]
pub fn page(trace: &[u8], delay: u32, out: &mut [u8]) -> Result<usize, Refusal>
    ensures value { result ≡ page_answer (paged delay trace.now (length out.old)) }
    ensures out_after { out.new ≡ written (paged delay trace.now (length out.old)) out.old }
{
    let events = trace_text::read_trace(trace, delay)?;
    put_page(events, delay, out)
}
