// What is kept of the lines behind a line: when the earliest of their events was over at the latest.
ghost use Rattle.std.specs.Prelude.{◌≡◌, cond, ◌&&◌, ltb};
ghost use Rattle.trace_clocks.specs.Inner.{none_kept, kept_before, WithLine};

use trace_events::Side;

// The smallest `to` of all lines that switches handle, and of the messages among them; the largest number where there is none.
#[derive(Clone, Copy)]
pub struct Earliest {
    pub all: u32,
    pub messages: u32,
}

// The smaller of the two, where `to` counts.
fn smaller(least: u32, counts: bool, to: u32) -> u32
    ensures { result ≡ cond (counts && ltb to least) to least }
{
    if counts { least.min(to) } else { least }
}

impl Earliest {
    pub(crate) fn none() -> Earliest
        ensures { result ≡ none_kept }
    {
        Earliest {
            all: u32::MAX,
            messages: u32::MAX,
        }
    }

    // One line more.
    pub(crate) fn with_line(self, line: Side) -> Earliest
        ensures { WithLine self line result }
    {
        let all = smaller(self.all, line.handled, line.to);
        let messages = smaller(self.messages, line.handled & line.ordered, line.to);
        Earliest { all, messages }
    }

    // The smallest `to` that a line is held against: a `pkt`, which barriers don't order, only against messages.
    fn held_against(self, ordered: bool) -> u32
        ensures { result ≡ cond ordered self.all self.messages }
    {
        if ordered { self.all } else { self.messages }
    }

    // The time rule puts one of the lines before this one.
    pub(crate) fn is_before(self, line: Side, delay: u32) -> bool
        ensures { result ≡ kept_before delay self line }
    {
        let to = self.held_against(line.ordered);
        line.handled && u64::from(to) + u64::from(delay) < u64::from(line.from)
    }
}
