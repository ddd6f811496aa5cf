// What the line of a listed pair says.
ghost use Rattle.std.specs.Prelude.{◌≡◌};
ghost use Rattle.page_lines.specs.PairLines.{priority_in, priority_of, mention_of, pair_line_of};

use flow::Entry;
use flow_table::{Carried, Operation, carried_by};
use trace_events::switch_of;
use trace_words::{Word, word_of};

// An event: its number, its word, its priority; `pkt`, `pout` and `deln` have none.
#[derive(Clone, Copy)]
pub struct Mention {
    pub event: u8,
    pub word: Word,
    pub priority: Option<u16>,
}

// A pair: the switch, and both events.
#[derive(Clone, Copy)]
pub struct PairLine {
    pub switch: u8,
    pub lower: Mention,
    pub higher: Mention,
}

fn priority_in(c: Carried) -> Option<u16>
    ensures { result ≡ priority_in c }
{
    match c {
        Carried::Entry(Entry { key, .. }) | Carried::Key(key) => Some(key.priority),
        Carried::Packet(_) | Carried::Match(_) => None,
    }
}

fn priority_of(o: Operation) -> Option<u16>
    ensures { result ≡ priority_of o }
{
    match o {
        Operation::Table(_, t) => priority_in(carried_by(t)),
        Operation::Other | Operation::Barrier(_) | Operation::Message(_) => None,
    }
}

#[tactic(auto, unfolding(crate::specs::PairLines::mention_of))]
fn mention_of(event: u8, o: Operation) -> Mention
    ensures { result ≡ mention_of event o }
{
    Mention {
        event,
        word: word_of(o),
        priority: priority_of(o),
    }
}

// The line of the events i and j, i the lower, which do o and p.
#[tactic(auto, unfolding(crate::specs::PairLines::pair_line_of))]
pub fn pair_line(i: u8, o: Operation, j: u8, p: Operation) -> PairLine
    ensures { result ≡ pair_line_of i o j p }
{
    PairLine {
        switch: switch_of(o),
        lower: mention_of(i, o),
        higher: mention_of(j, p),
    }
}
