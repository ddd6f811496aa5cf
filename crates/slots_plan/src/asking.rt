// What a filter asks of a key, by its priority and the bits of its match: all seven fields are compared at once, and a filter's bits
// are worked out once an event.
ghost use Rattle.std.specs.Prelude.{◌≡◌};
ghost use Rattle.slots_plan.specs.InnerAsking.{question_of, asks, FilterNarrow};

use flow_bits::{Bits, exactly};
use rows::Filter;

#[derive(Clone, Copy)]
pub enum Question {
    // No key passes.
    Nothing,
    // It has this priority, and this match.
    Same(u16, Bits),
    // Its match lies within this one.
    Within(Bits),
    // It has this priority, and overlaps this match.
    Clash(u16, Bits),
    // It overlaps the match that just the packet fits.
    Fits(Bits),
}

pub fn question_of(f: Filter) -> Question
    ensures { (result ≡ question_of f) × FilterNarrow f }
{
    match f {
        Filter::Nothing => Question::Nothing,
        Filter::Same(k) => Question::Same(k.priority, Bits::of(k.pattern)),
        Filter::Within(m) => Question::Within(Bits::of(m)),
        Filter::Clash(k) => Question::Clash(k.priority, Bits::of(k.pattern)),
        Filter::Fits(p) => Question::Fits(Bits::of(exactly(p))),
    }
}

impl Question {
    #[tactic(auto, using(flow_bits::proofs::Derived::same_words))]
    pub fn asks(self, priority: u16, bits: Bits) -> bool
        ensures { result ≡ asks self priority bits }
    {
        match self {
            Question::Nothing => false,
            Question::Same(p, b) => priority == p && b == bits,
            Question::Within(b) => bits.within(b),
            Question::Clash(p, b) => p == priority && b.overlaps(bits),
            Question::Fits(b) => bits.overlaps(b),
        }
    }
}
