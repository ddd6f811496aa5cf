// What an event is to direct precedence: looked at before the events themselves, which are much larger.
ghost use Rattle.std.specs.Prelude.{◌≡◌};
ghost use Rattle.trace_events.specs.Inner.{no_side, side_of, side_later, side_step, may_pass_to};

use crate::barriers::{barrier_orders, is_barrier, is_handled, switch_of};
use crate::head::Head;
use flow_table::Operation;

// Whether its line takes tokens in and puts tokens out; its switch, whether barriers of it order the event, and whether it is one;
// whether a switch handles it, and when at the earliest and at the latest.
#[derive(Clone, Copy)]
pub struct Side {
    pub takes: bool,
    pub puts: bool,
    pub switch: u8,
    pub ordered: bool,
    pub barrier: bool,
    pub handled: bool,
    pub from: u32,
    pub to: u32,
}

impl Side {
    pub fn none() -> Side
        ensures { result ≡ no_side }
    {
        Side {
            takes: false,
            puts: false,
            switch: 0,
            ordered: false,
            barrier: false,
            handled: false,
            from: 0,
            to: 0,
        }
    }

    // The time rule: both handled by switches, not both `pkt`, and the other's `from` minus this one's `to` is above the delay. Most
    // pairs of a trace are told by the first look.
    pub fn is_surely_before(self, other: Side, delay: u32) -> bool
        ensures { result ≡ side_later delay self other }
    {
        if other.from <= self.to {
            return false;
        }
        self.handled
            & other.handled
            & (self.ordered | other.ordered)
            & ((self.to as u64) + (delay as u64) < other.from as u64)
    }

    // Both on one switch, both among writes, `bar`, `msg` and `pout`, and one is `bar`; or the time rule.
    pub fn steps_to(self, other: Side, delay: u32) -> bool
        ensures { result ≡ side_step delay self other }
    {
        let timed = self.is_surely_before(other, delay);
        ((self.switch == other.switch)
            & self.ordered
            & other.ordered
            & (self.barrier | other.barrier))
            | timed
    }

    // Where this is false, no token passes from the event to the other.
    pub fn may_pass_to(self, other: Side) -> bool
        ensures { result ≡ may_pass_to self other }
    {
        self.puts & other.takes
    }
}

pub fn side_of(head: Head, o: Operation) -> Side
    ensures { result ≡ side_of head o }
{
    Side {
        takes: 0 < head.ins.count,
        puts: 0 < head.outs.count,
        switch: switch_of(o),
        ordered: barrier_orders(o),
        barrier: is_barrier(o),
        handled: is_handled(o),
        from: head.from,
        to: head.to,
    }
}
