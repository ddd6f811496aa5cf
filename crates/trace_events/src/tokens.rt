// The token numbers of an event's `in` or `out`.
ghost use Rattle.std.specs.Prelude.{◌≡◌};
ghost use Rattle.basics.specs.Searches.{has, shares};
ghost use Rattle.trace_events.specs.Events.{tokens_of, no_tokens};

// None to four numbers: the first `count` of the four, all of them where it is more.
#[derive(Clone, Copy)]
pub struct Tokens {
    pub t0: u16,
    pub t1: u16,
    pub t2: u16,
    pub t3: u16,
    pub count: u8,
}

impl Tokens {
    pub fn none() -> Tokens
        ensures { result ≡ no_tokens }
    {
        Tokens {
            t0: 0,
            t1: 0,
            t2: 0,
            t3: 0,
            count: 0,
        }
    }

    // t is one of them.
    pub fn has(self, t: u16) -> bool
        ensures { result ≡ has t (tokens_of self) }
    {
        ((0 < self.count) & (t == self.t0))
            | ((1 < self.count) & (t == self.t1))
            | ((2 < self.count) & (t == self.t2))
            | ((3 < self.count) & (t == self.t3))
    }

    // Some number stands in both.
    pub fn shares(self, other: Tokens) -> bool
        ensures { result ≡ shares (tokens_of self) (tokens_of other) }
    {
        ((0 < self.count) & other.has(self.t0))
            | ((1 < self.count) & other.has(self.t1))
            | ((2 < self.count) & other.has(self.t2))
            | ((3 < self.count) & other.has(self.t3))
    }
}
