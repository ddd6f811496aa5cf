// The tests that events make of an entry's key.
ghost use Rattle.std.specs.Prelude.{◌≡◌};
ghost use Rattle.rows.specs.Inner.{first_for};
ghost use Rattle.rows.specs.Rows.{passes};

use flow::{Key, Match, Packet};

#[derive(Clone, Copy)]
pub enum Filter {
    // No key passes.
    Nothing,
    // It is this key.
    Same(Key),
    // Its match lies within this one.
    Within(Match),
    // It has this key's priority, and overlaps it.
    Clash(Key),
    // Its match admits the packet.
    Fits(Packet),
}

impl Filter {
    #[tactic(auto, using(flow::proofs::Derived::key_same))]
    pub fn passes(self, key: Key) -> bool
        ensures { result ≡ passes self key }
    {
        match self {
            Filter::Nothing => false,
            Filter::Same(k) => k == key,
            Filter::Within(m) => key.pattern.within(m),
            Filter::Clash(k) => flow_table::clash(k, key),
            Filter::Fits(p) => key.pattern.fits(p),
        }
    }

    // The first of n rows that may pass: past the last where none does.
    pub fn first(self, n: usize) -> usize
        ensures { result ≡ first_for self n }
    {
        match self {
            Filter::Nothing => n,
            _ => 0,
        }
    }
}
