// A field of a match that is `*` or one number.
ghost use Rattle.std.specs.Prelude.{◌≡◌};
ghost use Rattle.flow.specs.Matches.{exact_fits, exact_overlaps, exact_within};

// In table order: `*` before the numbers.
#[derive(Clone, Copy, PartialEq, Eq, PartialOrd, Ord)]
pub enum Exact {
    Any,
    Is(u16),
}

impl Exact {
    pub fn fits(self, x: u16) -> bool
        ensures { result ≡ exact_fits self x }
    {
        match self {
            Exact::Any => true,
            Exact::Is(a) => a == x,
        }
    }

    pub fn overlaps(self, other: Exact) -> bool
        ensures { result ≡ exact_overlaps self other }
    {
        match (self, other) {
            (Exact::Is(a), Exact::Is(b)) => a == b,
            _ => true,
        }
    }

    pub fn within(self, other: Exact) -> bool
        ensures { result ≡ exact_within self other }
    {
        match (self, other) {
            (_, Exact::Any) => true,
            (Exact::Any, Exact::Is(_)) => false,
            (Exact::Is(a), Exact::Is(b)) => a == b,
        }
    }
}
