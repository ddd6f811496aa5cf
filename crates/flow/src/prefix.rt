// An IPv4 prefix, compared by bit masks.
ghost use Rattle.std.specs.Prelude.{◌≡◌};
ghost use Rattle.flow.specs.Matches.{mask_of, prefix_fits, prefix_overlaps, prefix_within, prefix_clear};
ghost use Rattle.flow.specs.Inner.{same_leading};

// In table order: by value, then by length.
#[derive(Clone, Copy, PartialEq, Eq, PartialOrd, Ord)]
pub struct Prefix {
    pub value: u32,
    pub length: u8,
}

// The mask of a prefix length, as many ones and then zeros: 2^32 less 2^(32 - length), which is 2^32 itself at length 0, so the
// formula is worked out in 64 bits. A length over 32 counts as 32.
pub fn mask(length: u8) -> u32
    ensures { result ≡ mask_of length }
{
    let past = 32u8.saturating_sub(length);
    (0x1_0000_0000u64 - (1u64 << past)) as u32
}

// Two addresses have the same first bits, as many as the length says.
fn same_leading(a: u32, b: u32, length: u8) -> bool
    ensures { result ≡ same_leading a b length }
{
    let m = mask(length);
    a & m == b & m
}

impl Prefix {
    pub fn fits(self, x: u32) -> bool
        ensures { result ≡ prefix_fits self x }
    {
        same_leading(x, self.value, self.length)
    }

    // The bits of the shorter length decide.
    pub fn overlaps(self, other: Prefix) -> bool
        ensures { result ≡ prefix_overlaps self other }
    {
        let n = self.length.min(other.length);
        same_leading(self.value, other.value, n)
    }

    // A shorter one lies within no longer one; else the bits of the other's length decide.
    pub fn within(self, other: Prefix) -> bool
        ensures { result ≡ prefix_within self other }
    {
        if self.length < other.length.min(32) {
            return false;
        }
        same_leading(self.value, other.value, other.length)
    }

    // No address bit stands past the length.
    pub fn is_clear(self) -> bool
        ensures { result ≡ prefix_clear self }
    {
        self.value & mask(self.length) == self.value
    }
}
