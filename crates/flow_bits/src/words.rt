// Words of bits, each with a mask of the bits that count.
ghost use Rattle.std.specs.Prelude.{◌≡◌, ◌+◌, ◌≤◌};
ghost use Rattle.flow_bits.specs.Inner.{word_overlaps, word_within, joined, InBits, exact_word, prefix_word, length_word};

use flow::prefix::mask;
use flow::{Exact, Prefix};

// Bits, and a mask of those that count.
#[derive(Clone, Copy, PartialEq, Eq)]
pub struct Word {
    pub value: u64,
    pub mask: u64,
}

impl Word {
    pub fn overlaps(self, other: Word) -> bool
        ensures { result ≡ word_overlaps self other }
    {
        let m = self.mask & other.mask;
        self.value & m == other.value & m
    }

    pub fn within(self, other: Word) -> bool
        ensures { result ≡ word_within self other }
    {
        (self.mask & other.mask == other.mask)
            & (self.value & other.mask == other.value & other.mask)
    }

    // The bits of this word above those of another, both of k bits.
    pub fn beside(self, low: Word, k: u8) -> Word
        requires { (k ≤ 32) × InBits k self × InBits k low }
        ensures { (result ≡ joined k self low) × InBits (k + k) result }
    {
        Word {
            value: (self.value << k) + low.value,
            mask: (self.mask << k) + low.mask,
        }
    }

    // All 16 bits of a number count, and none of `*`.
    pub fn of_exact(e: Exact) -> Word
        ensures { (result ≡ exact_word e) × InBits 16 result }
    {
        match e {
            Exact::Any => Word { value: 0, mask: 0 },
            Exact::Is(a) => Word {
                value: a as u64,
                mask: 65535,
            },
        }
    }

    // The leading bits of an address count.
    pub fn of_prefix(p: Prefix) -> Word
        ensures { (result ≡ prefix_word p) × InBits 32 result }
    {
        Word {
            value: p.value as u64,
            mask: mask(p.length) as u64,
        }
    }

    // A prefix's length: none of its bits count, but where two matches are the same it is too.
    pub fn of_length(p: Prefix) -> Word
        ensures { (result ≡ length_word p) × InBits 8 result }
    {
        Word {
            value: p.length as u64,
            mask: 0,
        }
    }
}
