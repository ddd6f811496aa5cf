// Sets of numbers below 256, as rows of four words.
ghost use Rattle.std.specs.Prelude.{◌≡◌, ◌&&◌, ◌||◌, ℕ, eqb};
ghost use Rattle.bit_sets.specs.Inner.{member};
ghost use Rattle.happens_before.specs.Inner.{lacks_bit};

use bit_sets::union;

// The set with j.
pub fn with(row: [u64; 4], j: u8) -> [u64; 4]
    ensures { (k : ℕ) → member result k ≡ (eqb k j || member row k) }
{
    bit_sets::with(row, usize::from(j))
}

// The set; where asked for, with j and all of j's row.
pub fn join_if(set: [u64; 4], row: [u64; 4], j: u8, asked: bool) -> [u64; 4]
    ensures { (k : ℕ) → member result k ≡ (member set k || («asked» && (eqb k j || member row k))) }
{
    if asked { union(set, with(row, j)) } else { set }
}

// The word lacks a bit of the other: of the same word of two sets, whether a member of the second is missing in the first.
pub fn lacks(word: u64, other: u64) -> bool
    ensures { result ≡ lacks_bit word other }
{
    word & other != other
}
