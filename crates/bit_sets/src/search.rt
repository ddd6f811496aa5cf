// The lowest member from a number on: of one word, and of a set.
ghost use Rattle.std.specs.Prelude.{◌≡◌, ◌-◌, ◌*◌, ◌^◌, ◌<◌};
ghost use Rattle.std.specs.Iterator.{at_most};
ghost use Rattle.bit_sets.specs.Inner.{NextBit, NextFrom, NextMember};

fn next_bit(word: u64, from: usize) -> Option<usize>
    requires { from < 64 }
    ensures { NextBit word from result }
{
    let rest = word >> from;
    if rest == 0 {
        return None;
    }
    Some(from + rest.trailing_zeros() as usize)
}

pub fn next<const N: usize>(set: [u64; N], from: usize) -> Option<usize>
    requires { 64 * N < 2 ^ 64 }
    ensures { NextFrom set.entry from result }
{
    let mut place = from % 64;
    for w in from / 64..N {
        if let Some(bit) = next_bit(set[w], place) {
            return Some(64 * w + bit);
        }
        place = 0;
    }
    None
}

// The members of a set from a number on, lowest first.
#[derive(Drop)]
pub struct MembersFrom<const N: usize> {
    pub set: [u64; N],
    pub from: usize,
}

// The members of a set, lowest first.
pub fn members_of<const N: usize>(set: [u64; N]) -> MembersFrom<N>
    ensures { (result.set ≡ set.entry) × (result.from ≡ 0) }
{
    MembersFrom { set, from: 0 }
}

impl<const N: usize> Iterator for MembersFrom<N> {
    type Item = usize;

    ghost can_next = { λ _. 64 * N < 2 ^ 64 };

    ghost next_gives = { λ s r t. NextMember s.set s.from t.set t.from r };

    ghost remaining = { λ s. at_most (64 * N - s.from) };

    fn next(&mut self) -> Option<usize> {
        let i = next(self.set, self.from)?;
        self.from = i + 1;
        Some(i)
    }
}
