// The empty set, whether a number is in a set, a set with one number more, what is in two sets, in either, in one and not in the other.
ghost use Rattle.std.specs.Prelude.{◌≡◌, false, not, ◌&&◌, ◌||◌, ℕ, ◌*◌, ◌<◌, eqb};
ghost use Rattle.bit_sets.specs.Inner.{member};

pub fn none<const N: usize>() -> [u64; N]
    ensures { (k : ℕ) → member result k ≡ false }
{
    [0; N]
}

pub fn contains<const N: usize>(set: [u64; N], j: usize) -> bool
    requires { j < 64 * N }
    ensures { result ≡ member set.entry j }
{
    (set[j / 64] >> (j % 64)) % 2 == 1
}

// The set with j.
pub fn with<const N: usize>(set: [u64; N], j: usize) -> [u64; N]
    requires { j < 64 * N }
    ensures { (k : ℕ) → member result k ≡ (eqb k j || member set.entry k) }
{
    let mut next = set;
    next[j / 64] |= 1 << (j % 64);
    next
}

pub fn union<const N: usize>(a: [u64; N], b: [u64; N]) -> [u64; N]
    ensures { (k : ℕ) → member result k ≡ (member a.entry k || member b.entry k) }
{
    let mut all = a;
    for (w, word) in all.iter_mut().enumerate() {
        *word |= b[w];
    }
    all
}

pub fn common<const N: usize>(a: [u64; N], b: [u64; N]) -> [u64; N]
    ensures { (k : ℕ) → member result k ≡ (member a.entry k && member b.entry k) }
{
    let mut shared = a;
    for (w, word) in shared.iter_mut().enumerate() {
        *word &= b[w];
    }
    shared
}

// What a has and b has not.
pub fn without<const N: usize>(a: [u64; N], b: [u64; N]) -> [u64; N]
    ensures { (k : ℕ) → member result k ≡ (member a.entry k && not (member b.entry k)) }
{
    let mut left = a;
    for (w, word) in left.iter_mut().enumerate() {
        *word &= !b[w];
    }
    left
}
