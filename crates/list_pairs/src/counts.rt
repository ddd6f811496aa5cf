// The four counts of the list, kept pair by pair.
ghost use Rattle.std.specs.Prelude.{◌≡◌, ◌+◌};
ghost use Rattle.list_verdicts.specs.Kinds.{Kind};
ghost use Rattle.basics.specs.Searches.{size};
ghost use Rattle.call_answers.specs.Inner.{Small};
ghost use Rattle.list_pairs.specs.Inner.{counts, count_of};

use call_answers::Counts;
use list_verdicts::Verdict;

pub(crate) fn no_counts() -> Counts
    ensures { (k : Kind) → count_of k result ≡ 0 }
{
    Counts {
        pairs: 0,
        ordered: 0,
        commuting: 0,
        listed: 0,
    }
}

// The counts with one pair more, by its verdict.
pub(crate) fn counted(c: Counts, v: Verdict) -> Counts
    requires { Small c }
    ensures { (k : Kind) → count_of k result ≡ count_of k c + size (counts k v) }
{
    match v {
        Verdict::Unpaired => c,
        Verdict::Ordered => Counts {
            pairs: c.pairs + 1,
            ordered: c.ordered + 1,
            ..c
        },
        Verdict::Commuting => Counts {
            pairs: c.pairs + 1,
            commuting: c.commuting + 1,
            ..c
        },
        Verdict::Listed => Counts {
            pairs: c.pairs + 1,
            listed: c.listed + 1,
            ..c
        },
    }
}
