// The commuting share of the counts of a trace.
#![tactic(auto)]

ghost use Rattle.std.specs.Prelude.{◌≡◌};
ghost use Rattle.call_answers.specs.Inner.{Small};
ghost use Rattle.share.specs.Share.{share_of};

use call_answers::{Counts, Share};

// 1,000 times the commuting pairs by all unordered ones, with what is left over; 0 throughout where there is none.
pub fn share_of(c: Counts) -> Share
    requires { Small c }
    ensures { result ≡ share_of c }
{
    let divisor = c.commuting + c.listed;
    if divisor == 0 {
        return Share {
            quotient: 0,
            remainder: 0,
            divisor: 0,
        };
    }
    let product = 1000 * c.commuting;
    let quotient = product / divisor;
    let remainder = product % divisor;
    Share {
        quotient,
        remainder,
        divisor,
    }
}
