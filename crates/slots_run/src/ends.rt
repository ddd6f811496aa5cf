// Whether two ends are the same.
ghost use Rattle.std.specs.Prelude.{◌≡◌, ◌↔◌, true, ℕ, ◌<◌, ◌≤◌};
ghost use Rattle.bit_sets.specs.Inner.{member};
ghost use Rattle.replay_answers.specs.Inner.{kept_at};
ghost use Rattle.slots.specs.Inner.{action_at};
ghost use Rattle.slots_run.specs.Inner.{SameEnds};

use crate::running::Ended;
use bit_sets::{members_of, next, without};
use flow::Action;
use replay_answers::Kept;

// The answers of the events below n.
fn same_answers(a: [Kept; 256], b: [Kept; 256], n: usize) -> bool
    requires { n ≤ 256 }
    ensures { (result ≡ true) ↔ ((i : ℕ) → i < n → kept_at a i ≡ kept_at b i) }
{
    for i in 0..n {
        if a[i].answer != b[i].answer {
            return false;
        }
    }
    true
}

fn same_set(a: [u64; 8], b: [u64; 8]) -> bool
    ensures { (result ≡ true) ↔ ((i : ℕ) → member a i ≡ member b i) }
{
    let more = next(without(a, b), 0);
    let fewer = next(without(b, a), 0);
    more.is_none() & fewer.is_none()
}

// The actions of the slots of a set.
fn same_actions(set: [u64; 8], a: &[Action; 512], b: &[Action; 512]) -> bool
    ensures { (result ≡ true) ↔ ((i : ℕ) → member set i ≡ true → action_at a.now i ≡ action_at b.now i) }
{
    for i in members_of(set) {
        if a[i] != b[i] {
            return false;
        }
    }
    true
}

// The slots held, their actions, and the answers of the events below n.
pub fn same(a: Ended, b: Ended, n: usize) -> bool
    requires { n ≤ 256 }
    ensures { SameEnds a b n result }
{
    if !same_set(a.state.set, b.state.set) {
        return false;
    }
    if !same_actions(a.state.set, &a.state.actions, &b.state.actions) {
        return false;
    }
    same_answers(a.answers, b.answers, n)
}
