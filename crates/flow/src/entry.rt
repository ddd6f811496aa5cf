// An entry of a flow table, and the key that no other entry of its table has.
ghost use Rattle.std.specs.Prelude.{◌≡◌};
ghost use Rattle.flow.specs.Entries.{key_order};

use crate::action::Action;
use crate::matching::Match;
use std::cmp::Ordering;

#[derive(Clone, Copy, PartialEq, Eq)]
pub struct Key {
    pub priority: u16,
    pub pattern: Match,
}

#[derive(Clone, Copy, PartialEq, Eq)]
pub struct Entry {
    pub key: Key,
    pub action: Action,
}

impl Key {
    // Table order: the greater priority first, then by the match.
    #[tactic(auto, unfolding(crate::specs::Entries::key_order))]
    pub fn order(self, other: Key) -> Ordering
        ensures { result ≡ key_order self other }
    {
        let by_match = self.pattern.order(other.pattern);
        other.priority.cmp(&self.priority).then(by_match)
    }
}

impl Entry {
    pub fn order(self, other: Entry) -> Ordering
        ensures { result ≡ key_order self.key other.key }
    {
        self.key.order(other.key)
    }
}
