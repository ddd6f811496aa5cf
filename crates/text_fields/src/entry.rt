// An action, a key and an entry, read from a place of a line. Where a field has no value, the line is refused: as `malformed`,
// which has its number.
ghost use Rattle.std.specs.Prelude.{◌≡◌};
ghost use Rattle.basics.specs.Text.{bytes};
ghost use Rattle.refusals.specs.Checks.{refuse_none};
ghost use Rattle.text_numbers.specs.Reading.{keyed};
ghost use Rattle.text_fields.specs.Read.{read_action, read_key, read_entry};

use crate::matching::match_at;
use flow::{Action, Entry, Key};
use refusals::Refusal;
use text_numbers::{keyed, number_at, word};

// `drop`, `ctl` or `pN`.
#[tactic(auto, unfolding(crate::specs::Read::read_action, text_numbers::specs::Reading::word_or, text_numbers::specs::Reading::mapped))]
fn read_action(s: &[u8], at: usize) -> Option<(Action, usize)>
    ensures { result ≡ read_action s.now at }
{
    word(s, at, b"drop", Action::Drop)
        .or_else(|| word(s, at, b"ctl", Action::Controller))
        .or_else(|| number_at(s, at, b"p", 65535).map(|(n, next)| (Action::Port(n), next)))
}

// ` act=`, and then an action.
pub fn action_at(s: &[u8], at: usize) -> Option<(Action, usize)>
    ensures { result ≡ keyed (bytes " act=") read_action s.now at }
{
    keyed(s, at, b" act=", |next| read_action(s, next))
}

// Priority, then match.
#[tactic(auto, unfolding(crate::specs::Read::read_key, text_numbers::specs::Reading::both, text_numbers::specs::Reading::and_then, text_numbers::specs::Reading::mapped))]
pub fn key_at(s: &[u8], at: usize, malformed: Refusal) -> Result<(Key, usize), Refusal>
    ensures { result ≡ refuse_none (read_key s.now at) malformed }
{
    let Some((n, next)) = number_at(s, at, b" prio=", 65535) else {
        return Err(malformed);
    };
    let (m, next) = match_at(s, next, malformed)?;
    let value = Key {
        priority: n,
        pattern: m,
    };
    Ok((value, next))
}

// Key, then action.
#[tactic(auto, unfolding(crate::specs::Read::read_entry, text_numbers::specs::Reading::both, text_numbers::specs::Reading::and_then, text_numbers::specs::Reading::mapped))]
pub fn entry_at(s: &[u8], at: usize, malformed: Refusal) -> Result<(Entry, usize), Refusal>
    ensures { result ≡ refuse_none (read_entry s.now at) malformed }
{
    let (key, next) = key_at(s, at, malformed)?;
    let Some((action, next)) = action_at(s, next) else {
        return Err(malformed);
    };
    let value = Entry { key, action };
    Ok((value, next))
}
