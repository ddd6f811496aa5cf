// The rest of a line behind its head, by the word of `do`. Where a field has no value, the line is refused: as `malformed`, which
// has its number.
ghost use Rattle.std.specs.Prelude.{◌≡◌};
ghost use Rattle.refusals.specs.Checks.{refuse_none};
ghost use Rattle.trace_operation.specs.Operations.{read_on, read_operation};

use flow_table::{Operation, TableOperation};
use refusals::Refusal;
use text_fields::{entry_at, key_at, match_at, packet_at};
use text_numbers::number_at;
use trace_words::{SwitchWord, Word, write_of};

// Switches are 0 to 15.
const LAST_SWITCH: u16 = 15;

// The operation of a word on switch w, with its own fields.
#[tactic(auto, unfolding(crate::specs::Operations::read_on, text_numbers::specs::Reading::mapped))]
fn fields_at(
    s: &[u8],
    at: usize,
    malformed: Refusal,
    word: SwitchWord,
    w: u8,
) -> Result<(Operation, usize), Refusal>
    ensures { result ≡ refuse_none (read_on word w s.now at) malformed }
{
    match word {
        SwitchWord::Barrier => Ok((Operation::Barrier(w), at)),
        SwitchWord::Message => Ok((Operation::Message(w), at)),
        SwitchWord::Packet(origin) => {
            let (packet, next) = packet_at(s, at, malformed)?;
            let table = TableOperation::Packet(origin, packet);
            Ok((Operation::Table(w, table), next))
        }
        SwitchWord::Write(write) => {
            let (entry, next) = entry_at(s, at, malformed)?;
            Ok((Operation::Table(w, write_of(write, entry)), next))
        }
        SwitchWord::DeleteStrict => {
            let (key, next) = key_at(s, at, malformed)?;
            let table = TableOperation::DeleteStrict(key);
            Ok((Operation::Table(w, table), next))
        }
        SwitchWord::Delete => {
            let (pattern, next) = match_at(s, at, malformed)?;
            let table = TableOperation::Delete(pattern);
            Ok((Operation::Table(w, table), next))
        }
    }
}

// The operation of a word: for all but `oth` the switch, and then its own fields.
#[tactic(auto, unfolding(crate::specs::Operations::read_operation, crate::specs::Operations::read_switch, text_numbers::specs::Reading::and_then))]
pub fn operation_at(
    s: &[u8],
    at: usize,
    malformed: Refusal,
    word: Word,
) -> Result<(Operation, usize), Refusal>
    ensures { result ≡ refuse_none (read_operation word s.now at) malformed }
{
    let Word::On(word) = word else {
        return Ok((Operation::Other, at));
    };
    let Some((w, next)) = number_at(s, at, b" sw=", LAST_SWITCH) else {
        return Err(malformed);
    };
    fields_at(s, next, malformed, word, w as u8)
}
