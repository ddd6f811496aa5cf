// A line of a table text as a row.
ghost use Rattle.std.specs.Prelude.{◌≡◌};
ghost use Rattle.tables_text.specs.TableText.{read_row_line};

use refusals::Refusal;
use rows::Row;
use text_fields::entry_at;
use text_numbers::number_at;

// The row of a whole line, which has that number.
#[tactic(auto, unfolding(crate::specs::TableText::read_row_line, crate::specs::TableText::read_row, crate::specs::TableText::row_reader, text_numbers::specs::Reading::both, text_numbers::specs::Reading::and_then, text_numbers::specs::Reading::mapped))]
pub fn row_line(s: &[u8], line: usize) -> Result<Row, Refusal>
    ensures { result ≡ read_row_line line s.now }
{
    let malformed = Refusal::TablesMalformed(line);
    let Some((switch, next)) = number_at(s, 0, b"sw=", 15) else {
        return Err(malformed);
    };
    let (entry, next) = entry_at(s, next, malformed)?;
    if next != s.len() {
        return Err(malformed);
    }
    if !entry.key.pattern.is_clear() {
        return Err(Refusal::TablesAddressBit(line));
    }
    Ok(Row {
        switch: switch as u8,
        entry,
    })
}
