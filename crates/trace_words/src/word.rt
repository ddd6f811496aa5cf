// The words, and which operations each stands for.
ghost use Rattle.std.specs.Prelude.{◌≡◌};
ghost use Rattle.trace_words.specs.Words.{table_word, word_of, write_of};

use flow::Entry;
use flow_table::{Operation, Origin, TableOperation};

// The writes that carry an entry: `add`, `addc`, `mods`, `modn`.
#[derive(Clone, Copy)]
pub enum Write {
    Add,
    AddChecked,
    ModifyStrict,
    Modify,
}

// The words of what happens on a switch: all but `oth`.
#[derive(Clone, Copy)]
pub enum SwitchWord {
    Barrier,
    Message,
    Packet(Origin),
    Write(Write),
    DeleteStrict,
    Delete,
}

// No `Option`: `oth` is a word too, and stands in a line where no switch does.
#[derive(Clone, Copy)]
pub enum Word {
    Other,
    On(SwitchWord),
}

// The write of that word, with its entry.
pub fn write_of(write: Write, entry: Entry) -> TableOperation
    ensures { result ≡ write_of write entry }
{
    match write {
        Write::Add => TableOperation::Add(entry),
        Write::AddChecked => TableOperation::AddChecked(entry),
        Write::ModifyStrict => TableOperation::ModifyStrict(entry),
        Write::Modify => TableOperation::Modify(entry),
    }
}

fn table_word(o: TableOperation) -> SwitchWord
    ensures { result ≡ table_word o }
{
    match o {
        TableOperation::Packet(origin, _) => SwitchWord::Packet(origin),
        TableOperation::Add(_) => SwitchWord::Write(Write::Add),
        TableOperation::AddChecked(_) => SwitchWord::Write(Write::AddChecked),
        TableOperation::ModifyStrict(_) => SwitchWord::Write(Write::ModifyStrict),
        TableOperation::Modify(_) => SwitchWord::Write(Write::Modify),
        TableOperation::DeleteStrict(_) => SwitchWord::DeleteStrict,
        TableOperation::Delete(_) => SwitchWord::Delete,
    }
}

// The word of an operation.
pub fn word_of(o: Operation) -> Word
    ensures { result ≡ word_of o }
{
    match o {
        Operation::Other => Word::Other,
        Operation::Barrier(_) => Word::On(SwitchWord::Barrier),
        Operation::Message(_) => Word::On(SwitchWord::Message),
        Operation::Table(_, t) => Word::On(table_word(t)),
    }
}
