// The word of `do`, with the space that ends it, from a place of a line on.
ghost use Rattle.std.specs.Prelude.{◌≡◌};
ghost use Rattle.basics.specs.Text.{bytes};
ghost use Rattle.text_numbers.specs.Reading.{keyed};
ghost use Rattle.trace_words.specs.Words.{read_word};

use crate::word::{SwitchWord, Word, Write};
use flow_table::Origin;
use text_numbers::{keyed, word};

// Any of the eleven.
#[tactic(auto, unfolding(crate::specs::Words::read_word, crate::specs::Words::read_one_of, text_numbers::specs::Reading::word_or))]
fn read_word(s: &[u8], at: usize) -> Option<(Word, usize)>
    ensures { result ≡ read_word s.now at }
{
    let on = |text: &[u8], value: SwitchWord| word(s, at, text, Word::On(value));
    word(s, at, b"oth ", Word::Other)
        .or_else(|| on(b"bar ", SwitchWord::Barrier))
        .or_else(|| on(b"msg ", SwitchWord::Message))
        .or_else(|| on(b"pkt ", SwitchWord::Packet(Origin::Received)))
        .or_else(|| on(b"pout ", SwitchWord::Packet(Origin::SentOut)))
        .or_else(|| on(b"add ", SwitchWord::Write(Write::Add)))
        .or_else(|| on(b"addc ", SwitchWord::Write(Write::AddChecked)))
        .or_else(|| on(b"mods ", SwitchWord::Write(Write::ModifyStrict)))
        .or_else(|| on(b"modn ", SwitchWord::Write(Write::Modify)))
        .or_else(|| on(b"dels ", SwitchWord::DeleteStrict))
        .or_else(|| on(b"deln ", SwitchWord::Delete))
}

// ` do=`, and then a word.
pub fn word_at(s: &[u8], at: usize) -> Option<(Word, usize)>
    ensures { result ≡ keyed (bytes " do=") read_word s.now at }
{
    keyed(s, at, b" do=", |next| read_word(s, next))
}
