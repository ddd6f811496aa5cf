// The line of a listed pair, put at a place of a buffer.
ghost use Rattle.std.specs.Prelude.{[], ◌∷◌, ◌++◌, ◌≡◌, ◌+◌, ◌≤◌, ◌<◌, ◌^◌};
ghost use Rattle.text_numbers.specs.Inner.{Put};
ghost use Rattle.trace_words.specs.Words.{word_text};
ghost use Rattle.page_columns.specs.Columns.{right, left};
ghost use Rattle.page_lines.specs.PairLines.{priority_text, pair_text};
ghost use Rattle.page_lines.specs.Inner.{LineInRange};

use crate::line::PairLine;
use flow_table::Origin;
use page_columns::{put_in, put_left, put_right};
use text_numbers::{put_byte, put_bytes};
use trace_words::{SwitchWord, Word, Write};

// A word, left-justified in five columns. Inlined: calls would take an eighth of a page's instructions.
#[inline(always)]
fn put_word(out: &mut [u8], at: usize, w: Word) -> usize
    requires { at < 2 ^ 31 }
    ensures put { Put (left 5 (word_text w)) at out.old result out.new }
    ensures upper_bound { result ≤ at + 80 }
{
    match w {
        Word::Other => put_left(out, at, 5, b"oth"),
        Word::On(SwitchWord::Barrier) => put_left(out, at, 5, b"bar"),
        Word::On(SwitchWord::Message) => put_left(out, at, 5, b"msg"),
        Word::On(SwitchWord::Packet(Origin::Received)) => put_left(out, at, 5, b"pkt"),
        Word::On(SwitchWord::Packet(Origin::SentOut)) => put_left(out, at, 5, b"pout"),
        Word::On(SwitchWord::Write(Write::Add)) => put_left(out, at, 5, b"add"),
        Word::On(SwitchWord::Write(Write::AddChecked)) => put_left(out, at, 5, b"addc"),
        Word::On(SwitchWord::Write(Write::ModifyStrict)) => put_left(out, at, 5, b"mods"),
        Word::On(SwitchWord::Write(Write::Modify)) => put_left(out, at, 5, b"modn"),
        Word::On(SwitchWord::DeleteStrict) => put_left(out, at, 5, b"dels"),
        Word::On(SwitchWord::Delete) => put_left(out, at, 5, b"deln"),
    }
}

// A priority, right-justified in five columns.
fn put_priority(out: &mut [u8], at: usize, p: Option<u16>) -> usize
    requires { at < 2 ^ 31 }
    ensures put { Put (right 5 (priority_text p)) at out.old result out.new }
    ensures upper_bound { result ≤ at + 80 }
{
    match p {
        None => put_right(out, at, 5, b"-"),
        Some(n) => put_in::<5>(out, at, n as usize),
    }
}

// The line of a pair and its LF: what it says is put into blanks, each part in its columns.
fn made_line(l: PairLine) -> [u8; 61]
    requires { LineInRange l }
    ensures { result ≡ pair_text l ++ (10 ∷ []) }
{
    let mut line = [b' '; 61];
    put_in::<3>(&mut line, 0, l.lower.event as usize);
    put_in::<3>(&mut line, 4, l.higher.event as usize);
    put_in::<2>(&mut line, 8, l.switch as usize);
    put_word(&mut line, 11, l.lower.word);
    put_word(&mut line, 16, l.higher.word);
    put_priority(&mut line, 21, l.lower.priority);
    put_priority(&mut line, 27, l.higher.priority);
    put_byte(&mut line, 60, b'\n');
    line
}

pub fn put_pair_line(out: &mut [u8], at: usize, l: PairLine) -> usize
    requires { (at < 2 ^ 31) × LineInRange l }
    ensures put { Put (pair_text l ++ (10 ∷ [])) at out.old result out.new }
    ensures value { result ≡ at + 61 }
{
    let line = made_line(l);
    put_bytes(out, at, &line)
}
