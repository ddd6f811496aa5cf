// The answer lines: by rising event, each written into the rest of the buffer.
ghost use Rattle.std.specs.Prelude.{◌≡◌, ◌≤◌, ◌<◌, ◌^◌, length};
ghost use Rattle.text_numbers.specs.Inner.{Put};
ghost use Rattle.replay_answers.specs.Answers.{is_silent, print_item, print_answer, answers_text};
ghost use Rattle.replay_answers.specs.Inner.{kept_at};

use crate::kept::Kept;
use flow::Action;
use flow_table::Answer;
use text_numbers::{put_bytes, put_number};
use text_put_fields::put_action;

pub fn is_silent(a: Answer) -> bool
    ensures { result ≡ is_silent a }
{
    matches!(a, Answer::Silent)
}

// ` hit=10,1,p2`: the priority, how many entries fit at it, the action.
fn put_hit(out: &mut [u8], at: usize, priority: u16, count: u16, action: Action) -> usize
    requires { at < 2 ^ 30 }
    ensures { Put (print_item (Answer.Hit priority count action)) at out.old result out.new }
{
    let a = put_bytes(out, at, b" hit=");
    let b = put_number(out, a, priority as usize);
    let c = put_bytes(out, b, b",");
    let d = put_number(out, c, count as usize);
    let e = put_bytes(out, d, b",");
    put_action(out, e, action)
}

// The item of an answer.
fn put_item(out: &mut [u8], at: usize, answer: Answer) -> usize
    requires { at < 2 ^ 30 }
    ensures { Put (print_item answer) at out.old result out.new }
{
    match answer {
        Answer::Silent => at,
        Answer::Miss => put_bytes(out, at, b" hit=-"),
        Answer::Hit(priority, count, action) => put_hit(out, at, priority, count, action),
        Answer::Done(true) => put_bytes(out, at, b" done=yes"),
        Answer::Done(false) => put_bytes(out, at, b" done=no"),
    }
}

// The line of an event, with its LF; nothing for an event without an answer.
fn put_answer(out: &mut [u8], at: usize, ev: u8, answer: Answer) -> usize
    requires { at < 2 ^ 29 }
    ensures { Put (print_answer ev answer) at out.old result out.new }
{
    if is_silent(answer) {
        return at;
    }
    let a = put_bytes(out, at, b"ev=");
    let b = put_number(out, a, ev as usize);
    let c = put_item(out, b, answer);
    put_bytes(out, c, b"\n")
}

// How many bytes the lines of the events below n take.
pub fn answers_length(answers: [Kept; 256], n: usize) -> usize
    requires { n ≤ 256 }
    ensures { result ≡ length (answers_text (kept_at answers) n) }
{
    let mut scratch = [0u8; 1];
    let mut at = 0;
    for (i, kept) in answers[..n].iter().enumerate() {
        at = put_answer(&mut scratch, at, i as u8, kept.answer);
    }
    at
}

// A line written into the rest of the buffer; the place after it.
fn append_answer(out: &mut [u8], at: usize, ev: u8, answer: Answer) -> usize
    requires { (at ≤ length out.old) × (at < 2 ^ 29) }
    ensures { Put (print_answer ev answer) at out.old result out.new }
{
    let used = put_answer(&mut out[at..], 0, ev, answer);
    at + used
}

// The lines of the events below n, from the buffer's start; the bytes after them are unchanged.
pub fn write_answers(out: &mut [u8], answers: [Kept; 256], n: usize) -> usize
    requires { (n ≤ 256) × (length (answers_text (kept_at answers) n) ≤ length out.old) }
    ensures { Put (answers_text (kept_at answers) n) 0 out.old result out.new }
{
    let mut at = 0;
    for (i, kept) in answers[..n].iter().enumerate() {
        at = append_answer(out, at, i as u8, kept.answer);
    }
    at
}
