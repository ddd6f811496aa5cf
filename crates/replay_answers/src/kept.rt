// Answers kept under the numbers of their events.
ghost use Rattle.std.specs.Prelude.{◌≡◌, ℕ, length};
ghost use Rattle.replay_answers.specs.Inner.{kept_at};

use flow_table::Answer;

// An answer, silent where none was given.
#[derive(Clone, Copy)]
pub struct Kept {
    pub answer: Answer,
}

pub fn no_answers() -> [Kept; 256]
    ensures { (length result ≡ 256) × ((i : ℕ) → kept_at result i ≡ Answer.Silent) }
{
    let silent = Kept {
        answer: Answer::Silent,
    };
    [silent; 256]
}
