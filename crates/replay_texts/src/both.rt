// The end tables and the answers, written once both are known to fit.
ghost use Rattle.std.specs.Prelude.{◌≤◌, length};
ghost use Rattle.rows.specs.Rows.{rows_of};
ghost use Rattle.replay_answers.specs.Inner.{kept_at};
ghost use Rattle.replay_texts.specs.Inner.{both_texts, fitting_both, Leaves};

use refusals::Refusal;
use replay_answers::Kept;
use rows::Rows;

// Both texts, each from its buffer's start; nothing is written where one of them does not fit.
pub fn write_both(
    rows: Rows,
    answers: [Kept; 256],
    n: usize,
    out: &mut [u8],
    answered: &mut [u8],
) -> Result<(usize, usize), Refusal>
    requires { (rows.len ≤ 512) × (n ≤ 256) }
    ensures { Leaves (fitting_both (both_texts (rows_of rows) (kept_at answers) n) (length out.old) (length answered.old)) result out.old out.new answered.old answered.new }
{
    let tables_need = tables_normal::normal_length(rows);
    if out.len() < tables_need {
        return Err(Refusal::TablesShort(tables_need));
    }
    let answers_need = replay_answers::answers_length(answers, n);
    if answered.len() < answers_need {
        return Err(Refusal::AnswersShort(answers_need));
    }
    let a = tables_normal::write_normal(out, rows);
    let b = replay_answers::write_answers(answered, answers, n);
    Ok((a, b))
}
