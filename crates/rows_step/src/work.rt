// What an event does to the rows of a switch: those that pass a filter are kept, dropped or assigned, and where none passes a row may
// be put in.
ghost use Rattle.std.specs.Prelude.{◌≡◌, Some, cond, ◌+◌, ◌<◌, ◌≤◌};
ghost use Rattle.flow_table.specs.FlowTable.{entry};
ghost use Rattle.rows.specs.Rows.{row};
ghost use Rattle.rows_step.specs.Inner.{is_dropped, treated, putting, removing, work_of};

use flow::{Action, Entry, Key};
use flow_table::{Answer, Effect};
use rows::{Filter, Row};

// What becomes of the rows that pass.
#[derive(Clone, Copy)]
pub enum Change {
    Keep,
    Drop,
    Assign(Action),
}

// `put` is what is put in where no row passes, and `answer` is the answer before the first row is seen.
#[derive(Clone, Copy)]
pub struct Work {
    pub switch: u8,
    pub filter: Filter,
    pub change: Change,
    pub put: Option<Row>,
    pub answer: Answer,
}

impl Change {
    // The row is dropped.
    pub fn drops(self, passes: bool) -> bool
        ensures { result ≡ is_dropped self passes }
    {
        match self {
            Change::Drop => passes,
            Change::Keep | Change::Assign(_) => false,
        }
    }

    // What the row becomes, where it is not dropped.
    pub fn treated(self, passes: bool, row: Row) -> Row
        ensures { result ≡ treated self passes row }
    {
        match self {
            Change::Assign(action) => row.assigned(passes, action),
            Change::Keep | Change::Drop => row,
        }
    }
}

// The next free index: one more if a row was kept.
pub fn next_free(k: usize, dropped: bool) -> usize
    requires { k < 512 }
    ensures { (result ≡ cond dropped k (k + 1)) × (result ≤ k + 1) }
{
    if dropped { k } else { k + 1 }
}

// No row is asked, and what is put in is put in in any case.
fn putting(put: Option<Row>) -> Work
    ensures { result ≡ putting put }
{
    Work {
        switch: 0,
        filter: Filter::Nothing,
        change: Change::Keep,
        put,
        answer: Answer::Silent,
    }
}

fn removing(switch: u8, filter: Filter) -> Work
    ensures { result ≡ removing switch filter }
{
    Work {
        switch,
        filter,
        change: Change::Drop,
        put: None,
        answer: Answer::Silent,
    }
}

// A row put in.
fn one(switch: u8, key: Key, action: Action) -> Option<Row>
    ensures { result ≡ Some (row switch (entry key action)) }
{
    let entry = Entry { key, action };
    Some(Row { switch, entry })
}

// The work of an event, by its switch and what it does to that switch's table.
pub fn work_of(switch: u8, effect: Effect) -> Work
    ensures { result ≡ work_of switch effect }
{
    match effect {
        Effect::Pkt(p) => Work {
            switch,
            filter: Filter::Fits(p),
            change: Change::Keep,
            put: None,
            answer: Answer::Miss,
        },
        Effect::Add(k, a) => putting(one(switch, k, a)),
        Effect::Addc(k, a) => Work {
            switch,
            filter: Filter::Clash(k),
            change: Change::Keep,
            put: one(switch, k, a),
            answer: Answer::Done(true),
        },
        Effect::Modn(k, a) => Work {
            switch,
            filter: Filter::Within(k.pattern),
            change: Change::Assign(a),
            put: one(switch, k, a),
            answer: Answer::Silent,
        },
        Effect::Dels(k) => removing(switch, Filter::Same(k)),
        Effect::Deln(m) => removing(switch, Filter::Within(m)),
        Effect::Idle => putting(None),
    }
}
