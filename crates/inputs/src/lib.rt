// A trace and tables read for a call that takes both.
#![tactic(auto)]

ghost use Rattle.std.specs.Prelude.{◌≡◌};
ghost use Rattle.trace_text.specs.TraceText.{read_trace};
ghost use Rattle.trace_text.specs.Inner.{TraceOf};
ghost use Rattle.tables_text.specs.TableText.{read_tables};
ghost use Rattle.tables_text.specs.Inner.{TablesOf};
ghost use Rattle.inputs.specs.Inputs.{read_both};
ghost use Rattle.inputs.specs.Inner.{as_both, inputs_of};

use refusals::Refusal;
use rows::Rows;
use trace_events::Trace;

// A trace, and the rows of its tables, in order.
#[derive(Clone, Copy)]
pub struct Inputs {
    pub trace: Trace,
    pub rows: Rows,
}

// What each of the two texts holds by itself, or what is refused of it.
#[derive(Clone, Copy)]
pub struct BothRead {
    pub trace: Result<Trace, Refusal>,
    pub rows: Result<Rows, Refusal>,
}

impl BothRead {
    // Both, or the first refusal: of the trace, then of the tables.
    pub fn accepted(self) -> Result<Inputs, Refusal>
        ensures { result ≡ inputs_of self }
    {
        let trace = self.trace?;
        let rows = self.rows?;
        Ok(Inputs { trace, rows })
    }
}

// Each of the two texts, read.
pub fn read_both(trace: &[u8], tables: &[u8], delay: u32) -> BothRead
    ensures trace { TraceOf (read_trace delay trace.now) result.trace }
    ensures rows { TablesOf (read_tables tables.now) result.rows }
    ensures value { as_both result ≡ read_both delay trace.now tables.now }
{
    BothRead {
        trace: trace_text::read_trace(trace, delay),
        rows: tables_text::read_tables(tables),
    }
}
