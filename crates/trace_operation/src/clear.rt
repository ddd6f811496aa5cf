// Whether no address bit of an operation stands past its prefix.
ghost use Rattle.std.specs.Prelude.{◌≡◌};
ghost use Rattle.trace_operation.specs.Operations.{clear_carried, clear_operation};

use flow_table::{Carried, Operation, carried_by};

fn clear_carried(c: Carried) -> bool
    ensures { result ≡ clear_carried c }
{
    match c {
        Carried::Packet(_) => true,
        Carried::Entry(e) => e.key.pattern.is_clear(),
        Carried::Key(k) => k.pattern.is_clear(),
        Carried::Match(m) => m.is_clear(),
    }
}

pub fn clear_operation(o: Operation) -> bool
    ensures { result ≡ clear_operation o }
{
    match o {
        Operation::Other | Operation::Barrier(_) | Operation::Message(_) => true,
        Operation::Table(_, t) => clear_carried(carried_by(t)),
    }
}
