// Which operations a barrier of their switch orders, and which a switch handles.
ghost use Rattle.std.specs.Prelude.{◌≡◌};
ghost use Rattle.flow_table.specs.Switches.{switch_of};
ghost use Rattle.trace_events.specs.Events.{is_barrier, is_message, barrier_orders, is_handled};

use flow_table::{Operation, Origin, TableOperation};

// The switch of an operation; 0 of `oth`, which has none.
pub fn switch_of(o: Operation) -> u8
    ensures { result ≡ switch_of o }
{
    match o {
        Operation::Other => 0,
        Operation::Barrier(w) | Operation::Message(w) | Operation::Table(w, _) => w,
    }
}

pub fn is_barrier(o: Operation) -> bool
    ensures { result ≡ is_barrier o }
{
    matches!(o, Operation::Barrier(_))
}

// A write, or a packet sent out.
fn is_message(o: TableOperation) -> bool
    ensures { result ≡ is_message o }
{
    !matches!(o, TableOperation::Packet(Origin::Received, _))
}

// Among writes, `bar`, `msg` and `pout`.
pub fn barrier_orders(o: Operation) -> bool
    ensures { result ≡ barrier_orders o }
{
    match o {
        Operation::Other => false,
        Operation::Barrier(_) | Operation::Message(_) => true,
        Operation::Table(_, t) => is_message(t),
    }
}

// All but `oth`.
pub fn is_handled(o: Operation) -> bool
    ensures { result ≡ is_handled o }
{
    !matches!(o, Operation::Other)
}
