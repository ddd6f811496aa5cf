// What a checked add asks of an entry's key.
ghost use Rattle.std.specs.Prelude.{◌≡◌};
ghost use Rattle.flow_table.specs.FlowTable.{clash};

use flow::Key;

// The same priority, and overlapping matches.
pub fn clash(j: Key, k: Key) -> bool
    ensures { result ≡ clash j k }
{
    j.priority == k.priority && j.pattern.overlaps(k.pattern)
}
