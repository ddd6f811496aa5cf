// Rows before the first is read.
ghost use Rattle.std.specs.Prelude.{◌≡◌, []};
ghost use Rattle.rows.specs.Rows.{rows_of};

use flow::{Action, Entry, Exact, Key, Match, Prefix};
use rows::{Row, Rows};

// No rows.
pub fn no_rows() -> Rows
    ensures { (rows_of result ≡ []) × (result.len ≡ 0) }
{
    let all = Prefix {
        value: 0,
        length: 0,
    };
    let unused = Row {
        switch: 0,
        entry: Entry {
            key: Key {
                priority: 0,
                pattern: Match {
                    port: Exact::Any,
                    vlan: Exact::Any,
                    src: all,
                    dst: all,
                    proto: Exact::Any,
                    sport: Exact::Any,
                    dport: Exact::Any,
                },
            },
            action: Action::Drop,
        },
    };
    Rows {
        rows: [unused; 512],
        len: 0,
    }
}
