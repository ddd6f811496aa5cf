// Orders end to end.
ghost use Rattle.std.specs.Prelude.{◌≡◌};
ghost use Rattle.order_trials.specs.Trials.{order_count, uneven};

// How many orders of n events so many bytes are; none of no events.
pub fn order_count(n: usize, len: usize) -> usize
    ensures { result ≡ order_count n len }
{
    if n == 0 {
        return 0;
    }
    len / n
}

// So many bytes are no whole number of orders.
pub fn is_uneven(n: usize, len: usize) -> bool
    ensures { result ≡ uneven n len }
{
    let m = order_count(n, len);
    m * n != len
}
