// What the share call answers: how many of 1,000 unordered pairs commute. A division that leaves nothing out: quotient times divisor,
// and the remainder.
#[derive(Clone, Copy)]
pub struct Share {
    pub quotient: usize,
    pub remainder: usize,
    pub divisor: usize,
}
