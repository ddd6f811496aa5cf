// The four counts that the list call answers.
#[derive(Clone, Copy)]
pub struct Counts {
    pub pairs: usize,
    pub ordered: usize,
    pub commuting: usize,
    pub listed: usize,
}
