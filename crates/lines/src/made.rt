// A card in the making. Each section stands where it would begin in the largest card, so that it can grow.

// How many there are of each part so far, where the start's plan starts in the pool and how long it is; and whether anything is too
// large for its field, or more than edition 1 allows: a flag, for reading goes on, since 18 of a later line comes before 25.
#[derive(Clone, Copy, Default)]
pub struct Made {
    pub large: bool,
    pub atoms: usize,
    pub weights: usize,
    pub nodes: usize,
    pub specifications: usize,
    pub selections: usize,
    pub revisions: usize,
    pub pool: usize,
    pub start: usize,
    pub len: usize,
}
