// solvers/subdivide.rs: the counts of a search.

// What a search has counted so far.
#[derive(Clone, Copy)]
pub struct Counts {
    // The pieces that were visited.
    pub visited: usize,
    // The cuts of all pieces that were cut down to a hat and handed on.
    pub cuts: usize,
    // The greatest depth of a piece that was visited: the halvings between it and the whole curve.
    pub depth: usize,
}

impl Counts {
    // Nothing counted.
    pub const NONE: Counts = Counts {
        visited: 0,
        cuts: 0,
        depth: 0,
    };
}
