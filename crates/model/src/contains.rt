// contains/curve.rs: the answer of a search.

use crate::refusal::Refusal;
use crate::subdivide::Counts;

// The answer to a call. Last in every case is what the search counted.
#[derive(Clone, Copy)]
pub enum Found {
    // Every piece was visited, and none was reported.
    Nothing(Counts),
    // Every piece was visited, and some were reported, all of them between two bounds: lo, hi.
    Enclosed(f64, f64, Counts),
    // The nodes were used up while pieces were left: so many.
    Spent(usize, Counts),
    // The call or the curve is refused.
    Refused(Refusal, Counts),
}
