// The arithmetic of the search: intervals of f64 that are rounded outward, bounds rounded toward their own side, and the square root.
#![tactic(auto)]

pub mod bounds;
pub mod digits;
pub mod directed;
pub mod floats;
pub mod revision;
pub mod root;
pub mod scalars;
