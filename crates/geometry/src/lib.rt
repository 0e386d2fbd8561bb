// Where a spline passes through a box: what the search needs of geop-core-geometry, in modules named after its files.
#![tactic(auto)]

mod aabb;
pub mod answers;
pub mod call;
pub mod contains;
mod fat_line;
mod knot_insertion;
mod nurb_curve;
mod slots;
mod split;
mod subdivide;
mod vector;
mod visits;
pub mod zeros;
