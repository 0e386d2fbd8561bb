// The definition of the search is in specs/. Of code there are only the types that it speaks of: the answer of a search, what a search
// counts, and by what something is refused.
#![tactic(auto)]

pub mod contains;
pub mod refusal;
pub mod subdivide;
