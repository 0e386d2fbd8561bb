// The sheet of an installation (request E13): how many questions came to what, and the exact sum of hi minus lo.
#![tactic(auto)]

pub mod asking;
mod sum;
