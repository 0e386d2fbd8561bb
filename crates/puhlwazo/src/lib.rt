// The search for callers in C and in Rust: numbers and slices only. crates/puhlwazo_c exports the same functions, and
// puhlwazo.h declares them.
#![tactic(auto)]

mod answers;
pub mod curve;
pub mod short_arm;
