// This crate holds mathematics and no code: the cases of crates/model's table that take longest. They stand above it, so that an edit of a
// definition there need not compute them.
#![tactic(auto)]
