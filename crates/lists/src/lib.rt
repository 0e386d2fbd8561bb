// This crate holds mathematics and no code: parts of a list, writes to them, and their laws.
#![tactic(auto)]
