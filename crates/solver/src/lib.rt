// This crate holds mathematics and no code: a solver for the identities of commutative rings, and that it is right. It defines nothing that a contract says.
#![tactic(auto)]
