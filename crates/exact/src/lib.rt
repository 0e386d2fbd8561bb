// Mathematics over the fractions, with no code: specs/ has the definitions, proofs/ their laws.
#![tactic(auto)]
