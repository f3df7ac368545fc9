// No code: the definitions and laws that every other crate stands on are in specs/ and proofs/.
#![tactic(auto)]
