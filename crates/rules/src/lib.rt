// No code: theorems about the pool's definitions are in specs/ and proofs/.
#![tactic(auto)]
