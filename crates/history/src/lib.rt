// No code: what a history of calls says, and the theorems about it, are in specs/ and proofs/.
#![tactic(auto)]
