// The demands as theorems over the definitions of the calls: they stand in specs/ and proofs/.
#![tactic(auto)]
