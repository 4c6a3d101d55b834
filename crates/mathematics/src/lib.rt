// Definitions and laws only: bounded sums, tests and joins, and the order theorem of a production week. They stand in specs/ and proofs/.
#![tactic(auto)]
