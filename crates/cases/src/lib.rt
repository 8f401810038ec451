// Worked examples only: see specs/ and proofs/.

#![tactic(auto)]
