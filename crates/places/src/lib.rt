// The places in a grammar's text that refusals 5 to 10 carry: definitions and laws, see specs/ and proofs/.

#![tactic(auto)]
