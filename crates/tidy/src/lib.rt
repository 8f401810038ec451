// The tidy layout of a grammar: definitions and laws, see specs/ and proofs/.

#![tactic(auto)]
