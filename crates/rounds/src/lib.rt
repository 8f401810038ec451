// Reading in rounds: definitions and laws.

#![tactic(auto)]
