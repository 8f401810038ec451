// The order of a grammar's plain rules, and the numbers that it gives to dots and rules: definitions and laws.

#![tactic(auto)]
