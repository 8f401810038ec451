// The numbers of dots and rules in the code of the rules are those of the layout: definitions and laws.

#![tactic(auto)]
