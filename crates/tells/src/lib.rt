// A test and what it tells: a definition and its laws, no code.

#![tactic(auto)]
