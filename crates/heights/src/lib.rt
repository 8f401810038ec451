// Least heights in a table: what a table gives a cell, steps that lower cells, and that a table which no step lowers has the least heights.
// Definitions and laws, for every engine that fills the main table.

#![tactic(auto)]
