// What a step of the walk chooses from, in the filled part of a main table: the alternatives of a rule on a stretch, and the places where
// a symbol may end. Of each the first that is low enough, and whether another derives the stretch too.
#![tactic(auto)]

pub use alternatives::{find_alternative, other_alternative};
pub use end_search::{find_end, other_end};

mod alternatives;
mod end_search;

// An alternative's number and its first dot position.
#[derive(Clone, Copy)]
pub struct Alternative {
    pub number: usize,
    pub place: usize,
}
