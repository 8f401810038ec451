// The program's files and output: files in, and the bytes that it writes for an answer. No contract can say
// what the system reads; all that follows from the bytes read is proved.
#![tactic(auto)]

mod files;
mod output;

pub use files::{NamedFile, is_given, load, named};
pub use output::{show, show_long, show_unreadable};
