// Where dots may stand on a record, and which rules are wanted to end where: the flags, and what the passes that set them share. The engine
// looks only at what is flagged.
#![tactic(auto)]

pub use lists::{DotList, homes, homes_from, list_dots, open_dots};
pub use work::{
    BEGINS, ENDS, HOME, OPEN, PLACE, Step, TAIL, WORK_LENGTH, collect, lift, raise, wake,
};

mod lists;
mod work;
