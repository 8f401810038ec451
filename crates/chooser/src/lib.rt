// What both ways to choose a reading share: what they are given, and the walk with a stack of its own.
#![tactic(auto)]

ghost use Rattle.std.specs.Prelude.{◌≤◌, length};
ghost use Rattle.text.specs.Limits.{reading_numbers};
ghost use Rattle.reading.specs.Answer.{Finished, Answers};

use reading::{Found, Root, Unread};

// The stack of the walk: three numbers for each of a reading's. It takes 49,152 bytes.
const STACK_LENGTH: usize = reading::STACK_COLUMNS * text::limits::READING_NUMBERS;

pub fn walk(
    code: &[u32],
    marks: &[u8],
    notes: &[u32],
    main: &[u32],
    root: Root,
    parse: &mut [u32],
) -> Result<Found, Unread>
    requires { Finished code.now marks.now notes.now main.now root.size root.n.0 root.rule.name root.rule.first × (reading_numbers ≤ length parse.old) }
    ensures { (t : Finished code.now marks.now notes.now main.now root.size root.n.0 root.rule.name root.rule.first)
        → Answers t.g t.r parse.new result }
{
    let mut stack = [0u32; STACK_LENGTH];
    reading::walk(code, marks, notes, main, root, parse, &mut stack)
}
