// The chosen reading of a record by the quick engine: the passes; then the engine and the walk.
#![tactic(auto)]

ghost use Rattle.std.specs.Prelude.{◌≡◌, ◌*◌, ◌≤◌, length};
ghost use Rattle.text.specs.Limits.{reading_numbers};
ghost use Rattle.chart.specs.Heights.{stretches};
ghost use Rattle.quick_reading.specs.Readable.{Flaggable, Passed, Staged, Tries, is_answer, is_refused};

use reading::{Found, Root, Unread};
use text::CharPlace;

// Both passes: the engine goes by what they flag, and so does the search for the fault. False: the root's rule does not reach the record's end.
pub fn flag(table: &[u32], text: &[u32], code: &[u32], marks: &mut [u8], root: Root) -> bool
    requires { Flaggable table.now code.now text.now marks.old root.size root.rule.name root.rule.first }
    ensures { Passed table.now code.now text.now root.size root.rule.name root.rule.first marks.new result }
{
    let size = root.size;
    let top = root.rule.name;
    if !left_pass::left(table, text, code, marks, size, top) {
        return false;
    }
    right_pass::right(table, text, code, marks, size, top);
    true
}

// What the walk answers; none where the engine stopped, since the record is likely to have no reading. It stops at a doubt only if it may.
// The left parse goes to `parse`.
pub fn attempt(
    code: &[u32],
    marks: &[u8],
    notes: &[u32],
    main: &mut [u32],
    root: Root,
    parse: &mut [u32],
    stops: bool,
) -> Option<Result<Found, Unread>>
    requires { Staged code.now marks.now notes.now root.size root.n.0 root.rule.name root.rule.first
        × (root.size * stretches root.n.0 ≤ length main.old) × (reading_numbers ≤ length parse.old) }
    ensures { (t : Staged code.now marks.now notes.now root.size root.n.0 root.rule.name root.rule.first)
        → Tries stops t.g t.r parse.new result }
{
    if !quick::fill(code, marks, notes, root.size, root.n, main, stops) {
        return None;
    }
    Some(chooser::walk(code, marks, notes, main, root, parse))
}

// Whether what was tried is an answer: a reading, or one that is too long.
pub fn is_answer(tried: Option<Result<Found, Unread>>) -> bool
    ensures { result ≡ is_answer tried }
{
    !matches!(tried, None | Some(Err(Unread::NoReading)))
}

// Whether what is no answer says that there is no reading: the walk did; or the fault is at a place before the record's end, n.
pub fn is_refused(tried: Option<Result<Found, Unread>>, place: CharPlace, n: usize) -> bool
    ensures { result ≡ is_refused tried place n }
{
    match tried {
        Some(_) => true,
        None => place.0 < n,
    }
}
