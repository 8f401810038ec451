// Whether a list of numbers, whoever made it, names a derivation of a record; with no recursion, and two numbers for each entry.
#![tactic(auto)]

ghost use Rattle.std.specs.Prelude.{◌≡◌, ◌≤◌, length};
ghost use Rattle.items.specs.Items.{kind_at};
ghost use Rattle.left_parse.specs.Walk.{Over};
ghost use Rattle.judge.specs.Tracks.{SomeTracks, Steps, Walked, Asked, Judged};

use left_parse::Position;
use text::CharPlace;

// The kinds of items that a walk tells apart.
const TERMINAL: usize = items::TERMINAL as usize;

const ALTERNATIVE_END: usize = items::ALTERNATIVE_END as usize;

// What is noted of an entry: two numbers, the second its place.
const NOTE_PLACE: usize = 1;

// A step over a terminal that fits: where the walk stands then; nothing, if the list names no derivation.
fn on_terminal(
    table: &[u32],
    list: &[u32],
    record: &[u32],
    scratch: &[u64],
    h: Position,
) -> Option<Position>
    requires { (kind_at table.now h.item ≡ 1) × SomeTracks table.now list.now «record».now scratch.now h }
    ensures { Steps table.now list.now «record».now scratch.now scratch.now h result }
{
    let token = items::token_at(table, h.item);
    let place = h.place;
    if terminals::terminal_fits(table, token, record, place) {
        return Some(left_parse::skip(table, h));
    }
    None
}

// A step into a node, by the alternative that the list has next.
fn on_node(
    table: &[u32],
    list: &[u32],
    record: &[u32],
    scratch: &mut [u64],
    h: Position,
) -> Option<Position>
    requires { (2 ≤ kind_at table.now h.item) × (kind_at table.now h.item ≤ 4) × SomeTracks table.now list.now «record».now scratch.old h }
    ensures { Steps table.now list.now «record».now scratch.old scratch.new h result }
{
    if h.entry < list.len() {
        let a = tokens::look(list, h.entry);
        let x = items::target_at(table, h.item);
        if left_parse::has_alternative(table, x, a) {
            return Some(left_parse::enter(table, list, scratch, h));
        }
    }
    None
}

fn step(
    table: &[u32],
    list: &[u32],
    record: &[u32],
    scratch: &mut [u64],
    h: Position,
) -> Option<Position>
    requires { (Over table.now h → ⊥) × SomeTracks table.now list.now «record».now scratch.old h }
    ensures { Steps table.now list.now «record».now scratch.old scratch.new h result }
{
    let k = items::kind_at(table, h.item);
    if k == TERMINAL {
        return on_terminal(table, list, record, scratch, h);
    }
    if k < ALTERNATIVE_END {
        return on_node(table, list, record, scratch, h);
    }
    Some(left_parse::leave(scratch, h))
}

// From the first entry's children on: whether list and record are used up.
fn walk(table: &[u32], list: &[u32], record: &[u32], scratch: &mut [u64], first: Position) -> bool
    requires { (1 ≤ length list.now) × SomeTracks table.now list.now «record».now scratch.old first }
    ensures { Walked table.now list.now «record».now scratch.old scratch.new first result }
{
    let mut h = first;
    while left_parse::more(table, h) {
        let Some(n) = step(table, list, record, scratch, h) else {
            return false;
        };
        h = n;
    }
    let end = h.place;
    if list.len() > h.entry {
        return false;
    }
    if end.0 < record.len() {
        return false;
    }
    scratch[0] = h.entry as u64;
    scratch[NOTE_PLACE] = end.0 as u64;
    true
}

// Whether a list names a derivation of the record, by the rules in the table. Then every entry is noted.
pub fn judge_list(
    table: &[u32],
    root: usize,
    list: &[u32],
    record: &[u32],
    scratch: &mut [u64],
) -> bool
    requires { Asked table.now root list.now «record».now scratch.old }
    ensures { Judged table.now root list.now «record».now scratch.new result }
{
    if list.len() == 0 {
        return false;
    }
    let a = tokens::look(list, 0);
    if left_parse::has_alternative(table, root, a) {
        let item = left_parse::alternative(table, root, a);
        let first = Position {
            item,
            entry: 1,
            place: CharPlace(0),
            inner: 0,
        };
        return walk(table, list, record, scratch, first);
    }
    false
}
