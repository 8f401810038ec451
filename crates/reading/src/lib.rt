// The chosen reading, taken from the filled part of a main table, and whether there is a second derivation.
//
// The walk goes through the chosen derivation from its root, in the order of the left parse. The part has the least height of each rule
// and of each rest of an alternative where a derivation may need it, so each choice is a search in it: at a node the earliest alternative
// of the least height, at a symbol the smallest end place that lets the rest of its row derive what is left. First dots of alternatives
// have no cells: their heights are computed from what stands after them. Rows that are not finished wait on a stack.
// The reading is ambiguous where another alternative or another end place, of whatever height, derives the same stretch.
#![tactic(auto)]

ghost use Rattle.std.specs.Prelude.{◌≡◌, true, false, ◌+◌, ◌*◌, ◌<◌, ◌≤◌, length};
ghost use Rattle.chart.specs.Code.{next_kind};
ghost use Rattle.text.specs.Limits.{reading_numbers};
ghost use Rattle.reading.specs.Walk.{pushed, popped, counted, Entered, Stepped, CanEnter, CanStep, Over};
ghost use Rattle.reading.specs.Answer.{Finished, Given, Answers};

use candidates::{find_alternative, find_end, other_alternative, other_end};
use chart::{CODE_COLUMNS, CODE_GOES, CODE_RULE, NONE};
use sparse::{Stretch, rule_height};
use splits::{AFTER_ALTERNATIVE, BEFORE_TERMINAL, number_at};
use text::{CharPlace, limits};

// A reading: how many numbers its left parse has, and whether a second derivation exists.
#[derive(Clone, Copy)]
pub struct Found {
    pub count: usize,
    pub ambiguous: bool,
}

// Why the walk finds none: more numbers than a reading may have, or the root does not derive the record.
#[derive(Clone, Copy)]
pub enum Unread {
    TooLong,
    NoReading,
}

// The root's rule, of a grammar with `size` dots, and the end of the record.
#[derive(Clone, Copy)]
pub struct Root {
    pub size: usize,
    pub n: CharPlace,
    pub rule: Rule,
}

// A rule: the end that names it, and its first position.
#[derive(Clone, Copy)]
pub struct Rule {
    pub name: usize,
    pub first: usize,
}

// Where the walk stands. The symbols after the dot position p derive the characters from i to j, in trees of heights at most k.
// The tables are those of a grammar with `size` dots and a record that ends at n. Written are `at` numbers, `depth` rows wait on the
// stack, and the mark tells whether another derivation was met.
#[derive(Clone, Copy)]
pub struct Cursor {
    pub size: usize,
    pub n: CharPlace,
    pub p: usize,
    pub i: CharPlace,
    pub j: CharPlace,
    pub k: u32,
    pub at: usize,
    pub depth: usize,
    pub mark: bool,
}

// A row on the stack: where it goes on, the place that it goes to, and the height of its trees at most.
pub const STACK_COLUMNS: usize = 3;

const STACK_PLACE: usize = 1;

const STACK_HEIGHT: usize = 2;

// Puts a row on the stack: it goes on at p, to the place j, with heights at most k.
fn push(stack: &mut [u32], depth: usize, p: usize, j: CharPlace, k: u32)
    requires { (3 * depth + 2 < length stack.old) × ((p < 4294967296) × (j.0 < 4294967296)) }
    ensures { stack.new ≡ pushed stack.old depth p j.0 k }
{
    let b = STACK_COLUMNS * depth;
    stack[b] = p as u32;
    stack[b + STACK_PLACE] = j.0 as u32;
    stack[b + STACK_HEIGHT] = k;
}

// At the end of a row: goes on with the row that was put on the stack last.
fn pop(stack: &[u32], h: Cursor) -> Cursor
    requires { (0 < h.depth) × (3 * h.depth ≤ length stack.now) }
    ensures { result ≡ popped stack.now h }
{
    let depth = h.depth - 1;
    let b = STACK_COLUMNS * depth;
    let p = number_at(stack, b);
    let j = CharPlace(number_at(stack, b + STACK_PLACE));
    let i = h.j;
    Cursor {
        p,
        i,
        j,
        k: stack[b + STACK_HEIGHT],
        depth,
        ..h
    }
}

// A number that has no room is counted, and not written.
fn count_only(h: Cursor) -> Cursor
    requires { h.at ≤ reading_numbers }
    ensures { result ≡ counted h }
{
    Cursor { at: h.at + 1, ..h }
}

// Enters a node of the rule on the cursor's stretch: chooses the alternative and writes its number, if there is room.
fn enter(
    code: &[u32],
    marks: &[u8],
    notes: &[u32],
    main: &[u32],
    rule: Rule,
    out: &mut [u32],
    h: Cursor,
) -> Cursor
    requires { CanEnter code.now marks.now notes.now h.size h.n.0 main.now rule.name rule.first out.old h }
    ensures { Entered code.now marks.now notes.now h.size h.n.0 main.now rule.name rule.first
        out.old out.new h result }
{
    let at = h.at;
    let i = h.i;
    let j = h.j;
    if limits::READING_NUMBERS <= at {
        return count_only(h);
    }
    let size = h.size;
    let n = h.n;
    let s = Stretch { size, n, i, j };
    let k = rule_height(marks, notes, main, rule.name, s);
    let a = find_alternative(code, marks, notes, main, rule.first, s, k);
    let other = other_alternative(code, marks, notes, main, rule.first, s, a.number);
    out[at] = a.number as u32;
    Cursor {
        p: a.place,
        k,
        at: at + 1,
        mark: h.mark | other,
        ..h
    }
}

// At a symbol with alternatives: finds where it ends, puts the rest of its row on the stack, and enters its node.
fn descend(
    code: &[u32],
    marks: &[u8],
    notes: &[u32],
    main: &[u32],
    out: &mut [u32],
    stack: &mut [u32],
    h: Cursor,
) -> Cursor
    requires { CanStep code.now marks.now notes.now h.size h.n.0 main.now out.old stack.old h × (next_kind code.now h.p ≡ 2) }
    ensures { Stepped code.now marks.now notes.now h.size h.n.0 main.now
        out.old out.new stack.old stack.new h result }
{
    let p = h.p;
    let rule = Rule {
        name: number_at(code, CODE_COLUMNS * p + CODE_RULE),
        first: number_at(code, CODE_COLUMNS * p + CODE_GOES),
    };
    let size = h.size;
    let n = h.n;
    let i = h.i;
    let j = h.j;
    let s = Stretch { size, n, i, j };
    let m = find_end(code, marks, notes, main, p, s, h.k);
    let elsewhere = other_end(code, marks, notes, main, p, s, m);
    push(stack, h.depth, p + 1, j, h.k);
    let inner = Cursor {
        j: m,
        depth: h.depth + 1,
        mark: h.mark | elsewhere,
        ..h
    };
    enter(code, marks, notes, main, rule, out, inner)
}

// One step of the walk: past the end of a row, past a terminal, or into a node.
fn step(
    code: &[u32],
    marks: &[u8],
    notes: &[u32],
    main: &[u32],
    out: &mut [u32],
    stack: &mut [u32],
    h: Cursor,
) -> Cursor
    requires { CanStep code.now marks.now notes.now h.size h.n.0 main.now out.old stack.old h }
    ensures { Stepped code.now marks.now notes.now h.size h.n.0 main.now
        out.old out.new stack.old stack.new h result }
{
    let p = h.p;
    let kind = number_at(code, CODE_COLUMNS * p);
    if kind == AFTER_ALTERNATIVE {
        return pop(stack, h);
    }
    if kind == BEFORE_TERMINAL {
        let wide = number_at(code, CODE_COLUMNS * p + CODE_GOES);
        let i = CharPlace(h.i.0 + wide);
        return Cursor { p: p + 1, i, ..h };
    }
    descend(code, marks, notes, main, out, stack, h)
}

// Whether there is a step to take: the numbers are not too many, and a symbol or a row on the stack is left.
fn more(code: &[u32], h: Cursor) -> bool
    requires { h.at ≤ 4096 → 4 * h.p < length code.now }
    ensures { (result ≡ true → (h.at ≤ 4096) × (Over code.now h → ⊥)) × (result ≡ false → Over code.now h) }
{
    let p = h.p;
    if limits::READING_NUMBERS < h.at {
        return false;
    }
    if number_at(code, CODE_COLUMNS * p) != AFTER_ALTERNATIVE {
        return true;
    }
    if h.depth == 0 {
        return false;
    }
    true
}

// The chosen reading of a record by the grammar whose root's rule is given. `marks` tells where dots and rules may stand, `notes` has
// what is noted of the rules. `out` takes the numbers of the left parse, `stack` three numbers for each row that waits.
pub fn walk(
    code: &[u32],
    marks: &[u8],
    notes: &[u32],
    main: &[u32],
    root: Root,
    out: &mut [u32],
    stack: &mut [u32],
) -> Result<Found, Unread>
    requires { Given code.now marks.now notes.now main.now out.old stack.old root.size root.n.0 root.rule.name root.rule.first }
    ensures { (t : Finished code.now marks.now notes.now main.now root.size root.n.0 root.rule.name root.rule.first)
        → Answers t.g t.r out.new result }
{
    let size = root.size;
    let end = root.n.0;
    let top = root.rule.name;
    let first = root.rule.first;
    let n = CharPlace(end);
    let i = CharPlace(0);
    if rule_height(marks, notes, main, top, Stretch { size, n, i, j: n }) == NONE {
        return Err(Unread::NoReading);
    }
    let start = Cursor {
        size,
        n,
        p: first,
        i,
        j: n,
        k: 0,
        at: 0,
        depth: 0,
        mark: false,
    };
    let rule = Rule { name: top, first };
    let mut h = enter(code, marks, notes, main, rule, out, start);
    while more(code, h) {
        h = step(code, marks, notes, main, out, stack, h);
    }
    if limits::READING_NUMBERS < h.at {
        return Err(Unread::TooLong);
    }
    Ok(Found {
        count: h.at,
        ambiguous: h.mark,
    })
}
