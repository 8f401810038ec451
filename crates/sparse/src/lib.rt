// The part of the main table that is filled: its rows, and the heights that are read off it.
#![tactic(auto)]

ghost use Rattle.std.specs.Prelude.{◌≡◌, ℕ, ◌+◌, ◌*◌, ◌<◌, ◌≤◌, List, leb, length};
ghost use Rattle.chart.specs.Heights.{cell_at, stretches, none};
ghost use Rattle.heights.specs.Table.{up_of};
ghost use Rattle.reach.specs.Flags.{dot_at, end_at};
ghost use Rattle.sparse.specs.Cells.{is_last, row_of, empty_rest, rule_of, wide_rest, rest_of, Shape, Tables, Reads};
ghost use Rattle.sparse.specs.Steps.{over_of, Lowered};

use chart::{
    AT_END, AT_SYMBOL, AT_TERMINAL, CODE_COLUMNS, CODE_GOES, CODE_OWNER, CODE_RULE, NONE, cell,
};
use text::CharPlace;

// What is noted of the rules: their uses, then the rule of each dot, then the heights of empty stretches.
pub const HOMES: usize = chart::USES_LENGTH;

pub const EMPTIES: usize = HOMES + text::limits::GRAMMAR_SIZE;

pub const NOTES: usize = EMPTIES + text::limits::GRAMMAR_SIZE;

// The flags of all places.
pub const MARKS: usize = reach::PLACE * (text::limits::RECORD_CHARACTERS + 1);

// The column of a place: the dots of rules that are wanted there, and their count. For stretches that are not empty: the rows that may lower
// others on the same stretch; the dots that hand on to longer ones, and the row of each; the counts of both. A flag for each rule of which
// a use may stand last. A flag for each place before; for each row from which start on its cells are low, and how low; and up to which start
// every flag is set.
pub const LISTED: usize = text::limits::GRAMMAR_SIZE;

pub const WAKES: usize = LISTED + 1;

pub const HANDS: usize = WAKES + text::limits::GRAMMAR_SIZE;

pub const HAND_ROWS: usize = HANDS + text::limits::GRAMMAR_SIZE;

pub const WAKE_COUNT: usize = HAND_ROWS + text::limits::GRAMMAR_SIZE;

pub const HAND_COUNT: usize = WAKE_COUNT + 1;

pub const UNITS: usize = HAND_COUNT + 1;

pub const TOUCHED: usize = UNITS + text::limits::GRAMMAR_SIZE;

pub const LEVELS: usize = TOUCHED + text::limits::RECORD_CHARACTERS + 1;

pub const LOW_FROM: usize = LEVELS + text::limits::GRAMMAR_SIZE;

pub const FULL: usize = LOW_FROM + text::limits::GRAMMAR_SIZE;

pub const COLUMN: usize = FULL + 1;

const REACHED: u8 = 1;

const FITS: u8 = 2;

const WANTED: u8 = 2;

// The characters from place i to place j, of a record that ends at n, in the table of a grammar with `size` dots.
#[derive(Clone, Copy)]
pub struct Stretch {
    pub size: usize,
    pub n: CharPlace,
    pub i: CharPlace,
    pub j: CharPlace,
}

// A dot, and a height of what stands after it.
#[derive(Clone, Copy)]
pub struct Offer {
    pub dot: usize,
    pub height: u32,
}

// Whether the dot p may stand at the place i.
pub fn reached(marks: &[u8], p: usize, i: CharPlace) -> bool
    requires { (1536 * i.0 + 1536 ≤ length marks.now) × (p < 512) × (i.0 ≤ 200) }
    ensures { result ≡ leb 1 (dot_at marks.now p i.0) }
{
    REACHED <= marks[reach::PLACE * i.0 + p]
}

// Whether it may, and no terminal stands after it that does not fit.
pub fn fits(marks: &[u8], p: usize, i: CharPlace) -> bool
    requires { (1536 * i.0 + 1536 ≤ length marks.now) × (p < 512) × (i.0 ≤ 200) }
    ensures { result ≡ leb 2 (dot_at marks.now p i.0) }
{
    FITS <= marks[reach::PLACE * i.0 + p]
}

// Whether the rule is wanted to end at j.
pub fn wanted(marks: &[u8], rule: usize, j: CharPlace) -> bool
    requires { (1536 * j.0 + 1536 ≤ length marks.now) × (rule < 512) × (j.0 ≤ 200) }
    ensures { result ≡ leb 2 (end_at marks.now rule j.0) }
{
    WANTED <= marks[reach::PLACE * j.0 + (reach::ENDS + rule)]
}

// One more, the height of a node over a child of the height h.
pub fn up(h: u32) -> u32
    ensures { result ≡ up_of h }
{
    h.saturating_add(1)
}

// Whether p stands before the last symbol of an alternative, and is not its first dot.
#[tactic(auto, unfolding(crate::specs::Cells::is_last))]
pub fn is_last(code: &[u32], size: usize, p: usize) -> bool
    requires { Shape code.now size × (p < size) }
    ensures { result ≡ is_last code.now p }
{
    code[CODE_COLUMNS * p] == AT_SYMBOL
        && code[CODE_COLUMNS * (p + 1)] == AT_END
        && code[CODE_COLUMNS * p + CODE_OWNER] == 0
}

// The row that the value of p lowers.
pub fn row(code: &[u32], size: usize, p: usize) -> usize
    requires { Shape code.now size × (p < size) }
    ensures { (result ≡ row_of code.now p) × (result < size) }
{
    let owner = text::wide(code[CODE_COLUMNS * p + CODE_OWNER]);
    if owner == 0 {
        return p;
    }
    owner - 1
}

// The height of the rule on the stretch.
pub fn rule_height(marks: &[u8], notes: &[u32], main: &[u32], rule: usize, s: Stretch) -> u32
    requires { Reads marks.now notes.now s.size s.n.0 (length main.now) × (rule < s.size) × (s.i.0 ≤ s.j.0) × (s.j.0 ≤ s.n.0) }
    ensures { (c : List ℕ) → result ≡ rule_of c marks.now notes.now s.n.0 main.now rule s.i.0 s.j.0 }
{
    if s.i.0 == s.j.0 {
        return notes[EMPTIES + rule];
    }
    if !wanted(marks, rule, s.j) {
        return NONE;
    }
    let x = cell(s.n.0, rule, s.i.0, s.j.0);
    main[x]
}

// That of what stands after p, on an empty stretch.
pub fn empty_rest(code: &[u32], notes: &[u32], size: usize, p: usize) -> u32
    requires { Shape code.now size × (length notes.now ≡ 2048) × (p < size) }
    ensures { result ≡ empty_rest code.now notes.now p }
{
    if code[CODE_COLUMNS * p] == AT_END {
        return 0;
    }
    notes[EMPTIES + p]
}

// On another, where p is no end.
fn wide_rest(code: &[u32], marks: &[u8], notes: &[u32], main: &[u32], p: usize, s: Stretch) -> u32
    requires { Tables code.now marks.now notes.now s.size s.n.0 (length main.now) × (p < s.size) × (s.i.0 ≤ s.j.0) × (s.j.0 ≤ s.n.0) }
    ensures { result ≡ wide_rest code.now marks.now notes.now s.n.0 main.now p s.i.0 s.j.0 }
{
    if is_last(code, s.size, p) {
        let rule = text::wide(code[CODE_COLUMNS * p + CODE_RULE]);
        return up(rule_height(marks, notes, main, rule, s));
    }
    if !wanted(marks, text::wide(notes[HOMES + p]), s.j) {
        return NONE;
    }
    let x = cell(s.n.0, p, s.i.0, s.j.0);
    main[x]
}

// The height of what stands after p, which begins no alternative.
pub fn rest_height(
    code: &[u32],
    marks: &[u8],
    notes: &[u32],
    main: &[u32],
    p: usize,
    s: Stretch,
) -> u32
    requires { Tables code.now marks.now notes.now s.size s.n.0 (length main.now) × (p < s.size) × (s.i.0 ≤ s.j.0) × (s.j.0 ≤ s.n.0) }
    ensures { result ≡ rest_of code.now marks.now notes.now s.n.0 main.now p s.i.0 s.j.0 }
{
    if s.i.0 == s.j.0 {
        return empty_rest(code, notes, s.size, p);
    }
    if code[CODE_COLUMNS * p] == AT_END {
        return NONE;
    }
    if !reached(marks, p, s.i) {
        return NONE;
    }
    wide_rest(code, marks, notes, main, p, s)
}

// The height of p, where v is that of what stands after its symbol, and that symbol takes no character at i; else none.
pub fn over(
    code: &[u32],
    marks: &[u8],
    notes: &[u32],
    size: usize,
    p: usize,
    v: u32,
    i: CharPlace,
) -> u32
    requires { Shape code.now size × (length notes.now ≡ 2048) × (1536 * i.0 + 1536 ≤ length marks.now) × (p < size) × (i.0 ≤ 200) × (v < none) }
    ensures { result ≡ over_of code.now marks.now notes.now p i.0 v }
{
    if !reached(marks, p, i) {
        return NONE;
    }
    let kind = code[CODE_COLUMNS * p];
    if kind == AT_TERMINAL {
        if code[CODE_COLUMNS * p + CODE_GOES] != 0 {
            return NONE;
        }
        if fits(marks, p, i) {
            return v;
        }
        return NONE;
    }
    if kind != AT_SYMBOL {
        return NONE;
    }
    let rule = text::wide(code[CODE_COLUMNS * p + CODE_RULE]);
    up(notes[EMPTIES + rule]).max(v)
}

// Lowers the cell of the row y to v if v is less, and tells whether.
pub fn lower(main: &mut [u32], y: usize, s: Stretch, v: u32) -> bool
    requires { (s.size ≤ 512) × (s.n.0 ≤ 200) × (s.size * stretches s.n.0 ≤ length main.old) × (y < s.size) × (s.i.0 ≤ s.j.0) × (s.j.0 ≤ s.n.0) }
    ensures { Lowered main.old (cell_at s.n.0 y s.i.0 s.j.0) v result main.new }
{
    let x = cell(s.n.0, y, s.i.0, s.j.0);
    if v < main[x] {
        main[x] = v;
        return true;
    }
    false
}
