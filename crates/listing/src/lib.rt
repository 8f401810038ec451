// What the column of an end lists for the stretches that end there and are not empty: the rows that may lower others on the same stretch,
// and the dots that hand on to longer ones. Starts that nothing touched are passed over.
#![tactic(auto)]

ghost use Rattle.std.specs.Option.{MatchOption};
ghost use Rattle.std.specs.Prelude.{true, false, List, ◌≡◌, ℕ, ◌+◌, ◌*◌, ◌<◌, ◌≤◌, length, get_or};
ghost use Rattle.sparse.specs.Cells.{Shape};
ghost use Rattle.sparse.specs.Steps.{Listed};
ghost use Rattle.sparse.specs.Column.{Vanishes, UnitsTo, Rows};
ghost use Rattle.listing.specs.Listing.{wake_added, hand_added, Idle, Rowed, Handing, Keeping, Sorted};

use chart::{AT_END, AT_SYMBOL, AT_TERMINAL, CODE_COLUMNS, CODE_GOES, CODE_OWNER, CODE_RULE, NONE};
use sparse::{
    EMPTIES, HAND_COUNT, HAND_ROWS, HANDS, LISTED, Stretch, UNITS, WAKE_COUNT, WAKES, empty_rest,
    is_last, wanted,
};
pub use starts::past_untouched;

mod starts;

// The use p, if nothing need follow it: its rule is flagged.
fn note_unit(code: &[u32], notes: &[u32], column: &mut [u32], size: usize, p: usize)
    requires { Shape code.now size × (length notes.now ≡ 2048) × (length column.old ≡ 3789) × (p < size) × UnitsTo code.now notes.now p column.old }
    ensures { UnitsTo code.now notes.now (p + 1) column.new }
{
    if code[CODE_COLUMNS * p] != AT_SYMBOL {
        return;
    }
    if empty_rest(code, notes, size, p + 1) == NONE {
        return;
    }
    let rule = text::wide(code[CODE_COLUMNS * p + CODE_RULE]);
    column[UNITS + rule] = 1;
}

// All uses.
pub fn note_units(code: &[u32], notes: &[u32], column: &mut [u32], size: usize)
    requires { Shape code.now size × (length notes.now ≡ 2048) × (length column.old ≡ 3789) }
    ensures { UnitsTo code.now notes.now size column.new }
{
    for p in 0..size {
        note_unit(code, notes, column, size, p);
    }
}

// Adds a row to those that wake.
fn add_wake(column: &mut [u32], x: usize)
    requires { (length column.old ≡ 3789) × (get_or column.old 2049 0 < 512) × (x < 512) }
    ensures { column.new ≡ wake_added column.old x }
{
    let count = text::wide(column[WAKE_COUNT]);
    column[WAKES + count] = x as u32;
    column[WAKE_COUNT] = count as u32 + 1;
}

// Adds a dot and its row to those that hand on.
fn add_hand(column: &mut [u32], x: usize, row: usize)
    requires { (length column.old ≡ 3789) × (get_or column.old 2050 0 < 512) × (x < 512) × (row < 512) }
    ensures { column.new ≡ hand_added column.old x row }
{
    let count = text::wide(column[HAND_COUNT]);
    column[HANDS + count] = x as u32;
    column[HAND_ROWS + count] = row as u32;
    column[HAND_COUNT] = count as u32 + 1;
}

// Whether what stands after the dot can take nothing.
fn vanishes(code: &[u32], notes: &[u32], size: usize, q: usize) -> bool
    requires { Shape code.now size × (length notes.now ≡ 2048) × (q < size) }
    ensures { result ≡ false → Vanishes code.now notes.now q → ⊥ }
{
    let kind = code[CODE_COLUMNS * q];
    if kind == AT_TERMINAL {
        return code[CODE_COLUMNS * q + CODE_GOES] == 0;
    }
    if kind != AT_SYMBOL {
        return false;
    }
    let rule = text::wide(code[CODE_COLUMNS * q + CODE_RULE]);
    notes[EMPTIES + rule] != NONE
}

// Whether the row x may lower others on its stretch: that of a rule, where nothing need follow a use of it; or that of a dot, where what
// stands before it can take nothing.
fn is_waking(code: &[u32], notes: &[u32], column: &[u32], size: usize, x: usize) -> bool
    requires { Shape code.now size × (length notes.now ≡ 2048) × (length column.now ≡ 3789) × (x < size) }
    ensures { (result ≡ true → Rowed code.now x)
        × (result ≡ false → UnitsTo code.now notes.now size column.now → Idle code.now notes.now size x) }
{
    if code[CODE_COLUMNS * x] == AT_END {
        return column[UNITS + x] != 0;
    }
    if code[CODE_COLUMNS * x + CODE_OWNER] != 0 || x == 0 || is_last(code, size, x) {
        return false;
    }
    vanishes(code, notes, size, x - 1)
}

// The listed dot k, if it wakes.
fn list_wake(code: &[u32], notes: &[u32], column: &mut [u32], size: usize, k: usize)
    requires { Shape code.now size × (length notes.now ≡ 2048) × (length column.old ≡ 3789) × (k < 512) × (get_or column.old k 0 < size) × (get_or column.old 2049 0 ≤ k) }
    ensures { ((M : List ℕ) (j : ℕ) → k < get_or column.old 512 0 → Sorted code.now M notes.now size j k k column.old
        → Sorted code.now M notes.now size j (k + 1) k column.new)
        × (get_or column.new 512 0 ≡ get_or column.old 512 0) }
{
    let x = text::wide(column[k]);
    if is_waking(code, notes, column, size, x) {
        add_wake(column, x);
    }
}

// The row by which the dot x hands on, if it does.
fn hand_row(code: &[u32], marks: &[u8], x: usize, s: Stretch) -> Option<usize>
    requires { Shape code.now s.size × (1536 * s.j.0 + 1536 ≤ length marks.now) × (s.j.0 ≤ 200) × (x < s.size) }
    ensures { MatchOption result (Keeping code.now marks.now s.j.0 x) (Handing code.now marks.now s.size s.j.0 x) }
{
    if code[CODE_COLUMNS * x] == AT_END || code[CODE_COLUMNS * x + CODE_OWNER] != 0 || x == 0 {
        return None;
    }
    if !is_last(code, s.size, x) {
        return Some(x);
    }
    let rule = text::wide(code[CODE_COLUMNS * x + CODE_RULE]);
    if wanted(marks, rule, s.j) {
        return Some(rule);
    }
    None
}

// The listed dot k, if it hands on.
fn list_hand(code: &[u32], marks: &[u8], column: &mut [u32], k: usize, s: Stretch)
    requires { Shape code.now s.size × (1536 * s.j.0 + 1536 ≤ length marks.now) × (s.j.0 ≤ 200) × (length column.old ≡ 3789) × (k < 512) × (get_or column.old k 0 < s.size)
        × (get_or column.old 2050 0 ≤ k) }
    ensures { ((F : List ℕ) → k < get_or column.old 512 0 → Sorted code.now marks.now F s.size s.j.0 (k + 1) k column.old
        → Sorted code.now marks.now F s.size s.j.0 (k + 1) (k + 1) column.new)
        × (get_or column.new 512 0 ≡ get_or column.old 512 0) }
{
    let x = text::wide(column[k]);
    if let Some(row) = hand_row(code, marks, x, s) {
        add_hand(column, x, row);
    }
}

// Lists the rows and dots that stretches which are not empty go by.
pub fn list_rows(code: &[u32], marks: &[u8], notes: &[u32], column: &mut [u32], s: Stretch)
    requires { Shape code.now s.size × (1536 * s.j.0 + 1536 ≤ length marks.now) × (length notes.now ≡ 2048) × (s.j.0 ≤ 200)
        × Listed code.now marks.now s.size s.j.0 column.old × UnitsTo code.now notes.now s.size column.old }
    ensures { Rows code.now marks.now s.size s.j.0 notes.now column.new }
{
    column[WAKE_COUNT] = 0;
    column[HAND_COUNT] = 0;
    for k in 0..text::wide(column[LISTED]) {
        list_wake(code, notes, column, s.size, k);
        list_hand(code, marks, column, k, s);
    }
}
