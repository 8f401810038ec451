// The least heights of empty stretches, which are the same at every place: of each rule, and of what stands after each dot.
#![tactic(auto)]

ghost use Rattle.std.specs.Prelude.{◌≡◌, ℕ, ◌<◌, ◌≤◌, length, get_or};
ghost use Rattle.reach.specs.Lists.{HomesFrom};
ghost use Rattle.sparse.specs.Cells.{Shape, Noted};
ghost use Rattle.sparse.specs.Steps.{Empties};
ghost use Rattle.empties.specs.Empty.{offer_of, Done, Moved, Eased, Cleared, Found};

use chart::{
    AT_END, AT_SYMBOL, AT_TERMINAL, CODE_COLUMNS, CODE_GOES, CODE_OWNER, CODE_RULE, NONE,
    USE_COLUMNS, list_uses,
};
use sparse::{EMPTIES, HOMES, empty_rest, up};

// The rule of each dot.
fn note_homes(code: &[u32], notes: &mut [u32], size: usize)
    requires { Shape code.now size × (length notes.old ≡ 2048) }
    ensures { HomesFrom code.now size 1024 notes.old notes.new }
{
    reach::homes_from(code, size, notes, HOMES);
}

// The height of the dot p, by what is known of the dot after it and of its symbol's rule.
fn offer(code: &[u32], notes: &[u32], size: usize, p: usize) -> u32
    requires { Shape code.now size × (length notes.now ≡ 2048) × (p < size) }
    ensures { result ≡ offer_of code.now notes.now p }
{
    let kind = code[CODE_COLUMNS * p];
    if kind == AT_END {
        return 0;
    }
    let b = empty_rest(code, notes, size, p + 1);
    if kind == AT_TERMINAL {
        if code[CODE_COLUMNS * p + CODE_GOES] == 0 {
            return b;
        }
        return NONE;
    }
    if kind != AT_SYMBOL {
        return NONE;
    }
    let rule = text::wide(code[CODE_COLUMNS * p + CODE_RULE]);
    up(notes[EMPTIES + rule]).max(b)
}

// Lowers the height of p to what is offered, and tells whether.
fn lower(code: &[u32], notes: &mut [u32], size: usize, p: usize) -> bool
    requires { Shape code.now size × (length notes.old ≡ 2048) × (p < size) }
    ensures { Moved code.now size (Done code.now p) notes.old result notes.new }
{
    if code[CODE_COLUMNS * p] == AT_END && code[CODE_COLUMNS * p + CODE_OWNER] == 0 {
        return false;
    }
    let v = offer(code, notes, size, p);
    let x = EMPTIES + sparse::row(code, size, p);
    if v < notes[x] {
        notes[x] = v;
        return true;
    }
    false
}

// One more than the last use of the rule of which an alternative begins at p; 0 where none begins, or the rule has no use.
fn next_use(code: &[u32], notes: &[u32], size: usize, p: usize) -> usize
    requires { Shape code.now size × (length notes.now ≡ 2048) × (p < size) }
    ensures { result ≤ size }
{
    let owner = text::wide(code[CODE_COLUMNS * p + CODE_OWNER]);
    if owner == 0 {
        return 0;
    }
    let u = text::wide(notes[USE_COLUMNS * (owner - 1)]);
    if size < u {
        return 0;
    }
    u
}

// The dot p has fallen: the last use of its rule is looked at, and so on while heights fall. A chain of rules takes one sweep, in whatever
// order its rules stand.
fn follow(code: &[u32], notes: &mut [u32], size: usize, p: usize)
    requires { Shape code.now size × (length notes.old ≡ 2048) × (p < size) }
    ensures { Eased code.now size notes.old notes.new }
{
    let mut x = next_use(code, notes, size, p);
    while 0 < x {
        if !lower(code, notes, size, x - 1) {
            return;
        }
        x = next_use(code, notes, size, x - 1);
    }
}

// Lowers the height of p, and what follows from it along a chain of rules; tells whether that of p fell.
fn lower_on(code: &[u32], notes: &mut [u32], size: usize, p: usize) -> bool
    requires { Shape code.now size × (length notes.old ≡ 2048) × (p < size) }
    ensures { Moved code.now size (Done code.now p) notes.old result notes.new }
{
    if !lower(code, notes, size, p) {
        return false;
    }
    follow(code, notes, size, p);
    true
}

// Lowers the heights of all dots, the last first; tells whether one fell.
fn sweep(code: &[u32], notes: &mut [u32], size: usize) -> bool
    requires { Shape code.now size × (length notes.old ≡ 2048) }
    ensures { Moved code.now size (λ F. ((p : ℕ) → p < size → Done code.now p F)) notes.old result notes.new }
{
    let mut fell = false;
    for p in (0..size).rev() {
        fell |= lower_on(code, notes, size, p);
    }
    fell
}

// No dot has a height yet.
fn clear_empties(notes: &mut [u32], size: usize)
    requires { (length notes.old ≡ 2048) × (size ≤ 512) }
    ensures { Cleared size notes.old notes.new }
{
    notes[EMPTIES..EMPTIES + size].fill(NONE);
}

// Puts the heights into the notes.
fn empty_heights(code: &[u32], notes: &mut [u32], size: usize)
    requires { Shape code.now size × (length notes.old ≡ 2048) }
    ensures { Found code.now size notes.old notes.new }
{
    clear_empties(notes, size);
    while sweep(code, notes, size) {}
}

// All that is noted of the code's rules. In the beginning the notes are 0.
pub fn note_rules(code: &[u32], notes: &mut [u32], size: usize)
    requires { Shape code.now size × (length notes.old ≡ 2048) × ((x : ℕ) → get_or notes.old x 0 ≡ 0) }
    ensures { Noted code.now size notes.new × Empties code.now notes.new size }
{
    list_uses(code, notes, size);
    note_homes(code, notes, size);
    empty_heights(code, notes, size);
}
