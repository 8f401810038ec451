// The way through a left parse, and what is noted of its entries: no recursion, and two numbers for each entry.
#![tactic(auto)]

ghost use Rattle.std.specs.Prelude.{◌≡◌, true, false, List, ℕ, get_or, is_some, IfSome};
ghost use Rattle.text.specs.Lists.{Text};
ghost use Rattle.tree.specs.Tree.{Grammar};
ghost use Rattle.derive.specs.Derive.{Row};
ghost use Rattle.left_parse.specs.Noted.{Noted, Parsed, Room};
ghost use Rattle.left_parse.specs.Walk.{Over};
ghost use Rattle.left_parse.specs.Steps.{Symbolic, Passed, Found, Counted, Enters, Entered, Leaves, Left, Small, Skipped, jumped, Inside, Going, Stepped};

use text::CharPlace;

// Where a walk stands: the item of the next symbol, the next entry, the place in the record, and one more than the innermost
// open entry (0: none is open).
#[derive(Clone, Copy)]
pub struct Position {
    pub item: usize,
    pub entry: usize,
    pub place: CharPlace,
    pub inner: usize,
}

// The kinds of items that a walk tells apart.
const TERMINAL: usize = items::TERMINAL as usize;

const ALTERNATIVE_END: usize = items::ALTERNATIVE_END as usize;

// What is noted of an entry: the entry after its subtree, and the place in the record where that ends. While its node is open, the entry
// of the node around it and its item.
pub const NOTE_COLUMNS: usize = 2;

const NOTE_PLACE: usize = 1;

pub const NOTE_ITEM: usize = 1;

// A number that is noted, 0 past the end.
pub fn note_at(scratch: &[u64], i: usize) -> usize
    ensures { result ≡ get_or scratch.now i 0 }
{
    if i < scratch.len() {
        return scratch[i] as usize;
    }
    0
}

// Whether the item is a symbol, and no end of an alternative.
fn symbolic(table: &[u32], item: usize) -> bool
    ensures { Symbolic table.now item result }
{
    let k = items::kind_at(table, item);
    0 < k && k < ALTERNATIVE_END
}

// The end of the alternative that goes on from the item.
fn pass(table: &[u32], item: usize) -> usize
    ensures { Passed table.now item result }
{
    let mut p = item;
    // A search: where it ends is what is asked.
    while symbolic(table, p) {
        p += 1;
    }
    p
}

// The first item of the alternative of that number of the rule whose first item is `first`, if there is one.
fn find_alternative(table: &[u32], first: usize, number: usize) -> Option<usize>
    ensures { IfSome result (Found table.now first number) × Counted table.now first number (is_some result) }
{
    let mut x = first;
    for _ in 0..number {
        let e = pass(table, x);
        if items::kind_at(table, e) != ALTERNATIVE_END {
            return None;
        }
        x = e + 1;
    }
    Some(x)
}

// The first item of an alternative, by its number, of the rule whose first item is `first`; of one that is not there any number.
pub fn alternative(table: &[u32], first: usize, number: usize) -> usize
    ensures { Found table.now first number result }
{
    find_alternative(table, first, number).unwrap_or(0)
}

// Whether the rule whose first item is `first` has an alternative of that number.
pub fn has_alternative(table: &[u32], first: usize, number: usize) -> bool
    ensures { Counted table.now first number result }
{
    find_alternative(table, first, number).is_some()
}

// Into a node: its two numbers are the number that was open before it and its item, until it is left.
pub fn enter(table: &[u32], parse: &[u32], scratch: &mut [u64], h: Position) -> Position
    requires { Enters scratch.old h }
    ensures { Entered table.now parse.now scratch.old scratch.new h result }
{
    let at = NOTE_COLUMNS * h.entry;
    let a = tokens::look(parse, h.entry);
    let x = items::target_at(table, h.item);
    let item = alternative(table, x, a);
    scratch[at] = h.inner as u64;
    scratch[at + NOTE_ITEM] = h.item as u64;
    let place = h.place;
    Position {
        item,
        entry: h.entry + 1,
        place,
        inner: h.entry + 1,
    }
}

// Out of the innermost open node, whose end is noted.
pub fn leave(scratch: &mut [u64], h: Position) -> Position
    requires { Leaves scratch.old h }
    ensures { Left scratch.old scratch.new h result }
{
    let at = NOTE_COLUMNS * (h.inner - 1);
    let link = note_at(scratch, at);
    let item = note_at(scratch, at + NOTE_ITEM);
    let place = h.place;
    scratch[at] = h.entry as u64;
    scratch[at + NOTE_PLACE] = place.0 as u64;
    Position {
        item: item + 1,
        entry: h.entry,
        place,
        inner: link,
    }
}

// Over a terminal.
pub fn skip(table: &[u32], h: Position) -> Position
    requires { Small h }
    ensures { Skipped table.now h result }
{
    let w = tokens::terminal_width(table, items::token_at(table, h.item));
    let place = h.place;
    Position {
        item: h.item + 1,
        entry: h.entry,
        place: CharPlace(place.0 + w),
        inner: h.inner,
    }
}

// Over a node, by what is noted of it.
pub fn jump(scratch: &[u64], h: Position) -> Position
    requires { Small h }
    ensures { result ≡ jumped scratch.now h }
{
    let e = note_at(scratch, NOTE_COLUMNS * h.entry);
    let m = note_at(scratch, NOTE_COLUMNS * h.entry + NOTE_PLACE);
    Position {
        item: h.item + 1,
        entry: e,
        place: CharPlace(m),
        inner: h.inner,
    }
}

// Before the children of a node, as a walk of its own.
pub fn inside(table: &[u32], parse: &[u32], h: Position) -> Position
    requires { Small h }
    ensures { Inside table.now parse.now h result }
{
    let a = tokens::look(parse, h.entry);
    let x = items::target_at(table, h.item);
    let item = alternative(table, x, a);
    let place = h.place;
    Position {
        item,
        entry: h.entry + 1,
        place,
        inner: 0,
    }
}

// The walk is not over.
pub fn more(table: &[u32], h: Position) -> bool
    ensures { (result ≡ true → Over table.now h → ⊥) × (result ≡ false → Over table.now h) }
{
    items::kind_at(table, h.item) < ALTERNATIVE_END || 0 < h.inner
}

fn step(table: &[u32], parse: &[u32], scratch: &mut [u64], h: Position) -> Position
    requires fact { Over table.now h → ⊥ }
    requires by_index { (F : List ℕ) × (e : ℕ) × (i : ℕ) × Going table.now parse.now scratch.old h F e i }
    ensures { Stepped table.now parse.now scratch.old scratch.new h result }
{
    let k = items::kind_at(table, h.item);
    if k == TERMINAL {
        return skip(table, h);
    }
    if k < ALTERNATIVE_END {
        return enter(table, parse, scratch, h);
    }
    leave(scratch, h)
}

// Notes all entries of a left parse.
pub fn note(table: &[u32], root: usize, parse: &[u32], scratch: &mut [u64])
    requires room { Room table.now parse.now scratch.old }
    requires parsed { (g : Grammar) × (r : Text) × (t : Row) × Parsed table.now root parse.now g r t }
    ensures { (g : Grammar) (r : Text) (t : Row) → Parsed table.now root parse.now g r t → Noted scratch.new 0 t }
{
    let a = tokens::look(parse, 0);
    let item = alternative(table, root, a);
    let mut h = Position {
        item,
        entry: 1,
        place: CharPlace(0),
        inner: 0,
    };
    while more(table, h) {
        h = step(table, parse, scratch, h);
    }
    let end = h.place;
    scratch[0] = h.entry as u64;
    scratch[NOTE_PLACE] = end.0 as u64;
}
