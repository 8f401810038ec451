// A cursor over the chosen derivation: what a left parse writes, one event at a time, with no recursion.
#![tactic(auto)]

ghost use Rattle.std.specs.Prelude.{◌≡◌};
ghost use Rattle.text.specs.Lists.{Text};
ghost use Rattle.items.specs.Items.{token_at};
ghost use Rattle.markup.specs.Pieces.{Pieced};
ghost use Rattle.cursor.specs.Ahead.{SomeAhead, SomeText, SomeNode, root_at};
ghost use Rattle.cursor.specs.Events.{Closes, KindIn, Shown, Settled, Next, Over, Entered, Past, Inside};

use left_parse::{NOTE_COLUMNS, NOTE_ITEM, Position};
use markup::Piece;
use text::CharPlace;

// The kinds of items.
const TERMINAL: usize = items::TERMINAL as usize;

const ELEMENT: usize = items::ELEMENT as usize;

const ATTRIBUTE: usize = items::ATTRIBUTE as usize;

const DELETED: usize = items::DELETED as usize;

const ALTERNATIVE_END: usize = items::ALTERNATIVE_END as usize;

// Where the walk stands; and, inside an attribute's value, one more than the attribute's entry (0: in no value).
#[derive(Clone, Copy)]
pub struct Cursor {
    pub at: Position,
    pub value: usize,
}

// What comes next. Before text, an element or an attribute the cursor stands still: `skip` the text, `enter` the other two,
// or go `past` them. Of an element and of an attribute the token is given; of an end, after which the cursor stands, the item.
#[derive(Clone, Copy)]
pub enum Event {
    Text(Cursor),
    Open(usize, Cursor),
    Attribute(usize, Cursor),
    Close(usize, Cursor),
    End,
}

// Whether the end of a node, by its item, is that of an element or of an attribute's value.
fn closes(table: &[u32], item: usize, value: usize, inner: usize) -> bool
    ensures { Closes table.now item value inner result }
{
    value == inner || value == 0 && items::kind_at(table, item) == ELEMENT
}

// The kind of an item; in a value all nodes are as deleted ones.
fn kind_in(table: &[u32], item: usize, value: usize) -> usize
    ensures { KindIn table.now item value result }
{
    let k = items::kind_at(table, item);
    if value != 0 && (k == ELEMENT || k == ATTRIBUTE) {
        return DELETED;
    }
    k
}

// Over all that writes nothing.
fn pass(table: &[u32], parse: &[u32], scratch: &mut [u64], from: Cursor) -> Cursor
    requires { SomeAhead table.now parse.now scratch.old from }
    ensures { Settled table.now parse.now scratch.old scratch.new from result }
{
    let mut c = from;
    loop {
        let h = c.at;
        let value = c.value;
        let k = kind_in(table, h.item, value);
        if k == TERMINAL {
            let p = markup::piece_of(table, items::token_at(table, h.item), h.place);
            if p.count > 0 {
                return c;
            }
            let n = left_parse::skip(table, h);
            c = Cursor { at: n, value };
        } else if k == ELEMENT || k == ATTRIBUTE {
            return c;
        } else if k == DELETED {
            let n = left_parse::enter(table, parse, scratch, h);
            c = Cursor { at: n, value };
        } else if h.inner == 0 {
            return c;
        } else {
            let item = left_parse::note_at(scratch, NOTE_COLUMNS * (h.inner - 1) + NOTE_ITEM);
            if closes(table, item, value, h.inner) {
                return c;
            }
            let n = left_parse::leave(scratch, h);
            c = Cursor { at: n, value };
        }
    }
}

// The same. Most often there is nothing to pass: what tells that is short enough to be inlined.
fn settle(table: &[u32], parse: &[u32], scratch: &mut [u64], c: Cursor) -> Cursor
    requires { SomeAhead table.now parse.now scratch.old c }
    ensures { Settled table.now parse.now scratch.old scratch.new c result }
{
    let h = c.at;
    let k = items::kind_at(table, h.item);
    if k < ALTERNATIVE_END {
        if c.value == 0 && (k == ELEMENT || k == ATTRIBUTE) {
            return c;
        }
        return pass(table, parse, scratch, c);
    }
    if h.inner == 0 {
        return c;
    }
    let item = left_parse::note_at(scratch, NOTE_COLUMNS * (h.inner - 1) + NOTE_ITEM);
    if closes(table, item, c.value, h.inner) {
        return c;
    }
    pass(table, parse, scratch, c)
}

// The event at a cursor that has nothing to pass.
fn event_at(table: &[u32], parse: &[u32], scratch: &mut [u64], c: Cursor) -> Event
    requires { SomeAhead table.now parse.now scratch.old c × Shown table.now scratch.old c }
    ensures { Next table.now parse.now scratch.old scratch.new c result }
{
    let h = c.at;
    let k = items::kind_at(table, h.item);
    if k == TERMINAL {
        return Event::Text(c);
    }
    if k == ELEMENT {
        return Event::Open(items::token_at(table, h.item), c);
    }
    if k == ATTRIBUTE {
        return Event::Attribute(items::token_at(table, h.item), c);
    }
    if h.inner == 0 {
        return Event::End;
    }
    let item = left_parse::note_at(scratch, NOTE_COLUMNS * (h.inner - 1) + NOTE_ITEM);
    let n = left_parse::leave(scratch, h);
    Event::Close(item, Cursor { at: n, value: 0 })
}

// What comes next, over all that writes nothing.
pub fn next(table: &[u32], parse: &[u32], scratch: &mut [u64], from: Cursor) -> Event
    requires { SomeAhead table.now parse.now scratch.old from }
    ensures { Next table.now parse.now scratch.old scratch.new from result }
{
    let c = settle(table, parse, scratch, from);
    event_at(table, parse, scratch, c)
}

// The text before which the cursor stands.
pub fn text_at(table: &[u32], c: Cursor) -> Piece
    ensures { Pieced table.now (token_at table.now c.at.item) c.at.place.0 result }
{
    let h = c.at;
    markup::piece_of(table, items::token_at(table, h.item), h.place)
}

// Over text.
pub fn skip(table: &[u32], parse: &[u32], scratch: &[u64], c: Cursor) -> Cursor
    requires { SomeText table.now parse.now scratch.now c }
    ensures { Over table.now parse.now scratch.now c result }
{
    let h = c.at;
    let n = left_parse::skip(table, h);
    let value = c.value;
    Cursor { at: n, value }
}

// Into an element, or into an attribute's value.
pub fn enter(table: &[u32], parse: &[u32], scratch: &mut [u64], c: Cursor) -> Cursor
    requires { (r : Text) × SomeNode table.now parse.now r scratch.old c }
    ensures { Entered table.now parse.now scratch.old scratch.new c result }
{
    let h = c.at;
    let n = left_parse::enter(table, parse, scratch, h);
    if items::kind_at(table, h.item) == ATTRIBUTE {
        let value = n.inner;
        return Cursor { at: n, value };
    }
    Cursor { at: n, value: 0 }
}

// Over an element or an attribute.
pub fn past(table: &[u32], parse: &[u32], scratch: &[u64], c: Cursor) -> Cursor
    requires { (r : Text) × SomeNode table.now parse.now r scratch.now c }
    ensures { Past table.now parse.now scratch.now c result }
{
    let h = c.at;
    let after = left_parse::jump(scratch, h);
    let value = c.value;
    Cursor { at: after, value }
}

// Before what stands in an element, as a walk of its own.
pub fn inside(table: &[u32], parse: &[u32], scratch: &[u64], c: Cursor) -> Cursor
    requires { (r : Text) × SomeNode table.now parse.now r scratch.now c }
    ensures { Inside table.now parse.now scratch.now c result }
{
    let h = c.at;
    let n = left_parse::inside(table, parse, h);
    Cursor { at: n, value: 0 }
}

// Before the row that stands in the root, of which the item is the first.
pub fn at_root(item: usize) -> Cursor
    ensures { result ≡ root_at item }
{
    let at = Position {
        item,
        entry: 1,
        place: CharPlace(0),
        inner: 0,
    };
    Cursor { at, value: 0 }
}
