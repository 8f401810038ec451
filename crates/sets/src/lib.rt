// Sets of characters: strings, hex numbers, ranges and classes between square brackets.
#![tactic(auto)]

ghost use Rattle.std.specs.Prelude.{◌≡◌, true, false, ◌+◌, ◌-◌, ◌<◌, ◌≤◌, length, drop, set};
ghost use Rattle.syntax.specs.Syntax.{capital as Capital};
ghost use Rattle.syntax.specs.Result.{hd};
ghost use Rattle.spacing.specs.Answers.{Room, three};
ghost use Rattle.sets.specs.Answers.{Range-end, Chars-in, Past-chars, After-class, After-rest, After-filled, After-member, After-members, After-set};

use decode::{CharPlace, after};
use lexical::{Characters, chars, chars_token};
use spacing::{
    CLOSE_SQUARE, Cell, HYPHEN, OPEN_SQUARE, bar, capital, letter, peek, skip, spaced, token,
};
use tokens::{MEMBER_CLASS, MEMBER_CODED, MEMBER_QUOTED, MEMBER_RANGE, SET_END};

// The cells of a range's end: whether it is coded, and its character.
const END_CHARACTER: usize = tokens::FROM - tokens::FROM_CODED;

const END_CELLS: usize = tokens::TO - tokens::FROM;

// An end of a range, whose character stands after at.
fn range_end(c: Characters, out: &mut [u32], at: Cell) -> Option<(CharPlace, Cell)>
    requires { at.0 + 2 ≤ length out.old }
    ensures { Range-end c out.old at.0 result out.new }
{
    let j = at.0;
    match c {
        Characters::Quoted(q, b) => {
            if b.0 != j + END_CELLS {
                return None;
            }
            out[j] = 0;
            Some((q, b))
        }
        Characters::Coded(q, v) => {
            out[j] = 1;
            out[j + END_CHARACTER] = v;
            Some((q, Cell(j + END_CELLS)))
        }
    }
}

// Writes the beginning of a range.
fn range_head(from: Characters, out: &mut [u32], at: Cell) -> Option<(CharPlace, Cell)>
    requires { at.0 + 3 ≤ length out.old }
    ensures { Range-end from (set out.old at.0 26) (at.0 + 1) result out.new }
{
    let j = at.0;
    out[j] = MEMBER_RANGE;
    range_end(from, out, Cell(j + tokens::FROM_CODED))
}

// The rest of a range, from its hyphen on.
fn range_rest(text: &[u32], p: CharPlace, out: &mut [u32], at: Cell) -> Option<(CharPlace, Cell)>
    requires { Room text.now p.0 out.old at.0 × (p.0 < length text.now) }
    ensures { After-rest text.now p.0 out.old at.0 result out.new }
{
    let u = skip(text, after(p))?;
    let j = at.0;
    let c = chars(text, u, out, Cell(j + END_CHARACTER))?;
    spaced(text, range_end(c, out, at))
}

// Past the spacing after characters.
fn past_chars(text: &[u32], c: Characters) -> Option<CharPlace>
    requires { Chars-in text.now c }
    ensures { Past-chars text.now c result }
{
    match c {
        Characters::Quoted(q, _) | Characters::Coded(q, _) => skip(text, q),
    }
}

// A member that begins with characters.
fn chars_member(text: &[u32], p: CharPlace, out: &mut [u32], at: Cell) -> Option<(CharPlace, Cell)>
    requires { Room text.now p.0 out.old at.0 × (Capital (hd (drop p.0 text.now)) ≡ false) }
    ensures { After-member text.now p.0 out.old at.0 result out.new }
{
    let j = at.0;
    let c = chars(text, p, out, Cell(j + tokens::CHARS))?;
    let w = past_chars(text, c)?;
    if peek(text, w) == HYPHEN {
        let (_, e) = range_head(c, out, at)?;
        return range_rest(text, w, out, e);
    }
    let (_, b) = chars_token(Some(c), MEMBER_QUOTED, MEMBER_CODED, out, at)?;
    Some((w, b))
}

// Writes a class: its letters, 0 for a second that is not there.
fn class_token(out: &mut [u32], at: Cell, a: u32, b: u32)
    requires { at.0 + 3 ≤ length out.old }
    ensures { out.new ≡ three out.old at.0 27 a b }
{
    let j = at.0;
    out[j] = MEMBER_CLASS;
    out[j + tokens::CAPITAL] = a;
    out[j + tokens::SMALL] = b;
}

// A class, at its capital.
fn class(text: &[u32], p: CharPlace, out: &mut [u32], at: Cell) -> Option<(CharPlace, Cell)>
    requires { Room text.now p.0 out.old at.0 × (Capital (hd (drop p.0 text.now)) ≡ true) }
    ensures { After-class text.now p.0 out.old at.0 result out.new }
{
    let i = p.0;
    let j = at.0;
    let c = text[i];
    let second = after(p);
    let e = peek(text, second);
    if letter(e) {
        class_token(out, at, c, e);
        return Some((after(second), Cell(j + tokens::CLASS_CELLS)));
    }
    class_token(out, at, c, 0);
    Some((second, Cell(j + tokens::CLASS_CELLS)))
}

// A member of a set, and spacing.
fn member(text: &[u32], p: CharPlace, out: &mut [u32], at: Cell) -> Option<(CharPlace, Cell)>
    requires { Room text.now p.0 out.old at.0 }
    ensures { After-member text.now p.0 out.old at.0 result out.new }
{
    if capital(peek(text, p)) {
        return spaced(text, class(text, p, out, at));
    }
    chars_member(text, p, out, at)
}

// Members, with bars between them.
fn members(text: &[u32], p: CharPlace, out: &mut [u32], at: Cell) -> Option<(CharPlace, Cell)>
    requires { Room text.now p.0 out.old at.0 }
    ensures { After-members text.now p.0 out.old at.0 result out.new }
{
    let mut from = p;
    let mut to = at;
    loop {
        let (q, b) = member(text, from, out, to)?;
        if !bar(peek(text, q)) {
            return Some((q, b));
        }
        let w = skip(text, after(q))?;
        from = w;
        to = b;
    }
}

// Members and the bracket after them.
fn filled_set(text: &[u32], p: CharPlace, out: &mut [u32], at: Cell) -> Option<(CharPlace, Cell)>
    requires { Room text.now p.0 out.old at.0 }
    ensures { After-filled text.now p.0 out.old at.0 result out.new }
{
    let (w, b) = members(text, p, out, at)?;
    if peek(text, w) != CLOSE_SQUARE {
        return None;
    }
    token(text, w, SET_END, out, b)
}

// A set, whose opening bracket is written as k, and spacing.
pub fn set(
    text: &[u32],
    p: CharPlace,
    k: u32,
    out: &mut [u32],
    at: Cell,
) -> Option<(CharPlace, Cell)>
    requires { Room text.now p.0 out.old at.0 }
    ensures { After-set k text.now p.0 out.old at.0 result out.new }
{
    if peek(text, p) != OPEN_SQUARE {
        return None;
    }
    let (v, b) = token(text, p, k, out, at)?;
    if peek(text, v) == CLOSE_SQUARE {
        return token(text, v, SET_END, out, b);
    }
    filled_set(text, v, out, b)
}
