// The words of a grammar text: strings, hex numbers, names and marks. What is read goes into the table of tokens.
#![tactic(auto)]

mod names;
mod numbers;
mod strings;

ghost use Rattle.std.specs.Prelude.{◌≡◌, ◌-◌, ◌≤◌, length};
ghost use Rattle.syntax.specs.Lexical.{read-string, quoted};
ghost use Rattle.spacing.specs.Answers.{Room, headed};
ghost use Rattle.lexical.specs.Answers.{Space, After-chars, Headable, Tokenable, Chars-token, Tokenable-if, Chars-token-if, After-name, After-chars-token, After-mark};

use crate::numbers::hex;
use crate::strings::string;
use decode::{CharPlace, after};
pub use names::{name, used_name};
use spacing::{Cell, NUMBER_SIGN, is_mark, mark_number, peek, skip};

// Characters: a string, which stands in the table, or a hex number.
#[derive(Clone, Copy)]
pub enum Characters {
    Quoted(CharPlace, Cell),
    Coded(CharPlace, u32),
}

// A string or a hex number.
pub fn chars(text: &[u32], p: CharPlace, out: &mut [u32], at: Cell) -> Option<Characters>
    requires { Space text.now p.0 1 out.old at.0 }
    ensures { After-chars text.now p.0 out.old at.0 result out.new }
{
    if peek(text, p) == NUMBER_SIGN {
        let (q, v) = hex(text, p)?;
        return Some(Characters::Coded(q, v));
    }
    let (q, b) = string(text, p, out, at)?;
    Some(Characters::Quoted(q, b))
}

// The cells of a token before its characters: its kind, and their count or a hex number's value.
pub const HEAD: usize = 2;

// Writes the head of a token whose characters end at b: what it is, and their count.
pub fn head(out: &mut [u32], at: Cell, k: u32, end: Cell)
    requires { Headable out.old at.0 end.0 }
    ensures { out.new ≡ headed out.old at.0 k end.0 }
{
    let j = at.0;
    let b = end.0;
    out[j] = k;
    out[j + 1] = (b - (j + HEAD)) as u32;
}

// Writes a token for characters; where they end in the text, and it in the table.
fn put_chars(c: Characters, quoted: u32, coded: u32, out: &mut [u32], at: Cell) -> (CharPlace, Cell)
    requires { Tokenable c out.old at.0 }
    ensures { Chars-token c quoted coded out.old at.0 result out.new }
{
    match c {
        Characters::Quoted(q, b) => {
            head(out, at, quoted, b);
            (q, b)
        }
        Characters::Coded(q, v) => {
            let j = at.0;
            out[j] = coded;
            out[j + 1] = v;
            (q, Cell(j + HEAD))
        }
    }
}

// A token for characters, if there are some.
pub fn chars_token(
    c: Option<Characters>,
    quoted: u32,
    coded: u32,
    out: &mut [u32],
    at: Cell,
) -> Option<(CharPlace, Cell)>
    requires { Tokenable-if c out.old at.0 }
    ensures { Chars-token-if c quoted coded out.old at.0 result out.new }
{
    let c = c?;
    Some(put_chars(c, quoted, coded, out, at))
}

// Reads characters as a token: a string of the kind `quoted`, a hex number of the kind `coded`.
pub fn read_chars(
    text: &[u32],
    p: CharPlace,
    quoted: u32,
    coded: u32,
    out: &mut [u32],
    at: Cell,
) -> Option<(CharPlace, Cell)>
    requires { Room text.now p.0 out.old at.0 }
    ensures { After-chars-token quoted coded text.now p.0 out.old at.0 result out.new }
{
    let j = at.0;
    let c = chars(text, p, out, Cell(j + HEAD))?;
    Some(put_chars(c, quoted, coded, out, at))
}

// Reads a string as a token of a kind.
pub fn read_string(
    text: &[u32],
    p: CharPlace,
    k: u32,
    out: &mut [u32],
    at: Cell,
) -> Option<(CharPlace, Cell)>
    requires { Room text.now p.0 out.old at.0 }
    ensures { After-name read-string k text.now p.0 out.old at.0 result out.new }
{
    let j = at.0;
    let (q, b) = string(text, p, out, Cell(j + HEAD))?;
    head(out, at, k, b);
    Some((q, b))
}

// A mark and spacing, or nothing: where they end, and the mark's number.
pub fn mark(text: &[u32], p: CharPlace) -> Option<(CharPlace, u32)>
    requires { p.0 ≤ length text.now }
    ensures { After-mark text.now p.0 result }
{
    let c = peek(text, p);
    if !is_mark(c) {
        return Some((p, 0));
    }
    let q = skip(text, after(p))?;
    Some((q, mark_number(c)))
}
