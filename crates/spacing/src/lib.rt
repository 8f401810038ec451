// Spacing and comments of a grammar text, and the single numbers that are written for its characters in the table of tokens.
#![tactic(auto)]

mod characters;

ghost use Rattle.std.specs.Prelude.{◌-◌, ◌<◌, ◌≤◌, length};
ghost use Rattle.spacing.specs.Answers.{After-comment, After-skip, Step-in, Spaced, After-token};

pub use characters::{
    bar, capital, digit, digit_value, is_mark, letter, mark_number, name_follower, name_start,
    peek, plain, quote, whitespace,
};
use decode::{CharPlace, after};

// A cell of the table. Places of the text are the decoder's: neither is taken for the other.
#[derive(Clone, Copy)]
pub struct Cell(pub usize);

// The character past the last one.
pub const END: u32 = 0x110000;

// Characters that the syntax of grammars gives a meaning.
pub const TAB: u32 = 0x9;

pub const LINE_FEED: u32 = 0xa;

pub const CARRIAGE_RETURN: u32 = 0xd;

pub const SPACE: u32 = 0x20;

pub const DOUBLE_QUOTE: u32 = 0x22;

pub const NUMBER_SIGN: u32 = 0x23;

pub const SINGLE_QUOTE: u32 = 0x27;

pub const OPEN_ROUND: u32 = 0x28;

pub const CLOSE_ROUND: u32 = 0x29;

pub const STAR: u32 = 0x2a;

pub const PLUS: u32 = 0x2b;

pub const COMMA: u32 = 0x2c;

pub const HYPHEN: u32 = 0x2d;

pub const FULL_STOP: u32 = 0x2e;

pub const COLON: u32 = 0x3a;

pub const SEMICOLON: u32 = 0x3b;

pub const EQUALS: u32 = 0x3d;

pub const QUESTION_MARK: u32 = 0x3f;

pub const AT_SIGN: u32 = 0x40;

pub const OPEN_SQUARE: u32 = 0x5b;

pub const CLOSE_SQUARE: u32 = 0x5d;

pub const CARET: u32 = 0x5e;

pub const UNDERSCORE: u32 = 0x5f;

pub const OPEN_BRACE: u32 = 0x7b;

pub const VERTICAL_LINE: u32 = 0x7c;

pub const CLOSE_BRACE: u32 = 0x7d;

pub const TILDE: u32 = 0x7e;

pub const PAST_ASCII: u32 = 0x80;

pub const MIDDLE_DOT: u32 = 0xb7;

pub const UNDERTIE: u32 = 0x203f;

pub const CHARACTER_TIE: u32 = 0x2040;

// How many comments may open inside an outermost one.
const INNER: usize = text::limits::LEVELS - 1;

// Past the comment that the place is in; d more may open inside it.
fn comment(text: &[u32], p: CharPlace, d: usize) -> Option<CharPlace>
    requires { p.0 ≤ length text.now }
    ensures { After-comment text.now p.0 d result }
{
    let mut at = p;
    // An inner comment is passed at once.
    while at.0 < text.len() {
        let i = at.0;
        let c = text[i];
        if c == CLOSE_BRACE {
            return Some(after(at));
        }
        if c == OPEN_BRACE {
            if d == 0 {
                return None;
            }
            at = comment(text, after(at), d - 1)?;
        } else {
            at = after(at);
        }
    }
    None
}

// Past the spacing at a place.
pub fn skip(text: &[u32], p: CharPlace) -> Option<CharPlace>
    requires { p.0 ≤ length text.now }
    ensures { After-skip text.now p.0 result }
{
    let mut at = p;
    // A comment is passed at once.
    while at.0 < text.len() {
        let i = at.0;
        let c = text[i];
        if c == OPEN_BRACE {
            at = comment(text, after(at), INNER)?;
        } else {
            if !whitespace(c) {
                return Some(at);
            }
            at = after(at);
        }
    }
    Some(at)
}

// Past the spacing after a step.
pub fn spaced(text: &[u32], step: Option<(CharPlace, Cell)>) -> Option<(CharPlace, Cell)>
    requires { Step-in text.now step }
    ensures { Spaced text.now step result }
{
    let (q, b) = step?;
    let w = skip(text, q)?;
    Some((w, b))
}

// Writes a number for the character at a place, and skips the spacing after it.
pub fn token(
    text: &[u32],
    p: CharPlace,
    k: u32,
    out: &mut [u32],
    at: Cell,
) -> Option<(CharPlace, Cell)>
    requires { (p.0 < length text.now) × (at.0 < length out.old) }
    ensures { After-token text.now p.0 k out.old at.0 result out.new }
{
    let q = skip(text, after(p))?;
    let j = at.0;
    out[j] = k;
    Some((q, Cell(j + 1)))
}
