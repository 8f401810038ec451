// The character at a place of the grammar text, and the classes of characters that its words are made of.
ghost use Rattle.std.specs.Prelude.{◌≡◌, true, ◌-◌, ◌<◌, drop};
ghost use Rattle.tree.specs.Tokens.{mark_number};
ghost use Rattle.syntax.specs.Syntax.{whitespace as Whitespace, quote as Quote, plain as Plain, digit as Digit, digit_value, capital as Capital};
ghost use Rattle.syntax.specs.Syntax.{letter as Letter, bar as Bar, is_mark, mark_of, namestart, namefollower};
ghost use Rattle.text.specs.Lists.{chars as Points, among};
ghost use Rattle.syntax.specs.Result.{hd};

use crate::{
    AT_SIGN, CARET, CARRIAGE_RETURN, CHARACTER_TIE, DOUBLE_QUOTE, END, FULL_STOP, HYPHEN,
    LINE_FEED, MIDDLE_DOT, PAST_ASCII, SEMICOLON, SINGLE_QUOTE, SPACE, TAB, UNDERSCORE, UNDERTIE,
    VERTICAL_LINE,
};
use decode::CharPlace;

// Ends of runs of characters.
const DIGIT_0: u32 = 0x30;

const DIGIT_9: u32 = 0x39;

const CAPITAL_A: u32 = 0x41;

const CAPITAL_F: u32 = 0x46;

const CAPITAL_Z: u32 = 0x5a;

const SMALL_A: u32 = 0x61;

const SMALL_F: u32 = 0x66;

const SMALL_Z: u32 = 0x7a;

// Classes by their number in crate category.
const CLASS_ND: usize = 8;

const CLASS_MN: usize = 5;

const CLASS_ZS: usize = 22;

const CLASS_CC: usize = 25;

const CLASS_L: usize = 30;

// The character at a place.
pub fn peek(text: &[u32], p: CharPlace) -> u32
    ensures { result ≡ hd (drop p.0 text.now) }
{
    let at = p.0;
    if at < text.len() {
        return text[at];
    }
    END
}

// Here and below, tests by comparison come before those by the table, which cost more.
pub fn whitespace(c: u32) -> bool
    ensures { result ≡ Whitespace c }
{
    if text::between(c, 0x21, 0x7e) {
        return false;
    }
    if c == SPACE {
        return true;
    }
    category::in_class(CLASS_ZS, c) || c == TAB || c == LINE_FEED || c == CARRIAGE_RETURN
}

#[tactic(auto, unfolding(syntax::specs::Syntax::quote))]
pub fn quote(c: u32) -> bool
    ensures { result ≡ Quote c }
{
    c == DOUBLE_QUOTE || c == SINGLE_QUOTE
}

// A character of a string whose quote is q, other than the quote.
pub fn plain(q: u32, c: u32) -> bool
    ensures { result ≡ Plain q c }
{
    c != q && (text::between(c, 0x20, 0x7e) || !category::in_class(CLASS_CC, c))
}

#[tactic(auto, unfolding(syntax::specs::Syntax::digit))]
pub fn digit(c: u32) -> bool
    ensures { result ≡ Digit c }
{
    text::between(c, DIGIT_0, DIGIT_9)
        || text::between(c, SMALL_A, SMALL_F)
        || text::between(c, CAPITAL_A, CAPITAL_F)
}

pub fn digit_value(c: u32) -> u32
    requires { Digit c ≡ true }
    ensures { (result ≡ digit_value c) × (result < 16) }
{
    if c <= DIGIT_9 {
        return c - DIGIT_0;
    }
    if c <= CAPITAL_F {
        return c - 0x37;
    }
    c - 0x57
}

pub fn capital(c: u32) -> bool
    ensures { result ≡ Capital c }
{
    text::between(c, CAPITAL_A, CAPITAL_Z)
}

#[tactic(auto, unfolding(syntax::specs::Syntax::letter))]
pub fn letter(c: u32) -> bool
    ensures { result ≡ Letter c }
{
    capital(c) || text::between(c, SMALL_A, SMALL_Z)
}

#[tactic(auto, unfolding(syntax::specs::Syntax::bar))]
pub fn bar(c: u32) -> bool
    ensures { result ≡ Bar c }
{
    c == SEMICOLON || c == VERTICAL_LINE
}

#[tactic(auto, unfolding(syntax::specs::Syntax::is_mark))]
pub fn is_mark(c: u32) -> bool
    ensures { result ≡ is_mark c }
{
    c == AT_SIGN || c == CARET || c == HYPHEN
}

// The numbers of marks.
const INCLUDED: u32 = 1;

const ATTRIBUTE: u32 = 2;

const DELETED: u32 = 3;

// The number of a mark.
#[tactic(auto, unfolding(syntax::specs::Syntax::mark_of))]
pub fn mark_number(c: u32) -> u32
    ensures { result ≡ mark_number (mark_of c) }
{
    match c {
        AT_SIGN => ATTRIBUTE,
        CARET => INCLUDED,
        _ => DELETED,
    }
}

pub fn name_start(c: u32) -> bool
    ensures { result ≡ namestart c }
{
    if letter(c) || c == UNDERSCORE {
        return true;
    }
    PAST_ASCII <= c && category::in_class(CLASS_L, c)
}

// The connectors of a name: -.·‿⁀
fn connector(c: u32) -> bool
    ensures { result ≡ among c (Points "-.·‿⁀") }
{
    c == HYPHEN || c == FULL_STOP || c == MIDDLE_DOT || c == UNDERTIE || c == CHARACTER_TIE
}

pub fn name_follower(c: u32) -> bool
    ensures { result ≡ namefollower c }
{
    if text::between(c, DIGIT_0, DIGIT_9) || name_start(c) || connector(c) {
        return true;
    }
    PAST_ASCII <= c && (category::in_class(CLASS_ND, c) || category::in_class(CLASS_MN, c))
}
