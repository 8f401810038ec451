// The parts of a token in the tidy text: signs, hex numbers, quoted text, put into a buffer up to a limit.
#![tactic(auto)]

ghost use Rattle.std.specs.Prelude.{◌≡◌, [], ◌∷◌, ◌<◌, ◌≤◌, length};
ghost use Rattle.encode.specs.Out.{Wrote};
ghost use Rattle.tidy.specs.Tidy.{quoted_char, quoted_text, lower_digit, hex_text};
ghost use Rattle.tidy.specs.Numbers.{sign_by};
ghost use Rattle.tidy_parts.specs.Parts.{lead_by, sign_at, tail_by, coded_text};

use text::BytePlace;

// The sign of a mark.
fn put_sign(out: &mut [u8], limit: BytePlace, pos: BytePlace, mark: u32) -> BytePlace
    requires { limit.0 ≤ length out.old }
    ensures { Wrote limit.0 pos.0 out.old result.0 out.new (sign_by mark) }
{
    if mark == tokens::INCLUDED {
        return encode::put(out, limit, pos, b'^');
    }
    if mark == tokens::ATTRIBUTE {
        return encode::put(out, limit, pos, b'@');
    }
    if mark == tokens::DELETED {
        return encode::put(out, limit, pos, b'-');
    }
    pos
}

// Hex numbers: the base, the first digit that is a letter, digits as characters, and the first number that has seven digits.
const BASE: usize = 16;

const FIRST_LETTER: usize = 10;

const ZERO: usize = 0x30;

const BEFORE_LETTERS: usize = 0x57;

const SEVEN_DIGITS: usize = 0x1000000;

// A hex digit, in lower case.
fn lower_digit(d: usize) -> u8
    requires { d < 16 }
    ensures { (result ≡ lower_digit d) × (result < 0x80) }
{
    if d < FIRST_LETTER {
        return (ZERO + d) as u8;
    }
    (BEFORE_LETTERS + d) as u8
}

fn put_digit(out: &mut [u8], limit: BytePlace, pos: BytePlace, d: usize) -> BytePlace
    requires { (limit.0 ≤ length out.old) × (d < 16) }
    ensures { Wrote limit.0 pos.0 out.old result.0 out.new (lower_digit d ∷ []) }
{
    let digit = lower_digit(d);
    encode::put(out, limit, pos, digit)
}

// A hex number of at most six digits: the last one behind the digits before it, which begin at the first that is not 0.
fn put_hex(out: &mut [u8], limit: BytePlace, pos: BytePlace, n: usize) -> BytePlace
    requires { (limit.0 ≤ length out.old) × (n < 16777216) }
    ensures { Wrote limit.0 pos.0 out.old result.0 out.new (hex_text n) }
{
    let mut q = pos;
    let mut unit = SEVEN_DIGITS;
    while unit > BASE {
        unit /= BASE;
        let top = n / unit;
        if top > 0 {
            q = put_digit(out, limit, q, top % BASE);
        }
    }
    put_digit(out, limit, q, n % BASE)
}

const QUOTE: usize = 0x22;

// A character between double quotes: a quote is doubled.
fn put_in_quotes(out: &mut [u8], limit: BytePlace, pos: BytePlace, c: usize) -> BytePlace
    requires { limit.0 ≤ length out.old }
    ensures { Wrote limit.0 pos.0 out.old result.0 out.new (quoted_char c) }
{
    if c == QUOTE {
        return encode::put_all(out, limit, pos, b"\"\"");
    }
    encode::put_char(out, limit, pos, c)
}

// A text in double quotes.
pub fn put_quoted(out: &mut [u8], limit: BytePlace, pos: BytePlace, text: &[u32]) -> BytePlace
    requires { limit.0 ≤ length out.old }
    ensures { Wrote limit.0 pos.0 out.old result.0 out.new (quoted_text text.now) }
{
    let mut q = encode::put(out, limit, pos, b'"');
    for c in text {
        q = put_in_quotes(out, limit, q, *c as usize);
    }
    encode::put(out, limit, q, b'"')
}

// A hex number of a table, where numbers above 10FFFF stand as 110000.
const PAST_CHARACTERS: usize = 0x110000;

pub fn put_coded(out: &mut [u8], limit: BytePlace, pos: BytePlace, n: usize) -> BytePlace
    requires { limit.0 ≤ length out.old }
    ensures { Wrote limit.0 pos.0 out.old result.0 out.new (coded_text n) }
{
    let q = encode::put(out, limit, pos, b'#');
    if n < PAST_CHARACTERS {
        return put_hex(out, limit, q, n);
    }
    put_hex(out, limit, q, PAST_CHARACTERS)
}

// What stands before a token's own text: a mark's sign, `+` before an insertion, the words before a version.
pub fn put_before(out: &mut [u8], limit: BytePlace, pos: BytePlace, kind: u32) -> BytePlace
    requires { limit.0 ≤ length out.old }
    ensures { Wrote limit.0 pos.0 out.old result.0 out.new (lead_by kind) }
{
    if kind < tokens::MEMBER_QUOTED {
        return put_sign(out, limit, pos, kind % tokens::MARKS);
    }
    if kind < tokens::INSERT_QUOTED {
        return pos;
    }
    if kind < tokens::OPEN_GROUP {
        return encode::put(out, limit, pos, b'+');
    }
    if kind == tokens::VERSION {
        return encode::put_all(out, limit, pos, b"ixml version ");
    }
    pos
}

const NONE: u8 = b'_';

// The character of a kind, if there is one.
fn put_sign_at(out: &mut [u8], limit: BytePlace, pos: BytePlace, s: &[u8], kind: usize) -> BytePlace
    requires { limit.0 ≤ length out.old }
    ensures { Wrote limit.0 pos.0 out.old result.0 out.new (sign_at s.now kind) }
{
    if kind >= s.len() {
        return pos;
    }
    let c = s[kind];
    if c == NONE {
        return pos;
    }
    encode::put_char(out, limit, pos, c as usize)
}

// What stands after it: at most two characters for each kind.
pub fn put_after(out: &mut [u8], limit: BytePlace, pos: BytePlace, kind: usize) -> BytePlace
    requires { limit.0 ≤ length out.old }
    ensures { Wrote limit.0 pos.0 out.old result.0 out.new (tail_by kind) }
{
    let first = b"____________[[[[~~~~::::____]__();?*+__..";
    let second = b"________________[[[[    _________ _____\n\n";
    let q = put_sign_at(out, limit, pos, first, kind);
    put_sign_at(out, limit, q, second, kind)
}
