// The bytes of a token in the tidy text, put into a buffer up to a limit; and where a factor ends.
#![tactic(auto)]

ghost use Rattle.std.specs.Prelude.{◌≡◌, List, ◌+◌, ◌<◌, ◌≤◌, length, get_or};
ghost use Rattle.tree.specs.Tokens.{Token};
ghost use Rattle.tokens.specs.Lengths.{form_of, length_at, TokenAt, Left};
ghost use Rattle.encode.specs.Out.{Wrote};
ghost use Rattle.tidy.specs.Scan.{token_text, depth, past};
ghost use Rattle.tidy.specs.Numbers.{kind_by};
ghost use Rattle.tidy_writer.specs.Parts.{end_at, range_at, class_at, held_at, Fit};
ghost use Rattle.tidy_writer.specs.Walk.{SomeLeft};

use encode::Spelling;
use text::BytePlace;
use tokens::Form;

// The cells of a range's end: whether it is coded, and its character.
const END_CHARACTER: usize = tokens::FROM - tokens::FROM_CODED;

const END_CELLS: usize = tokens::TO - tokens::FROM;

// An end of a range: a character after 0, or a hex number.
fn put_end(out: &mut [u8], limit: BytePlace, pos: BytePlace, t: &[u32], k: usize) -> BytePlace
    requires { (limit.0 ≤ length out.old) × (k + 2 ≤ length t.now) }
    ensures { Wrote limit.0 pos.0 out.old result.0 out.new (end_at t.now k) }
{
    if tokens::look(t, k) == 0 {
        return tidy_parts::put_quoted(out, limit, pos, encode::stretch(t, k + END_CHARACTER, 1));
    }
    tidy_parts::put_coded(out, limit, pos, tokens::look(t, k + END_CHARACTER))
}

fn put_range(out: &mut [u8], limit: BytePlace, pos: BytePlace, t: &[u32], k: usize) -> BytePlace
    requires { (limit.0 ≤ length out.old) × (k + 4 ≤ length t.now) }
    ensures { Wrote limit.0 pos.0 out.old result.0 out.new (range_at t.now k) }
{
    let q = put_end(out, limit, pos, t, k);
    let q = encode::put(out, limit, q, b'-');
    put_end(out, limit, q, t, k + END_CELLS)
}

const SECOND_LETTER: usize = tokens::SMALL - tokens::CAPITAL;

// A class of one letter, before 0, or of two.
fn put_class(out: &mut [u8], limit: BytePlace, pos: BytePlace, t: &[u32], k: usize) -> BytePlace
    requires { (limit.0 ≤ length out.old) × (k + 2 ≤ length t.now) }
    ensures { Wrote limit.0 pos.0 out.old result.0 out.new (class_at t.now k) }
{
    let q = encode::put_char(out, limit, pos, tokens::look(t, k));
    let d = tokens::look(t, k + SECOND_LETTER);
    if d == 0 {
        return q;
    }
    encode::put_char(out, limit, q, d)
}

// What the token at k holds.
fn put_held(out: &mut [u8], limit: BytePlace, pos: BytePlace, t: &[u32], k: usize) -> BytePlace
    requires { (limit.0 ≤ length out.old) × (k + length_at t.now k ≤ length t.now) }
    ensures { Wrote limit.0 pos.0 out.old result.0 out.new (held_at (form_of (get_or t.now k 0)) t.now k) }
{
    let second = tokens::look(t, k + tokens::COUNT);
    let text = encode::stretch(t, k + tokens::CHARS, second);
    match Form::of(t[k]) {
        Form::Name | Form::Head => encode::put_text(out, limit, pos, Spelling::Plain, text),
        Form::Text => tidy_parts::put_quoted(out, limit, pos, text),
        Form::Code => tidy_parts::put_coded(out, limit, pos, second),
        Form::Range => put_range(out, limit, pos, t, k + tokens::FROM_CODED),
        Form::Class => put_class(out, limit, pos, t, k + tokens::CAPITAL),
        Form::Bare => pos,
    }
}

// The token at k.
pub fn put_token(out: &mut [u8], limit: BytePlace, pos: BytePlace, t: &[u32], k: usize) -> BytePlace
    requires { (limit.0 ≤ length out.old) × (k + length_at t.now k ≤ length t.now) }
    ensures { (x : Token) → TokenAt t.now k x → Fit x
        → Wrote limit.0 pos.0 out.old result.0 out.new (token_text x) }
{
    let kind = t[k];
    let q = tidy_parts::put_before(out, limit, pos, kind);
    let q = put_held(out, limit, q, t, k);
    tidy_parts::put_after(out, limit, q, kind as usize)
}

// Sets and brackets open after a token of a kind.
fn depth_after(nested: usize, kind: u32) -> usize
    requires { nested < 18446744073709551615 }
    ensures { result ≡ depth nested (kind_by kind) }
{
    if kind < tokens::INCLUDE {
        return nested;
    }
    if kind < tokens::RULE_HEAD {
        return nested + 1;
    }
    if kind < tokens::SET_END {
        return nested;
    }
    if kind == tokens::SET_END {
        return nested.saturating_sub(1);
    }
    if kind < tokens::OPEN_GROUP {
        return nested;
    }
    if kind == tokens::OPEN_GROUP {
        return nested + 1;
    }
    if kind == tokens::CLOSE_GROUP {
        return nested.saturating_sub(1);
    }
    nested
}

// The place after the factor that begins at k: where all sets and brackets that it opens are closed.
pub fn past_factor(t: &[u32], end: usize, k: usize) -> usize
    requires { SomeLeft t.now end k }
    ensures { (ts : List Token) → Left t.now end k ts → Left t.now end result (past 0 ts) }
{
    let mut at = k;
    let mut nested = 0;
    while at < end {
        nested = depth_after(nested, t[at]);
        at = tokens::token_end(t, at);
        if nested == 0 {
            return at;
        }
    }
    at
}
