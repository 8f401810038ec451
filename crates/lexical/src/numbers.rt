// Hex numbers. A value past the last code point is kept as the first number that is none.
ghost use Rattle.std.specs.Prelude.{◌≡◌, true, ◌+◌, ◌*◌, ◌-◌, ◌≤◌, length, drop};
ghost use Rattle.tree.specs.Tokens.{capped};
ghost use Rattle.syntax.specs.Syntax.{ch, digit as Digit, digit_value};
ghost use Rattle.syntax.specs.Result.{hd};
ghost use Rattle.syntax.specs.Lexical.{read-hex, digits as Digits};
ghost use Rattle.lexical.specs.Answers.{Hexed, After-number};

use decode::{CharPlace, after};
use spacing::{END, digit, digit_value, peek};

// The value of digits, capped, with one digit more.
fn next_value(v: u32, c: u32) -> u32
    requires { (v ≤ 1114112) × (Digit c ≡ true) }
    ensures { result ≡ capped (16 * v + digit_value c) }
{
    (16 * v + digit_value(c)).min(END)
}

// The digits at a place: where they end, and their value.
fn digits(text: &[u32], p: CharPlace) -> (CharPlace, u32)
    requires { p.0 ≤ length text.now }
    ensures { Hexed (λ x. Digits 0 (drop p.0 text.now) ≡ x) text.now p.0 result.0.0 result.1 }
{
    let mut v: u32 = 0;
    for i in p.0..text.len() {
        let c = text[i];
        if !digit(c) {
            return (CharPlace(i), v);
        }
        v = next_value(v, c);
    }
    (CharPlace(text.len()), v)
}

// The digits after the # at a place.
pub fn hex(text: &[u32], p: CharPlace) -> Option<(CharPlace, u32)>
    requires { ch 35 (hd (drop p.0 text.now)) ≡ true }
    ensures { After-number (λ x. read-hex (drop p.0 text.now) ≡ x) text.now (p.0 + 1) result }
{
    let first = after(p);
    if !digit(peek(text, first)) {
        return None;
    }
    Some(digits(text, first))
}
