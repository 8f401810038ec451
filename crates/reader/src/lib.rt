// The reader of a grammar text: its tree as tokens in a table, or that the text is none.
#![tactic(auto)]

mod closing;
mod prolog;

ghost use Rattle.std.specs.Prelude.{◌≡◌, true, ℕ, ◌+◌, ◌<◌, ◌≤◌, length, drop, set};
ghost use Rattle.syntax.specs.Syntax.{ch};
ghost use Rattle.syntax.specs.Result.{hd};
ghost use Rattle.syntax.specs.Parser.{starts as Starts};
ghost use Rattle.spacing.specs.Answers.{Room};
ghost use Rattle.reader.specs.Answers.{After-terminal, After-insertion, After-plain, After-alternatives, After-alternative, After-terms, After-term, After-repeat};
ghost use Rattle.reader.specs.Answers.{After-factor, After-head, After-rule, After-rules, Readable, Read-as};

use crate::closing::closed;
use crate::prolog::prolog;
use decode::{CharPlace, after};
use spacing::{
    CLOSE_ROUND, COLON, COMMA, Cell, EQUALS, FULL_STOP, NUMBER_SIGN, OPEN_ROUND, OPEN_SQUARE, PLUS,
    QUESTION_MARK, STAR, TILDE,
};

// The number of a mark is added to the kinds of names, terminals and heads of rules, and 1 to those of repetitions where it is `+`.
use text::limits;
use tokens::{
    ATTRIBUTE, CLOSE_GROUP, CODED, EXCLUDE, INCLUDE, INSERT_CODED, INSERT_QUOTED, NEXT_ALTERNATIVE,
    OPEN_GROUP, QUOTED, RULE_END, RULE_HEAD, TO_OPTION, TO_REPEAT0, TO_REPEAT0SEP,
};

// A terminal after its mark, whose number is m.
fn terminal(
    text: &[u32],
    p: CharPlace,
    m: u32,
    out: &mut [u32],
    at: Cell,
) -> Option<(CharPlace, Cell)>
    requires { Room text.now p.0 out.old at.0 × (m < 4) }
    ensures { After-terminal m text.now p.0 out.old at.0 result out.new }
{
    let c = spacing::peek(text, p);
    if c == TILDE {
        let q = spacing::skip(text, after(p))?;
        return sets::set(text, q, EXCLUDE + m, out, at);
    }
    if c == OPEN_SQUARE {
        return sets::set(text, p, INCLUDE + m, out, at);
    }
    spacing::spaced(
        text,
        lexical::read_chars(text, p, QUOTED + m, CODED + m, out, at),
    )
}

// An insertion, at its plus.
fn insertion(text: &[u32], p: CharPlace, out: &mut [u32], at: Cell) -> Option<(CharPlace, Cell)>
    requires { Room text.now p.0 out.old at.0 × (ch 43 (hd (drop p.0 text.now)) ≡ true) }
    ensures { After-insertion text.now p.0 out.old at.0 result out.new }
{
    let q = spacing::skip(text, after(p))?;
    spacing::spaced(
        text,
        lexical::read_chars(text, q, INSERT_QUOTED, INSERT_CODED, out, at),
    )
}

// A factor that is no bracket.
fn plain_factor(text: &[u32], p: CharPlace, out: &mut [u32], at: Cell) -> Option<(CharPlace, Cell)>
    requires { Room text.now p.0 out.old at.0 }
    ensures { After-plain text.now p.0 out.old at.0 result out.new }
{
    if spacing::peek(text, p) == PLUS {
        return insertion(text, p, out, at);
    }
    let (q, m) = lexical::mark(text, p)?;
    if spacing::name_start(spacing::peek(text, q)) {
        return spacing::spaced(text, lexical::used_name(text, q, m, out, at));
    }
    if m == ATTRIBUTE {
        return None;
    }
    terminal(text, q, m, out, at)
}

// What may begin a factor.
#[tactic(auto, unfolding(syntax::specs::Parser::starts, syntax::specs::Syntax::quote, syntax::specs::Syntax::is_mark))]
fn starts(c: u32) -> bool
    ensures { result ≡ Starts c }
{
    match c {
        OPEN_ROUND | PLUS | NUMBER_SIGN | OPEN_SQUARE | TILDE => true,
        _ => spacing::quote(c) || spacing::is_mark(c) || spacing::name_start(c),
    }
}

// Alternatives with bars between them; d brackets more may open.
#[cycle(alternative_alternatives_factor_repeated_term_terms)]
fn alternatives(
    text: &[u32],
    p: CharPlace,
    d: usize,
    out: &mut [u32],
    at: Cell,
) -> Option<(CharPlace, Cell)>
    requires { Room text.now p.0 out.old at.0 }
    ensures { After-alternatives d text.now p.0 out.old at.0 result out.new }
{
    let mut from = p;
    let mut to = at;
    loop {
        let (q, b) = alternative(text, from, d, out, to)?;
        if !spacing::bar(spacing::peek(text, q)) {
            return Some((q, b));
        }
        let (w, e) = spacing::token(text, q, NEXT_ALTERNATIVE, out, b)?;
        from = w;
        to = e;
    }
}

// An alternative: terms, or nothing.
#[cycle(alternative_alternatives_factor_repeated_term_terms)]
fn alternative(
    text: &[u32],
    p: CharPlace,
    d: usize,
    out: &mut [u32],
    at: Cell,
) -> Option<(CharPlace, Cell)>
    requires { Room text.now p.0 out.old at.0 }
    ensures { After-alternative d text.now p.0 out.old at.0 result out.new }
{
    if starts(spacing::peek(text, p)) {
        return terms(text, p, d, out, at);
    }
    Some((p, at))
}

// Terms with commas between them.
#[cycle(alternative_alternatives_factor_repeated_term_terms)]
fn terms(
    text: &[u32],
    p: CharPlace,
    d: usize,
    out: &mut [u32],
    at: Cell,
) -> Option<(CharPlace, Cell)>
    requires { Room text.now p.0 out.old at.0 }
    ensures { After-terms d text.now p.0 out.old at.0 result out.new }
{
    let mut from = p;
    let mut to = at;
    loop {
        let (q, b) = term(text, from, d, out, to)?;
        if spacing::peek(text, q) != COMMA {
            return Some((q, b));
        }
        let w = spacing::skip(text, after(q))?;
        from = w;
        to = b;
    }
}

// A term: a factor, perhaps repeated.
#[cycle(alternative_alternatives_factor_repeated_term_terms)]
fn term(
    text: &[u32],
    p: CharPlace,
    d: usize,
    out: &mut [u32],
    at: Cell,
) -> Option<(CharPlace, Cell)>
    requires { Room text.now p.0 out.old at.0 }
    ensures { After-term d text.now p.0 out.old at.0 result out.new }
{
    let (q, b) = factor(text, p, d, out, at)?;
    let c = spacing::peek(text, q);
    if c == QUESTION_MARK {
        return spacing::token(text, q, TO_OPTION, out, b);
    }
    if c == STAR {
        return repeated(text, q, 0, d, out, b);
    }
    if c == PLUS {
        return repeated(text, q, 1, d, out, b);
    }
    Some((q, b))
}

// What follows a factor at its `*` (k is 0) or `+` (k is 1), alone or twice with a separator.
#[cycle(alternative_alternatives_factor_repeated_term_terms)]
fn repeated(
    text: &[u32],
    p: CharPlace,
    k: u32,
    d: usize,
    out: &mut [u32],
    at: Cell,
) -> Option<(CharPlace, Cell)>
    requires { Room text.now p.0 out.old at.0 × (k < 2) × (ch (42 + k) (hd (drop p.0 text.now)) ≡ true) }
    ensures { After-repeat k d text.now p.0 out.old at.0 result out.new }
{
    let second = after(p);
    if spacing::peek(text, second) != STAR + k {
        return spacing::token(text, p, TO_REPEAT0 + k, out, at);
    }
    let w = spacing::skip(text, after(second))?;
    let (q, b) = factor(text, w, d, out, at)?;
    let end = put(out, b, TO_REPEAT0SEP + k);
    Some((q, end))
}

// A factor; d brackets more may open.
#[cycle(alternative_alternatives_factor_repeated_term_terms)]
fn factor(
    text: &[u32],
    p: CharPlace,
    d: usize,
    out: &mut [u32],
    at: Cell,
) -> Option<(CharPlace, Cell)>
    requires { Room text.now p.0 out.old at.0 }
    ensures { After-factor d text.now p.0 out.old at.0 result out.new }
{
    if spacing::peek(text, p) != OPEN_ROUND {
        return plain_factor(text, p, out, at);
    }
    if d == 0 {
        return None;
    }
    let (w, e) = spacing::token(text, p, OPEN_GROUP, out, at)?;
    let (q, b) = alternatives(text, w, d - 1, out, e)?;
    if spacing::peek(text, q) != CLOSE_ROUND {
        return None;
    }
    spacing::token(text, q, CLOSE_GROUP, out, b)
}

// The head of a rule: mark, name, `=` or `:`, and spacing.
fn rule_head(text: &[u32], p: CharPlace, out: &mut [u32], at: Cell) -> Option<(CharPlace, Cell)>
    requires { Room text.now p.0 out.old at.0 }
    ensures { After-head text.now p.0 out.old at.0 result out.new }
{
    let (q, m) = lexical::mark(text, p)?;
    let name = lexical::name(text, q, RULE_HEAD + m, out, at);
    closed(text, name, EQUALS, COLON)
}

// Writes a number at a cell; the cell after it.
fn put(out: &mut [u32], at: Cell, k: u32) -> Cell
    requires { at.0 < length out.old }
    ensures { (result.0 ≡ at.0 + 1) × (out.new ≡ set out.old at.0 k) }
{
    let j = at.0;
    out[j] = k;
    Cell(j + 1)
}

// A rule, to its full stop.
fn rule(text: &[u32], p: CharPlace, out: &mut [u32], at: Cell) -> Option<(CharPlace, Cell)>
    requires { Room text.now p.0 out.old at.0 }
    ensures { After-rule text.now p.0 out.old at.0 result out.new }
{
    let (y, b) = rule_head(text, p, out, at)?;
    let (z, e) = alternatives(text, y, limits::LEVELS, out, b)?;
    if spacing::peek(text, z) != FULL_STOP {
        return None;
    }
    let end = put(out, e, RULE_END);
    Some((after(z), end))
}

// Further rules, each after spacing, to the end of the text.
fn rules(text: &[u32], p: CharPlace, out: &mut [u32], at: Cell) -> Option<(CharPlace, Cell)>
    requires { Room text.now p.0 out.old at.0 }
    ensures { After-rules text.now p.0 out.old at.0 result out.new }
{
    let mut from = p;
    let mut to = at;
    loop {
        let u = spacing::skip(text, from)?;
        if u.0 == text.len() {
            return Some((u, to));
        }
        if u.0 == from.0 {
            return None;
        }
        let (w, b) = rule(text, u, out, to)?;
        from = w;
        to = b;
    }
}

// The tree of a grammar text as tokens in the table, and the cell after them; or that the text is none.
pub fn read_grammar(text: &[u32], out: &mut [u32]) -> Option<Cell>
    requires { Readable text.now out.old }
    ensures { Read-as text.now result out.new }
{
    let u = spacing::skip(text, CharPlace(0))?;
    let (v, a) = prolog(text, u, out, Cell(0))?;
    let (w, b) = rule(text, v, out, a)?;
    let (_, e) = rules(text, w, out, b)?;
    Some(e)
}
