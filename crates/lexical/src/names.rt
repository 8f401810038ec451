// Names, at the head of a rule and in its body, where a full stop may end the rule.
ghost use Rattle.std.specs.Prelude.{◌≡◌, ◌-◌, ◌<◌, ◌≤◌, length, drop};
ghost use Rattle.syntax.specs.Lexical.{run, read_name, read-use, ended as Ended};
ghost use Rattle.spacing.specs.Answers.{Room};
ghost use Rattle.lexical.specs.Answers.{Space, Copied, After-run, After-name, Stops};

use crate::head;
use decode::CharPlace;
use spacing::{Cell, FULL_STOP, is_mark, name_follower, name_start, peek, skip};

// Copies the longest run of name characters.
fn copy_run(text: &[u32], p: CharPlace, out: &mut [u32], at: Cell) -> (CharPlace, Cell)
    requires { Space text.now p.0 0 out.old at.0 }
    ensures { Copied (λ x. run (drop p.0 text.now) ≡ x) text.now p.0 0 out.old at.0 out.new result.0.0 result.1.0 }
{
    let mut to = at;
    for i in p.0..text.len() {
        let c = text[i];
        if !name_follower(c) {
            return (CharPlace(i), to);
        }
        let j = to.0;
        out[j] = c;
        to = Cell(j + 1);
    }
    (CharPlace(text.len()), to)
}

// The characters of a name, copied after the two cells of its token's head.
fn name_run(text: &[u32], p: CharPlace, out: &mut [u32], at: Cell) -> Option<(CharPlace, Cell)>
    requires { Room text.now p.0 out.old at.0 }
    ensures { After-run text.now p.0 out.old at.0 result out.new }
{
    if !name_start(peek(text, p)) {
        return None;
    }
    let j = at.0;
    Some(copy_run(text, p, out, Cell(j + crate::HEAD)))
}

// A name at the head of a rule, as a token of a kind.
pub fn name(
    text: &[u32],
    p: CharPlace,
    k: u32,
    out: &mut [u32],
    at: Cell,
) -> Option<(CharPlace, Cell)>
    requires { Room text.now p.0 out.old at.0 }
    ensures { After-name read_name k text.now p.0 out.old at.0 result out.new }
{
    let (q, b) = name_run(text, p, out, at)?;
    head(out, at, k, b);
    Some((q, b))
}

// The end of the text, or what begins a rule.
fn ended(text: &[u32], p: CharPlace) -> bool
    ensures { result ≡ Ended (drop p.0 text.now) }
{
    let i = p.0;
    text.len() <= i || is_mark(text[i]) || name_start(text[i])
}

// Whether a name from p to q ends with the full stop of its rule.
fn stops(text: &[u32], p: CharPlace, q: CharPlace) -> bool
    requires { (p.0 < q.0) × (q.0 ≤ length text.now) }
    ensures { Stops text.now p.0 q.0 result }
{
    let i = p.0;
    let n = q.0;
    if n == i + 1 || text[n - 1] != FULL_STOP {
        return false;
    }
    match skip(text, q) {
        Some(w) => ended(text, w),
        None => false,
    }
}

// A name in a rule's body, as a token of a kind.
pub fn used_name(
    text: &[u32],
    p: CharPlace,
    k: u32,
    out: &mut [u32],
    at: Cell,
) -> Option<(CharPlace, Cell)>
    requires { Room text.now p.0 out.old at.0 }
    ensures { After-name read-use k text.now p.0 out.old at.0 result out.new }
{
    let (q, b) = name_run(text, p, out, at)?;
    let n = q.0;
    let m = b.0;
    if stops(text, p, q) {
        head(out, at, k, Cell(m - 1));
        return Some((CharPlace(n - 1), Cell(m - 1)));
    }
    head(out, at, k, b);
    Some((q, b))
}
