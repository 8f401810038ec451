// Strings: characters between quotes, in which a quote stands twice.
ghost use Rattle.std.specs.Prelude.{◌≡◌, true, false, ◌-◌, drop};
ghost use Rattle.syntax.specs.Syntax.{quote as Quote};
ghost use Rattle.syntax.specs.Lexical.{read-string, quoted};
ghost use Rattle.lexical.specs.Answers.{Space, After-copy};

use decode::{CharPlace, after};
use spacing::{Cell, peek, plain, quote};

// Copies the characters of a string after its first quote q, and passes its last.
fn copy_quoted(
    text: &[u32],
    p: CharPlace,
    q: u32,
    out: &mut [u32],
    at: Cell,
) -> Option<(CharPlace, Cell)>
    requires { Space text.now p.0 0 out.old at.0 × (Quote q ≡ true) }
    ensures { After-copy (λ x. quoted q (drop p.0 text.now) false ≡ x) text.now p.0 1 out.old at.0 result out.new }
{
    let mut from = p;
    let mut to = at;
    // A doubled quote takes two characters.
    while from.0 < text.len() {
        let i = from.0;
        let j = to.0;
        let c = text[i];
        let next = after(from);
        if c == q {
            if peek(text, next) != q {
                return Some((next, to));
            }
            out[j] = q;
            from = after(next);
            to = Cell(j + 1);
        } else {
            if !plain(q, c) {
                return None;
            }
            out[j] = c;
            from = next;
            to = Cell(j + 1);
        }
    }
    None
}

// Copies the characters of a string.
pub fn string(text: &[u32], p: CharPlace, out: &mut [u32], at: Cell) -> Option<(CharPlace, Cell)>
    requires { Space text.now p.0 1 out.old at.0 }
    ensures { After-copy (λ x. read-string (drop p.0 text.now) ≡ x) text.now p.0 2 out.old at.0 result out.new }
{
    let q = peek(text, p);
    if !quote(q) {
        return None;
    }
    let (u, b) = copy_quoted(text, after(p), q, out, at)?;
    if b.0 == at.0 {
        return None;
    }
    Some((u, b))
}
