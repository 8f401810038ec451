// The prolog of a grammar text, which names its version.
ghost use Rattle.std.specs.Prelude.{◌≡◌, ◌≤◌, length};
ghost use Rattle.spacing.specs.Answers.{Room};
ghost use Rattle.reader.specs.Answers.{After-word, After-required, After-heading, After-version, After-prolog};

use crate::closing::closed;
use decode::CharPlace;
use spacing::{Cell, FULL_STOP};
use tokens::VERSION;

// Past a word.
fn word(text: &[u32], p: CharPlace, w: &[u8]) -> Option<CharPlace>
    requires { p.0 ≤ length text.now }
    ensures { After-word w.now text.now p.0 result }
{
    let mut at = p;
    for &b in w {
        if spacing::peek(text, at) != b as u32 {
            return None;
        }
        at = decode::after(at);
    }
    Some(at)
}

// Past spacing that must be there.
fn required(text: &[u32], p: CharPlace) -> Option<CharPlace>
    requires { p.0 ≤ length text.now }
    ensures { After-required text.now p.0 result }
{
    let q = spacing::skip(text, p)?;
    if q.0 == p.0 {
        return None;
    }
    Some(q)
}

// Past `ixml`, spacing and `version`: no rule begins so.
fn heading(text: &[u32], p: CharPlace) -> Option<CharPlace>
    requires { p.0 ≤ length text.now }
    ensures { After-heading text.now p.0 result }
{
    let u = word(text, p, b"ixml")?;
    let v = required(text, u)?;
    word(text, v, b"version")
}

// The version, after the heading.
fn version(text: &[u32], p: CharPlace, out: &mut [u32], at: Cell) -> Option<(CharPlace, Cell)>
    requires { Room text.now p.0 out.old at.0 }
    ensures { After-version text.now p.0 out.old at.0 result out.new }
{
    let v = required(text, p)?;
    let string = lexical::read_string(text, v, VERSION, out, at);
    closed(text, string, FULL_STOP, FULL_STOP)
}

// A prolog, or nothing.
pub fn prolog(text: &[u32], p: CharPlace, out: &mut [u32], at: Cell) -> Option<(CharPlace, Cell)>
    requires { Room text.now p.0 out.old at.0 }
    ensures { After-prolog text.now p.0 out.old at.0 result out.new }
{
    let Some(u) = heading(text, p) else {
        return Some((p, at));
    };
    version(text, u, out, at)
}
