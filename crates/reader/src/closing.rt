// What closes the head of a rule and the version: a character that must follow, with spacing before and after it.
ghost use Rattle.std.specs.Prelude.{◌≡◌, ◌<◌};
ghost use Rattle.spacing.specs.Answers.{Step-in};
ghost use Rattle.reader.specs.Answers.{one_of, Closed};

use decode::CharPlace;
use spacing::Cell;

// Whether a character is one of two.
#[tactic(auto, unfolding(crate::specs::Answers::one_of, syntax::specs::Syntax::ch))]
fn one_of(c: u32, first: u32, second: u32) -> bool
    ensures { result ≡ one_of first second c }
{
    c == first || c == second
}

// Past the spacing after a word, one of two characters, which must follow, and the spacing after that.
pub fn closed(
    text: &[u32],
    word: Option<(CharPlace, Cell)>,
    first: u32,
    second: u32,
) -> Option<(CharPlace, Cell)>
    requires { Step-in text.now word × ((first < 1114112) × (second < 1114112)) }
    ensures { Closed (one_of first second) text.now word result }
{
    let (w, b) = spacing::spaced(text, word)?;
    if !one_of(spacing::peek(text, w), first, second) {
        return None;
    }
    let y = spacing::skip(text, decode::after(w))?;
    Some((y, b))
}
