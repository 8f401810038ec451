// A grammar's bytes to its plain rules in a table, or the refusal: 1 to 11, then 24.
#![tactic(auto)]

ghost use Rattle.std.specs.Prelude.{◌≡◌, length};
ghost use Rattle.text.specs.Limits.{grammar_table};
ghost use Rattle.accept.specs.Accepted.{Accepts};

use text::{Diagnostic, refusals};

// What the later stages need to know of an accepted grammar: the first item of the root's rule, its size, whether its version is another
// one, and the place after its tokens.
#[derive(Clone, Copy)]
pub struct Rules {
    pub root: usize,
    pub size: usize,
    pub mismatch: bool,
    pub end: usize,
}

// The tokens and the plain rules of a grammar's bytes in the table.
pub fn accept_grammar(grammar: &[u8], table: &mut [u32]) -> Result<Rules, Diagnostic>
    requires { length table.old ≡ grammar_table }
    ensures { Accepts grammar.now table.new result }
{
    let passed = load::load_grammar(grammar, table)?;
    let size = text::wide(passed.size);
    let root = items::build_items(table, passed.end);
    if productive::some_unproductive(table, size, root) {
        return Err(text::plain(refusals::UNPRODUCTIVE_RULE));
    }
    Ok(Rules {
        root,
        size,
        mismatch: passed.mismatch,
        end: passed.end,
    })
}
