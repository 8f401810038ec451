// A grammar's bytes to its tree in a table, checked by refusals 1 to 11.
#![tactic(auto)]

ghost use Rattle.std.specs.Prelude.{◌≡◌, length};
ghost use Rattle.load.specs.Checked.{stage_of, Standing, at_character, TreeChecked};
ghost use Rattle.load.specs.Loaded.{Roomy, Reads, Loads};
ghost use Rattle.text.specs.Limits.{grammar_table};

use text::{BytePlace, CharPlace, Diagnostic, Places, limits, refusals};

const LARGEST: u32 = limits::GRAMMAR_SIZE as u32;

// What the later stages need to know of a grammar that passes.
#[derive(Clone, Copy)]
pub struct Passed {
    pub end: usize,
    pub size: u32,
    pub mismatch: bool,
}

// A refusal at a character of the grammar.
fn at_character(number: u32, place: CharPlace) -> Diagnostic
    ensures { result ≡ at_character number place.0 }
{
    Diagnostic {
        number,
        places: Places {
            byte: BytePlace(0),
            fault: CharPlace(0),
            grammar: place,
        },
    }
}

// Checks the tree of a text, in the first numbers of the table, by refusals 5 to 11.
pub fn check_tree(text: &[u32], table: &[u32], end: usize) -> Result<Passed, Diagnostic>
    requires { Standing text.now table.now end }
    ensures { TreeChecked text.now table.now end result }
{
    if let Err(rule) = static_errors::static_refusal(table, end) {
        let place = locate::fault_place(text, table, end, rule);
        return Err(at_character(rule.number(), place));
    }
    let size = measure::grammar_size(table, end);
    if LARGEST < size {
        return Err(text::plain(refusals::GRAMMAR_TOO_LARGE));
    }
    let mismatch = static_errors::version_mismatch(table, end);
    Ok(Passed {
        end,
        size,
        mismatch,
    })
}

// The tree of a grammar's characters, checked.
pub fn read_text(text: &[u32], table: &mut [u32]) -> Result<Passed, Diagnostic>
    requires { Roomy text.now table.old }
    ensures { Reads text.now table.new (stage_of result) }
{
    let end = reader::read_grammar(text, table).ok_or(text::plain(refusals::NOT_IXML))?;
    check_tree(text, table, end.0)
}

// The tree of a grammar's bytes in the table, checked by refusals 1 to 11.
pub fn load_grammar(grammar: &[u8], table: &mut [u32]) -> Result<Passed, Diagnostic>
    requires { length table.old ≡ grammar_table }
    ensures { Loads grammar.now table.new result }
{
    if limits::GRAMMAR_BYTES < grammar.len() {
        return Err(text::plain(refusals::GRAMMAR_TOO_LONG));
    }
    let mut text = [0u32; limits::GRAMMAR_BYTES];
    let count = decode::decode_grammar(grammar, &mut text).map_err(|e| e.diagnostic(
        refusals::GRAMMAR_NOT_UTF8,
        refusals::GRAMMAR_CHARACTER,
    ))?;
    let n = count.0;
    read_text(&text[..n], table)
}
