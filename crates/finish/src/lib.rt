// Reading off a main table that is filled whole. Nothing is asked of the table: one that is no fixed point is found out.
#![tactic(auto)]

ghost use Rattle.std.specs.Prelude.{◌≤◌, length};
ghost use Rattle.tree.specs.Tree.{Grammar};
ghost use Rattle.chart.specs.Code.{Ruled};
ghost use Rattle.rules.specs.Ready.{Ready, Token};
ghost use Rattle.chooser.specs.Choose.{Choosable};
ghost use Rattle.parser.specs.Chosen.{Chooses};
ghost use Rattle.finish.specs.Ended.{Settled, Ends};

use parser::Failure;
use reading::{Found, Root, Rule, Unread};
use text::CharPlace;

// The rules of a code: how many dots they have, the name of the root's rule and its first dot.
#[derive(Clone, Copy)]
pub struct Rules {
    pub size: usize,
    pub top: usize,
    pub first: usize,
}

// The chosen reading, or the place of the fault, by a table that is a fixed point. Local are 316,928 bytes.
fn read_off(
    table: &[u32],
    text: &[u32],
    code: &[u32],
    fits: &[u8],
    main: &[u32],
    rules: Rules,
    parse: &mut [u32],
) -> Result<Found, Failure>
    requires { Settled table.now code.now fits.now text.now rules.size rules.top rules.first main.now (length parse.old) }
    ensures { (g : Grammar) → Ruled (Token table.now) code.now g rules.size rules.top rules.first
        → Chooses g text.now parse.new result }
{
    let size = rules.size;
    let n = text.len();
    let mut marks = [0u8; sparse::MARKS];
    let mut notes = [0u32; sparse::NOTES];
    let rule = Rule {
        name: rules.top,
        first: rules.first,
    };
    let root = Root {
        size,
        n: CharPlace(n),
        rule,
    };
    match plain_reading::walk_filled(code, fits, main, root, &mut marks, &mut notes, parse) {
        Ok(found) => Ok(found),
        Err(Unread::TooLong) => Err(Failure::TooLong),
        Err(Unread::NoReading) => {
            let start = fault::Root {
                size,
                n: CharPlace(n),
                rule: rules.top,
            };
            let place = fault::place(table, text, code, &marks, &notes, main, start);
            Err(Failure::NoReading(place))
        }
    }
}

// The same of the grammar whose items the table has, by a main table that anyone may have filled; none where that is not the table of
// a finished read. Local are 111,104 bytes.
pub fn finish(
    table: &[u32],
    size: usize,
    root: usize,
    text: &[u32],
    main: &[u32],
    parse: &mut [u32],
) -> Option<Result<Found, Failure>>
    requires { Choosable table.now size root text.now (length main.now) (length parse.old) }
    ensures { (g : Grammar) → Ready table.now g size root → Ends g text.now main.now parse.new result }
{
    let mut code = [0u32; chart::CODE_LENGTH];
    let mut fits = [0u8; chart::FITS_LENGTH];
    let top = rules::code_rules(table, size, root, &mut code);
    prepare::fit_rows(table, size, text, &mut fits);
    let n = text.len();
    if !fixpoint::is_fixpoint(&code, &fits, main, size, n) {
        return None;
    }
    let rules = Rules {
        size,
        top,
        first: root,
    };
    Some(read_off(table, text, &code, &fits, main, rules, parse))
}
