// The chosen reading of a record by the plain engine: the whole main table is filled, one height after the other, and every flag is set.
#![tactic(auto)]

ghost use Rattle.std.specs.Prelude.{length};
ghost use Rattle.tree.specs.Tree.{Grammar};
ghost use Rattle.rules.specs.Ready.{Ready};
ghost use Rattle.reading.specs.Answer.{Answers};
ghost use Rattle.chooser.specs.Choose.{Choosable};
ghost use Rattle.plain_reading.specs.Filled.{Walkable, Walks};

use reading::{Found, Root, Rule, Unread};
use text::CharPlace;

// The walk over a main table that is filled whole: every flag is set, and the rules are noted.
pub fn walk_filled(
    code: &[u32],
    fits: &[u8],
    main: &[u32],
    root: Root,
    marks: &mut [u8],
    notes: &mut [u32],
    parse: &mut [u32],
) -> Result<Found, Unread>
    requires { Walkable code.now fits.now root.size root.n.0 root.rule.name root.rule.first main.now marks.old notes.old (length parse.old) }
    ensures { Walks code.now fits.now root.size root.n.0 root.rule.name root.rule.first main.now
        marks.new notes.new parse.new result }
{
    full::mark_all(code, fits, root.size, root.n.0, marks);
    empties::note_rules(code, notes, root.size);
    chooser::walk(code, marks, notes, main, root, parse)
}

// The left parse goes to `parse`. Local are 428,032 bytes.
pub fn read(
    table: &[u32],
    size: usize,
    root: usize,
    text: &[u32],
    main: &mut [u32],
    parse: &mut [u32],
) -> Result<Found, Unread>
    requires { Choosable table.now size root text.now (length main.old) (length parse.old) }
    ensures { (g : Grammar) → Ready table.now g size root → Answers g text.now parse.new result }
{
    let mut code = [0u32; chart::CODE_LENGTH];
    let mut fits = [0u8; chart::FITS_LENGTH];
    let top = prepare::prepare(table, size, root, text, &mut code, &mut fits);
    let n = text.len();
    sweeps::fill(&code, &fits, size, n, main);
    let mut marks = [0u8; sparse::MARKS];
    let mut notes = [0u32; sparse::NOTES];
    let rule = Rule {
        name: top,
        first: root,
    };
    let root = Root {
        size,
        n: CharPlace(n),
        rule,
    };
    walk_filled(&code, &fits, main, root, &mut marks, &mut notes, parse)
}
