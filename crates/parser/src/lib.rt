// The chosen reading of a record by the items of a grammar, or the place of the fault.
#![tactic(auto)]

ghost use Rattle.std.specs.Prelude.{◌+◌, ◌*◌, ◌≤◌, length, ◌≡◌};
ghost use Rattle.text.specs.Limits.{reading_numbers};
ghost use Rattle.tree.specs.Tree.{Grammar};
ghost use Rattle.chart.specs.Code.{Ruled};
ghost use Rattle.rules.specs.Ready.{Ready, Token};
ghost use Rattle.sparse.specs.Cells.{Noted};
ghost use Rattle.sparse.specs.Steps.{Empties};
ghost use Rattle.quick_reading.specs.Readable.{Flagged};
ghost use Rattle.chooser.specs.Choose.{Choosable};
ghost use Rattle.parser.specs.Choose.{Coded, Blank, LocatableAnew};
ghost use Rattle.parser.specs.Chosen.{Fault, tried_of, Chooses};

use reading::{Found, Root, Rule, Unread};
use text::CharPlace;

// Why there is no reading to answer: it is too long, or there is none, and the fault is at the place.
#[derive(Clone, Copy)]
pub enum Failure {
    TooLong,
    NoReading(CharPlace),
}

// What the quick engine comes to, if the place is that of the fault.
fn of_tried(tried: Option<Result<Found, Unread>>, place: CharPlace) -> Result<Found, Failure>
    ensures { result ≡ tried_of tried place }
{
    match tried {
        Some(Ok(found)) => Ok(found),
        Some(Err(Unread::TooLong)) => Err(Failure::TooLong),
        Some(Err(Unread::NoReading)) | None => Err(Failure::NoReading(place)),
    }
}

// The place of the fault in a record, by what the pass from the left flags.
fn locate(
    table: &[u32],
    text: &[u32],
    code: &[u32],
    marks: &[u8],
    notes: &[u32],
    main: &mut [u32],
    root: Root,
) -> CharPlace
    requires { Coded table.now code.now text.now root.size root.n.0 root.rule.name root.rule.first (length main.old)
        × (Noted code.now root.size notes.now × Empties code.now notes.now root.size)
        × Flagged table.now code.now text.now root.size root.rule.name marks.now }
    ensures { (g : Grammar) → Ruled (Token table.now) code.now g root.size root.rule.name root.rule.first → Fault g text.now result.0 }
{
    let n = root.n;
    let start = fault::Root {
        size: root.size,
        n,
        rule: root.rule.name,
    };
    confirm::find(table, text, code, marks, notes, main, start)
}

// By the quick engine, on flags of which none is set; the search for the fault goes on with them. A doubt is settled by the search: a fault
// before the record's end says that there is no reading; else the engine goes to its end.
fn choose_coded(
    table: &[u32],
    text: &[u32],
    code: &[u32],
    marks: &mut [u8],
    main: &mut [u32],
    parse: &mut [u32],
    root: Root,
) -> Result<Found, Failure>
    requires { Coded table.now code.now text.now root.size root.n.0 root.rule.name root.rule.first (length main.old)
        × Blank root.n.0 marks.old × (reading_numbers ≤ length parse.old) }
    ensures { (g : Grammar) → Ruled (Token table.now) code.now g root.size root.rule.name root.rule.first
        → Chooses g text.now parse.new result }
{
    let mut notes = [0u32; sparse::NOTES];
    empties::note_rules(code, &mut notes, root.size);
    if !quick_reading::flag(table, text, code, marks, root) {
        return Err(Failure::NoReading(locate(table, text, code, marks, &notes, main, root)));
    }
    let tried = quick_reading::attempt(code, marks, &notes, main, root, parse, true);
    if quick_reading::is_answer(tried) {
        return of_tried(tried, CharPlace(0));
    }
    let place = locate(table, text, code, marks, &notes, main, root);
    if quick_reading::is_refused(tried, place, text.len()) {
        return Err(Failure::NoReading(place));
    }
    let again = quick_reading::attempt(code, marks, &notes, main, root, parse, false);
    of_tried(again, place)
}

// Flags are cleared for no more places than records of about that length have.
const SHORT: usize = 24;

const MIDDLE: usize = 96;

const SHORT_MARKS: usize = reach::PLACE * (SHORT + 1);

const MIDDLE_MARKS: usize = reach::PLACE * (MIDDLE + 1);

// The same with flags of its own, for a record that they have room for. Local are LENGTH bytes.
fn choose_flagged<const LENGTH: usize>(
    table: &[u32],
    text: &[u32],
    code: &[u32],
    main: &mut [u32],
    parse: &mut [u32],
    root: Root,
) -> Result<Found, Failure>
    requires { Coded table.now code.now text.now root.size root.n.0 root.rule.name root.rule.first (length main.old)
        × (reading_numbers ≤ length parse.old) × (1536 * root.n.0 + 1536 ≤ LENGTH) × (LENGTH ≤ 308736) }
    ensures { (g : Grammar) → Ruled (Token table.now) code.now g root.size root.rule.name root.rule.first
        → Chooses g text.now parse.new result }
{
    let mut marks = [0u8; LENGTH];
    choose_coded(table, text, code, &mut marks, main, parse, root)
}

// By the quick engine. Local are 8,192 bytes.
fn choose_quick(
    table: &[u32],
    size: usize,
    root: usize,
    text: &[u32],
    main: &mut [u32],
    parse: &mut [u32],
) -> Result<Found, Failure>
    requires { Choosable table.now size root text.now (length main.old) (length parse.old) }
    ensures { (g : Grammar) → Ready table.now g size root → Chooses g text.now parse.new result }
{
    let mut code = [0u32; chart::CODE_LENGTH];
    let top = rules::code_rules(table, size, root, &mut code);
    let n = text.len();
    let start = Root {
        size,
        n: CharPlace(n),
        rule: Rule {
            name: top,
            first: root,
        },
    };
    if n <= SHORT {
        return choose_flagged::<SHORT_MARKS>(table, text, &code, main, parse, start);
    }
    if n <= MIDDLE {
        return choose_flagged::<MIDDLE_MARKS>(table, text, &code, main, parse, start);
    }
    choose_flagged::<{ sparse::MARKS }>(table, text, &code, main, parse, start)
}

// The place of the fault in a record that has no reading, with a pass from the left of its own. Local are 325,120 bytes.
fn locate_anew(table: &[u32], size: usize, root: usize, text: &[u32], main: &mut [u32]) -> CharPlace
    requires { LocatableAnew table.now size root text.now (length main.old) }
    ensures { (g : Grammar) → Ready table.now g size root → Fault g text.now result.0 }
{
    let mut code = [0u32; chart::CODE_LENGTH];
    let mut marks = [0u8; sparse::MARKS];
    let mut notes = [0u32; sparse::NOTES];
    let top = rules::code_rules(table, size, root, &mut code);
    empties::note_rules(&code, &mut notes, size);
    left_pass::left(table, text, &code, &mut marks, size, top);
    let start = Root {
        size,
        n: CharPlace(text.len()),
        rule: Rule {
            name: top,
            first: root,
        },
    };
    locate(table, text, &code, &marks, &notes, main, start)
}

// By the plain engine, which has no flags of its own.
fn choose_plain(
    table: &[u32],
    size: usize,
    root: usize,
    text: &[u32],
    main: &mut [u32],
    parse: &mut [u32],
) -> Result<Found, Failure>
    requires { Choosable table.now size root text.now (length main.old) (length parse.old) }
    ensures { (g : Grammar) → Ready table.now g size root → Chooses g text.now parse.new result }
{
    match plain_reading::read(table, size, root, text, main, parse) {
        Ok(found) => Ok(found),
        Err(Unread::TooLong) => Err(Failure::TooLong),
        Err(Unread::NoReading) => {
            let place = locate_anew(table, size, root, text, main);
            Err(Failure::NoReading(place))
        }
    }
}

// The chosen reading by the engine that is asked for, or the place of the fault.
pub fn choose_by(
    plain: bool,
    table: &[u32],
    size: usize,
    root: usize,
    text: &[u32],
    main: &mut [u32],
    parse: &mut [u32],
) -> Result<Found, Failure>
    requires { Choosable table.now size root text.now (length main.old) (length parse.old) }
    ensures { (g : Grammar) → Ready table.now g size root → Chooses g text.now parse.new result }
{
    if plain {
        return choose_plain(table, size, root, text, main, parse);
    }
    choose_quick(table, size, root, text, main, parse)
}
