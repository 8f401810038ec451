// What forbids to write the document of a left parse: refusals 17 to 22.
#![tactic(auto)]

ghost use Rattle.std.specs.Prelude.{◌≡◌, ℕ, ◌<◌, ◌≤◌, length};
ghost use Rattle.text.specs.Lists.{Text};
ghost use Rattle.xml.specs.Document.{twice};
ghost use Rattle.items.specs.Items.{kind_at};
ghost use Rattle.left_parse.specs.Noted.{Room};
ghost use Rattle.left_parse.specs.Steps.{Named};
ghost use Rattle.cursor.specs.Ahead.{SomeRow, SomeNode};
ghost use Rattle.writer.specs.Whole.{SomeJob};
ghost use Rattle.xml_shape.specs.Judges.{Judges};
ghost use Rattle.xml_shape.specs.Names.{name_tokens};
ghost use Rattle.dynamic_errors.specs.Within.{Repeats, RowFound, Attributed};
ghost use Rattle.dynamic_errors.specs.Judgment.{topmost, twice_in, misnamed_in, not_one_in, error_number, verdict_number, RowJudged, Judged};

use cursor::{Cursor, Event};
use extent::Extent;
use text::refusals;
use xml_names::Faults;

// Heads of rules that are marked `-` and `@`.
const DELETED_HEAD: usize = tokens::RULE_HEAD_DELETED as usize;

const ATTRIBUTE_HEAD: usize = tokens::RULE_HEAD_ATTRIBUTE as usize;

// Whether an element has an attribute twice.
fn repeats_in(
    table: &[u32],
    parse: &[u32],
    scratch: &mut [u64],
    seen: &mut [u32],
    c: Cursor,
) -> bool
    requires name_tokens_in_bounds { name_tokens ≤ length seen.old }
    requires item_value { (kind_at table.now c.at.item ≡ 2) × ((r : Text) × SomeNode table.now parse.now r scratch.old c) }
    ensures { Repeats table.now parse.now scratch.old scratch.new c result }
{
    let first = cursor::inside(table, parse, scratch, c);
    xml_shape::repeats_attribute(table, parse, scratch, seen, first)
}

// What is found in a row: the faults, and what its XML takes.
#[derive(Clone, Copy)]
pub struct Findings {
    pub faults: Faults,
    pub extent: Extent,
}

fn found_in(
    table: &[u32],
    parse: &[u32],
    record: &[u32],
    scratch: &mut [u64],
    first: Cursor,
) -> Findings
    requires { SomeRow table.now parse.now «record».now scratch.old first }
    ensures { RowFound table.now parse.now «record».now scratch.old scratch.new first result }
{
    let mut faults = Faults {
        misnamed: false,
        unwritable: false,
        namespaced: false,
    };
    let mut extent = extent::none();
    let mut at = first;
    loop {
        let event = cursor::next(table, parse, scratch, at);
        match event {
            Event::Text(n) => {
                let p = cursor::text_at(table, n);
                let count = p.count;
                faults = xml_names::join(faults, xml_names::of_text(table, record, p));
                extent = extent::with_text(extent, count);
                at = cursor::skip(table, parse, scratch, n);
            }
            Event::Open(token, n) => {
                faults = xml_names::join(faults, xml_names::of_name(table, token));
                extent = extent::with_element(extent, table, token);
                at = cursor::enter(table, parse, scratch, n);
            }
            Event::Attribute(token, n) => {
                faults = xml_names::join(faults, xml_names::of_attribute(table, token));
                extent = extent::with_attribute(extent, table, token);
                at = cursor::enter(table, parse, scratch, n);
            }
            Event::Close(_, n) => at = n,
            Event::End => return Findings { faults, extent },
        }
    }
}

// Whether an element of a row, at any depth, has an attribute twice. Nothing is promised of `seen`.
fn twice_within(
    table: &[u32],
    parse: &[u32],
    scratch: &mut [u64],
    seen: &mut [u32],
    first: Cursor,
) -> bool
    requires { (name_tokens ≤ length seen.old) × ((r : Text) × SomeRow table.now parse.now r scratch.old first) }
    ensures { Judges twice table.now parse.now scratch.old scratch.new first result }
{
    let mut found = false;
    let mut at = first;
    loop {
        let event = cursor::next(table, parse, scratch, at);
        match event {
            Event::Text(n) => at = cursor::skip(table, parse, scratch, n),
            Event::Open(_, n) => {
                found = text::either(found, repeats_in(table, parse, scratch, seen, n));
                at = cursor::enter(table, parse, scratch, n);
            }
            Event::Attribute(_, n) => at = cursor::past(table, parse, scratch, n),
            Event::Close(_, n) => at = n,
            Event::End => return found,
        }
    }
}

// Tokens stand in the first cells of the table: names have no more.
const NAME_TOKENS: usize = 12288;

// An attribute twice, with those that the document's element has from its row. The names seen are local: 49,152 bytes.
fn twice_around(
    table: &[u32],
    parse: &[u32],
    scratch: &mut [u64],
    first: Cursor,
    deleted: bool,
) -> bool
    requires { (r : Text) × SomeRow table.now parse.now r scratch.old first }
    ensures { Judges (twice_in deleted) table.now parse.now scratch.old scratch.new first result }
{
    let mut seen = [0u32; NAME_TOKENS];
    let within = twice_within(table, parse, scratch, &mut seen, first);
    if deleted {
        return within;
    }
    let again = xml_shape::repeats_attribute(table, parse, scratch, &mut seen, first);
    text::either(again, within)
}

// 17: the same, of a row that has attributes only if that is said.
fn twice_in(
    table: &[u32],
    parse: &[u32],
    scratch: &mut [u64],
    first: Cursor,
    deleted: bool,
    attributed: bool,
) -> bool
    requires attributed { Attributed table.now parse.now scratch.old first attributed }
    requires some_row { (r : Text) × SomeRow table.now parse.now r scratch.old first }
    ensures { Judges (twice_in deleted) table.now parse.now scratch.old scratch.new first result }
{
    attributed && twice_around(table, parse, scratch, first, deleted)
}

// 18: a name that is no XML name, with the name of the document's element.
fn misnamed_in(table: &[u32], head: usize, deleted: bool, found: bool) -> bool
    requires { head < 4294967298 }
    ensures { (k : ℕ) (n : Text) → Named table.now head k n → result ≡ misnamed_in deleted n found }
{
    if deleted {
        return found;
    }
    let bad = xml_names::bad_name(table, head);
    text::either(bad, found)
}

// 21: not one element. A root that is not deleted is one.
fn not_one_in(
    table: &[u32],
    parse: &[u32],
    scratch: &mut [u64],
    first: Cursor,
    deleted: bool,
) -> bool
    requires { (r : Text) × SomeRow table.now parse.now r scratch.old first }
    ensures { Judges (not_one_in deleted) table.now parse.now scratch.old scratch.new first result }
{
    deleted && xml_shape::not_one(table, parse, scratch, first)
}

// What forbids to write a document.
#[derive(Clone, Copy)]
pub enum DynamicError {
    RepeatedAttribute,
    NotXmlName,
    NotXmlCharacter,
    AttributeRoot,
    DeletedRoot,
    AttributeXmlns,
}

impl DynamicError {
    // The number of the refusal.
    pub fn number(self) -> u32
        ensures { result ≡ error_number self }
    {
        match self {
            DynamicError::RepeatedAttribute => refusals::REPEATED_ATTRIBUTE,
            DynamicError::NotXmlName => refusals::NOT_XML_NAME,
            DynamicError::NotXmlCharacter => refusals::NOT_XML_CHARACTER,
            DynamicError::AttributeRoot => refusals::ATTRIBUTE_ROOT,
            DynamicError::DeletedRoot => refusals::DELETED_ROOT,
            DynamicError::AttributeXmlns => refusals::ATTRIBUTE_XMLNS,
        }
    }
}

// The topmost line that applies.
fn top_line(
    twice: bool,
    misnamed: bool,
    unwritable: bool,
    attribute: bool,
    beside: bool,
    namespaced: bool,
) -> Result<(), DynamicError>
    ensures { verdict_number result ≡ topmost twice misnamed unwritable attribute beside namespaced }
{
    if twice {
        return Err(DynamicError::RepeatedAttribute);
    }
    if misnamed {
        return Err(DynamicError::NotXmlName);
    }
    if unwritable {
        return Err(DynamicError::NotXmlCharacter);
    }
    if attribute {
        return Err(DynamicError::AttributeRoot);
    }
    if beside {
        return Err(DynamicError::DeletedRoot);
    }
    if namespaced {
        return Err(DynamicError::AttributeXmlns);
    }
    Ok(())
}

// What is said of a document, and what its XML takes.
#[derive(Clone, Copy)]
pub struct Review {
    pub verdict: Result<(), DynamicError>,
    pub extent: Extent,
}

// The review of a root, whose token is known, by the row that stands in it.
fn judge_row(
    table: &[u32],
    parse: &[u32],
    record: &[u32],
    scratch: &mut [u64],
    head: usize,
    first: Cursor,
) -> Review
    requires { (head < 4294967298) × SomeRow table.now parse.now «record».now scratch.old first }
    ensures { RowJudged table.now parse.now «record».now scratch.old scratch.new head first result }
{
    let mark = tokens::look(table, head);
    let deleted = mark == DELETED_HEAD;
    let attribute = mark == ATTRIBUTE_HEAD;
    let found = found_in(table, parse, record, scratch, first);
    let f = found.faults;
    let e = found.extent;
    let twice = twice_in(table, parse, scratch, first, deleted, e.attributed);
    let misnamed = misnamed_in(table, head, deleted, f.misnamed);
    let beside = not_one_in(table, parse, scratch, first, deleted);
    let verdict = top_line(
        twice,
        misnamed,
        f.unwritable,
        attribute,
        beside,
        f.namespaced,
    );
    let extent = extent::with_element(e, table, head);
    Review { verdict, extent }
}

// 17 to 22 of a left parse. `scratch` has its notes, and keeps them.
pub fn first_error(
    table: &[u32],
    root: usize,
    parse: &[u32],
    record: &[u32],
    scratch: &mut [u64],
) -> Review
    requires { Room table.now parse.now scratch.old × SomeJob table.now root parse.now «record».now scratch.old }
    ensures { Judged table.now root parse.now «record».now scratch.old scratch.new result }
{
    let head = markup::head_at(table);
    let a = tokens::look(parse, 0);
    let item = left_parse::alternative(table, root, a);
    let first = cursor::at_root(item);
    judge_row(table, parse, record, scratch, head, first)
}
