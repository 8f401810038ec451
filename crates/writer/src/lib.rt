// The XML of a left parse: measured and written by the same folds over the events of a cursor, with no recursion.
#![tactic(auto)]

ghost use Rattle.std.specs.Prelude.{◌≡◌, false, ◌≤◌, length};
ghost use Rattle.items.specs.Items.{kind_at};
ghost use Rattle.cursor.specs.Ahead.{SomeRow, SomeNode};
ghost use Rattle.extent.specs.Extent.{Fits};
ghost use Rattle.left_parse.specs.Noted.{Room};
ghost use Rattle.writer.specs.Whole.{SomeJob, Documented, Wrotes};
ghost use Rattle.writer.specs.Markup.{fresh_at, Attributed, Opened, Came};

use cursor::{Cursor, Event};
use extent::Extent;
use markup::StateWords;
use tags::Output;
use text::BytePlace;

// What is written besides the document, and what is known of that.
#[derive(Clone, Copy)]
pub struct Plan {
    pub due: StateWords,
    pub extent: Extent,
}

// The head of a rule that is marked `-`.
const DELETED_HEAD: usize = tokens::RULE_HEAD_DELETED as usize;

// The attributes that a row exposes.
fn put_attributes(
    table: &[u32],
    parse: &[u32],
    record: &[u32],
    scratch: &mut [u64],
    out: &mut [u8],
    from: Output,
    first: Cursor,
) -> Output
    requires { (from.limit.0 ≤ length out.old) × SomeRow table.now parse.now «record».now scratch.old first }
    ensures { Attributed table.now parse.now «record».now scratch.old scratch.new
        out.old out.new from first result }
{
    let limit = from.limit;
    let mut pos = from.pos;
    let mut at = first;
    let mut quoted = false;
    loop {
        let event = cursor::next(table, parse, scratch, at);
        match event {
            Event::Text(n) => {
                let p = cursor::text_at(table, n);
                pos = tags::put_quoted(table, record, out, limit, pos, quoted, p);
                at = cursor::skip(table, parse, scratch, n);
            }
            Event::Open(_, n) => at = cursor::past(table, parse, scratch, n),
            Event::Attribute(token, n) => {
                pos = tags::put_equals(table, out, limit, pos, token);
                quoted = true;
                at = cursor::enter(table, parse, scratch, n);
            }
            Event::Close(_, n) => {
                pos = encode::put(out, limit, pos, b'\'');
                quoted = false;
                at = n;
            }
            Event::End => return tags::moved(from, pos),
        }
    }
}

// An element's start tag, with the attributes of its row, if there may be some.
fn put_open(
    table: &[u32],
    parse: &[u32],
    record: &[u32],
    scratch: &mut [u64],
    out: &mut [u8],
    o: Output,
    c: Cursor,
) -> Output
    requires limit_in_bounds { o.limit.0 ≤ length out.old }
    requires item_value { (kind_at table.now c.at.item ≡ 2) × SomeNode table.now parse.now «record».now scratch.old c }
    ensures { Opened table.now parse.now «record».now scratch.old scratch.new
        out.old out.new o c result }
{
    let h = c.at;
    let token = items::token_at(table, h.item);
    let tag = tags::put_start(table, out, o, token);
    if o.attributed {
        let first = cursor::inside(table, parse, scratch, c);
        return put_attributes(table, parse, record, scratch, out, tag, first);
    }
    tag
}

// What stands in elements.
fn put_content(
    table: &[u32],
    parse: &[u32],
    record: &[u32],
    scratch: &mut [u64],
    out: &mut [u8],
    from: Output,
    first: Cursor,
) -> Output
    requires { (from.limit.0 ≤ length out.old) × SomeRow table.now parse.now «record».now scratch.old first }
    ensures { Came table.now parse.now «record».now scratch.old scratch.new
        out.old out.new from first result }
{
    let mut at = first;
    let mut o = from;
    loop {
        let event = cursor::next(table, parse, scratch, at);
        match event {
            Event::Text(n) => {
                o = tags::put_text(table, record, out, o, cursor::text_at(table, n));
                at = cursor::skip(table, parse, scratch, n);
            }
            Event::Open(_, n) => {
                o = put_open(table, parse, record, scratch, out, o, n);
                at = cursor::enter(table, parse, scratch, n);
            }
            Event::Attribute(_, n) => at = cursor::past(table, parse, scratch, n),
            Event::Close(item, n) => {
                o = tags::put_close(table, out, o, items::token_at(table, item));
                at = n;
            }
            Event::End => return o,
        }
    }
}

// The document, up to a limit, from where no start tag is open; and the place after it.
fn put_document(
    table: &[u32],
    root: usize,
    parse: &[u32],
    record: &[u32],
    scratch: &mut [u64],
    out: &mut [u8],
    from: Output,
) -> BytePlace
    requires limit_in_bounds { (from.limit.0 ≤ length out.old) × (from.unclosed ≡ false) }
    requires room { Room table.now parse.now scratch.old × SomeJob table.now root parse.now «record».now scratch.old }
    ensures { Documented table.now root parse.now «record».now scratch.old
        scratch.new out.old out.new from result.0 }
{
    let head = markup::head_at(table);
    let a = tokens::look(parse, 0);
    let item = left_parse::alternative(table, root, a);
    let first = cursor::at_root(item);
    if tokens::look(table, head) == DELETED_HEAD {
        let bare = put_content(table, parse, record, scratch, out, from, first);
        return bare.pos;
    }
    let name = tags::put_start(table, out, from, head);
    let tag = put_attributes(table, parse, record, scratch, out, name, first);
    let inner = put_content(table, parse, record, scratch, out, tag, first);
    let whole = tags::put_close(table, out, inner, head);
    whole.pos
}

// At the beginning, with room up to a place.
fn fresh(limit: usize, plan: Plan) -> Output
    ensures { result ≡ fresh_at limit plan }
{
    let due = plan.due;
    let extent = plan.extent;
    Output {
        limit: BytePlace(limit),
        pos: BytePlace(0),
        unclosed: false,
        attributed: extent.attributed,
        due,
    }
}

// A document of which it is known that it fits.
fn write_fitting(
    table: &[u32],
    root: usize,
    parse: &[u32],
    record: &[u32],
    plan: Plan,
    scratch: &mut [u64],
    out: &mut [u8],
) -> Option<usize>
    requires fits { Fits plan.extent (length out.old) }
    requires room { Room table.now parse.now scratch.old × SomeJob table.now root parse.now «record».now scratch.old }
    ensures { Wrotes table.now root parse.now «record».now scratch.old
        out.old out.new plan result }
{
    let all = fresh(out.len(), plan);
    let n = put_document(table, root, parse, record, scratch, out, all);
    Some(n.0)
}

// A document that is measured first, so that nothing is stored of one that does not fit.
fn write_measured(
    table: &[u32],
    root: usize,
    parse: &[u32],
    record: &[u32],
    plan: Plan,
    scratch: &mut [u64],
    out: &mut [u8],
) -> Option<usize>
    requires { Room table.now parse.now scratch.old × SomeJob table.now root parse.now «record».now scratch.old }
    ensures { Wrotes table.now root parse.now «record».now scratch.old
        out.old out.new plan result }
{
    let room = out.len();
    let dry = fresh(0, plan);
    let m = put_document(table, root, parse, record, scratch, out, dry);
    if m.0 > room {
        return None;
    }
    let wet = fresh(room, plan);
    let n = put_document(table, root, parse, record, scratch, out, wet);
    Some(n.0)
}

// The count of bytes that were written; nothing, if they do not fit.
pub fn write_xml(
    table: &[u32],
    root: usize,
    parse: &[u32],
    record: &[u32],
    plan: Plan,
    scratch: &mut [u64],
    out: &mut [u8],
) -> Option<usize>
    requires { Room table.now parse.now scratch.old × SomeJob table.now root parse.now «record».now scratch.old }
    ensures { Wrotes table.now root parse.now «record».now scratch.old
        out.old out.new plan result }
{
    let extent = plan.extent;
    if extent::fits(extent, out.len()) {
        return write_fitting(table, root, parse, record, plan, scratch, out);
    }
    write_measured(table, root, parse, record, plan, scratch, out)
}
