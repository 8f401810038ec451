// Judges of what a row of a left parse comes to: an attribute twice, and anything but one element.
#![tactic(auto)]

ghost use Rattle.std.specs.Prelude.{◌≡◌, ◌+◌, ◌<◌, ◌≤◌, length, set};
ghost use Rattle.text.specs.Lists.{Text, pick};
ghost use Rattle.xml.specs.Document.{not_one};
ghost use Rattle.cursor.specs.Ahead.{SomeRow};
ghost use Rattle.xml_shape.specs.Judges.{Judges};
ghost use Rattle.xml_shape.specs.Names.{repeated, Seen, name_tokens};
ghost use Rattle.xml_shape.specs.One.{more as oneMore, is_one};

use cursor::{Cursor, Event};

// One of the first `count` tokens has the name of the token.
fn is_seen(table: &[u32], seen: &[u32], count: usize, token: usize) -> bool
    requires { token < 4294967296 }
    ensures { Seen table.now seen.now count token result }
{
    for i in (0..count).rev() {
        let other = tokens::look(seen, i);
        if tokens::same_if_named(table, token, other) {
            return true;
        }
    }
    false
}

// The token is listed after the first `count`, if there is room; whether one of those has its name.
fn add_name(table: &[u32], seen: &mut [u32], count: usize, token: usize) -> bool
    requires { token < 4294967296 }
    ensures { (seen.new ≡ set seen.old count token) × Seen table.now seen.old count token result }
{
    let found = is_seen(table, seen, count, token);
    if count < seen.len() {
        seen[count] = token as u32;
    }
    found
}

// How many names are listed: one more, but none once a name came twice.
fn names_on(count: usize, twice: bool) -> usize
    requires { count + 1 < 18446744073709551616 }
    ensures { result ≡ pick twice count (count + 1) }
{
    if twice {
        return count;
    }
    count + 1
}

// Whether a row exposes two attributes of one name. Their tokens are listed in `seen`, which keeps nothing that counts: different names
// have different tokens, so there is room for all, however many attributes there are.
pub fn repeats_attribute(
    table: &[u32],
    parse: &[u32],
    scratch: &mut [u64],
    seen: &mut [u32],
    first: Cursor,
) -> bool
    requires name_tokens_in_bounds { name_tokens ≤ length seen.old }
    requires some_row { (r : Text) × SomeRow table.now parse.now r scratch.old first }
    ensures { Judges repeated table.now parse.now scratch.old scratch.new first result }
{
    let mut at = first;
    let mut count = 0;
    let mut twice = false;
    loop {
        let event = cursor::next(table, parse, scratch, at);
        match event {
            Event::Text(n) => {
                at = cursor::skip(table, parse, scratch, n);
            }
            Event::Open(_, n) => {
                at = cursor::past(table, parse, scratch, n);
            }
            Event::Attribute(token, n) => {
                twice = text::either(twice, add_name(table, seen, count, token));
                count = names_on(count, twice);
                at = cursor::past(table, parse, scratch, n);
            }
            Event::Close(_, n) => {
                at = n;
            }
            Event::End => {
                return twice;
            }
        }
    }
}

// What a row is: nothing yet, one element, or anything else: text, attributes or more elements.
#[derive(Clone, Copy)]
pub enum Shape {
    Nothing,
    OneElement,
    Other,
}

// One element more.
fn one_more(shape: Shape) -> Shape
    ensures { result ≡ oneMore shape }
{
    match shape {
        Shape::Nothing => Shape::OneElement,
        Shape::OneElement | Shape::Other => Shape::Other,
    }
}

fn is_one(shape: Shape) -> bool
    ensures { result ≡ is_one shape }
{
    matches!(shape, Shape::OneElement)
}

// Whether a row comes to anything else than one element.
pub fn not_one(table: &[u32], parse: &[u32], scratch: &mut [u64], first: Cursor) -> bool
    requires { (r : Text) × SomeRow table.now parse.now r scratch.old first }
    ensures { Judges not_one table.now parse.now scratch.old scratch.new first result }
{
    let mut at = first;
    let mut shape = Shape::Nothing;
    loop {
        let event = cursor::next(table, parse, scratch, at);
        match event {
            Event::Text(n) => {
                shape = Shape::Other;
                at = cursor::skip(table, parse, scratch, n);
            }
            Event::Open(_, n) => {
                shape = one_more(shape);
                at = cursor::past(table, parse, scratch, n);
            }
            Event::Attribute(_, n) => {
                shape = Shape::Other;
                at = cursor::past(table, parse, scratch, n);
            }
            Event::Close(_, n) => {
                at = n;
            }
            Event::End => {
                return !is_one(shape);
            }
        }
    }
}
