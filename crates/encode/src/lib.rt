// The bytes of characters, in UTF-8 and escaped as XML asks, put into a buffer up to a limit.
#![tactic(auto)]

ghost use Rattle.std.specs.Prelude.{◌≡◌, true, false, [], ◌∷◌, ◌<◌, ◌≤◌, length, take, drop};
ghost use Rattle.text.specs.Utf8.{utf8};
ghost use Rattle.text.specs.Lists.{concat_map};
ghost use Rattle.xml.specs.Bytes.{escape};
ghost use Rattle.encode.specs.Out.{state, puts, Wrote, last_two, spelt};

use std::cmp::min;
use text::BytePlace;

// One byte. Past the limit nothing is stored, and the place stops after the room.
pub fn put(out: &mut [u8], limit: BytePlace, pos: BytePlace, b: u8) -> BytePlace
    requires { limit.0 ≤ length out.old }
    ensures { state result.0 out.new ≡ puts limit.0 (state pos.0 out.old) (b ∷ []) }
{
    let at = pos.0;
    if at < limit.0 {
        out[at] = b;
        return BytePlace(at + 1);
    }
    if at <= out.len() {
        return BytePlace(at + 1);
    }
    pos
}

pub fn put_all(out: &mut [u8], limit: BytePlace, pos: BytePlace, s: &[u8]) -> BytePlace
    requires { limit.0 ≤ length out.old }
    ensures { state result.0 out.new ≡ puts limit.0 (state pos.0 out.old) s.now }
{
    let mut at = pos;
    for b in s {
        at = put(out, limit, at, *b);
    }
    at
}

// The last two bytes of a character that has three or four.
fn put_last(out: &mut [u8], limit: BytePlace, pos: BytePlace, c: usize) -> BytePlace
    requires { limit.0 ≤ length out.old }
    ensures { state result.0 out.new ≡ puts limit.0 (state pos.0 out.old) (last_two c) }
{
    let q = put(out, limit, pos, (0x80 + c / 64 % 64) as u8);
    put(out, limit, q, (0x80 + c % 64) as u8)
}

fn put_three(out: &mut [u8], limit: BytePlace, pos: BytePlace, c: usize) -> BytePlace
    requires { (limit.0 ≤ length out.old) × ((2048 ≤ c) × (c < 65536)) }
    ensures { state result.0 out.new ≡ puts limit.0 (state pos.0 out.old) (utf8 c) }
{
    let q = put(out, limit, pos, (0xe0 + c / 4096) as u8);
    put_last(out, limit, q, c)
}

fn put_four(out: &mut [u8], limit: BytePlace, pos: BytePlace, c: usize) -> BytePlace
    requires { (limit.0 ≤ length out.old) × ((65536 ≤ c) × (c ≤ 1114112)) }
    ensures { state result.0 out.new ≡ puts limit.0 (state pos.0 out.old) (utf8 c) }
{
    let q = put(out, limit, pos, (0xf0 + c / 262144) as u8);
    let q = put(out, limit, q, (0x80 + c / 4096 % 64) as u8);
    put_last(out, limit, q, c)
}

// A character in UTF-8; every number above 10FFFF as 110000, as tables hold it.
pub fn put_char(out: &mut [u8], limit: BytePlace, pos: BytePlace, c: usize) -> BytePlace
    requires { limit.0 ≤ length out.old }
    ensures { Wrote limit.0 pos.0 out.old result.0 out.new (c ∷ []) }
{
    if c < 0x80 {
        return put(out, limit, pos, c as u8);
    }
    if c < 0x800 {
        let q = put(out, limit, pos, (0xc0 + c / 64) as u8);
        return put(out, limit, q, (0x80 + c % 64) as u8);
    }
    if c < 0x10000 {
        return put_three(out, limit, pos, c);
    }
    if c < 0x110000 {
        return put_four(out, limit, pos, c);
    }
    put_four(out, limit, pos, 0x110000)
}

// Where a character is written: in a name, as it is; in content; or in an attribute's value.
#[derive(Clone, Copy)]
pub enum Spelling {
    Plain,
    InContent,
    InValue,
}

fn put_in_content(out: &mut [u8], limit: BytePlace, pos: BytePlace, c: usize) -> BytePlace
    requires { limit.0 ≤ length out.old }
    ensures { Wrote limit.0 pos.0 out.old result.0 out.new (escape false c) }
{
    match c {
        0x26 => put_all(out, limit, pos, b"&amp;"),
        0x3c => put_all(out, limit, pos, b"&lt;"),
        0x3e => put_all(out, limit, pos, b"&gt;"),
        0xd => put_all(out, limit, pos, b"&#xD;"),
        _ => put_char(out, limit, pos, c),
    }
}

fn put_in_value(out: &mut [u8], limit: BytePlace, pos: BytePlace, c: usize) -> BytePlace
    requires { limit.0 ≤ length out.old }
    ensures { Wrote limit.0 pos.0 out.old result.0 out.new (escape true c) }
{
    match c {
        0x27 => put_all(out, limit, pos, b"&apos;"),
        0xa => put_all(out, limit, pos, b"&#xA;"),
        0x9 => put_all(out, limit, pos, b"&#x9;"),
        _ => put_in_content(out, limit, pos, c),
    }
}

// A character, escaped as where it is written asks.
fn put_escaped(
    out: &mut [u8],
    limit: BytePlace,
    pos: BytePlace,
    spelling: Spelling,
    c: usize,
) -> BytePlace
    requires { limit.0 ≤ length out.old }
    ensures { Wrote limit.0 pos.0 out.old result.0 out.new (spelt spelling c) }
{
    match spelling {
        Spelling::Plain => put_char(out, limit, pos, c),
        Spelling::InContent => put_in_content(out, limit, pos, c),
        Spelling::InValue => put_in_value(out, limit, pos, c),
    }
}

// So many cells of a table from a place on, as far as it goes.
pub fn stretch(table: &[u32], from: usize, count: usize) -> &[u32]
    ensures { result.now ≡ take count (drop from table.now) }
{
    let rest = &table[min(from, table.len())..];
    &rest[..min(count, rest.len())]
}

// A text, character by character.
pub fn put_text(
    out: &mut [u8],
    limit: BytePlace,
    pos: BytePlace,
    spelling: Spelling,
    text: &[u32],
) -> BytePlace
    requires { limit.0 ≤ length out.old }
    ensures { Wrote limit.0 pos.0 out.old result.0 out.new (concat_map (spelt spelling) text.now) }
{
    let mut q = pos;
    for c in text {
        q = put_escaped(out, limit, q, spelling, *c as usize);
    }
    q
}
