// The bytes of names, terminals' text, states and tags, put into a buffer up to a limit.
#![tactic(auto)]

ghost use Rattle.std.specs.Prelude.{◌≡◌, ℕ, ◌<◌, ◌≤◌, length};
ghost use Rattle.text.specs.Lists.{Text, chars, concat_map};
ghost use Rattle.xml.specs.Bytes.{state_with};
ghost use Rattle.left_parse.specs.Steps.{Named};
ghost use Rattle.encode.specs.Out.{enc, Wrote, spelt};
ghost use Rattle.markup.specs.Pieces.{said, Pieced, Headed};
ghost use Rattle.markup.specs.Tags.{closing, lead_of, end_of, state_of, no_words};

use encode::Spelling;
use text::{BytePlace, CharPlace};

// Kinds of tokens, as numbers that are looked up.
const INSERT_QUOTED: usize = tokens::INSERT_QUOTED as usize;

const INSERT_CODED: usize = tokens::INSERT_CODED as usize;

const VERSION: usize = tokens::VERSION as usize;

const MARKS: usize = tokens::MARKS as usize;

const DELETED: usize = tokens::DELETED as usize;

// The name that a token holds.
pub fn name_of(table: &[u32], token: usize) -> &[u32]
    requires { token < 4294967298 }
    ensures { (k : ℕ) (n : Text) → Named table.now token k n → result.now ≡ n }
{
    let count = tokens::look(table, token + tokens::COUNT);
    encode::stretch(table, token + tokens::CHARS, count)
}

// It is written as it stands.
pub fn put_name(
    out: &mut [u8],
    limit: BytePlace,
    pos: BytePlace,
    table: &[u32],
    token: usize,
) -> BytePlace
    requires { (limit.0 ≤ length out.old) × (token < 4294967298) }
    ensures { (k : ℕ) (n : Text) → Named table.now token k n → Wrote limit.0 pos.0 out.old result.0 out.new n }
{
    encode::put_text(out, limit, pos, Spelling::Plain, name_of(table, token))
}

// Where text stands: at a cell of the table, if it is inserted, or at a place in the record.
#[derive(Clone, Copy)]
pub enum Source {
    Table(usize),
    Record(CharPlace),
}

// The text of a terminal: so many characters from there on.
#[derive(Clone, Copy)]
pub struct Piece {
    pub from: Source,
    pub count: usize,
}

pub fn piece_of(table: &[u32], token: usize, place: CharPlace) -> Piece
    requires { token < 4294967296 }
    ensures { Pieced table.now token place.0 result }
{
    let c = tokens::look(table, token);
    if c == INSERT_QUOTED {
        let count = tokens::look(table, token + tokens::COUNT);
        let from = Source::Table(token + tokens::CHARS);
        return Piece { from, count };
    }
    if c == INSERT_CODED {
        let from = Source::Table(token + tokens::VALUE);
        return Piece { from, count: 1 };
    }
    let from = Source::Record(place);
    if c % MARKS == DELETED {
        return Piece { from, count: 0 };
    }
    let count = tokens::terminal_width(table, token);
    Piece { from, count }
}

// Its characters.
pub fn said<'a>(table: &'a [u32], record: &'a [u32], p: Piece) -> &'a [u32]
    ensures { result.now ≡ said table.now «record».now p }
{
    let from = p.from;
    match from {
        Source::Table(cell) => encode::stretch(table, cell, p.count),
        Source::Record(place) => encode::stretch(record, place.0, p.count),
    }
}

pub fn put_piece(
    out: &mut [u8],
    limit: BytePlace,
    pos: BytePlace,
    spelling: Spelling,
    table: &[u32],
    record: &[u32],
    p: Piece,
) -> BytePlace
    requires { limit.0 ≤ length out.old }
    ensures { Wrote limit.0 pos.0 out.old result.0 out.new (concat_map (spelt spelling) (said table.now «record».now p)) }
{
    encode::put_text(out, limit, pos, spelling, said(table, record, p))
}

// The words of a state.
#[derive(Clone, Copy)]
pub struct StateWords {
    pub ambiguous: bool,
    pub mismatch: bool,
}

pub fn no_words() -> StateWords
    ensures { result ≡ no_words }
{
    StateWords {
        ambiguous: false,
        mismatch: false,
    }
}

// A state of these words.
fn put_words(out: &mut [u8], limit: BytePlace, pos: BytePlace, words: &[u8]) -> BytePlace
    requires { limit.0 ≤ length out.old }
    ensures { (t : Text) → enc t ≡ words.now → Wrote limit.0 pos.0 out.old result.0 out.new (state_with t) }
{
    let namespace = b" xmlns:ixml='http://invisiblexml.org/NS' ixml:state='";
    let q = encode::put_all(out, limit, pos, namespace);
    let q = encode::put_all(out, limit, q, words);
    encode::put(out, limit, q, b'\'')
}

// The state, if one is due.
pub fn put_state(out: &mut [u8], limit: BytePlace, pos: BytePlace, due: StateWords) -> BytePlace
    requires { limit.0 ≤ length out.old }
    ensures { Wrote limit.0 pos.0 out.old result.0 out.new (state_of due) }
{
    if due.ambiguous {
        if due.mismatch {
            return put_words(out, limit, pos, b"ambiguous version-mismatch");
        }
        return put_words(out, limit, pos, b"ambiguous");
    }
    if due.mismatch {
        return put_words(out, limit, pos, b"version-mismatch");
    }
    pos
}

pub fn put_lead(out: &mut [u8], limit: BytePlace, pos: BytePlace, unclosed: bool) -> BytePlace
    requires { limit.0 ≤ length out.old }
    ensures { Wrote limit.0 pos.0 out.old result.0 out.new (lead_of unclosed) }
{
    if unclosed {
        return encode::put(out, limit, pos, b'>');
    }
    pos
}

pub fn put_end(
    out: &mut [u8],
    limit: BytePlace,
    pos: BytePlace,
    unclosed: bool,
    table: &[u32],
    token: usize,
) -> BytePlace
    requires { (limit.0 ≤ length out.old) × (token < 4294967298) }
    ensures { (k : ℕ) (n : Text) → Named table.now token k n → Wrote limit.0 pos.0 out.old result.0 out.new (end_of unclosed (chars "/>") (closing n)) }
{
    if unclosed {
        return encode::put_all(out, limit, pos, b"/>");
    }
    let q = encode::put_all(out, limit, pos, b"</");
    let q = put_name(out, limit, q, table, token);
    encode::put(out, limit, q, b'>')
}

// The place of the root's token: after the version, if there is one.
pub fn head_at(table: &[u32]) -> usize
    ensures { Headed table.now result }
{
    if tokens::look(table, 0) == VERSION {
        return 2 + tokens::look(table, 1);
    }
    0
}
