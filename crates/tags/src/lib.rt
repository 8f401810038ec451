// Start tags, attributes, text and end tags, put one after the other into a buffer up to a limit.
#![tactic(auto)]

ghost use Rattle.std.specs.Prelude.{◌≡◌, true, false, ◌++◌, ℕ, ◌<◌, ◌≤◌, length};
ghost use Rattle.text.specs.Lists.{Text, chars, pick, concat_map};
ghost use Rattle.xml.specs.Bytes.{escape};
ghost use Rattle.left_parse.specs.Steps.{Named};
ghost use Rattle.encode.specs.Out.{Wrote};
ghost use Rattle.markup.specs.Pieces.{Says};
ghost use Rattle.markup.specs.Tags.{closing, lead_of, end_of, state_of, no_words};
ghost use Rattle.tags.specs.Stated.{turned};

use encode::Spelling;
use markup::{Piece, StateWords};
use text::BytePlace;

// Where writing stands: where the room ends, the next byte's place, whether a start tag is still open, whether start tags may have
// attributes, and the state that the next start tag gets.
#[derive(Clone, Copy)]
pub struct Output {
    pub limit: BytePlace,
    pub pos: BytePlace,
    pub unclosed: bool,
    pub attributed: bool,
    pub due: StateWords,
}

// Text, if it stands in an attribute's value.
pub fn put_quoted(
    table: &[u32],
    record: &[u32],
    out: &mut [u8],
    limit: BytePlace,
    pos: BytePlace,
    quoted: bool,
    p: Piece,
) -> BytePlace
    requires { limit.0 ≤ length out.old }
    ensures { (t : Text) → Says table.now «record».now p t
        → Wrote limit.0 pos.0 out.old result.0 out.new (pick quoted (concat_map (escape true) t) (chars "")) }
{
    if quoted {
        return markup::put_piece(out, limit, pos, Spelling::InValue, table, record, p);
    }
    pos
}

// An attribute up to its value.
pub fn put_equals(
    table: &[u32],
    out: &mut [u8],
    limit: BytePlace,
    pos: BytePlace,
    token: usize,
) -> BytePlace
    requires { (limit.0 ≤ length out.old) × (token < 4294967298) }
    ensures { (k : ℕ) (n : Text) → Named table.now token k n → Wrote limit.0 pos.0 out.old result.0 out.new (chars " " ++ (n ++ chars "='")) }
{
    let q = encode::put(out, limit, pos, b' ');
    let q = markup::put_name(out, limit, q, table, token);
    encode::put_all(out, limit, q, b"='")
}

// The same output, at another place.
pub fn moved(o: Output, pos: BytePlace) -> Output
    ensures { result ≡ turned o pos o.unclosed o.due }
{
    let limit = o.limit;
    let due = o.due;
    Output {
        limit,
        pos,
        unclosed: o.unclosed,
        attributed: o.attributed,
        due,
    }
}

// A start tag that is not shut yet, with the state that is due, in an element whose start tag it shuts.
pub fn put_start(table: &[u32], out: &mut [u8], o: Output, token: usize) -> Output
    requires { (o.limit.0 ≤ length out.old) × (token < 4294967298) }
    ensures { (result ≡ turned o result.pos true no_words) × ((k : ℕ) (n : Text) → Named table.now token k n
        → Wrote o.limit.0 o.pos.0 out.old result.pos.0 out.new (lead_of o.unclosed ++ (chars "<" ++ (n ++ state_of o.due)))) }
{
    let limit = o.limit;
    let due = o.due;
    let q = o.pos;
    let q = markup::put_lead(out, limit, q, o.unclosed);
    let q = encode::put(out, limit, q, b'<');
    let q = markup::put_name(out, limit, q, table, token);
    let pos = markup::put_state(out, limit, q, due);
    let none = markup::no_words();
    Output {
        limit,
        pos,
        unclosed: true,
        attributed: o.attributed,
        due: none,
    }
}

// Text in an element, whose start tag it shuts.
pub fn put_text(table: &[u32], record: &[u32], out: &mut [u8], o: Output, p: Piece) -> Output
    requires { o.limit.0 ≤ length out.old }
    ensures { (result ≡ turned o result.pos false o.due) × ((t : Text) → Says table.now «record».now p t
        → Wrote o.limit.0 o.pos.0 out.old result.pos.0 out.new (lead_of o.unclosed ++ concat_map (escape false) t)) }
{
    let limit = o.limit;
    let due = o.due;
    let q = o.pos;
    let q = markup::put_lead(out, limit, q, o.unclosed);
    let pos = markup::put_piece(out, limit, q, Spelling::InContent, table, record, p);
    Output {
        limit,
        pos,
        unclosed: false,
        attributed: o.attributed,
        due,
    }
}

// The end of an element, by its token.
pub fn put_close(table: &[u32], out: &mut [u8], o: Output, token: usize) -> Output
    requires { (o.limit.0 ≤ length out.old) × (token < 4294967298) }
    ensures { (result ≡ turned o result.pos false no_words) × ((k : ℕ) (n : Text) → Named table.now token k n
        → Wrote o.limit.0 o.pos.0 out.old result.pos.0 out.new (end_of o.unclosed (chars "/>") (closing n))) }
{
    let limit = o.limit;
    let q = o.pos;
    let pos = markup::put_end(out, limit, q, o.unclosed, table, token);
    let none = markup::no_words();
    Output {
        limit,
        pos,
        unclosed: false,
        attributed: o.attributed,
        due: none,
    }
}
