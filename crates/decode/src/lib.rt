// UTF-8, decoded strictly: a text from a byte place on, up to the first character that breaks a pattern; a whole text; a grammar's text.
#![tactic(auto)]

mod sequence;

ghost use Rattle.std.specs.Prelude.{◌≡◌, ◌+◌, ◌<◌, ◌≤◌, length, set};
ghost use Rattle.text.specs.Faults.{marked as begun, after_mark};
ghost use Rattle.decode.specs.Scan.{test_of, Scans};
ghost use Rattle.decode.specs.Whole.{Decodes};
ghost use Rattle.decode.specs.Refused.{why_of, why_decoded};

use crate::sequence::{NEVER, follows, lead_of, with_byte};
use text::Diagnostic;
pub use text::{BytePlace, CharPlace};

// What the characters of a text must be: scalar values, or characters of the alphabet.
#[derive(Clone, Copy)]
enum Pattern {
    Utf8,
    Alphabet,
}

// Why a text is not decoded: the byte place of the first character that breaks UTF-8, by what is wrong with it; or, of UTF-8, that of
// the first outside the alphabet.
#[derive(Clone, Copy)]
pub enum DecodeError {
    CutShort(BytePlace),
    Malformed(BytePlace),
    Unknown(BytePlace),
}

impl DecodeError {
    // The refusal, by the numbers for what is not UTF-8 and for a character outside the alphabet.
    pub fn diagnostic(self, malformed: u32, outside: u32) -> Diagnostic
        ensures { result ≡ why_of malformed outside self }
    {
        match self {
            DecodeError::CutShort(p) | DecodeError::Malformed(p) => text::at_byte(malformed, p),
            DecodeError::Unknown(p) => text::at_byte(outside, p),
        }
    }
}

// The place after the byte at a place.
fn after_byte(p: BytePlace) -> BytePlace
    requires { p.0 < 18446744073709551615 }
    ensures { result.0 ≡ p.0 + 1 }
{
    BytePlace(p.0 + 1)
}

// The place after the character at a place.
pub fn after(p: CharPlace) -> CharPlace
    requires { p.0 < 18446744073709551615 }
    ensures { result.0 ≡ p.0 + 1 }
{
    CharPlace(p.0 + 1)
}

// A scalar value fits a pattern.
fn fits(pattern: Pattern, code: u32) -> bool
    ensures { result ≡ test_of pattern code }
{
    match pattern {
        Pattern::Utf8 => true,
        Pattern::Alphabet => text::alphabet::known(code),
    }
}

// Stores a character where there is room.
fn keep(out: &mut [u32], at: CharPlace, code: u32)
    ensures { out.new ≡ set out.old at.0 code }
{
    let n = at.0;
    if n < out.len() {
        out[n] = code;
    }
}

// The characters from a byte place on, counted, and stored as far as out has room, up to the first that breaks the pattern.
fn scan(
    bytes: &[u8],
    from: BytePlace,
    pattern: Pattern,
    out: &mut [u32],
) -> Result<CharPlace, DecodeError>
    requires { from.0 ≤ length bytes.now }
    ensures { Scans (test_of pattern) bytes.now from.0 out.old result out.new }
{
    let mut at = from;
    let mut n = CharPlace(0);
    // A character may take several bytes.
    while at.0 < bytes.len() {
        let i = at.0;
        let mut s = lead_of(bytes[i]);
        if s.more == NEVER {
            return Err(DecodeError::Malformed(at));
        }
        let mut next = after_byte(at);
        while 0 < s.more {
            let j = next.0;
            if bytes.len() <= j {
                return Err(DecodeError::CutShort(at));
            }
            let b = bytes[j];
            if !follows(s, b) {
                return Err(DecodeError::Malformed(at));
            }
            s = with_byte(s, b);
            next = after_byte(next);
        }
        if !fits(pattern, s.bits) {
            return Err(DecodeError::Unknown(at));
        }
        keep(out, n, s.bits);
        n = after(n);
        at = next;
    }
    Ok(n)
}

// UTF-8 is judged over the whole text, then the alphabet.
fn decode_in_turn(bytes: &[u8], from: BytePlace, out: &mut [u32]) -> Result<CharPlace, DecodeError>
    requires { from.0 ≤ length bytes.now }
    ensures { Decodes bytes.now from.0 out.old result out.new }
{
    scan(bytes, from, Pattern::Utf8, out)?;
    scan(bytes, from, Pattern::Alphabet, out)
}

// The same, by one scan where all is of the alphabet.
fn decode_from(bytes: &[u8], from: BytePlace, out: &mut [u32]) -> Result<CharPlace, DecodeError>
    requires { from.0 ≤ length bytes.now }
    ensures { Decodes bytes.now from.0 out.old result out.new }
{
    match scan(bytes, from, Pattern::Alphabet, out) {
        Ok(n) => Ok(n),
        Err(_) => decode_in_turn(bytes, from, out),
    }
}

// The characters of a text, all of the alphabet, counted; stored as far as out has room.
pub fn decode_text(bytes: &[u8], out: &mut [u32]) -> Result<CharPlace, DecodeError>
    ensures { Decodes bytes.now 0 out.old result out.new }
{
    decode_from(bytes, BytePlace(0), out)
}

// The bytes begin with a byte order mark.
fn marked(bytes: &[u8]) -> bool
    ensures { result ≡ begun bytes.now }
{
    3 <= bytes.len() && bytes[0] == 0xef && bytes[1] == 0xbb && bytes[2] == 0xbf
}

// Where a grammar's characters begin: an initial byte order mark is skipped, once.
fn after_mark(bytes: &[u8]) -> BytePlace
    ensures { result.0 ≡ after_mark bytes.now }
{
    if marked(bytes) {
        BytePlace(3)
    } else {
        BytePlace(0)
    }
}

// The same of a grammar's text. Its places count from the first byte too.
pub fn decode_grammar(bytes: &[u8], out: &mut [u32]) -> Result<CharPlace, DecodeError>
    ensures { Decodes bytes.now (after_mark bytes.now) out.old result out.new }
{
    decode_from(bytes, after_mark(bytes), out)
}

// The refusal of a text that is not decoded, by the numbers for what is not UTF-8 and for a character outside the alphabet. One that is has
// none.
pub fn why_refused(
    decoded: Result<CharPlace, DecodeError>,
    malformed: u32,
    outside: u32,
) -> Diagnostic
    ensures { result ≡ why_decoded malformed outside decoded }
{
    match decoded {
        Ok(_) => text::plain(text::refusals::ANSWERED),
        Err(e) => e.diagnostic(malformed, outside),
    }
}
