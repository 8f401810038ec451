// The code points of grammars and records, and the place of each among them. A further alphabet changes its definition, this file and the tables
// that are read by place.
ghost use Rattle.std.specs.Prelude.{◌≡◌, ◌+◌};
ghost use Rattle.text.specs.Utf8.{alphabet, place_in, known as Known};
ghost use Rattle.text.specs.Ranks.{rank_in};

use crate::{between, wide};

// How many code points are known.
pub const KNOWN: usize = 498;

// The first span begins at 0, so that its code points are their places.
const LATIN_LAST: u32 = 0x17f;

const COMBINING_FIRST: u32 = 0x300;

const COMBINING_LAST: u32 = 0x36f;

const TIES_FIRST: u32 = 0x203f;

const TIES_LAST: u32 = 0x2040;

// What lies between the spans before one.
const BEFORE_COMBINING: u32 = 0x180;

const BEFORE_TIES: u32 = 0x1e4f;

// How many are known below a span.
const BELOW_COMBINING: usize = 384;

const BELOW_TIES: usize = 496;

// The place of a code point in the alphabet; of one that is not known, how many are.
pub fn place(code: u32) -> usize
    ensures { result ≡ place_in alphabet code }
{
    if code <= LATIN_LAST {
        return wide(code);
    }
    if between(code, COMBINING_FIRST, COMBINING_LAST) {
        return wide(code - BEFORE_COMBINING);
    }
    if between(code, TIES_FIRST, TIES_LAST) {
        return wide(code - BEFORE_TIES);
    }
    KNOWN
}

pub fn known(code: u32) -> bool
    ensures { result ≡ Known code }
{
    place(code) < KNOWN
}

// How many known code points are below one.
pub fn rank(code: u32) -> usize
    ensures { result ≡ rank_in alphabet code }
{
    if code <= LATIN_LAST {
        return wide(code);
    }
    if code < COMBINING_FIRST {
        return BELOW_COMBINING;
    }
    if code <= COMBINING_LAST {
        return wide(code - BEFORE_COMBINING);
    }
    if code < TIES_FIRST {
        return BELOW_TIES;
    }
    if code <= TIES_LAST {
        return wide(code - BEFORE_TIES);
    }
    KNOWN
}

// How many are one or below it.
pub fn rank_past(code: u32) -> usize
    ensures { result ≡ rank_in alphabet (code + 1) }
{
    if TIES_LAST <= code {
        return KNOWN;
    }
    rank(code + 1)
}
