// The answer that the calls export: the record, what it is with 0 and with a refusal, and the numbers of a result.
#![tactic(auto)]

ghost use Rattle.std.specs.Prelude.{◌≡◌, ◌&&◌, ◌++◌, ◌≤◌, eqb, length, take, drop};
ghost use Rattle.exported.specs.Exported.{done, refusal_of};

use text::{Diagnostic, refusals};

// A refusal, and whether the grammar's version is another one, as far as that is known.
#[derive(Clone, Copy)]
pub struct Refusal {
    pub why: Diagnostic,
    pub mismatch: bool,
}

// What refuses before the version counts.
impl From<Diagnostic> for Refusal {
    ghost use Rattle.std.specs.Prelude.{◌≡◌, false};

    ghost from_gives = { λ why refusal. refusal ≡ record { why = why; mismatch = false } };

    fn from(why: Diagnostic) -> Refusal {
        Refusal {
            why,
            mismatch: false,
        }
    }
}

// Where a job is at fault: a byte, a character of the record, a character of the grammar. 0 where the number names no place.
#[repr(C)]
#[derive(Clone, Copy)]
pub struct Places {
    pub byte: usize,
    pub fault: usize,
    pub grammar: usize,
}

// What a call answers: the number of the refusal, or 0; the length of the result; the two marks; the places.
#[repr(C)]
#[derive(Clone, Copy)]
pub struct Answer {
    pub number: u32,
    pub length: usize,
    pub ambiguous: bool,
    pub version: bool,
    pub places: Places,
}

// The answer 0.
pub fn answered(count: usize, ambiguous: bool, version: bool) -> Answer
    ensures { result ≡ done count ambiguous version }
{
    Answer {
        number: refusals::ANSWERED,
        length: count,
        ambiguous,
        version,
        places: Places {
            byte: 0,
            fault: 0,
            grammar: 0,
        },
    }
}

// Of the refusals only 16 has the version mark.
fn version_of(number: u32, mismatch: bool) -> bool
    ensures { result ≡ (eqb number 16 && mismatch) }
{
    if number == refusals::NO_READING {
        return mismatch;
    }
    false
}

pub fn refuse(refusal: Refusal) -> Answer
    ensures { result ≡ refusal_of refusal }
{
    let why = refusal.why;
    let places = why.places;
    let byte = places.byte;
    let fault = places.fault;
    let grammar = places.grammar;
    Answer {
        number: why.number,
        length: 0,
        ambiguous: false,
        version: version_of(why.number, refusal.mismatch),
        places: Places {
            byte: byte.0,
            fault: fault.0,
            grammar: grammar.0,
        },
    }
}

// The first numbers of one buffer over those of another.
pub fn copy(from: &[u32], count: usize, to: &mut [u32])
    requires { (count ≤ length from.now) × (count ≤ length to.old) }
    ensures { to.new ≡ take count from.now ++ drop count to.old }
{
    to[..count].copy_from_slice(&from[..count]);
}
