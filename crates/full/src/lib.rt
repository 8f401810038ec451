// Flags for a main table that is filled whole: every dot is reached at every place, every rule may begin and is wanted to end there, and a
// terminal is flagged where it fits.
#![tactic(auto)]

ghost use Rattle.std.specs.Prelude.{◌≡◌, ◌+◌, ◌<◌, length};
ghost use Rattle.full.specs.Whole.{dot_flag, Markable, PlaceMarked, Marked};

use chart::{AT_TERMINAL, CODE_COLUMNS, FITS_ROW};
use reach::{BEGINS, ENDS, PLACE};

// Before a terminal that does not fit.
const REACHED: u8 = 1;

const FITS: u8 = 2;

const WANTED: u8 = 2;

// The flag of the dot p at the place i.
#[tactic(auto, unfolding(crate::specs::Whole::dot_flag))]
fn dot_flag(code: &[u32], fits: &[u8], size: usize, p: usize, i: usize) -> u8
    requires { Markable code.now fits.now size i × (p < size) }
    ensures { result ≡ dot_flag code.now fits.now p i }
{
    if code[CODE_COLUMNS * p] != AT_TERMINAL || fits[p * FITS_ROW + i] == 1 {
        return FITS;
    }
    REACHED
}

// The flags of all dots and rules at the place i.
fn mark_place(code: &[u32], fits: &[u8], size: usize, i: usize, marks: &mut [u8])
    requires { Markable code.now fits.now size i × (length marks.old ≡ 308736) }
    ensures { PlaceMarked code.now fits.now size i size marks.old marks.new }
{
    let base = PLACE * i;
    for p in 0..size {
        marks[base + p] = dot_flag(code, fits, size, p, i);
        marks[base + BEGINS + p] = REACHED;
        marks[base + ENDS + p] = WANTED;
    }
}

// The flags of all places of a record of n characters.
pub fn mark_all(code: &[u32], fits: &[u8], size: usize, n: usize, marks: &mut [u8])
    requires { Markable code.now fits.now size n × (length marks.old ≡ 308736) }
    ensures { Marked code.now fits.now size (n + 1) marks.new }
{
    for i in 0..n + 1 {
        mark_place(code, fits, size, i, marks);
    }
}
