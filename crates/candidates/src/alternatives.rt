// The alternatives of a rule on a stretch: the earliest that is low enough, and whether another derives the stretch too.
ghost use Rattle.std.specs.Prelude.{◌≡◌, false, ℕ};
ghost use Rattle.chart.specs.Code.{goes_at};
ghost use Rattle.chart.specs.Heights.{none};
ghost use Rattle.splits.specs.Splits.{Ready, Position, value_at};
ghost use Rattle.candidates.specs.Candidates.{Tells, Ends, Lined, SomeLow, FirstLow, OtherBy};

use crate::Alternative;
use chart::{CODE_COLUMNS, CODE_GOES, NONE};
use sparse::Stretch;
use splits::{AFTER_ALTERNATIVE, alternative_height, number_at};

// The end of the alternative that begins at q.
fn alternative_end(code: &[u32], q: usize) -> usize
    requires { (e : ℕ) × Ends code.now q e }
    ensures { Ends code.now q result }
{
    let mut p = q;
    // A search: where it ends is what is asked.
    while number_at(code, CODE_COLUMNS * p) != AFTER_ALTERNATIVE {
        p += 1;
    }
    p
}

// One more than the first position of the alternative that follows the one at q; 0 where none does.
fn next_alternative(code: &[u32], q: usize) -> usize
    requires { (e : ℕ) × Ends code.now q e }
    ensures { (e : ℕ) → Ends code.now q e → result ≡ goes_at code.now e }
{
    let e = alternative_end(code, q);
    number_at(code, CODE_COLUMNS * e + CODE_GOES)
}

// The earliest alternative of height at most k.
pub fn find_alternative(
    code: &[u32],
    marks: &[u8],
    notes: &[u32],
    main: &[u32],
    first: usize,
    s: Stretch,
    k: u32,
) -> Alternative
    requires { Ready code.now marks.now notes.now main.now s.size s.n.0 s.i.0 s.j.0
        × SomeLow code.now marks.now notes.now s.size s.n.0 main.now first s.i.0 s.j.0 k }
    ensures { FirstLow code.now marks.now notes.now s.size s.n.0 main.now first s.i.0 s.j.0 k result }
{
    let mut q = first;
    let mut a = 0;
    // Along the links of the alternatives, not over a range.
    while k < alternative_height(code, marks, notes, main, q, s) {
        q = next_alternative(code, q) - 1;
        a += 1;
    }
    Alternative {
        number: a,
        place: q,
    }
}

// Whether the alternative at q is not the same as the chosen one, and derives the stretch.
fn another_derives(
    code: &[u32],
    marks: &[u8],
    notes: &[u32],
    main: &[u32],
    q: usize,
    s: Stretch,
    same: bool,
) -> bool
    requires { Ready code.now marks.now notes.now main.now s.size s.n.0 s.i.0 s.j.0 × Position code.now s.size q }
    ensures { Tells result ((same ≡ false) × (value_at code.now marks.now notes.now s.n.0 main.now q s.i.0 s.j.0 ≡ none → ⊥)) }
{
    if same {
        return false;
    }
    alternative_height(code, marks, notes, main, q, s) != NONE
}

// Whether an alternative other than `number` derives the stretch.
pub fn other_alternative(
    code: &[u32],
    marks: &[u8],
    notes: &[u32],
    main: &[u32],
    first: usize,
    s: Stretch,
    number: usize,
) -> bool
    requires { Ready code.now marks.now notes.now main.now s.size s.n.0 s.i.0 s.j.0 × Lined code.now s.size first }
    ensures { Tells result (OtherBy code.now marks.now notes.now s.size s.n.0 main.now first s.i.0 s.j.0 number) }
{
    let mut q = first;
    let mut a = 0;
    // Along the links of the alternatives, not over a range.
    loop {
        if another_derives(code, marks, notes, main, q, s, a == number) {
            return true;
        }
        let next = next_alternative(code, q);
        if next == 0 {
            return false;
        }
        q = next - 1;
        a += 1;
    }
}
