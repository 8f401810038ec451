// Where a symbol ends that begins a row on a stretch: the smallest place that is low enough, and whether another does too. p is the dot
// position before the symbol.
ghost use Rattle.std.specs.Prelude.{◌≡◌, ◌<◌};
ghost use Rattle.chart.specs.Code.{next_kind};
ghost use Rattle.splits.specs.Splits.{Ready};
ghost use Rattle.candidates.specs.Candidates.{Tells, SomeEnd, FirstEnd, OtherEnd};

use chart::NONE;
use sparse::Stretch;
use splits::{first_end, next_end, rest_cells, split};
use text::CharPlace;

// The smallest place where the symbol may end, in trees of heights below k, so that the rest of its row reaches j in trees of heights
// at most k.
pub fn find_end(
    code: &[u32],
    marks: &[u8],
    notes: &[u32],
    main: &[u32],
    p: usize,
    s: Stretch,
    k: u32,
) -> CharPlace
    requires { Ready code.now marks.now notes.now main.now s.size s.n.0 s.i.0 s.j.0
        × (((p < s.size) × (next_kind code.now p ≡ 2)) × SomeEnd code.now marks.now notes.now s.size s.n.0 main.now p s.i.0 s.j.0 k) }
    ensures { FirstEnd code.now marks.now notes.now s.size s.n.0 main.now p s.i.0 s.j.0 k result.0 }
{
    if s.i.0 == s.j.0 {
        return s.i;
    }
    let x = rest_cells(code, p, s);
    let mut m = next_end(main, x, first_end(code, p, s), s.j);
    // From one end that may do to the next.
    while k < split(code, marks, notes, main, p, s, m) {
        m = next_end(main, x, CharPlace(m.0 + 1), s.j);
    }
    m
}

// Whether the symbol may end at a place other than m, in trees of any height.
pub fn other_end(
    code: &[u32],
    marks: &[u8],
    notes: &[u32],
    main: &[u32],
    p: usize,
    s: Stretch,
    m: CharPlace,
) -> bool
    requires { Ready code.now marks.now notes.now main.now s.size s.n.0 s.i.0 s.j.0 × ((p < s.size) × (next_kind code.now p ≡ 2)) }
    ensures { Tells result (OtherEnd code.now marks.now notes.now s.size s.n.0 main.now p s.i.0 s.j.0 m.0) }
{
    if s.i.0 == s.j.0 {
        if m.0 == s.i.0 {
            return false;
        }
    }
    let x = rest_cells(code, p, s);
    let mut l = first_end(code, p, s);
    // From one end that may do to the next.
    while l.0 <= s.j.0 {
        let here = next_end(main, x, l, s.j);
        l = CharPlace(here.0 + 1);
        if here.0 != m.0 {
            if split(code, marks, notes, main, p, s, here) != NONE {
                return true;
            }
        }
    }
    false
}
