// Whether a main table is a fixed point: each cell holds the least height that the table gives it, or none where it gives none. Such a table
// holds the least heights of the grammar and the record, whoever filled it.
#![tactic(auto)]

ghost use Rattle.std.specs.Prelude.{◌≡◌, ℕ, ◌+◌, ◌<◌, ◌≤◌, length, get_or};
ghost use Rattle.text.specs.Limits.{most_size, record_chars};
ghost use Rattle.chart.specs.Code.{next_kind};
ghost use Rattle.chart.specs.Heights.{cell_at};
ghost use Rattle.heights.specs.Table.{cell_of, Shape, Safe, Place};
ghost use Rattle.tells.specs.Tells.{Tells};
ghost use Rattle.fixpoint.specs.Fixed.{Below, Fixed, DotsFixed, StartsFixed, Fixpoint, Leasts, Lowered};

use chart::{AT_END, CODE_COLUMNS, CODE_OWNER, NONE, cell};
use sweeps::Layer;
use text::limits;

// The number before `NONE`. No derivation has this height: there are fewer cells.
const GREATEST: u32 = NONE - 1;

// A stretch, in a table of `size` positions and n characters.
#[derive(Clone, Copy)]
pub struct Stretch {
    pub size: usize,
    pub n: usize,
    pub i: usize,
    pub j: usize,
}

// The rule of which an alternative begins at p has at most the height of that alternative.
fn lower(code: &[u32], main: &[u32], at: Stretch, p: usize, heights: &mut [u32])
    requires { Shape code.now at.size at.n (length main.now) × Place at.size at.n p at.i at.j × (at.size ≤ length heights.old) }
    ensures { Lowered code.now main.now at.n at.i at.j p heights.old heights.new }
{
    let owner = code[CODE_COLUMNS * p + CODE_OWNER] as usize;
    if owner == 0 {
        return;
    }
    let layer = Layer {
        size: at.size,
        n: at.n,
        height: 0,
    };
    let height = sweeps::value(code, main, layer, p, at.i, at.j);
    if height < heights[owner - 1] {
        heights[owner - 1] = height;
    }
}

// The least height that the table gives each rule on the stretch. In the beginning all are none.
fn rule_heights(code: &[u32], main: &[u32], at: Stretch, heights: &mut [u32])
    requires { Shape code.now at.size at.n (length main.now) × (at.i ≤ at.j) × (at.j ≤ at.n) × (at.size ≤ length heights.old)
        × Leasts code.now main.now at.size at.n at.i at.j 0 heights.old }
    ensures { Leasts code.now main.now at.size at.n at.i at.j at.size heights.new }
{
    let size = at.size;
    for p in 0..size {
        lower(code, main, at, p, heights);
    }
}

// Whether the table gives the dot at p a height below the bound.
fn below(code: &[u32], fits: &[u8], main: &[u32], at: Stretch, p: usize, bound: u32) -> bool
    requires { Safe code.now fits.now at.size at.n (length main.now) × Place at.size at.n p at.i at.j × (next_kind code.now p ≡ 0 → ⊥) }
    ensures { Tells result (Below code.now fits.now at.size at.n main.now p at.i at.j bound) }
{
    if bound == 0 {
        return false;
    }
    let layer = Layer {
        size: at.size,
        n: at.n,
        height: bound - 1,
    };
    sweeps::derived(code, fits, main, layer, p, at.i, at.j)
}

// Whether the dot at p holds the least height that the table gives it.
fn dot_fixed(code: &[u32], fits: &[u8], main: &[u32], at: Stretch, p: usize) -> bool
    requires { Safe code.now fits.now at.size at.n (length main.now) × Place at.size at.n p at.i at.j × (next_kind code.now p ≡ 0 → ⊥) }
    ensures { Tells result (Fixed code.now fits.now at.size at.n main.now p at.i at.j) }
{
    let x = cell(at.n, p, at.i, at.j);
    let height = main[x];
    if height == GREATEST {
        return false;
    }
    if below(code, fits, main, at, p, height) {
        return false;
    }
    if height == NONE {
        return true;
    }
    below(code, fits, main, at, p, height + 1)
}

// Whether the end at p, which names a rule or none, holds the height that the table gives that rule.
fn end_fixed(main: &[u32], heights: &[u32], at: Stretch, p: usize) -> bool
    requires { (at.size ≤ most_size) × (at.n ≤ record_chars) × (cell_at at.n p at.i at.j < length main.now) × Place at.size at.n p at.i at.j
        × (at.size ≤ length heights.now) }
    ensures { Tells result ((cell_of at.n main.now p at.i at.j ≡ get_or heights.now p 0)
        × (cell_of at.n main.now p at.i at.j ≡ 4294967294 → ⊥)) }
{
    let x = cell(at.n, p, at.i, at.j);
    let height = main[x];
    height != GREATEST && height == heights[p]
}

// Whether the position p is as it must be, whose rules have these heights.
fn position_fixed(
    code: &[u32],
    fits: &[u8],
    main: &[u32],
    heights: &[u32],
    at: Stretch,
    p: usize,
) -> bool
    requires { Safe code.now fits.now at.size at.n (length main.now) × Place at.size at.n p at.i at.j × (at.size ≤ length heights.now)
        × Leasts code.now main.now at.size at.n at.i at.j at.size heights.now }
    ensures { Tells result (Fixed code.now fits.now at.size at.n main.now p at.i at.j) }
{
    if code[CODE_COLUMNS * p] == AT_END {
        return end_fixed(main, heights, at, p);
    }
    dot_fixed(code, fits, main, at, p)
}

// Whether all positions of a stretch are.
fn stretch_fixed(code: &[u32], fits: &[u8], main: &[u32], at: Stretch) -> bool
    requires { Safe code.now fits.now at.size at.n (length main.now) × (at.i ≤ at.j) × (at.j ≤ at.n) }
    ensures { Tells result (DotsFixed code.now fits.now at.size at.n main.now at.i at.j at.size) }
{
    let mut heights = [NONE; limits::GRAMMAR_SIZE];
    rule_heights(code, main, at, &mut heights);
    let size = at.size;
    for p in 0..size {
        if !position_fixed(code, fits, main, &heights, at, p) {
            return false;
        }
    }
    true
}

// Whether all stretches that end at j are.
fn column_fixed(code: &[u32], fits: &[u8], main: &[u32], size: usize, n: usize, j: usize) -> bool
    requires { Safe code.now fits.now size n (length main.now) × (j ≤ n) }
    ensures { Tells result (StartsFixed code.now fits.now size n main.now j (j + 1)) }
{
    for i in 0..j + 1 {
        if !stretch_fixed(code, fits, main, Stretch { size, n, i, j }) {
            return false;
        }
    }
    true
}

// Whether the whole table is a fixed point.
pub fn is_fixpoint(code: &[u32], fits: &[u8], main: &[u32], size: usize, n: usize) -> bool
    requires { Safe code.now fits.now size n (length main.now) }
    ensures { Tells result (Fixpoint code.now fits.now size n main.now) }
{
    for j in 0..n + 1 {
        if !column_fixed(code, fits, main, size, n, j) {
            return false;
        }
    }
    true
}
