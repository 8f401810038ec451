// What a settled stretch hands on to longer ones with the same end: each dot has a height from m to j, and the symbol before it ends at m.
#![tactic(auto)]

ghost use Rattle.std.specs.Prelude.{true, ◌≡◌, List, ℕ, ◌+◌, ◌*◌, ◌-◌, ◌<◌, ◌≤◌, length};
ghost use Rattle.chart.specs.Code.{next_kind, rule_at};
ghost use Rattle.chart.specs.Heights.{none};
ghost use Rattle.reach.specs.Flags.{Wanted};
ghost use Rattle.text.specs.Lists.{pick};
ghost use Rattle.heights.specs.Table.{cell_of, up_of};
ghost use Rattle.sparse.specs.Cells.{is_last, Shape, Tables};
ghost use Rattle.sparse.specs.Steps.{HandedOn, Listed};
ghost use Rattle.sparse.specs.Column.{Hands, HandsOf, Due};
ghost use Rattle.spread.specs.Spread.{Low, High, LowRun, Better, Full, AllFlagged, Touching, Touched, Listing, Placed, Offering};
ghost use Rattle.spread.specs.Spread.{Merging, Merged, DotSpread, Spread, AllSpread};

use chart::{AT_SYMBOL, AT_TERMINAL, CODE_COLUMNS, CODE_GOES, CODE_OWNER, CODE_RULE, NONE, cell};
use sparse::{
    FULL, HAND_COUNT, HAND_ROWS, HANDS, LEVELS, LISTED, LOW_FROM, Offer, Stretch, TOUCHED, fits,
    is_last, lower, reached, rest_height, row, up, wanted,
};
use text::CharPlace;

// By the terminal at the dot, which ends at m.
fn spread_terminal(
    code: &[u32],
    marks: &[u8],
    main: &mut [u32],
    column: &mut [u32],
    o: Offer,
    s: Stretch,
)
    requires { Placed code.now s.size s.n.0 s.i.0 s.j.0 (length main.old) column.old o.dot
        × (next_kind code.now o.dot ≡ 1) × (1536 * s.n.0 + 1536 ≤ length marks.now) }
    ensures { (F : List ℕ)
        → Offering code.now marks.now F s.size s.n.0 s.i.0 s.j.0 (length main.old) main.old column.old o.dot o.height
        → DotSpread code.now marks.now F s.size s.n.0 s.i.0 s.j.0 main.old column.old
        main.new column.new o.dot }
{
    let width = text::wide(code[CODE_COLUMNS * o.dot + CODE_GOES]);
    if width == 0 {
        return;
    }
    if s.i.0 < width {
        return;
    }
    let i = CharPlace(s.i.0 - width);
    if !fits(marks, o.dot, i) {
        return;
    }
    let n = s.n;
    let j = s.j;
    let longer = Stretch {
        size: s.size,
        n,
        i,
        j,
    };
    if lower(main, row(code, s.size, o.dot), longer, o.height) {
        column[TOUCHED + i.0] = 1;
    }
}

// The less of v and one more than the larger of a and h.
fn better(a: u32, h: u32, v: u32) -> u32
    ensures { Better a h v result }
{
    let m = a.max(h);
    if m < v {
        return m + 1;
    }
    v
}

// By a symbol with the cells from x on, over a rest of the height h + 1, or 0 where h is 0, for k starts: the cells from y on.
fn merge(main: &mut [u32], x: usize, y: usize, k: usize, h: u32)
    requires { (x + k ≤ length main.old) × (y + k ≤ length main.old) }
    ensures { (c M F : List ℕ) (size n m j p : ℕ) → Merging c M F size n m j main.old p x y k h → Merged c M F size n m j main.old p k
        main.new }
{
    for i in 0..k {
        main[y + i] = better(main[x + i], h, main[y + i]);
    }
}

// 1 where the height a is one, else t.
fn marked(a: u32, t: u32) -> u32
    ensures { result ≡ 0 → (t ≡ 0) × (none ≤ a) }
{
    if a < NONE {
        return 1;
    }
    t
}

// `all`, and 0 where t is 0.
fn both(t: u32, all: u32) -> u32
    ensures { (result ≡ 0 → ⊥) → (t ≡ 0 → ⊥) × (all ≡ 0 → ⊥) }
{
    if t == 0 {
        return 0;
    }
    all
}

// The starts that have a height in the cells from x on are touched; tells whether all of them are.
fn touch_each(main: &[u32], column: &mut [u32], x: usize, k: usize) -> bool
    requires { (x + k ≤ length main.now) × (2563 + k ≤ length column.old) }
    ensures { Touching main.now x k column.old column.new × (result ≡ true → AllFlagged k column.new) }
{
    let mut all = 1;
    for i in 0..k {
        let t = marked(main[x + i], column[TOUCHED + i]);
        column[TOUCHED + i] = t;
        all = both(t, all);
    }
    all != 0
}

// The same, unless it is known that all are touched.
fn touch(main: &[u32], column: &mut [u32], x: usize, k: usize)
    requires { (x + k ≤ length main.now) × (k ≤ 200) × (length column.old ≡ 3789) × Full column.old }
    ensures { Touched main.now x k column.old column.new }
{
    if k <= text::wide(column[FULL]) {
        return;
    }
    if touch_each(main, column, x, k) {
        column[FULL] = k as u32;
    }
}

// The starts before m of the row y that may gain by a rest of the height h + 1: all before the one that is returned.
fn high(column: &[u32], y: usize, m: usize, h: u32) -> usize
    requires { (length column.now ≡ 3789) × (y < 512) }
    ensures { High column.now y m h result }
{
    if h < column[LEVELS + y] {
        return m;
    }
    let from = text::wide(column[LOW_FROM + y]);
    if m < from {
        return m;
    }
    from
}

// The first of the k starts from which on the cells from z on are at most h + 1.
fn low_run(main: &[u32], z: usize, k: usize, h: u32) -> usize
    requires { (z + k ≤ length main.now) × (h < none) }
    ensures { LowRun main.now z k h result }
{
    for i in (0..k).rev() {
        if h + 1 < main[z + i] {
            return i + 1;
        }
    }
    0
}

// By the symbol at the dot, from every start from which it ends at m and that may gain by it. Cells that differ only in the start are neighbours.
fn spread_symbol(code: &[u32], main: &mut [u32], column: &mut [u32], o: Offer, s: Stretch)
    requires { Placed code.now s.size s.n.0 s.i.0 s.j.0 (length main.old) column.old o.dot
        × (next_kind code.now o.dot ≡ 2) × (s.i.0 < s.j.0) × (o.height < none) }
    ensures { (M F : List ℕ)
        → Offering code.now M F s.size s.n.0 s.i.0 s.j.0 (length main.old) main.old column.old o.dot o.height
        → Wanted M (rule_at code.now o.dot) s.i.0
        → DotSpread code.now M F s.size s.n.0 s.i.0 s.j.0 main.old column.old
        main.new column.new o.dot }
{
    let rule = text::wide(code[CODE_COLUMNS * o.dot + CODE_RULE]);
    let x = cell(s.n.0, rule, 0, s.i.0);
    let y = row(code, s.size, o.dot);
    let z = cell(s.n.0, y, 0, s.j.0);
    let h = o.height.saturating_sub(1);
    let k = high(column, y, s.i.0, h);
    touch(main, column, x, k);
    merge(main, x, z, k, h);
    let from = low_run(main, z, k, h);
    column[LOW_FROM + y] = from as u32;
    column[LEVELS + y] = h;
}

// By what stands after the dot, a terminal or a symbol.
fn hand_on(code: &[u32], marks: &[u8], main: &mut [u32], column: &mut [u32], o: Offer, s: Stretch)
    requires { Placed code.now s.size s.n.0 s.i.0 s.j.0 (length main.old) column.old o.dot × (1536 * s.n.0 + 1536 ≤ length marks.now) × (o.height < none) }
    ensures { (F : List ℕ)
        → Offering code.now marks.now F s.size s.n.0 s.i.0 s.j.0 (length main.old) main.old column.old o.dot o.height
        → DotSpread code.now marks.now F s.size s.n.0 s.i.0 s.j.0 main.old column.old
        main.new column.new o.dot }
{
    let kind = code[CODE_COLUMNS * o.dot];
    if kind == AT_TERMINAL {
        spread_terminal(code, marks, main, column, o, s);
        return;
    }
    if kind != AT_SYMBOL {
        return;
    }
    if s.i.0 == s.j.0 {
        return;
    }
    let rule = text::wide(code[CODE_COLUMNS * o.dot + CODE_RULE]);
    if wanted(marks, rule, s.i) {
        spread_symbol(code, main, column, o, s);
    }
}

// By the symbol before x.
fn spread_dot(
    code: &[u32],
    marks: &[u8],
    notes: &[u32],
    main: &mut [u32],
    column: &mut [u32],
    x: usize,
    s: Stretch,
)
    requires { Tables code.now marks.now notes.now s.size s.n.0 (length main.old) × (length column.old ≡ 3789) × (x < s.size) × (s.i.0 ≤ s.j.0)
        × (s.j.0 ≤ s.n.0) × Low s.size s.n.0 s.i.0 s.j.0 main.old column.old × Full column.old }
    ensures { Spread code.now marks.now notes.now s.size s.n.0 s.i.0 s.j.0 main.old column.old
        main.new column.new × ((p : ℕ) → x ≡ p + 1
        → HandedOn code.now marks.now notes.now s.size s.n.0 s.i.0 s.j.0 main.new p) }
{
    if code[CODE_COLUMNS * x + CODE_OWNER] != 0 {
        return;
    }
    if x == 0 {
        return;
    }
    let b = rest_height(code, marks, notes, main, x, s);
    if b == NONE {
        return;
    }
    let o = Offer {
        dot: x - 1,
        height: b,
    };
    hand_on(code, marks, main, column, o, s);
}

// What an empty stretch hands on, by all dots of the column.
pub fn spread_empty(
    code: &[u32],
    marks: &[u8],
    notes: &[u32],
    main: &mut [u32],
    column: &mut [u32],
    s: Stretch,
)
    requires { Tables code.now marks.now notes.now s.size s.n.0 (length main.old) × Listed code.now marks.now s.size s.j.0 column.old
        × (s.i.0 ≤ s.j.0) × (s.j.0 ≤ s.n.0) × Low s.size s.n.0 s.i.0 s.j.0 main.old column.old × Full column.old }
    ensures { AllSpread code.now marks.now notes.now s.size s.n.0 s.i.0 s.j.0 main.old column.old
        main.new column.new }
{
    for k in 0..text::wide(column[LISTED]) {
        let x = text::wide(column[k]);
        spread_dot(code, marks, notes, main, column, x, s);
    }
}

// The height of what stands after the dot, by that of its row.
fn height_by(code: &[u32], size: usize, x: Offer) -> u32
    requires { Shape code.now size × (x.dot < size) }
    ensures { result ≡ pick (is_last code.now x.dot) (up_of x.height) x.height }
{
    if is_last(code, size, x.dot) {
        return up(x.height);
    }
    x.height
}

// By the symbol before a listed dot whose row has the height.
fn spread_row(
    code: &[u32],
    marks: &[u8],
    main: &mut [u32],
    column: &mut [u32],
    x: Offer,
    s: Stretch,
)
    requires { Listing code.now marks.now s.size s.n.0 s.i.0 s.j.0 (length main.old) column.old
        × Low s.size s.n.0 s.i.0 s.j.0 main.old column.old
        × ((y : ℕ) × Hands code.now marks.now s.size s.j.0 x.dot y × (x.height ≡ cell_of s.n.0 main.old y s.i.0 s.j.0)) }
    ensures { (F : List ℕ)
        → Spread code.now marks.now F s.size s.n.0 s.i.0 s.j.0 main.old column.old
        main.new column.new × ((p : ℕ) → x.dot ≡ p + 1
        → HandedOn code.now marks.now F s.size s.n.0 s.i.0 s.j.0 main.new p) }
{
    if !reached(marks, x.dot, s.i) {
        return;
    }
    let height = height_by(code, s.size, x);
    if height == NONE {
        return;
    }
    let o = Offer {
        dot: x.dot - 1,
        height,
    };
    hand_on(code, marks, main, column, o, s);
}

// What another stretch hands on, by all dots of the column whose row has a height.
pub fn spread(code: &[u32], marks: &[u8], main: &mut [u32], column: &mut [u32], s: Stretch)
    requires { Listing code.now marks.now s.size s.n.0 s.i.0 s.j.0 (length main.old) column.old
        × Low s.size s.n.0 s.i.0 s.j.0 main.old column.old
        × HandsOf code.now marks.now s.size s.j.0 (Due code.now marks.now s.size s.j.0) column.old }
    ensures { (F : List ℕ)
        → AllSpread code.now marks.now F s.size s.n.0 s.i.0 s.j.0 main.old column.old
        main.new column.new }
{
    for k in 0..text::wide(column[HAND_COUNT]) {
        let row = text::wide(column[HAND_ROWS + k]);
        let dot = text::wide(column[HANDS + k]);
        let y = cell(s.n.0, row, s.i.0, s.j.0);
        let height = main[y];
        if height == NONE {
            continue;
        }
        spread_row(code, marks, main, column, Offer { dot, height }, s);
    }
}
