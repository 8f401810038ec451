// From the places of a dot to those of the dot after it, by sets of places: over a terminal by the flags, over a symbol by a table of its rule's
// ends.
#![tactic(auto)]

ghost use Rattle.std.specs.Prelude.{true, ◌≡◌, ℕ, ◌+◌, ◌*◌, ◌-◌, ◌/◌, ◌<◌, ◌≤◌, length};
ghost use Rattle.bits.specs.Bits.{Has, Adds};
ghost use Rattle.moves.specs.Moves.{column_of, Row, Masks, Gathered, Masked, Worded, Passed, Landed, Shifting, LandedBy, Shifted, Stepped, Stepping};

use chart::{AT_SYMBOL, AT_TERMINAL, CODE_COLUMNS, CODE_GOES, CODE_RULE};

const FITS: u8 = 2;

// A dot of a grammar with `size` dots, on a record that ends at n.
#[derive(Clone, Copy)]
pub struct Dot {
    pub size: usize,
    pub n: usize,
    pub p: usize,
}

// The end of the cells that hold the number w of a set.
pub fn column(n: usize, w: usize) -> usize
    requires { (n ≤ 200) × (w ≤ n / 32) }
    ensures { result ≡ column_of n w }
{
    n - n / 32 + w
}

// How many places of the number v are on the record.
fn lanes(n: usize, v: usize) -> usize
    requires { (n ≤ 200) × (32 * v ≤ n) }
    ensures { (result ≤ 32) × (32 * v + result ≤ n + 1) × ((b : ℕ) → b < 32 → 32 * v + b ≤ n → b < result) }
{
    (n + 1 - 32 * v).min(32)
}

fn gather(main: &[u32], at: usize, on: &[u32; 32], count: usize) -> u32
    requires { (count ≤ 32) × (at + count ≤ length main.now) }
    ensures { Gathered main.now at on.now count result }
{
    let mut acc = 0;
    for b in 0..count {
        acc = bits::join_by(acc, main[at + b], on[b]);
    }
    acc
}

// The ends from places of the number v.
fn add_ends(main: &[u32], n: usize, rule: usize, v: usize, on: &[u32; 32], next: &mut [u32; 8])
    requires { Row n rule (length main.now) × (v ≤ n / 32) × Masks on.now }
    ensures { Adds (Masked n main.now rule v on.now) next.old next.new }
{
    let count = lanes(n, v);
    let last = n / bits::PLACES;
    for w in v..last + 1 {
        let at = chart::cell(n, rule, bits::PLACES * v, column(n, w));
        next[w] = bits::join(next[w], gather(main, at, on, count));
    }
}

fn add_word(main: &[u32], n: usize, rule: usize, v: usize, word: u32, next: &mut [u32; 8])
    requires { Row n rule (length main.now) × (v ≤ n / 32) }
    ensures { Adds (Worded n main.now rule v word) next.old next.new }
{
    if word == 0 {
        return;
    }
    let mut on = [0u32; 32];
    bits::spread(word, &mut on);
    add_ends(main, n, rule, v, &on, next);
}

// The ends of the rule from all places of the set.
fn pass(main: &[u32], n: usize, rule: usize, cur: &[u32; 8], next: &mut [u32; 8])
    requires { Row n rule (length main.now) }
    ensures { Adds (Passed n main.now rule cur.now) next.old next.new }
{
    let last = n / bits::PLACES;
    for v in 0..last + 1 {
        add_word(main, n, rule, v, cur[v], next);
    }
}

// The place after the terminal that is after the dot p, if it fits at x.
fn land(marks: &[u8], p: usize, width: usize, n: usize, x: usize, on: bool, next: &mut [u32; 8])
    requires { Shifting marks.now p width n × (x < 256) }
    ensures { Adds (λ z. (on ≡ true) × Landed marks.now p width n x z) next.old next.new }
{
    if !on {
        return;
    }
    if n < width {
        return;
    }
    if n - width < x {
        return;
    }
    if marks[reach::PLACE * x + p] < FITS {
        return;
    }
    bits::put(next, x + width);
}

fn shift_word(
    marks: &[u8],
    p: usize,
    width: usize,
    n: usize,
    v: usize,
    word: u32,
    next: &mut [u32; 8],
)
    requires { Shifting marks.now p width n × (v ≤ 6) }
    ensures { Adds (LandedBy marks.now p width n v word) next.old next.new }
{
    if word == 0 {
        return;
    }
    for b in 0u32..32 {
        land(
            marks,
            p,
            width,
            n,
            bits::PLACES * v + text::wide(b),
            bits::lit(word, b),
            next,
        );
    }
}

fn shift(marks: &[u8], p: usize, width: usize, n: usize, cur: &[u32; 8], next: &mut [u32; 8])
    requires { Shifting marks.now p width n }
    ensures { Adds (Shifted marks.now p width n cur.now) next.old next.new }
{
    let last = n / bits::PLACES;
    for v in 0..last + 1 {
        shift_word(marks, p, width, n, v, cur[v], next);
    }
}

// From the places of the dot to those of the dot after it, into a set that is empty.
pub fn step(code: &[u32], marks: &[u8], main: &[u32], dot: Dot, cur: &[u32; 8], next: &mut [u32; 8])
    requires { Stepping code.now marks.now dot.size dot.n dot.p (length main.now) × ((x : ℕ) → Has next.old x → ⊥) × (length next.old ≡ 8) }
    ensures { Stepped code.now marks.now dot.n main.now dot.p cur.now next.new }
{
    let p = dot.p;
    let kind = code[CODE_COLUMNS * p];
    if kind == AT_TERMINAL {
        let width = text::wide(code[CODE_COLUMNS * p + CODE_GOES]);
        shift(marks, p, width, dot.n, cur, next);
        return;
    }
    if kind == AT_SYMBOL {
        let rule = text::wide(code[CODE_COLUMNS * p + CODE_RULE]);
        pass(main, dot.n, rule, cur, next);
    }
}
