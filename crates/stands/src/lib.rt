// Which dots stand at which places of the record: exactly those that the root's rule leads to, over what derives the record's beginning.
// Each dot waits at a place at most once, and is then followed once.
#![tactic(auto)]

ghost use Rattle.std.specs.Prelude.{◌≡◌, ◌+◌, ◌<◌, ◌≤◌, length};
ghost use Rattle.stands.specs.State.{Is, Bare, Entering, Entered, Passing, PassedAt, Passed, Following, Followed, Stepped, Standing, Closed, Exact};

use chart::{AT_SYMBOL, AT_TERMINAL, CODE_COLUMNS, CODE_GOES, CODE_RULE, NONE};
use sparse::{Stretch, fits, rule_height};
use text::CharPlace;

// The flags of a place, one for each dot.
pub const PLACE: usize = text::limits::GRAMMAR_SIZE;

pub const FLAGS: usize = PLACE * (text::limits::RECORD_CHARACTERS + 1);

// A dot that does not stand; one that stands and waits to be followed; one that was followed.
pub const FREE: u8 = 2;

const WAITING: u8 = 1;

const FOLLOWED: u8 = 0;

// The dot p at the place i of a record that ends at n, in a grammar with `size` dots.
#[derive(Clone, Copy)]
pub struct Spot {
    pub size: usize,
    pub n: CharPlace,
    pub i: CharPlace,
    pub p: usize,
}

// The dot of the flag x stands.
fn set_out(flags: &mut [u8], x: usize)
    requires { x < length flags.old }
    ensures { Is flags.old flags.new x }
{
    if WAITING < flags[x] {
        flags[x] = WAITING;
    }
}

// The dots of the rule's list stand at the place i; the least of them, or `next`.
fn enter(
    firsts: &[u32],
    flags: &mut [u8],
    size: usize,
    i: CharPlace,
    rule: usize,
    next: usize,
) -> usize
    requires { Entering firsts.now flags.old size i.0 rule }
    ensures { Entered firsts.now flags.old flags.new i.0 rule next result }
{
    let at = PLACE * i.0;
    let mut low = next;
    let mut x = text::wide(firsts[chart::USE_COLUMNS * rule]);
    while 0 < x {
        let q = x - 1;
        low = low.min(q);
        set_out(flags, at + q);
        x = text::wide(firsts[chart::USE_COLUMNS * x - 1]);
    }
    low
}

// The dot after the symbol at s stands at the place m, if the symbol's rule derives what is between.
fn pass_at(
    marks: &[u8],
    notes: &[u32],
    main: &[u32],
    flags: &mut [u8],
    rule: usize,
    s: Spot,
    m: CharPlace,
)
    requires { Passing marks.now notes.now (length main.now) flags.old rule s.size s.n.0 s.i.0 s.p × (s.i.0 ≤ m.0) × (m.0 ≤ s.n.0) }
    ensures { PassedAt marks.now notes.now main.now flags.old flags.new rule s.n.0 s.i.0 s.p m.0 }
{
    let size = s.size;
    let n = s.n;
    let i = s.i;
    if rule_height(marks, notes, main, rule, Stretch { size, n, i, j: m }) < NONE {
        set_out(flags, PLACE * m.0 + (s.p + 1));
    }
}

// At each place.
fn pass(marks: &[u8], notes: &[u32], main: &[u32], flags: &mut [u8], rule: usize, s: Spot)
    requires { Passing marks.now notes.now (length main.now) flags.old rule s.size s.n.0 s.i.0 s.p }
    ensures { Passed marks.now notes.now main.now flags.old flags.new rule s.n.0 s.i.0 s.p (s.n.0 + 1) }
{
    for m in s.i.0..s.n.0 + 1 {
        pass_at(marks, notes, main, flags, rule, s, CharPlace(m));
    }
}

// All that the dot of s leads to stands; the least dot of it at the same place, or the one after it.
fn follow(
    code: &[u32],
    firsts: &[u32],
    marks: &[u8],
    notes: &[u32],
    main: &[u32],
    flags: &mut [u8],
    s: Spot,
) -> usize
    requires { Following code.now firsts.now marks.now notes.now (length main.now) flags.old s.size s.n.0 s.i.0 s.p }
    ensures { Followed code.now firsts.now marks.now notes.now main.now
        flags.old flags.new s.n.0 s.i.0 s.p result }
{
    let after = s.p + 1;
    let kind = code[CODE_COLUMNS * s.p];
    if kind == AT_TERMINAL {
        if fits(marks, s.p, s.i) {
            let width = text::wide(code[CODE_COLUMNS * s.p + CODE_GOES]);
            set_out(flags, PLACE * (s.i.0 + width) + after);
        }
        return after;
    }
    if kind != AT_SYMBOL {
        return after;
    }
    let rule = text::wide(code[CODE_COLUMNS * s.p + CODE_RULE]);
    pass(marks, notes, main, flags, rule, s);
    enter(firsts, flags, s.size, s.i, rule, after)
}

// Follows the dot of s, if it waits; where to look next.
fn step(
    code: &[u32],
    firsts: &[u32],
    marks: &[u8],
    notes: &[u32],
    main: &[u32],
    flags: &mut [u8],
    s: Spot,
) -> usize
    requires { Following code.now firsts.now marks.now notes.now (length main.now) flags.old s.size s.n.0 s.i.0 s.p }
    ensures { Stepped code.now firsts.now marks.now notes.now main.now
        flags.old flags.new s.size s.n.0 s.i.0 s.p result }
{
    let x = PLACE * s.i.0 + s.p;
    if flags[x] != WAITING {
        return s.p + 1;
    }
    flags[x] = FOLLOWED;
    follow(code, firsts, marks, notes, main, flags, s)
}

// Follows all dots at the place of s.
fn close(
    code: &[u32],
    firsts: &[u32],
    marks: &[u8],
    notes: &[u32],
    main: &[u32],
    flags: &mut [u8],
    s: Spot,
)
    requires { Standing code.now firsts.now marks.now notes.now (length main.now) flags.old s.size s.n.0 s.i.0 }
    ensures { Closed code.now firsts.now marks.now notes.now main.now
        flags.old flags.new s.size s.n.0 s.i.0 }
{
    let size = s.size;
    let n = s.n;
    let i = s.i;
    let mut p = 0;
    while p < size {
        p = step(
            code,
            firsts,
            marks,
            notes,
            main,
            flags,
            Spot { size, n, i, p },
        );
    }
}

// All flags of a record that ends at n, from flags that are all free; the root's rule is s.p.
pub fn mark(
    code: &[u32],
    firsts: &[u32],
    marks: &[u8],
    notes: &[u32],
    main: &[u32],
    flags: &mut [u8],
    s: Spot,
)
    requires { Standing code.now firsts.now marks.now notes.now (length main.now) flags.old s.size s.n.0 0 × Bare flags.old × (s.p < s.size) }
    ensures { Exact code.now firsts.now marks.now notes.now main.now
        flags.new s.size s.n.0 s.p }
{
    let size = s.size;
    let n = s.n;
    let p = s.p;
    enter(firsts, flags, size, CharPlace(0), p, 0);
    for i in 0..n.0 + 1 {
        close(
            code,
            firsts,
            marks,
            notes,
            main,
            flags,
            Spot {
                size,
                n,
                i: CharPlace(i),
                p,
            },
        );
    }
}
