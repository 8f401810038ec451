// Where rules end that begin at a place of the record: for each rule and place a set of places, exactly, from the last place to the first. A
// queue brings the sets of a place near to what they become, which promises nothing; rounds over all rules then close them.
#![tactic(auto)]

ghost use Rattle.std.specs.Prelude.{◌≡◌, ◌+◌, ◌*◌, ◌-◌, ◌/◌, ◌<◌, ◌≤◌, length};
ghost use Rattle.chart.specs.Heights.{stretches};
ghost use Rattle.reach.specs.Flags.{Begins};
ghost use Rattle.moves.specs.Moves.{Row};
ghost use Rattle.ends.specs.Table.{Finished, Cleared, Leading, Led, Trying, Tried, Ground, Settling, Settled, Redone, Rounded, Closing, Opening, Opened, Filled};

use chart::{AT_END, AT_TERMINAL, CODE_COLUMNS, CODE_GOES};

// A queue of rules: a ring, whether each rule is in it, the ring's head and its count.
const RING: usize = text::limits::GRAMMAR_SIZE;

const HEAD: usize = 2 * RING;

const COUNT: usize = HEAD + 1;

// No place has more turns than this.
const TURNS: usize = 65536;

// With at most so many dots the queue is left out: rounds alone end sooner there.
const FEW: usize = 32;

// A dot's flag from which on the terminal after it fits.
const FITS: u8 = 2;

// A grammar with `size` dots on a record that ends at n, and a rule that begins at m.
#[derive(Clone, Copy)]
pub struct Start {
    pub size: usize,
    pub n: usize,
    pub m: usize,
    pub rule: usize,
}

// The place x of the dot p.
#[derive(Clone, Copy)]
struct Spot {
    p: usize,
    x: usize,
}

// The rule's ends take in the set; whether they grew.
fn finish(main: &mut [u32], s: Start, cur: &[u32; 8]) -> bool
    requires { Row s.n s.rule (length main.old) × (s.m ≤ s.n) }
    ensures { Finished s.n main.old main.new s.rule s.m cur.now result }
{
    let n = s.n;
    let m = s.m;
    let rule = s.rule;
    let last = n / bits::PLACES;
    let mut grew = false;
    for w in m / bits::PLACES..last + 1 {
        let x = chart::cell(n, rule, m, moves::column(n, w));
        let old = main[x];
        let new = bits::join(old, cur[w]);
        main[x] = new;
        grew |= new != old;
    }
    grew
}

// Where the terminals from the dot q on lead; to a place past n, if one of them does not fit. Over a terminal one place leads to one place at
// most, so that no set is needed.
fn lead(code: &[u32], marks: &[u8], s: Start, q: usize) -> Spot
    requires { Leading code.now marks.now s.size s.n s.m q }
    ensures { Led code.now marks.now s.size s.n s.m q result.p result.x }
{
    let past = s.n + 1;
    let mut p = q;
    let mut x = s.m;
    // As far as terminals stand.
    while code[CODE_COLUMNS * p] == AT_TERMINAL {
        if marks[reach::PLACE * x + p] < FITS {
            return Spot { p, x: past };
        }
        let width = text::wide(code[CODE_COLUMNS * p + CODE_GOES]);
        if s.n - x < width {
            return Spot { p, x: past };
        }
        x += width;
        p += 1;
    }
    Spot { p, x }
}

// The ends by the alternative that begins at the dot q.
fn alternative(code: &[u32], marks: &[u8], main: &mut [u32], s: Start, q: usize) -> bool
    requires { Trying code.now marks.now s.size s.n s.m s.rule q main.old }
    ensures { Tried code.now marks.now s.size s.n s.m s.rule q main.old main.new result }
{
    let size = s.size;
    let n = s.n;
    let spot = lead(code, marks, s, q);
    let x = spot.x;
    if n < x {
        return false;
    }
    let mut cur = [0u32; 8];
    bits::put(&mut cur, x);
    let mut p = spot.p;
    // As far as the alternative goes.
    while code[CODE_COLUMNS * p] != AT_END {
        let mut next = [0u32; 8];
        moves::step(
            code,
            marks,
            main,
            moves::Dot { size, n, p },
            &cur,
            &mut next,
        );
        if bits::none(&next) {
            return false;
        }
        cur = next;
        p += 1;
    }
    finish(main, s, &cur)
}

// The ends by all alternatives on the rule's list; whether they grew.
fn derive(code: &[u32], firsts: &[u32], marks: &[u8], main: &mut [u32], s: Start) -> bool
    requires { Settling code.now firsts.now marks.now s.size s.n s.m main.old × (s.rule < s.size) × Begins marks.now s.rule s.m }
    ensures { Redone code.now firsts.now marks.now s.size s.n s.m s.rule main.old main.new result }
{
    let rule = s.rule;
    let mut grew = false;
    let mut x = text::wide(firsts[chart::USE_COLUMNS * rule]);
    while 0 < x {
        let more = alternative(code, marks, main, s, x - 1);
        grew |= more;
        x = text::wide(firsts[chart::USE_COLUMNS * x - 1]);
    }
    grew
}

// A rule comes into the queue, if it is not in it.
pub fn push(queue: &mut [u32; 1026], rule: usize)
    requires { rule < 512 }
{
    if queue[RING + rule] != 0 {
        return;
    }
    let count = text::wide(queue[COUNT]);
    if RING <= count {
        return;
    }
    let head = text::wide(queue[HEAD]) % RING;
    let at = (head + count) % RING;
    queue[at] = rule as u32;
    queue[COUNT] = count as u32 + 1;
    queue[RING + rule] = 1;
}

// The first rule of the queue, which leaves it.
pub fn pop(queue: &mut [u32; 1026]) -> Option<usize> {
    let count = queue[COUNT];
    if count == 0 {
        return None;
    }
    let head = text::wide(queue[HEAD]) % RING;
    queue[COUNT] = count - 1;
    let after = (head + 1) % RING;
    queue[HEAD] = after as u32;
    let rule = text::wide(queue[head]);
    if RING <= rule {
        return None;
    }
    queue[RING + rule] = 0;
    Some(rule)
}

// x, if it is at most `most`; else 0.
fn capped(x: usize, most: usize) -> usize
    ensures { result ≤ most }
{
    if most < x {
        return 0;
    }
    x
}

// A rule that may begin at m comes into the queue.
fn push_begun(marks: &[u8], queue: &mut [u32; 1026], m: usize, rule: usize)
    requires { (1536 * m + 1536 ≤ length marks.now) × (m ≤ 200) }
{
    if RING <= rule {
        return;
    }
    if marks[reach::PLACE * m + (reach::BEGINS + rule)] == 0 {
        return;
    }
    push(queue, rule);
}

// The rules that use the rule come into the queue.
fn wake(notes: &[u32], marks: &[u8], queue: &mut [u32; 1026], m: usize, rule: usize)
    requires { (length notes.now ≡ 2048) × (1536 * m + 1536 ≤ length marks.now) × (m ≤ 200) × (rule < 512) }
{
    let mut x = capped(text::wide(notes[chart::USE_COLUMNS * rule]), RING);
    while 0 < x {
        push_begun(marks, queue, m, text::wide(notes[sparse::HOMES + (x - 1)]));
        x = capped(text::wide(notes[chart::USE_COLUMNS * x - 1]), x - 1);
    }
}

// One rule of the queue.
fn turn(
    code: &[u32],
    firsts: &[u32],
    notes: &[u32],
    marks: &[u8],
    main: &mut [u32],
    queue: &mut [u32; 1026],
    s: Start,
)
    requires { Settling code.now firsts.now marks.now s.size s.n s.m main.old × (s.rule < s.size) × (length notes.now ≡ 2048) }
    ensures { Settled code.now firsts.now marks.now s.size s.n s.m main.old main.new }
{
    let m = s.m;
    let rule = s.rule;
    if marks[reach::PLACE * m + (reach::BEGINS + rule)] == 0 {
        return;
    }
    if derive(code, firsts, marks, main, s) {
        wake(notes, marks, queue, m, rule);
    }
}

// All rules of the queue, and those that are woken; nothing for a grammar with few dots.
fn settle(
    code: &[u32],
    firsts: &[u32],
    notes: &[u32],
    marks: &[u8],
    main: &mut [u32],
    queue: &mut [u32; 1026],
    s: Start,
)
    requires { Settling code.now firsts.now marks.now s.size s.n s.m main.old × (length notes.now ≡ 2048) }
    ensures { Settled code.now firsts.now marks.now s.size s.n s.m main.old main.new }
{
    let size = s.size;
    if size <= FEW {
        return;
    }
    let n = s.n;
    let m = s.m;
    for _ in 0..TURNS {
        let Some(rule) = pop(queue) else {
            return;
        };
        if size <= rule {
            return;
        }
        turn(
            code,
            firsts,
            notes,
            marks,
            main,
            queue,
            Start { size, n, m, rule },
        );
    }
}

// The ends of the rule once more, if it may begin at m; whether they grew.
fn redo(code: &[u32], firsts: &[u32], marks: &[u8], main: &mut [u32], s: Start) -> bool
    requires { Settling code.now firsts.now marks.now s.size s.n s.m main.old × (s.rule < s.size) }
    ensures { Redone code.now firsts.now marks.now s.size s.n s.m s.rule main.old main.new result }
{
    if marks[reach::PLACE * s.m + (reach::BEGINS + s.rule)] == 0 {
        return false;
    }
    derive(code, firsts, marks, main, s)
}

// A round over all rules; whether some ends grew. From the last rule to the first: grammars are mostly written from the root down, so that what
// a rule uses has come before it.
fn round(code: &[u32], firsts: &[u32], marks: &[u8], main: &mut [u32], s: Start) -> bool
    requires { Settling code.now firsts.now marks.now s.size s.n s.m main.old }
    ensures { Rounded code.now firsts.now marks.now s.size s.n s.m 0 main.old main.new result }
{
    let size = s.size;
    let n = s.n;
    let m = s.m;
    let mut grew = false;
    for rule in (0..size).rev() {
        let more = redo(code, firsts, marks, main, Start { size, n, m, rule });
        grew |= more;
    }
    grew
}

// Rounds until no ends grow.
fn close(code: &[u32], firsts: &[u32], marks: &[u8], main: &mut [u32], s: Start)
    requires { Settling code.now firsts.now marks.now s.size s.n s.m main.old }
    ensures { Closing code.now firsts.now marks.now s.size s.n s.m main.old main.new }
{
    while round(code, firsts, marks, main, s) {}
}

fn clear_row(main: &mut [u32], s: Start)
    requires { Row s.n s.rule (length main.old) × (s.m ≤ s.n) }
    ensures { Cleared s.n main.old main.new s.rule s.m }
{
    let n = s.n;
    let m = s.m;
    let rule = s.rule;
    let last = n / bits::PLACES;
    for w in m / bits::PLACES..last + 1 {
        let x = chart::cell(n, rule, m, moves::column(n, w));
        main[x] = 0;
    }
}

// A rule that may begin at m has an empty row there, and comes into the queue; whether it may.
fn begin_at(marks: &[u8], main: &mut [u32], queue: &mut [u32; 1026], s: Start) -> bool
    requires { Opening marks.now s.size s.n s.m s.rule (length main.old) }
    ensures { Opened marks.now s.size s.n s.m s.rule (s.rule + 1) main.old main.new result }
{
    let m = s.m;
    let rule = s.rule;
    if marks[reach::PLACE * m + (reach::BEGINS + rule)] == 0 {
        return false;
    }
    clear_row(main, s);
    push(queue, rule);
    true
}

// All rules that may begin at m; whether there is one.
fn begin(marks: &[u8], main: &mut [u32], queue: &mut [u32; 1026], s: Start) -> bool
    requires { (1536 * s.n + 1536 ≤ length marks.now) × (s.size ≤ 512) × (s.n ≤ 200) × (s.m ≤ s.n) × (s.size * stretches s.n ≤ length main.old) }
    ensures { Opened marks.now s.size s.n s.m 0 s.size main.old main.new result }
{
    let size = s.size;
    let n = s.n;
    let m = s.m;
    let mut some = false;
    for rule in 0..size {
        let one = begin_at(marks, main, queue, Start { size, n, m, rule });
        some |= one;
    }
    some
}

// The ends of all rules, wherever they may begin.
pub fn fill(
    code: &[u32],
    firsts: &[u32],
    notes: &[u32],
    marks: &[u8],
    main: &mut [u32],
    size: usize,
    n: usize,
)
    requires { Ground code.now firsts.now marks.now size n (length main.old) × (length notes.now ≡ 2048) }
    ensures { Filled code.now firsts.now marks.now size n main.old main.new }
{
    let mut queue = [0u32; 1026];
    for m in (0..n + 1).rev() {
        let s = Start {
            size,
            n,
            m,
            rule: 0,
        };
        if begin(marks, main, &mut queue, s) {
            settle(code, firsts, notes, marks, main, &mut queue, s);
            close(code, firsts, marks, main, s);
        }
    }
}
