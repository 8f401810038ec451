// Where dots stand on the record, by sets of places, exactly. A queue brings the sets near to what they become, which promises only that they are
// sound; rounds over all dots and rules then close them.
#![tactic(auto)]

ghost use Rattle.std.specs.Prelude.{◌≡◌, ℕ, ◌<◌, ◌≤◌, length};
ghost use Rattle.bits.specs.Bits.{Has};
ghost use Rattle.reach.specs.Work.{Linked};
ghost use Rattle.moves.specs.Moves.{Stepping};
ghost use Rattle.ends.specs.Table.{Ground};
ghost use Rattle.standing.specs.Stood.{Base};
ghost use Rattle.standing.specs.Sets.{Member, Joined, Merged, Taken, Visiting, Visited, Following, Followed, Ran, Entered, Advanced, Redot, Rerule, Rounded, Closing, Exact};

use chart::{AT_END, AT_SYMBOL, CODE_COLUMNS, CODE_RULE};

// The row of a rule is behind those of the dots.
const RULES: usize = text::limits::GRAMMAR_SIZE;

// No search has more turns than this.
const TURNS: usize = 262144;

// A grammar with `size` dots on a record that ends at n, and a rule.
#[derive(Clone, Copy)]
pub struct Task {
    pub size: usize,
    pub n: usize,
    pub rule: usize,
}

// The row takes in the set; whether it grew.
fn join_row(sets: &mut [u32; 8192], row: usize, cur: &[u32; 8]) -> bool
    requires { row < 1024 }
    ensures { Merged sets.old sets.new row cur.now result }
{
    let mut grew = false;
    for v in 0..bits::SET {
        let at = bits::SET * row + v;
        let old = sets[at];
        let new = bits::join(old, cur[v]);
        sets[at] = new;
        grew |= new != old;
    }
    grew
}

// The row takes in the set, of which what is new is left.
fn fresh(sets: &mut [u32; 8192], row: usize, cur: &mut [u32; 8])
    requires { row < 1024 }
    ensures { Joined sets.old sets.new row cur.old × ((x : ℕ) → Has cur.new x → Has cur.old x) }
{
    for v in 0..bits::SET {
        let at = bits::SET * row + v;
        let old = sets[at];
        let word = cur[v];
        sets[at] = bits::join(old, word);
        cur[v] = bits::beyond(word, old);
    }
}

fn take_row(sets: &[u32; 8192], row: usize, cur: &mut [u32; 8])
    requires { row < 1024 }
    ensures { Taken sets.now row cur.old cur.new }
{
    let at = bits::SET * row;
    cur.copy_from_slice(&sets[at..at + bits::SET]);
}

// The dot p stands at the places of the set; those that are new are left. If a symbol is after it, its rule begins there.
fn visit(
    code: &[u32],
    sets: &mut [u32; 8192],
    queue: &mut [u32; 1026],
    size: usize,
    p: usize,
    cur: &mut [u32; 8],
) -> bool
    requires { Visiting code.now size p }
    ensures { Visited code.now p sets.old sets.new cur.old cur.new result }
{
    fresh(sets, p, cur);
    if bits::none(cur) {
        return false;
    }
    let kind = code[CODE_COLUMNS * p];
    if kind == AT_END {
        return false;
    }
    if kind == AT_SYMBOL {
        let rule = text::wide(code[CODE_COLUMNS * p + CODE_RULE]);
        if join_row(sets, RULES + rule, cur) {
            ends::push(queue, rule);
        }
    }
    true
}

// From where the rule begins, over the alternative that begins at q.
fn follow(
    code: &[u32],
    marks: &[u8],
    main: &[u32],
    sets: &mut [u32; 8192],
    queue: &mut [u32; 1026],
    t: Task,
    q: usize,
)
    requires { Following code.now marks.now t.size t.n t.rule q main.now }
    ensures { Followed code.now marks.now t.size t.n t.rule q main.now sets.old sets.new }
{
    let size = t.size;
    let n = t.n;
    let mut cur = [0u32; 8];
    take_row(sets, RULES + t.rule, &mut cur);
    let mut p = q;
    // As long as places come in.
    while visit(code, sets, queue, size, p, &mut cur) {
        let mut next = [0u32; 8];
        moves::step(
            code,
            marks,
            main,
            moves::Dot { size, n, p },
            &cur,
            &mut next,
        );
        cur = next;
        p += 1;
    }
}

// Over all alternatives on the rule's list.
fn follow_all(
    code: &[u32],
    firsts: &[u32],
    marks: &[u8],
    main: &[u32],
    sets: &mut [u32; 8192],
    queue: &mut [u32; 1026],
    t: Task,
)
    requires { Ground code.now firsts.now marks.now t.size t.n (length main.now) × (t.rule < t.size) }
    ensures { Ran code.now firsts.now marks.now t.size t.n main.now sets.old sets.new }
{
    let rule = t.rule;
    let mut x = text::wide(firsts[chart::USE_COLUMNS * rule]);
    while 0 < x {
        follow(code, marks, main, sets, queue, t, x - 1);
        x = text::wide(firsts[chart::USE_COLUMNS * x - 1]);
    }
}

// All rules of the queue, and those that come into it.
fn run(
    code: &[u32],
    firsts: &[u32],
    marks: &[u8],
    main: &[u32],
    sets: &mut [u32; 8192],
    queue: &mut [u32; 1026],
    t: Task,
)
    requires { Ground code.now firsts.now marks.now t.size t.n (length main.now) }
    ensures { Ran code.now firsts.now marks.now t.size t.n main.now sets.old sets.new }
{
    let size = t.size;
    let n = t.n;
    for _ in 0..TURNS {
        let Some(rule) = ends::pop(queue) else {
            return;
        };
        if size <= rule {
            return;
        }
        follow_all(
            code,
            firsts,
            marks,
            main,
            sets,
            queue,
            Task { size, n, rule },
        );
    }
}

// Where a symbol is after the dot, its rule begins at the places of the set; whether some are new.
fn enter(code: &[u32], sets: &mut [u32; 8192], dot: moves::Dot, cur: &[u32; 8]) -> bool
    requires { Visiting code.now dot.size dot.p }
    ensures { Entered code.now dot.p sets.old sets.new cur.now result }
{
    let p = dot.p;
    if code[CODE_COLUMNS * p] != AT_SYMBOL {
        return false;
    }
    let rule = text::wide(code[CODE_COLUMNS * p + CODE_RULE]);
    join_row(sets, RULES + rule, cur)
}

// From the places of the set to those of the dot after it; whether some are new.
fn advance(
    code: &[u32],
    marks: &[u8],
    main: &[u32],
    sets: &mut [u32; 8192],
    dot: moves::Dot,
    cur: &[u32; 8],
) -> bool
    requires { Stepping code.now marks.now dot.size dot.n dot.p (length main.now) }
    ensures { Advanced code.now marks.now dot.size dot.n dot.p main.now sets.old sets.new cur.now result }
{
    let p = dot.p;
    if code[CODE_COLUMNS * p] == AT_END {
        return false;
    }
    let mut next = [0u32; 8];
    moves::step(code, marks, main, dot, cur, &mut next);
    join_row(sets, p + 1, &next)
}

// What follows from the places of the dot; whether something is new.
fn redo_dot(
    code: &[u32],
    marks: &[u8],
    main: &[u32],
    sets: &mut [u32; 8192],
    dot: moves::Dot,
) -> bool
    requires { Stepping code.now marks.now dot.size dot.n dot.p (length main.now) }
    ensures { Redot code.now marks.now dot.size dot.n dot.p main.now sets.old sets.new result }
{
    let mut cur = [0u32; 8];
    take_row(sets, dot.p, &mut cur);
    if bits::none(&cur) {
        return false;
    }
    let entered = enter(code, sets, dot, &cur);
    let moved = advance(code, marks, main, sets, dot, &cur);
    entered | moved
}

// The rule's first dots stand where it begins; whether a place is new.
fn redo_rule(firsts: &[u32], sets: &mut [u32; 8192], size: usize, rule: usize) -> bool
    requires { Linked size firsts.now × (size ≤ 512) × (rule < size) }
    ensures { Rerule firsts.now size rule sets.old sets.new result }
{
    let mut cur = [0u32; 8];
    take_row(sets, RULES + rule, &mut cur);
    let mut grew = false;
    let mut x = text::wide(firsts[chart::USE_COLUMNS * rule]);
    while 0 < x {
        let more = join_row(sets, x - 1, &cur);
        grew |= more;
        x = text::wide(firsts[chart::USE_COLUMNS * x - 1]);
    }
    grew
}

// A round over all dots and rules; whether something is new.
fn round(
    code: &[u32],
    firsts: &[u32],
    marks: &[u8],
    main: &[u32],
    sets: &mut [u32; 8192],
    t: Task,
) -> bool
    requires { Ground code.now firsts.now marks.now t.size t.n (length main.now) }
    ensures { Rounded code.now firsts.now marks.now t.size t.n t.size main.now sets.old sets.new result }
{
    let size = t.size;
    let n = t.n;
    let mut grew = false;
    for p in 0..size {
        let dots = redo_dot(code, marks, main, sets, moves::Dot { size, n, p });
        let rules = redo_rule(firsts, sets, size, p);
        grew |= dots | rules;
    }
    grew
}

// Rounds until nothing is new.
fn close(code: &[u32], firsts: &[u32], marks: &[u8], main: &[u32], sets: &mut [u32; 8192], t: Task)
    requires { Ground code.now firsts.now marks.now t.size t.n (length main.now) × (length sets.old ≡ 8192) }
    ensures { Closing code.now firsts.now marks.now t.size t.n main.now sets.old sets.new }
{
    while round(code, firsts, marks, main, sets, t) {}
}

// All that stands from the root's rule on, on sets that are empty. The queue's search promises only that its sets are sound, so the root comes in
// once more after it.
pub fn stand(
    code: &[u32],
    firsts: &[u32],
    marks: &[u8],
    main: &[u32],
    sets: &mut [u32; 8192],
    t: Task,
)
    requires { Base code.now firsts.now marks.now t.size t.n t.rule main.now × ((q x : ℕ) → Member sets.old q x → ⊥) × (length sets.old ≡ 8192) }
    ensures { Exact code.now firsts.now marks.now t.size t.n t.rule sets.new }
{
    let mut queue = [0u32; 1026];
    let mut first = [0u32; 8];
    bits::put(&mut first, 0);
    join_row(sets, RULES + t.rule, &first);
    ends::push(&mut queue, t.rule);
    run(code, firsts, marks, main, sets, &mut queue, t);
    join_row(sets, RULES + t.rule, &first);
    close(code, firsts, marks, main, sets, t);
}
