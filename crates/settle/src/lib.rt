// Settles a stretch: its rows take the least heights that follow from each other. What a dot gets, the dot before it gets too where its
// symbol takes nothing, up to the rule; a rule that is lowered is put into a queue, and its uses are looked at when its turn comes.
#![tactic(auto)]

ghost use Rattle.std.specs.Prelude.{◌≡◌, ◌<◌, length};
ghost use Rattle.chart.specs.Code.{next_kind};
ghost use Rattle.chart.specs.Heights.{none};
ghost use Rattle.heights.specs.Table.{cell_of};
ghost use Rattle.sparse.specs.Column.{Wakes, Rows};
ghost use Rattle.queue.specs.Queue.{count_of};
ghost use Rattle.settle.specs.Settle.{Ready, Offered, Put, Carried, AtLeft, LeftCarried, Used, Revisited, Woken, AllWoken, Settled};

use chart::{AT_END, CODE_COLUMNS, CODE_GOES, CODE_OWNER, CODE_RULE, NONE, cell};
use queue::{COUNT, dequeue, enqueue};
use sparse::{
    HOMES, Offer, Stretch, WAKE_COUNT, WAKES, empty_rest, is_last, lower, over, reached,
    rule_height, up, wanted,
};

// Lowers the row of the dot by the height that it is offered. A rule that is lowered is put into the queue; where the dot itself is, the dot
// before it is to be looked at: true.
fn put(
    code: &[u32],
    marks: &[u8],
    notes: &[u32],
    main: &mut [u32],
    queue: &mut [u32],
    o: Offer,
    s: Stretch,
) -> bool
    requires { Ready code.now marks.now notes.now s.size s.n.0 s.i.0 s.j.0 (length main.old) queue.old × Offered code.now marks.now notes.now s.size
        s.n.0 s.i.0 s.j.0 main.old o.dot o.height }
    ensures { Put code.now marks.now notes.now s.size s.n.0 s.i.0 s.j.0 main.old queue.old
        main.new queue.new o.dot o.height result }
{
    let owner = text::wide(code[CODE_COLUMNS * o.dot + CODE_OWNER]);
    if owner == 0 {
        return lower(main, o.dot, s, o.height);
    }
    if lower(main, owner - 1, s, o.height) {
        enqueue(queue, s.size, owner - 1);
    }
    false
}

// The dot gets the height that it is offered, and so the dots before it, as far as their symbols take nothing.
fn carry(
    code: &[u32],
    marks: &[u8],
    notes: &[u32],
    main: &mut [u32],
    queue: &mut [u32],
    o: Offer,
    s: Stretch,
)
    requires { Ready code.now marks.now notes.now s.size s.n.0 s.i.0 s.j.0 (length main.old) queue.old × Offered code.now marks.now notes.now s.size
        s.n.0 s.i.0 s.j.0 main.old o.dot o.height }
    ensures { Carried code.now marks.now notes.now s.size s.n.0 s.i.0 s.j.0 main.old queue.old
        main.new queue.new o.dot o.height }
{
    let mut dot = o.dot;
    let mut height = o.height;
    // Leftward as long as heights fall.
    while put(code, marks, notes, main, queue, Offer { dot, height }, s) {
        if dot == 0 {
            return;
        }
        dot -= 1;
        height = over(code, marks, notes, s.size, dot, height, s.i);
        if height == NONE {
            return;
        }
    }
}

// What stands after the dot x has the height v: so has the dot before it, if its symbol takes nothing.
fn carry_left(
    code: &[u32],
    marks: &[u8],
    notes: &[u32],
    main: &mut [u32],
    queue: &mut [u32],
    x: Offer,
    s: Stretch,
)
    requires { Ready code.now marks.now notes.now s.size s.n.0 s.i.0 s.j.0 (length main.old) queue.old × AtLeft code.now marks.now notes.now s.size
        s.n.0 s.i.0 s.j.0 main.old x.dot x.height }
    ensures { LeftCarried code.now marks.now notes.now s.size s.n.0 s.i.0 s.j.0 main.old queue.old
        main.new queue.new x.dot }
{
    if x.dot == 0 {
        return;
    }
    let dot = x.dot - 1;
    let height = over(code, marks, notes, s.size, dot, x.height, s.i);
    if height == NONE {
        return;
    }
    carry(code, marks, notes, main, queue, Offer { dot, height }, s);
}

// The use p takes account of its rule.
fn use_rule(
    code: &[u32],
    marks: &[u8],
    notes: &[u32],
    main: &mut [u32],
    queue: &mut [u32],
    p: usize,
    s: Stretch,
)
    requires { Ready code.now marks.now notes.now s.size s.n.0 s.i.0 s.j.0 (length main.old) queue.old × (p < s.size) × (next_kind code.now p ≡ 2) }
    ensures { Used code.now marks.now notes.now s.size s.n.0 s.i.0 s.j.0 main.old queue.old
        main.new queue.new p }
{
    if !reached(marks, p, s.i) {
        return;
    }
    if !wanted(marks, text::wide(notes[HOMES + p]), s.j) {
        return;
    }
    let rule = text::wide(code[CODE_COLUMNS * p + CODE_RULE]);
    let h = up(rule_height(marks, notes, main, rule, s));
    let v = h.max(empty_rest(code, notes, s.size, p + 1));
    if v == NONE {
        return;
    }
    let o = Offer { dot: p, height: v };
    if is_last(code, s.size, p) {
        carry_left(code, marks, notes, main, queue, o, s);
        return;
    }
    carry(code, marks, notes, main, queue, o, s);
}

// So do all uses of the rule.
fn revisit(
    code: &[u32],
    marks: &[u8],
    notes: &[u32],
    main: &mut [u32],
    queue: &mut [u32],
    rule: usize,
    s: Stretch,
)
    requires { Ready code.now marks.now notes.now s.size s.n.0 s.i.0 s.j.0 (length main.old) queue.old × (rule < s.size) }
    ensures { Revisited code.now marks.now notes.now s.size s.n.0 s.i.0 s.j.0 main.old queue.old
        main.new queue.new rule }
{
    let mut u = text::wide(notes[chart::USE_COLUMNS * rule]);
    while 0 < u {
        use_rule(code, marks, notes, main, queue, u - 1, s);
        u = text::wide(notes[chart::USE_COLUMNS * u - 1]);
    }
}

// The listed row x has its height from shorter stretches: a rule's uses are to be looked at, and the dot before a dot.
fn wake(
    code: &[u32],
    marks: &[u8],
    notes: &[u32],
    main: &mut [u32],
    queue: &mut [u32],
    x: Offer,
    s: Stretch,
)
    requires { Ready code.now marks.now notes.now s.size s.n.0 s.i.0 s.j.0 (length main.old) queue.old
        × Wakes code.now marks.now s.size s.j.0 x.dot × (x.height ≡ cell_of s.n.0 main.old x.dot s.i.0 s.j.0) × (x.height < none) }
    ensures { Woken code.now marks.now notes.now s.size s.n.0 s.i.0 s.j.0 main.old queue.old
        main.new queue.new x.dot }
{
    if code[CODE_COLUMNS * x.dot] == AT_END {
        enqueue(queue, s.size, x.dot);
        return;
    }
    if reached(marks, x.dot, s.i) {
        carry_left(code, marks, notes, main, queue, x, s);
    }
}

// All rows of the column that may lower others on the stretch.
fn wake_all(
    code: &[u32],
    marks: &[u8],
    notes: &[u32],
    main: &mut [u32],
    queue: &mut [u32],
    column: &[u32],
    s: Stretch,
)
    requires { Ready code.now marks.now notes.now s.size s.n.0 s.i.0 s.j.0 (length main.old) queue.old
        × Rows code.now marks.now s.size s.j.0 notes.now column.now }
    ensures { AllWoken code.now marks.now notes.now s.size s.n.0 s.i.0 s.j.0 main.old queue.old
        main.new queue.new }
{
    for k in 0..text::wide(column[WAKE_COUNT]) {
        let dot = text::wide(column[WAKES + k]);
        let y = cell(s.n.0, dot, s.i.0, s.j.0);
        let height = main[y];
        if height != NONE {
            wake(code, marks, notes, main, queue, Offer { dot, height }, s);
        }
    }
}

// Settles the stretch.
pub fn settle(
    code: &[u32],
    marks: &[u8],
    notes: &[u32],
    main: &mut [u32],
    queue: &mut [u32],
    column: &[u32],
    s: Stretch,
)
    requires { Ready code.now marks.now notes.now s.size s.n.0 s.i.0 s.j.0 (length main.old) queue.old
        × Rows code.now marks.now s.size s.j.0 notes.now column.now × (count_of queue.old ≡ 0) }
    ensures { Settled code.now marks.now notes.now s.size s.n.0 s.i.0 s.j.0 main.old main.new queue.new }
{
    wake_all(code, marks, notes, main, queue, column, s);
    while queue[COUNT] != 0 {
        let rule = dequeue(queue, s.size);
        revisit(code, marks, notes, main, queue, rule, s);
    }
}
