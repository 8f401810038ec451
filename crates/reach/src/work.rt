// What both passes share: at each place of the record, a queue of the dots that are lifted there, each once.
ghost use Rattle.std.specs.Prelude.{◌≡◌, ◌+◌, ◌<◌, ◌≤◌, length};
ghost use Rattle.reach.specs.Work.{tail_of, pushed, Kept, Lift, Spreads, Spread, Raised, Waking, Woken, Collecting, Collects, Collected};

const DOTS: usize = text::limits::GRAMMAR_SIZE;

// The bytes of a place: of each dot; of each rule, its beginning and its end.
pub const PLACE: usize = 3 * text::limits::GRAMMAR_SIZE;

pub const BEGINS: usize = text::limits::GRAMMAR_SIZE;

pub const ENDS: usize = 2 * text::limits::GRAMMAR_SIZE;

// The work: the place of the queue's last dot, the queue, which dots are open, and the rule of each dot.
pub const TAIL: usize = 0;

pub const OPEN: usize = DOTS + 1;

pub const HOME: usize = OPEN + DOTS;

pub const WORK_LENGTH: usize = HOME + DOTS;

// The byte x is v, if it is less.
pub fn raise(marks: &mut [u8], x: usize, v: u8)
    requires { x < length marks.old }
    ensures { Raised marks.old marks.new x v }
{
    if marks[x] < v {
        marks[x] = v;
    }
}

// The dot p is put into the queue.
fn push(work: &mut [u32], p: usize)
    requires { (length work.old ≡ 1537) × (tail_of work.old < 512) × (p < 512) }
    ensures { work.new ≡ pushed work.old p }
{
    let tail = work[TAIL] + 1;
    let at = text::wide(tail);
    work[TAIL] = tail;
    work[at] = p as u32;
}

// The dot p is lifted above `low` at the place i, if it is open and as high as that. It is put into the queue.
pub fn lift(marks: &mut [u8], work: &mut [u32], size: usize, i: usize, p: usize, low: u8)
    requires { Kept size low marks.old work.old i × (p < size) }
    ensures { Lift size low marks.old work.old marks.new work.new i p }
{
    if work[OPEN + p] == 0 {
        return;
    }
    let x = PLACE * i + p;
    if marks[x] != low {
        return;
    }
    marks[x] = low + 1;
    push(work, p);
}

// All dots of the rule's list are.
pub fn spread(
    list: &[u32],
    marks: &mut [u8],
    work: &mut [u32],
    size: usize,
    i: usize,
    e: usize,
    low: u8,
)
    requires { Spreads size low list.now marks.old work.old i e }
    ensures { Spread size low list.now marks.old work.old marks.new work.new i e }
{
    let mut x = text::wide(list[chart::USE_COLUMNS * e]);
    while 0 < x {
        lift(marks, work, size, i, x - 1, low);
        x = text::wide(list[chart::USE_COLUMNS * x - 1]);
    }
}

// Which byte of a rule is lifted above `low`; the dots of its list are lifted above `dots`.
#[derive(Clone, Copy)]
pub struct Step {
    pub column: usize,
    pub low: u8,
    pub dots: u8,
}

// The rule e is lifted, if it is as high as that, and the dots of its list.
pub fn wake(
    list: &[u32],
    marks: &mut [u8],
    work: &mut [u32],
    size: usize,
    i: usize,
    e: usize,
    step: Step,
)
    requires { Waking size step.dots step.low step.column list.now marks.old work.old i e }
    ensures { Woken size step.dots step.low step.column list.now marks.old work.old
        marks.new work.new i e }
{
    let x = PLACE * i + (step.column + e);
    if marks[x] != step.low {
        return;
    }
    raise(marks, x, step.low + 1);
    spread(list, marks, work, size, i, e, step.dots);
}

// The dot p is put into the queue, if it is above `low`.
fn gather(marks: &[u8], work: &mut [u32], size: usize, i: usize, p: usize, low: u8)
    requires { Collecting size low marks.now work.old work.old i p × (p < size) }
    ensures { Collecting size low marks.now work.old work.new i (p + 1) }
{
    if marks[PLACE * i + p] <= low {
        return;
    }
    push(work, p);
}

// All dots above `low` at the place i are, and no others.
pub fn collect(marks: &[u8], work: &mut [u32], size: usize, i: usize, low: u8)
    requires { Collects size low marks.now work.old i }
    ensures { Collected size low marks.now work.old work.new i }
{
    work[TAIL] = 0;
    for p in 0..size {
        gather(marks, work, size, i, p, low);
    }
}
