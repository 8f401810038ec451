// The rules that wait: each once, the first come first.
#![tactic(auto)]

ghost use Rattle.std.specs.Prelude.{◌≡◌, ◌-◌, ◌<◌, ltb};
ghost use Rattle.text.specs.Lists.{pick};
ghost use Rattle.queue.specs.Queue.{count_of, Queued, Put, Taken};

const RING: usize = text::limits::GRAMMAR_SIZE;

// The ring, a flag for each rule, where the ring begins, and how many are in it.
const FLAGS: usize = RING;

const HEAD: usize = 2 * RING;

pub const COUNT: usize = HEAD + 1;

pub const QUEUE: usize = HEAD + 2;

// A place of the ring, or the same past its end.
fn around(k: usize) -> usize
    requires { k < 1024 }
    ensures { (result ≡ pick (ltb k 512) k (k - 512)) × (result < 512) }
{
    if k < RING {
        return k;
    }
    k - RING
}

// Puts the rule in, if it is not there.
pub fn enqueue(queue: &mut [u32], size: usize, rule: usize)
    requires { Queued size queue.old × (rule < size) }
    ensures { Put size queue.old queue.new rule }
{
    if queue[FLAGS + rule] != 0 {
        return;
    }
    let count = text::wide(queue[COUNT]);
    let x = around(text::wide(queue[HEAD]) + count);
    queue[x] = rule as u32;
    queue[FLAGS + rule] = 1;
    queue[COUNT] = count as u32 + 1;
}

// Takes the first one.
pub fn dequeue(queue: &mut [u32], size: usize) -> usize
    requires { Queued size queue.old × (0 < count_of queue.old) }
    ensures { Taken size queue.old queue.new result }
{
    let count = queue[COUNT];
    let head = text::wide(queue[HEAD]);
    let rule = text::wide(queue[head]);
    queue[FLAGS + rule] = 0;
    queue[HEAD] = around(head + 1) as u32;
    queue[COUNT] = count - 1;
    rule
}
