// Dots listed by rules.
ghost use Rattle.std.specs.Prelude.{◌≡◌, ℕ, ◌+◌, ◌*◌, ◌<◌, ◌≤◌, length, get_or};
ghost use Rattle.chart.specs.Code.{next_kind};
ghost use Rattle.reach.specs.Flags.{home_of};
ghost use Rattle.reach.specs.Lists.{use_key, after_key, end_key, key_of, rule_number, list_number, Shape, HomesFrom, Homing, Homed, Keying, Opened, Listing, Members, Keyed, PutKey};

use crate::work::{HOME, OPEN};

// The lists of a rule: of dots that begin an alternative, dots after symbols, ends, dots before symbols.
#[derive(Clone, Copy)]
pub enum DotList {
    Firsts,
    Afters,
    LastDots,
    Uses,
}

// The rule of a dot, if `last` is that of the dot before it.
fn home_at(code: &[u32], p: usize, last: u32) -> u32
    requires { (4 * p + 3 < length code.now) × (p < 512) × ((q : ℕ) → p ≡ q + 1 → last ≡ home_of code.now q) × (p ≡ 0 → last ≡ 0) }
    ensures { result ≡ home_of code.now p }
{
    let owner = code[chart::CODE_COLUMNS * p + chart::CODE_OWNER];
    if owner == 0 {
        return last;
    }
    owner - 1
}

// The rule of each dot, from a cell of the table on.
pub fn homes_from(code: &[u32], size: usize, table: &mut [u32], from: usize)
    requires { (size ≤ 512) × (4 * size ≤ length code.now) × (from < 2048) × (from + size ≤ length table.old) }
    ensures { HomesFrom code.now size from table.old table.new }
{
    let mut last = 0;
    for p in 0..size {
        last = home_at(code, p, last);
        table[from + p] = last;
    }
}

// The same in the work of a pass.
pub fn homes(code: &[u32], size: usize, work: &mut [u32])
    requires { Homing code.now size work.old }
    ensures { Homed code.now size work.old work.new }
{
    homes_from(code, size, work, HOME);
}

// The rule of the symbol after the dot p.
#[tactic(auto, unfolding(crate::specs::Lists::use_key))]
fn use_key(code: &[u32], size: usize, p: usize) -> Option<u32>
    requires { Shape code.now size × (p < size) }
    ensures { rule_number result ≡ use_key code.now p }
{
    if code[chart::CODE_COLUMNS * p] != chart::AT_SYMBOL {
        return None;
    }
    Some(code[chart::CODE_COLUMNS * p + chart::CODE_RULE])
}

// That of the symbol before it.
#[tactic(auto, unfolding(crate::specs::Lists::after_key))]
fn after_key(code: &[u32], size: usize, p: usize) -> Option<u32>
    requires { Shape code.now size × (p < size) }
    ensures { rule_number result ≡ after_key code.now p }
{
    if p == 0 {
        return None;
    }
    use_key(code, size, p - 1)
}

// The rule of which an alternative ends there.
fn end_key(code: &[u32], work: &[u32], size: usize, p: usize) -> Option<u32>
    requires { Keying code.now size work.now × (p < size) }
    ensures { rule_number result ≡ end_key code.now p }
{
    if code[chart::CODE_COLUMNS * p] != chart::AT_END {
        return None;
    }
    Some(work[HOME + p])
}

// The rule of the dot p in a list.
#[tactic(auto, unfolding(crate::specs::Lists::key_of))]
fn key(code: &[u32], work: &[u32], size: usize, which: DotList, p: usize) -> Option<u32>
    requires { Keying code.now size work.now × (p < size) }
    ensures { rule_number result ≡ key_of code.now (list_number which) p }
{
    match which {
        DotList::Firsts => code[chart::CODE_COLUMNS * p + chart::CODE_OWNER].checked_sub(1),
        DotList::Afters => after_key(code, size, p),
        DotList::LastDots => end_key(code, work, size, p),
        DotList::Uses => use_key(code, size, p),
    }
}

// Dots without a rule in the list are open.
pub fn open_dots(code: &[u32], work: &mut [u32], size: usize, which: DotList)
    requires { Keying code.now size work.old }
    ensures { Opened code.now size (list_number which) work.old work.new }
{
    for p in 0..size {
        let open = key(code, work, size, which, p).is_none();
        work[OPEN + p] = open as u32;
    }
}

fn put_key(keys: &mut [u32], p: usize, rule: Option<u32>)
    requires { (4 * p + 3 < length keys.old) × (p < 512) }
    ensures { PutKey keys.old keys.new p (rule_number rule) }
{
    let Some(rule) = rule else {
        return;
    };
    keys[chart::CODE_COLUMNS * p] = chart::AT_SYMBOL;
    keys[chart::CODE_COLUMNS * p + chart::CODE_RULE] = rule;
}

fn put_keys(code: &[u32], work: &[u32], size: usize, which: DotList, keys: &mut [u32])
    requires { Keying code.now size work.now × (4 * size ≤ length keys.old) × ((x : ℕ) → get_or keys.old x 0 ≡ 0) }
    ensures { Keyed code.now size (list_number which) keys.new }
{
    for p in 0..size {
        put_key(keys, p, key(code, work, size, which, p));
    }
}

// The dots of each rule. In the beginning all links are 0.
pub fn list_dots(code: &[u32], work: &[u32], size: usize, which: DotList, list: &mut [u32])
    requires { Listing code.now size work.now list.old }
    ensures { Members code.now (list_number which) size list.new }
{
    let mut keys = [0u32; chart::CODE_LENGTH];
    put_keys(code, work, size, which, &mut keys);
    chart::list_uses(&keys, list, size);
}
