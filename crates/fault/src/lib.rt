// The place of the fault in a record that has no reading: how many of its first characters begin some text of the grammar.
#![tactic(auto)]

ghost use Rattle.std.specs.Prelude.{Bool, true, false, ◌≡◌, ℕ, ◌+◌, ◌*◌, ◌<◌, ◌≤◌, length, get_or, take, drop};
ghost use Rattle.chart.specs.Code.{next_kind};
ghost use Rattle.terminals.specs.Places.{Beside};
ghost use Rattle.viable.specs.Stands.{alike};
ghost use Rattle.fault.specs.Firsts.{Tokened, Finishing, Tells, KeyPut, Keyed, Firsts};
ghost use Rattle.fault.specs.Far.{Agrees, Begun, Ranging, Ranged, Reach, Placing, Placed};

use chart::{AT_END, AT_SYMBOL, AT_TERMINAL, CODE_COLUMNS, CODE_OWNER, CODE_RULE};
use stands::{FLAGS, FREE, PLACE, Spot};
use text::CharPlace;

// Whether the rest of an alternative after the dot p can be finished, if `after` says it of the dot after p: no terminal in it is dead.
fn finishes(table: &[u32], code: &[u32], size: usize, p: usize, after: bool) -> bool
    requires { Tokened table.now code.now size × (p < size) × ((next_kind code.now p ≡ 0 → ⊥) → Tells table.now code.now (p + 1) after) }
    ensures { Tells table.now code.now p result }
{
    let kind = code[CODE_COLUMNS * p];
    if kind == AT_END {
        return true;
    }
    if kind != AT_TERMINAL {
        return after;
    }
    let token = text::wide(table[items::ITEM_TOKEN + items::ITEM_COLUMNS * p]);
    text::both(after, terminals::is_live(table, token))
}

// The key of p, if an alternative begins there that can be finished: its rule.
fn put_key(code: &[u32], keys: &mut [u32], p: usize, alive: bool)
    requires { (4 * p + 3 < length code.now) × (4 * p + 3 < length keys.old) × (p < 512) }
    ensures { KeyPut code.now keys.old keys.new p alive }
{
    let owner = code[CODE_COLUMNS * p + CODE_OWNER];
    if owner == 0 {
        return;
    }
    if alive {
        keys[CODE_COLUMNS * p] = AT_SYMBOL;
        keys[CODE_COLUMNS * p + CODE_RULE] = owner - 1;
    }
}

// All keys, from the last dot to the first.
fn put_keys(table: &[u32], code: &[u32], size: usize, keys: &mut [u32])
    requires { Tokened table.now code.now size × (4 * size ≤ length keys.old) × ((x : ℕ) → get_or keys.old x 0 ≡ 0) }
    ensures { Keyed table.now code.now size 0 keys.new }
{
    let mut alive = true;
    for p in (0..size).rev() {
        alive = finishes(table, code, size, p, alive);
        put_key(code, keys, p, alive);
    }
}

// For each rule the first dots of its alternatives that can be finished.
pub fn list_firsts(table: &[u32], code: &[u32], size: usize, firsts: &mut [u32])
    requires { Tokened table.now code.now size × (2 * size ≤ length firsts.old) × ((x : ℕ) → get_or firsts.old x 0 ≡ 0) }
    ensures { Firsts table.now code.now size firsts.new }
{
    let mut keys = [0u32; chart::CODE_LENGTH];
    put_keys(table, code, size, &mut keys);
    chart::list_uses(&keys, firsts, size);
}

// The character k of those at a place of the table is the record's.
fn agrees(table: &[u32], at: usize, count: usize, text: &[u32], i: usize, k: usize) -> bool
    requires { Beside table.now at count text.now i × (k ≤ count) × (i + k ≤ length text.now) }
    ensures { Agrees table.now at count text.now i k result }
{
    if count <= k {
        return false;
    }
    if text.len() <= i + k {
        return false;
    }
    table[at + k] == text[i + k]
}

// How many of the characters at a place of the table the record has from i on. A loop: what a chain of `zip`, `take_while` and `count`
// promises was not enough for the proof.
fn common(table: &[u32], at: usize, count: usize, text: &[u32], i: usize) -> usize
    requires { Beside table.now at count text.now i }
    ensures { result ≡ alike (take count (drop at table.now)) (drop i text.now) }
{
    let mut k = 0;
    while agrees(table, at, count, text, i, k) {
        k += 1;
    }
    k
}

// How many characters of the literal after the dot p the record has from i on; 0 where no literal stands there.
pub fn begun(table: &[u32], code: &[u32], size: usize, text: &[u32], p: usize, i: usize) -> usize
    requires { Ranging table.now code.now text.now size i × (p < size) }
    ensures { Begun table.now code.now text.now p i result × (i + result ≤ length text.now) }
{
    if code[CODE_COLUMNS * p] != AT_TERMINAL {
        return 0;
    }
    let token = text::wide(table[items::ITEM_TOKEN + items::ITEM_COLUMNS * p]);
    let kind = table[token];
    if kind < tokens::CODED {
        return common(table, token + 2, text::wide(table[token + 1]), text, i);
    }
    if kind < tokens::INCLUDE {
        return common(table, token + 1, 1, text, i);
    }
    0
}

// The greater of `best` and the place that the dot of s reaches, if it stands.
fn farther(table: &[u32], code: &[u32], text: &[u32], flags: &[u8], s: Spot, best: usize) -> usize
    requires { Ranging table.now code.now text.now s.size s.i.0 × (s.p < s.size) × (length flags.now ≡ 102912) }
    ensures { Ranged table.now code.now text.now flags.now s.size s.i.0 s.p (s.p + 1) best result }
{
    let i = s.i.0;
    if FREE <= flags[PLACE * i + s.p] {
        return best;
    }
    best.max(i + begun(table, code, s.size, text, s.p, i))
}

// Of all dots at the place of s.
fn farthest_at(
    table: &[u32],
    code: &[u32],
    text: &[u32],
    flags: &[u8],
    s: Spot,
    best: usize,
) -> usize
    requires { Ranging table.now code.now text.now s.size s.i.0 × (length flags.now ≡ 102912) }
    ensures { Ranged table.now code.now text.now flags.now s.size s.i.0 0 s.size best result }
{
    let size = s.size;
    let n = s.n;
    let i = s.i;
    let mut far = best;
    for p in 0..size {
        far = farther(table, code, text, flags, Spot { size, n, i, p }, far);
    }
    far
}

// Of all places.
fn farthest(table: &[u32], code: &[u32], text: &[u32], flags: &[u8], size: usize) -> usize
    requires { Ranging table.now code.now text.now size 0 × (length flags.now ≡ 102912) }
    ensures { Reach table.now code.now text.now flags.now size (length text.now + 1) result }
{
    let n = CharPlace(text.len());
    let mut far = 0;
    for i in 0..n.0 + 1 {
        far = farthest_at(
            table,
            code,
            text,
            flags,
            Spot {
                size,
                n,
                i: CharPlace(i),
                p: 0,
            },
            far,
        );
    }
    far
}

// What is needed of the root: the grammar's dots, the record's end, the rule.
#[derive(Clone, Copy)]
pub struct Root {
    pub size: usize,
    pub n: CharPlace,
    pub rule: usize,
}

// How far the dots that stand reach. Local are 115,200 bytes.
pub fn place(
    table: &[u32],
    text: &[u32],
    code: &[u32],
    marks: &[u8],
    notes: &[u32],
    main: &[u32],
    root: Root,
) -> CharPlace
    requires { Placing table.now text.now code.now marks.now notes.now (length main.now) root.size root.n.0 root.rule }
    ensures { Placed table.now text.now code.now marks.now notes.now main.now root.size root.rule result.0 }
{
    let mut firsts = [0u32; chart::USES_LENGTH];
    let size = root.size;
    let n = root.n;
    list_firsts(table, code, size, &mut firsts);
    let mut flags = [FREE; FLAGS];
    stands::mark(
        code,
        &firsts,
        marks,
        notes,
        main,
        &mut flags,
        Spot {
            size,
            n,
            i: CharPlace(0),
            p: root.rule,
        },
    );
    CharPlace(farthest(table, code, text, &flags, size))
}
