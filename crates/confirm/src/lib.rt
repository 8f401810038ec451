// The place of the fault: how far the dots reach that stand on the record.
#![tactic(auto)]

ghost use Rattle.std.specs.Prelude.{◌≡◌, ◌<◌, length};
ghost use Rattle.fault.specs.Far.{Ranging};
ghost use Rattle.confirm.specs.Find.{One, Words, Best, Confirming, Confirmed};

use text::CharPlace;

// A dot of a grammar with `size` dots, and a place, or the number of a set that holds places.
#[derive(Clone, Copy)]
pub struct Spot {
    pub size: usize,
    pub p: usize,
    pub x: usize,
}

// The greater of `best` and what the dot reaches at the place, if it is on.
fn far_one(table: &[u32], code: &[u32], text: &[u32], s: Spot, on: bool, best: usize) -> usize
    requires { Ranging table.now code.now text.now s.size 0 × (s.p < s.size) }
    ensures { One table.now code.now text.now s.p s.x on best result }
{
    if !on {
        return best;
    }
    let x = s.x;
    if text.len() < x {
        return best;
    }
    best.max(x + fault::begun(table, code, s.size, text, s.p, x))
}

// Of all places of a number of the dot's set.
fn far_word(table: &[u32], code: &[u32], text: &[u32], s: Spot, word: u32, best: usize) -> usize
    requires { Ranging table.now code.now text.now s.size 0 × (s.p < s.size) × (s.x < 8) }
    ensures { Words table.now code.now text.now s.p s.x word 32 best result }
{
    if word == 0 {
        return best;
    }
    let size = s.size;
    let p = s.p;
    let v = s.x;
    let mut far = best;
    for b in 0u32..32 {
        let x = bits::PLACES * v + text::wide(b);
        far = far_one(
            table,
            code,
            text,
            Spot { size, p, x },
            bits::lit(word, b),
            far,
        );
    }
    far
}

// Of the dot's set.
fn far_row(
    table: &[u32],
    code: &[u32],
    text: &[u32],
    sets: &[u32; 8192],
    s: Spot,
    best: usize,
) -> usize
    requires { Ranging table.now code.now text.now s.size 0 × (s.p < s.size) }
    ensures { Best table.now code.now text.now s.size sets.now (λ q i. q ≡ s.p) best result }
{
    let size = s.size;
    let p = s.p;
    let mut far = best;
    for x in 0..bits::SET {
        far = far_word(
            table,
            code,
            text,
            Spot { size, p, x },
            sets[bits::SET * p + x],
            far,
        );
    }
    far
}

// How far dots reach.
fn sure(table: &[u32], code: &[u32], text: &[u32], sets: &[u32; 8192], size: usize) -> usize
    requires { Ranging table.now code.now text.now size 0 }
    ensures { Best table.now code.now text.now size sets.now (λ q i. q < size) 0 result }
{
    let mut far = 0;
    for p in 0..size {
        far = far_row(table, code, text, sets, Spot { size, p, x: 0 }, far);
    }
    far
}

// The place of the fault. Local are 40,960 bytes.
pub fn find(
    table: &[u32],
    text: &[u32],
    code: &[u32],
    marks: &[u8],
    notes: &[u32],
    main: &mut [u32],
    root: fault::Root,
) -> CharPlace
    requires { Confirming table.now text.now code.now marks.now notes.now root.size root.n.0 root.rule (length main.old) }
    ensures { (length main.new ≡ length main.old)
        × Confirmed table.now text.now code.now marks.now root.size root.rule result.0 }
{
    let size = root.size;
    let n = root.n.0;
    let rule = root.rule;
    let mut firsts = [0u32; chart::USES_LENGTH];
    fault::list_firsts(table, code, size, &mut firsts);
    ends::fill(code, &firsts, notes, marks, main, size, n);
    let mut sets = [0u32; 8192];
    standing::stand(
        code,
        &firsts,
        marks,
        main,
        &mut sets,
        standing::Task { size, n, rule },
    );
    CharPlace(sure(table, code, text, &sets, size))
}
