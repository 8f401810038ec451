// Sets of places: 32 in a number, a bit for each.
#![tactic(auto)]

ghost use Rattle.std.specs.Prelude.{true, ◌≡◌, ℕ, ◌+◌, ◌<◌, ◌^◌};
ghost use Rattle.bits.specs.Bits.{Lit, Has, Union, Masking, Beyond, Spread, Adds};

// The numbers of a set.
pub const SET: usize = 8;

// The places of a number.
pub const PLACES: usize = 32;

// All ones.
const ALL: u32 = 4294967295;

// Whether the bit b is 1.
pub fn lit(word: u32, b: u32) -> bool
    requires { b < 32 }
    ensures { (result ≡ true → Lit word b) × (Lit word b → result ≡ true) }
{
    (word >> b) & 1 == 1
}

// All ones, if the bit b is 1.
fn mask(word: u32, b: u32) -> u32
    requires { b < 32 }
    ensures { ((result ≡ 0 → ⊥) → Lit word b) × (Lit word b → result ≡ 4294967295) }
{
    if lit(word, b) {
        return ALL;
    }
    0
}

// A mask for each bit.
pub fn spread(word: u32, on: &mut [u32; 32])
    ensures { Spread word on.old on.new }
{
    for b in 0..32u32 {
        on[b as usize] = mask(word, b);
    }
}

pub fn join(a: u32, b: u32) -> u32
    ensures { Union a b result }
{
    a | b
}

// Where the mask is all ones, the bits of d join.
pub fn join_by(a: u32, d: u32, on: u32) -> u32
    ensures { Masking a d on result }
{
    a | (d & on)
}

// What is new in a.
pub fn beyond(a: u32, old: u32) -> u32
    ensures { Beyond a old result }
{
    a & (a ^ old)
}

fn power(b: u32) -> u32
    requires { b < 32 }
    ensures { result ≡ 2 ^ b }
{
    1u32 << b
}

// The place x comes in.
pub fn put(set: &mut [u32; 8], x: usize)
    requires { x < 256 }
    ensures { Adds (λ y. y ≡ x) set.old set.new }
{
    let at = x / PLACES;
    let b = (x % PLACES) as u32;
    set[at] = join(set[at], power(b));
}

// Whether there is nothing in the set.
pub fn none(set: &[u32; 8]) -> bool
    ensures { result ≡ true → (x : ℕ) → x < 256 → Has set.now x → ⊥ }
{
    let mut all = 0;
    for v in 0..SET {
        all |= set[v];
    }
    all == 0
}
