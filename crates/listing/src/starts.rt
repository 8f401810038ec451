// The starts of the stretches with one end, by their flags in the end's column.
ghost use Rattle.std.specs.Prelude.{true, ◌≡◌, ℕ, ◌+◌, ◌<◌, ◌≤◌, length, get_or};
ghost use Rattle.listing.specs.Starts.{Passed};

use sparse::TOUCHED;

// So many starts are passed over at once.
const BLOCK: usize = 8;

const LAST: usize = BLOCK - 1;

// A number that is at least as great as either.
fn joined(a: u32, b: u32) -> u32
    ensures { (a ≤ result) × (b ≤ result) }
{
    a | b
}

// A number that is at least as great as each flag of a block.
fn block(column: &[u32], y: usize) -> u32
    requires { y + 8 ≤ length column.now }
    ensures { (k : ℕ) → k < 8 → get_or column.now (y + k) 0 ≤ result }
{
    let mut all = 0;
    for k in 0..BLOCK {
        all = joined(all, column[y + k]);
    }
    all
}

// Whether no start of a block is touched. Where many are, the last one is most often.
fn is_untouched(column: &[u32], y: usize) -> bool
    requires { y + 8 ≤ length column.now }
    ensures { result ≡ true → (k : ℕ) → k < 8 → get_or column.now (y + k) 0 ≡ 0 }
{
    column[y + LAST] == 0 && block(column, y) == 0
}

// Starts before i that nothing touched are passed over, a block at a time: all from the one that is returned on.
pub fn past_untouched(column: &[u32], from: usize) -> usize
    requires { (length column.now ≡ 3789) × (from ≤ 200) }
    ensures { Passed column.now result from }
{
    let mut i = from;
    while BLOCK <= i {
        let first = i - BLOCK;
        if !is_untouched(column, TOUCHED + first) {
            return i;
        }
        i = first;
    }
    i
}
