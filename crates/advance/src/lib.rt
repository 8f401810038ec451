// One round of a read: a sweep of the plain engine over the whole main table.
#![tactic(auto)]

ghost use Rattle.std.specs.Prelude.{◌≡◌, ℕ, ◌+◌, ◌*◌, ◌<◌, ◌≤◌, length};
ghost use Rattle.tree.specs.Tree.{Grammar};
ghost use Rattle.chart.specs.Code.{flag};
ghost use Rattle.chart.specs.Heights.{none};
ghost use Rattle.rules.specs.Ready.{Ready};
ghost use Rattle.numbering.specs.Names.{is_name, name_count};
ghost use Rattle.heights.specs.Table.{Safe};
ghost use Rattle.sweeps.specs.Layers.{Upto};
ghost use Rattle.advance.specs.Advanced.{Advanced};
ghost use Rattle.advance.specs.Round.{Readable, Rounded};

use chart::{AT_END, CODE_COLUMNS, CODE_GOES};

// 1 where the position e names a rule: at the end of a rule's last alternative.
#[tactic(auto, unfolding(numbering::specs::Names::is_name))]
fn one_name(code: &[u32], e: usize) -> usize
    requires { (e < 512) × (4 * e + 4 ≤ length code.now) }
    ensures { result ≡ flag (is_name code.now e) }
{
    let names = code[CODE_COLUMNS * e] == AT_END && code[CODE_COLUMNS * e + CODE_GOES] == 0;
    names as usize
}

// How many rules there are, written and made.
fn count_rules(code: &[u32], size: usize) -> usize
    requires { (size ≤ 512) × (4 * size ≤ length code.now) }
    ensures { (result ≡ name_count code.now size) × (result ≤ size) }
{
    let mut count = 0;
    for e in 0..size {
        count += one_name(code, e);
    }
    count
}

// The round after `done` others, of at most `most`; tells whether it is the last. The last of all may add rules that no dot has seen yet:
// one more sweep gives the dots what they got.
fn advance(
    code: &[u32],
    fits: &[u8],
    size: usize,
    n: usize,
    done: usize,
    most: usize,
    main: &mut [u32],
) -> bool
    requires { Safe code.now fits.now size n (length main.old) × (done < most) × (most ≤ 102912) }
    ensures { Upto code.now fits.now size n done main.old
        → Advanced code.now fits.now size n done most main.old main.new result }
{
    let height = done as u32;
    if !sweeps::sweep(code, fits, size, n, height, main) {
        return true;
    }
    if done + 1 < most {
        return false;
    }
    sweeps::sweep(code, fits, size, n, height + 1, main);
    true
}

// The same of the grammar whose items the table has. Where there were enough rounds, nothing is done. Local are 111,104 bytes.
pub fn round(
    table: &[u32],
    size: usize,
    root: usize,
    text: &[u32],
    done: usize,
    main: &mut [u32],
) -> bool
    requires { Readable table.now size root text.now (length main.old) }
    ensures { (g : Grammar) → Ready table.now g size root → Rounded g text.now done main.old main.new result }
{
    let mut code = [0u32; chart::CODE_LENGTH];
    let mut fits = [0u8; chart::FITS_LENGTH];
    prepare::prepare(table, size, root, text, &mut code, &mut fits);
    let n = text.len();
    let most = count_rules(&code, size) * (n + 1);
    if most <= done {
        return true;
    }
    advance(&code, &fits, size, n, done, most, main)
}
