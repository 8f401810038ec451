// What the engine is given of a grammar and a record: the code of the rules, and where terminals fit.
#![tactic(auto)]

ghost use Rattle.std.specs.Prelude.{◌≡◌, ◌<◌, length};
ghost use Rattle.tree.specs.Tree.{Grammar};
ghost use Rattle.chart.specs.Code.{Fitting, Ruled};
ghost use Rattle.rules.specs.Ready.{Ready};
ghost use Rattle.prepare.specs.Rows.{Row, RowReady, RowsReady, ItemRow, Rows, Given};

use text::CharPlace;

// A terminal's tests, at every place of the record.
fn fit_row(table: &[u32], at: usize, text: &[u32], fits: &mut [u8], base: usize)
    requires { RowReady table.now at text.now fits.old base }
    ensures { Row table.now text.now fits.old fits.new at base }
{
    let n = text.len();
    for i in 0..n + 1 {
        let fit = terminals::terminal_fits(table, at, text, CharPlace(i));
        fits[base + i] = fit as u8;
    }
}

fn fit_item(table: &[u32], size: usize, p: usize, text: &[u32], fits: &mut [u8])
    requires { RowsReady table.now size text.now fits.old × (p < size) }
    ensures { ItemRow table.now text.now fits.old fits.new p }
{
    if table[items::ITEM_KIND + items::ITEM_COLUMNS * p] != items::TERMINAL {
        return;
    }
    fit_row(
        table,
        text::wide(table[items::ITEM_TOKEN + items::ITEM_COLUMNS * p]),
        text,
        fits,
        p * chart::FITS_ROW,
    );
}

// Where the terminals of all items fit the record.
pub fn fit_rows(table: &[u32], size: usize, text: &[u32], fits: &mut [u8])
    requires { RowsReady table.now size text.now fits.old }
    ensures { Rows table.now size text.now fits.old fits.new }
{
    for p in 0..size {
        fit_item(table, size, p, text, fits);
    }
}

// The code of the grammar whose items the table has, and where its terminals fit the record; the end of the root's rule.
pub fn prepare(
    table: &[u32],
    size: usize,
    root: usize,
    text: &[u32],
    code: &mut [u32],
    fits: &mut [u8],
) -> usize
    requires { Given table.now size root text.now code.old fits.old }
    ensures { (g : Grammar) → Ready table.now g size root → Ruled (Fitting fits.new text.now) code.new g size result root }
{
    let top = rules::code_rules(table, size, root, code);
    fit_rows(table, size, text, fits);
    top
}
