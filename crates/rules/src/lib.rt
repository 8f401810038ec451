// The rules of a grammar as the parser's code: four numbers for each item, by which a dot moves.
#![tactic(auto)]

ghost use Rattle.std.specs.Prelude.{◌≡◌, ℕ, ◌+◌, ◌*◌, ◌-◌, ◌<◌, ◌≤◌, length};
ghost use Rattle.text.specs.Limits.{grammar_table};
ghost use Rattle.tree.specs.Tree.{Grammar};
ghost use Rattle.items.specs.Items.{kind_at};
ghost use Rattle.chart.specs.Code.{Ruled};
ghost use Rattle.rules.specs.Ready.{last_of, owner_of, Owners, Put, next_kind_of, goes_of, rule_of, Reaches, Item, Codes, Ready, Token, Codable};

// The kind of the item before the item p, for p above 0.
const KIND_BEFORE: usize = items::ITEM_KIND - items::ITEM_COLUMNS;

// The item that ends the rule of the item p, if `last` is that of the item after it.
fn last_at(table: &[u32], p: usize, last: u32) -> u32
    requires { (length table.now ≡ grammar_table) × (p < 512) }
    ensures { result ≡ last_of table.now p last }
{
    if table[items::ITEM_KIND + items::ITEM_COLUMNS * p] == items::RULE_END {
        return p as u32;
    }
    last
}

fn owner_at(table: &[u32], p: usize, last: u32) -> u32
    requires { (length table.now ≡ grammar_table) × (p < 512) × (last < 512) }
    ensures { result ≡ owner_of table.now p last }
{
    if p == 0 {
        return last + 1;
    }
    if table[KIND_BEFORE + items::ITEM_COLUMNS * p] < items::ALTERNATIVE_END {
        return 0;
    }
    last + 1
}

// The owner of each item, from the last item to the first.
fn owners(table: &[u32], size: usize, code: &mut [u32])
    requires { Reaches table.now size code.old }
    ensures { Owners table.now size code.old code.new }
{
    let mut last = 0;
    for p in (0..size).rev() {
        last = last_at(table, p, last);
        code[chart::CODE_COLUMNS * p + chart::CODE_OWNER] = owner_at(table, p, last);
    }
}

fn put_item(code: &mut [u32], p: usize, kind: u32, goes: u32, rule: u32)
    requires { (4 * p + 3 < length code.old) × (p < 512) }
    ensures { Put code.old code.new p kind goes rule }
{
    let at = chart::CODE_COLUMNS * p;
    code[at] = kind;
    code[at + chart::CODE_GOES] = goes;
    code[at + chart::CODE_RULE] = rule;
}

// What an item is to the engine, once the owners are there.
fn code_item(table: &[u32], size: usize, p: usize, code: &mut [u32])
    requires { Item table.now size code.old p }
    ensures { Put code.old code.new p (next_kind_of (kind_at table.now p))
        (goes_of table.now p (kind_at table.now p))
        (rule_of table.now code.old p (kind_at table.now p)) }
{
    let kind = table[items::ITEM_KIND + items::ITEM_COLUMNS * p];
    if kind == items::TERMINAL {
        let token = text::wide(table[items::ITEM_TOKEN + items::ITEM_COLUMNS * p]);
        let width = tokens::terminal_width(table, token) as u32;
        put_item(code, p, chart::AT_TERMINAL, width, 0);
        return;
    }
    if kind < items::ALTERNATIVE_END {
        let target = table[items::ITEM_TARGET + items::ITEM_COLUMNS * p];
        let rule = code[chart::CODE_COLUMNS * text::wide(target)
            + chart::CODE_OWNER].saturating_sub(1);
        put_item(code, p, chart::AT_SYMBOL, target, rule);
        return;
    }
    if kind == items::ALTERNATIVE_END {
        put_item(code, p, chart::AT_END, p as u32 + 2, 0);
        return;
    }
    put_item(code, p, chart::AT_END, 0, 0);
}

fn code_items(table: &[u32], size: usize, code: &mut [u32])
    requires { Reaches table.now size code.old }
    ensures { Codes table.now size code.old code.new }
{
    for p in 0..size {
        code_item(table, size, p, code);
    }
}

// The code of the rules of the grammar whose items the table has; the end of the root's rule.
pub fn code_rules(table: &[u32], size: usize, root: usize, code: &mut [u32]) -> usize
    requires { Codable table.now size root code.old }
    ensures { (g : Grammar) → Ready table.now g size root → Ruled (Token table.now) code.new g size result root }
{
    owners(table, size, code);
    code_items(table, size, code);
    text::wide(code[chart::CODE_COLUMNS * root + chart::CODE_OWNER].saturating_sub(1))
}
