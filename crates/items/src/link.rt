// Names get the kinds and the first items of their rules.
ghost use Rattle.std.specs.Prelude.{◌≡◌, ◌+◌};
ghost use Rattle.items.specs.Linked.{Found, Linkable, Single, Linked};

use crate::{
    ELEMENT, ITEM_COLUMNS, ITEM_KIND, ITEM_TARGET, ITEM_TOKEN, ITEMS, RULE_COLUMNS, RULE_FIRST,
    RULE_PLACE,
};

// The first of the rules with the name of the token at `at`.
fn find(table: &[u32], rules: usize, at: usize) -> usize
    requires { Linkable table.now 0 rules }
    ensures { Found table.now rules at result }
{
    for i in 0..rules {
        if tokens::same_if_named(table, at, table[RULE_PLACE + RULE_COLUMNS * i] as usize) {
            return i;
        }
    }
    rules
}

// Item p; a name gets the kind by its marks, and the first item of its rule.
fn resolve(table: &mut [u32], p: usize, rules: usize)
    requires { Linkable table.old (p + 1) rules }
    ensures { Single table.old rules table.new p }
{
    if table[ITEM_KIND + ITEM_COLUMNS * p] != ELEMENT {
        return;
    }
    let at = table[ITEM_TOKEN + ITEM_COLUMNS * p] as usize;
    let r = find(table, rules, at);
    let head = table[RULE_PLACE + RULE_COLUMNS * r] as usize;
    if ITEMS <= at {
        return;
    }
    if ITEMS <= head {
        return;
    }
    let kind = repetitions::kind_by(table[at], table[head]);
    let first = table[RULE_FIRST + RULE_COLUMNS * r];
    table[ITEM_KIND + ITEM_COLUMNS * p] = kind;
    table[ITEM_TARGET + ITEM_COLUMNS * p] = first;
}

pub fn link(table: &mut [u32], items: usize, rules: usize)
    requires { Linkable table.old items rules }
    ensures { Linked table.old items rules table.new }
{
    for p in 0..items {
        resolve(table, p, rules);
    }
}
