// Items in the grammar table: their columns and kinds, and those of the rules that repetitions make, laid down one after the other.
#![tactic(auto)]

ghost use Rattle.std.specs.Prelude.{◌≡◌, [], ◌∷◌, ◌++◌, ◌+◌, ◌<◌, ◌≤◌, ◌^◌, length, get_or};
ghost use Rattle.std.proofs.lemmas.List.Edits.{sets};
ghost use Rattle.repetitions.specs.Blocks.{entry, nums, entry_at, both_ends, once_block, option_block, star_block, rest_block, list_block};
ghost use Rattle.repetitions.specs.Blocks.{one_block, one_count, one_first, two_block, two_count, two_first, laid, Room, Source, kind_by};

// Where the items begin in the grammar table.
pub const ITEMS: usize = 12288;

// The columns of an item p, each at its own place and ITEM_COLUMNS * p: its kind; its target, the first item of a rule; the place of its token.
pub const ITEM_COLUMNS: usize = 3;

pub const ITEM_KIND: usize = ITEMS;

pub const ITEM_TARGET: usize = ITEMS + 1;

pub const ITEM_TOKEN: usize = ITEMS + 2;

// The kinds of items: a terminal; a nonterminal that is written as an element, as an attribute, or not; the end of an alternative
// that another follows, and of the last one of a rule.
pub const TERMINAL: u32 = 1;

pub const ELEMENT: u32 = 2;

pub const ATTRIBUTE: u32 = 3;

pub const DELETED: u32 = 4;

pub const ALTERNATIVE_END: u32 = 5;

pub const RULE_END: u32 = 6;

// Rules are made: the first item of the operator's own, and the item after.
#[derive(Clone, Copy)]
pub struct Made {
    pub first: usize,
    pub next: usize,
}

// An entry of the stack has the columns of an item.
const ENTRY_TARGET: usize = 1;

const ENTRY_TOKEN: usize = 2;

// How many items are made: f and a rule; `f?`, `f*`, `f+`; what follows the first f of `f++sep`; `f++sep` and `f**sep`, and where the ends
// of these begin.
const AGAIN_ITEMS: usize = 2;

const OPTION_ITEMS: usize = 3;

const STAR_ITEMS: usize = 4;

const PLUS_ITEMS: usize = 7;

const REST_ENDS: usize = 3;

const REST_ITEMS: usize = 5;

const LIST_ITEMS: usize = 8;

const LIST_ENDS: usize = 9;

const MAYBE_LIST_ITEMS: usize = 11;

// Three numbers at a place.
pub fn put(table: &mut [u32], at: usize, a: u32, b: u32, c: u32)
    requires { at + 3 ≤ length table.old }
    ensures { table.new ≡ sets table.old at (a ∷ b ∷ c ∷ []) }
{
    table[at] = a;
    table[at + ENTRY_TARGET] = b;
    table[at + ENTRY_TOKEN] = c;
}

// Item i: of a kind, with a target.
pub fn item(table: &mut [u32], i: usize, kind: u32, target: usize)
    requires { Room table.old i 1 × (target < 2 ^ 32) }
    ensures { table.new ≡ laid table.old i (nums (entry kind target 0)) }
{
    put(table, ITEM_KIND + ITEM_COLUMNS * i, kind, target as u32, 0);
}

// An entry of the stack becomes that of a made rule, and keeps the token of its factor.
pub fn renew(table: &mut [u32], at: usize, kind: u32, target: u32)
    requires { at + 3 ≤ length table.old }
    ensures { table.new ≡ sets table.old at (nums (entry kind target (get_or table.old (at + 2) 0))) }
{
    table[at] = kind;
    table[at + ENTRY_TARGET] = target;
}

// Item i: the made rule at item x, with the token of its factor, whose entry stands at a place of the stack.
fn refer(table: &mut [u32], i: usize, x: usize, from: usize)
    requires { Source table.old i 1 from 3 × (x < 2 ^ 32) }
    ensures { table.new ≡ laid table.old i (nums (entry 4 x (entry_at table.old from).token)) }
{
    let token = table[from + ENTRY_TOKEN];
    put(
        table,
        ITEM_KIND + ITEM_COLUMNS * i,
        DELETED,
        x as u32,
        token,
    );
}

// Item i: the entry at a place of the stack.
pub fn copy(table: &mut [u32], i: usize, from: usize)
    requires { Source table.old i 1 from 3 }
    ensures { table.new ≡ laid table.old i (nums (entry_at table.old from)) }
{
    let a = table[from];
    let b = table[from + ENTRY_TARGET];
    let c = table[from + ENTRY_TOKEN];
    put(table, ITEM_KIND + ITEM_COLUMNS * i, a, b, c);
}

// The end of an alternative, and an empty one.
fn ends(table: &mut [u32], i: usize)
    requires { Room table.old i 2 }
    ensures { table.new ≡ laid table.old i both_ends }
{
    item(table, i, ALTERNATIVE_END, 0);
    item(table, i + 1, RULE_END, 0);
}

// The entry, and then the rule at item x.
fn again(table: &mut [u32], i: usize, from: usize, x: usize)
    requires { Source table.old i 2 from 3 × (x < 2 ^ 32) }
    ensures { table.new ≡ laid table.old i (nums (entry_at table.old from) ++ nums (entry 4 x (entry_at table.old from).token)) }
{
    copy(table, i, from);
    refer(table, i + 1, x, from);
}

// f and the rule at item x
fn once(table: &mut [u32], i: usize, from: usize, x: usize)
    requires { Source table.old i 3 from 3 × (x < 2 ^ 32) }
    ensures { table.new ≡ laid table.old i (once_block (entry_at table.old from) x) }
{
    again(table, i, from, x);
    item(table, i + AGAIN_ITEMS, RULE_END, 0);
}

// f?
fn option(table: &mut [u32], i: usize, from: usize)
    requires { Source table.old i 3 from 3 }
    ensures { table.new ≡ laid table.old i (option_block (entry_at table.old from)) }
{
    copy(table, i, from);
    ends(table, i + 1);
}

// f*
fn star(table: &mut [u32], i: usize, from: usize)
    requires { Source table.old i 4 from 3 }
    ensures { table.new ≡ laid table.old i (star_block (entry_at table.old from) i) }
{
    again(table, i, from, i);
    ends(table, i + AGAIN_ITEMS);
}

// what follows the first f of f++sep; the entry of sep stands after that of f
fn rest(table: &mut [u32], i: usize, from: usize)
    requires { Source table.old i 5 from 6 }
    ensures { table.new ≡ laid table.old i (rest_block (entry_at table.old from) (entry_at table.old (from + 3)) i) }
{
    copy(table, i, from + ITEM_COLUMNS);
    again(table, i + 1, from, i);
    ends(table, i + REST_ENDS);
}

// The rules of `f?`, `f*` or `f+`.
pub fn one(table: &mut [u32], i: usize, from: usize, k: u32) -> Made
    requires { Source table.old i (one_count k) from 3 }
    ensures { (table.new ≡ laid table.old i (one_block k (entry_at table.old from) i)) × (result.first ≡ i + one_first k) × (result.next ≡ i + one_count k) }
{
    if k == tokens::TO_OPTION {
        option(table, i, from);
        return Made {
            first: i,
            next: i + OPTION_ITEMS,
        };
    }
    star(table, i, from);
    if k == tokens::TO_REPEAT0 {
        return Made {
            first: i,
            next: i + STAR_ITEMS,
        };
    }
    once(table, i + STAR_ITEMS, from, i);
    Made {
        first: i + STAR_ITEMS,
        next: i + PLUS_ITEMS,
    }
}

// f++sep: what follows its first f, and its own rule
fn listed(table: &mut [u32], i: usize, from: usize)
    requires { Source table.old i 8 from 6 }
    ensures { table.new ≡ laid table.old i (list_block (entry_at table.old from) (entry_at table.old (from + 3)) i) }
{
    rest(table, i, from);
    once(table, i + REST_ITEMS, from, i);
}

// The rules of `f**sep` or `f++sep`.
pub fn two(table: &mut [u32], i: usize, from: usize, k: u32) -> Made
    requires { Source table.old i (two_count k) from 6 }
    ensures { (table.new ≡ laid table.old i
        (two_block k (entry_at table.old from) (entry_at table.old (from + 3)) i)) × (result.first ≡ i + two_first k)
        × (result.next ≡ i + two_count k) }
{
    listed(table, i, from);
    if k == tokens::TO_REPEAT1SEP {
        return Made {
            first: i + REST_ITEMS,
            next: i + LIST_ITEMS,
        };
    }
    refer(table, i + LIST_ITEMS, i + REST_ITEMS, from);
    ends(table, i + LIST_ENDS);
    Made {
        first: i + LIST_ITEMS,
        next: i + MAYBE_LIST_ITEMS,
    }
}

// The kind of an item by the first numbers of the name and of its rule's head: the mark at the use wins.
#[tactic(auto, unfolding(crate::specs::Blocks::kind_by))]
pub fn kind_by(used: u32, head: u32) -> u32
    ensures { result ≡ kind_by used head }
{
    if used == tokens::NAME_DELETED {
        return DELETED;
    }
    if used == tokens::NAME_ATTRIBUTE {
        return ATTRIBUTE;
    }
    if used == tokens::NAME_INCLUDED {
        return ELEMENT;
    }
    if head == tokens::RULE_HEAD_DELETED {
        return DELETED;
    }
    if head == tokens::RULE_HEAD_ATTRIBUTE {
        return ATTRIBUTE;
    }
    ELEMENT
}
