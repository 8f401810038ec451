// The plain rules of a grammar as items in the grammar table, one for each place of a dot, made from the tokens by a machine with a stack.
#![tactic(auto)]

mod link;
mod machine;

ghost use Rattle.std.specs.Prelude.{◌≡◌, ◌<◌, take};
ghost use Rattle.tree.specs.Tree.{Grammar};
ghost use Rattle.items.specs.Items.{kind_at, target_at, token_at};
ghost use Rattle.items.specs.Built.{Built};
ghost use Rattle.items.specs.Scanned.{Prepared, Readable};

pub use repetitions::{
    ALTERNATIVE_END, ATTRIBUTE, DELETED, ELEMENT, ITEM_COLUMNS, ITEM_KIND, ITEM_TARGET, ITEM_TOKEN,
    ITEMS, RULE_END, TERMINAL,
};

// The parts of the grammar table: the tokens, from 0 on; the items; the rules, in the order of the grammar; the machine's stack.
// An entry of the stack is an item that has no place yet, or marks where a bracket or a rule begins.
const RULES: usize = 13824;

const STACK: usize = 14848;

// The columns of a rule: the place of its head's token; its first item.
const RULE_COLUMNS: usize = 2;

const RULE_PLACE: usize = RULES;

const RULE_FIRST: usize = RULES + 1;

// The columns of an entry of the stack are those of an item; where it marks a beginning, the base of what is around it, and the place
// of its token.
const ENTRY_COLUMNS: usize = 3;

const STACK_BASE: usize = STACK + 1;

const STACK_PLACE: usize = STACK + 2;

// The kind of an entry that marks where a bracket or a rule begins.
const BEGINNING: u32 = 0;

// Where the machine stands: how many items and rules are made, how many entries the stack has, and the entry at which the innermost
// bracket or rule begins.
#[derive(Clone, Copy)]
pub struct State {
    pub items: usize,
    pub rules: usize,
    pub depth: usize,
    pub base: usize,
}

// What the machine does at a token.
#[derive(Clone, Copy)]
pub enum Action {
    Skip,
    Push(u32),
    Open,
    Operator(u32),
    Close,
    Finish,
}

// The columns of an item, 0 past the table's end.
pub fn kind_at(table: &[u32], item: usize) -> usize
    ensures { result ≡ kind_at table.now item }
{
    if item < table.len() {
        return tokens::look(table, ITEM_KIND + ITEM_COLUMNS * item);
    }
    0
}

pub fn target_at(table: &[u32], item: usize) -> usize
    ensures { result ≡ target_at table.now item }
{
    if item < table.len() {
        return tokens::look(table, ITEM_TARGET + ITEM_COLUMNS * item);
    }
    0
}

pub fn token_at(table: &[u32], item: usize) -> usize
    ensures { (result ≡ token_at table.now item) × (result < 4294967296) }
{
    if item < table.len() {
        return tokens::look(table, ITEM_TOKEN + ITEM_COLUMNS * item);
    }
    0
}

// The plain rules of the grammar whose tokens are the first `end` numbers. The result is the first item of the root's rule.
pub fn build_items(table: &mut [u32], end: usize) -> usize
    requires { Prepared table.old end }
    ensures { (g : Grammar) → Readable table.old end g → (take end table.new ≡ take end table.old) × Built table.new g result }
{
    let s = machine::scan(table, end);
    link::link(table, s.items, s.rules);
    table[RULE_FIRST] as usize
}
