// The machine that makes items from tokens: operands are on its stack when their operator comes.
ghost use Rattle.std.specs.Prelude.{◌≡◌, take, get_or};
ghost use Rattle.tree.specs.Tree.{Grammar};
ghost use Rattle.items.specs.Scanned.{Prepared, Readable, Scanned};
ghost use Rattle.items.specs.Machine.{action_of, late_action_of, Space, Copied, Ready, Acts};

use crate::{
    ALTERNATIVE_END, Action, BEGINNING, DELETED, ELEMENT, ENTRY_COLUMNS, RULE_COLUMNS, RULE_END,
    RULE_FIRST, RULE_PLACE, STACK, STACK_BASE, STACK_PLACE, State, TERMINAL,
};
use repetitions::{copy, item, one, put, renew, two};

#[tactic(auto, unfolding(crate::specs::Machine::action_of))]
fn action_of(k: u32) -> Action
    ensures { result ≡ action_of k }
{
    if k < tokens::QUOTED {
        return Action::Push(ELEMENT);
    }
    if k < tokens::RULE_HEAD {
        return Action::Push(TERMINAL);
    }
    if k < tokens::MEMBER_QUOTED {
        return Action::Open;
    }
    if k < tokens::INSERT_QUOTED {
        return Action::Skip;
    }
    if k < tokens::OPEN_GROUP {
        return Action::Push(TERMINAL);
    }
    if k == tokens::OPEN_GROUP {
        return Action::Open;
    }
    if k == tokens::CLOSE_GROUP {
        return Action::Close;
    }
    late_action(k)
}

#[tactic(auto, unfolding(crate::specs::Machine::late_action_of))]
fn late_action(k: u32) -> Action
    ensures { result ≡ late_action_of k }
{
    if k == tokens::NEXT_ALTERNATIVE {
        return Action::Push(ALTERNATIVE_END);
    }
    if k < tokens::RULE_END {
        return Action::Operator(k);
    }
    if k == tokens::RULE_END {
        return Action::Finish;
    }
    Action::Skip
}

// An operator in the place of its operands; the made rule's entry keeps the token of its factor.
fn operate(table: &mut [u32], s: State, k: u32) -> State
    requires { Ready (Action.Operator k) 0 table.old s }
    ensures { Acts (Action.Operator k) 0 table.old s table.new result }
{
    let n = s.items;
    if k < tokens::TO_REPEAT0SEP {
        let d = s.depth - 1;
        let from = STACK + ENTRY_COLUMNS * d;
        let m = one(table, n, from, k);
        renew(table, from, DELETED, m.first as u32);
        return State {
            items: m.next,
            depth: d + 1,
            ..s
        };
    }
    let d = s.depth - 2;
    let from = STACK + ENTRY_COLUMNS * d;
    let m = two(table, n, from, k);
    renew(table, from, DELETED, m.first as u32);
    State {
        items: m.next,
        depth: d + 1,
        ..s
    }
}

// The entries from j up to the depth, and the end of the last alternative, as items from i on.
fn block(table: &mut [u32], i: usize, j: usize, depth: usize) -> usize
    requires { Space table.old i j depth }
    ensures { Copied table.old i j depth result table.new }
{
    let count = depth - j;
    for k in 0..count {
        copy(table, i + k, STACK + ENTRY_COLUMNS * (j + k));
    }
    item(table, i + count, RULE_END, 0);
    i + count + 1
}

fn push(table: &mut [u32], s: State, kind: u32, at: usize) -> State
    requires { Ready (Action.Push kind) at table.old s }
    ensures { Acts (Action.Push kind) at table.old s table.new result }
{
    let d = s.depth;
    put(table, STACK + ENTRY_COLUMNS * d, kind, 0, at as u32);
    State { depth: d + 1, ..s }
}

// A bracket or a rule begins: its mark keeps the base of what is around it.
fn open(table: &mut [u32], s: State, at: usize) -> State
    requires { Ready Action.Open at table.old s }
    ensures { Acts Action.Open at table.old s table.new result }
{
    let d = s.depth;
    put(
        table,
        STACK + ENTRY_COLUMNS * d,
        BEGINNING,
        s.base as u32,
        at as u32,
    );
    State {
        depth: d + 1,
        base: d,
        ..s
    }
}

fn close(table: &mut [u32], s: State) -> State
    requires { Ready Action.Close 0 table.old s }
    ensures { Acts Action.Close 0 table.old s table.new result }
{
    let b = s.base;
    let n = s.items;
    let old = table[STACK_BASE + ENTRY_COLUMNS * b] as usize;
    let next = block(table, n, b + 1, s.depth);
    renew(table, STACK + ENTRY_COLUMNS * b, DELETED, n as u32);
    State {
        items: next,
        depth: b + 1,
        base: old,
        ..s
    }
}

fn finish(table: &mut [u32], s: State) -> State
    requires { Ready Action.Finish 0 table.old s }
    ensures { Acts Action.Finish 0 table.old s table.new result }
{
    let b = s.base;
    let n = s.items;
    let r = s.rules;
    let place = table[STACK_PLACE + ENTRY_COLUMNS * b];
    let old = table[STACK_BASE + ENTRY_COLUMNS * b] as usize;
    let next = block(table, n, b + 1, s.depth);
    table[RULE_PLACE + RULE_COLUMNS * r] = place;
    table[RULE_FIRST + RULE_COLUMNS * r] = n as u32;
    State {
        items: next,
        rules: r + 1,
        depth: b,
        base: old,
    }
}

// One token.
fn step(table: &mut [u32], s: State, at: usize) -> State
    requires { Ready (action_of (get_or table.old at 0)) at table.old s }
    ensures { Acts (action_of (get_or table.old at 0)) at table.old s table.new result }
{
    match action_of(table[at]) {
        Action::Skip => s,
        Action::Push(kind) => push(table, s, kind, at),
        Action::Open => open(table, s, at),
        Action::Operator(k) => operate(table, s, k),
        Action::Close => close(table, s),
        Action::Finish => finish(table, s),
    }
}

// All items; names have no target yet.
pub fn scan(table: &mut [u32], end: usize) -> State
    requires { Prepared table.old end }
    ensures { (g : Grammar) → Readable table.old end g → Scanned g (take 12288 table.old) table.new result }
{
    let mut s = State {
        items: 0,
        rules: 0,
        depth: 0,
        base: 0,
    };
    let mut at = 0;
    while at < end {
        s = step(table, s, at);
        at = tokens::token_end(table, at);
    }
    s
}
