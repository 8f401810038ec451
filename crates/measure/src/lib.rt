// The size of a grammar, by one scan over its tokens.
#![tactic(auto)]

ghost use Rattle.std.specs.Prelude.{◌≡◌, ◌≤◌};
ghost use Rattle.tree.specs.Tree.{Grammar};
ghost use Rattle.plain.specs.Plain.{size};
ghost use Rattle.tokens.specs.Lengths.{Holds};
ghost use Rattle.measure.specs.Costs.{cost_of, repeat_cost_of, Tree};

// What brackets and operators add to the size, of the rules that are made of them.
const BRACKETS: u32 = 2;

const OPTION: u32 = 3;

const REPEAT0: u32 = 4;

const REPEAT1: u32 = 7;

const REPEAT0_SEPARATED: u32 = 10;

const REPEAT1_SEPARATED: u32 = 7;

// What a token adds to the size.
#[tactic(auto, unfolding(crate::specs::Costs::cost_of))]
fn token_cost(k: u32) -> u32
    ensures { (result ≡ cost_of k) × (result ≤ 10) }
{
    if k < tokens::MEMBER_QUOTED {
        return 1;
    }
    if k < tokens::INSERT_QUOTED {
        return 0;
    }
    if k < tokens::OPEN_GROUP {
        return 1;
    }
    if k == tokens::OPEN_GROUP {
        return BRACKETS;
    }
    if k == tokens::NEXT_ALTERNATIVE {
        return 1;
    }
    repeat_cost(k)
}

// The same of an operator.
#[tactic(auto, unfolding(crate::specs::Costs::repeat_cost_of))]
fn repeat_cost(k: u32) -> u32
    ensures { (result ≡ repeat_cost_of k) × (result ≤ 10) }
{
    match k {
        tokens::TO_OPTION => OPTION,
        tokens::TO_REPEAT0 => REPEAT0,
        tokens::TO_REPEAT1 => REPEAT1,
        tokens::TO_REPEAT0SEP => REPEAT0_SEPARATED,
        tokens::TO_REPEAT1SEP => REPEAT1_SEPARATED,
        _ => 0,
    }
}

// The size of the grammar whose tokens are the first `end` numbers.
pub fn grammar_size(table: &[u32], end: usize) -> u32
    requires { Tree table.now end }
    ensures { (g : Grammar) → Holds table.now end g → result ≡ size g }
{
    let mut sum = 0;
    let mut at = 0;
    while at < end {
        sum += token_cost(table[at]);
        at = tokens::token_end(table, at);
    }
    sum
}
