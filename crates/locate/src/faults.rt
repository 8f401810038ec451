// The number of the first spot that is at fault, by one scan of the tokens.
ghost use Rattle.std.specs.Prelude.{◌≡◌, List, ◌+◌, ◌≤◌, length, take};
ghost use Rattle.tree.specs.Tree.{Grammar};
ghost use Rattle.tree.specs.Tokens.{Token};
ghost use Rattle.tokens.specs.Lengths.{length_at};
ghost use Rattle.places.specs.Tokens.{fault_index};
ghost use Rattle.static_errors.specs.Parts.{part_at, heads_in};
ghost use Rattle.static_errors.specs.Scan.{Tokens, Looking, Scanning, names_at};
ghost use Rattle.static_errors.specs.Held.{Holds, Held, rule_number};
ghost use Rattle.locate.specs.Faults.{spot_count, again, at_token, offset_of, Rated, Faulting, Searching, FaultAt};

use static_errors::StaticError;
use tokens::Form;

// How many spots a token has, by its kind.
#[tactic(auto, unfolding(crate::specs::Faults::spot_count))]
fn spots_of(kind: u32) -> usize
    ensures { result ≡ spot_count kind }
{
    match kind {
        tokens::VERSION => 3,
        tokens::MEMBER_RANGE => 2,
        tokens::SET_END => 0,
        _ if kind < tokens::CLOSE_GROUP => 1,
        _ => 0,
    }
}

// 1 where the token is a rule's head.
fn heads_of(table: &[u32], k: usize) -> usize
    requires { k + length_at table.now k ≤ length table.now }
    ensures { result ≡ length (heads_in (part_at table.now k)) }
{
    match Form::of(table[k]) {
        Form::Head => 1,
        _ => 0,
    }
}

// 6: one of the first heads that are listed has the name of the head at k.
fn repeats(table: &[u32], k: usize, index: &[u32], before: usize) -> bool
    requires { Looking table.now k index.now before }
    ensures { result ≡ again (names_at table.now (take before index.now)) (part_at table.now k) }
{
    match Form::of(table[k]) {
        Form::Head => static_errors::found(table, k, index, 0, before),
        _ => false,
    }
}

// The token at k breaks the rule.
fn at_fault(
    table: &[u32],
    k: usize,
    index: &[u32],
    n: usize,
    before: usize,
    rule: StaticError,
) -> bool
    requires { Faulting table.now k index.now n before }
    ensures { result ≡ at_token (rule_number rule) (names_at table.now (take n index.now)) (names_at table.now (take before index.now)) (part_at table.now k) }
{
    match rule {
        StaticError::RepeatedRule => repeats(table, k, index, before),
        _ => static_errors::breaks(table, k, index, n, rule.number(), 0),
    }
}

// Of a range that breaks 7 or 8, whether its second end alone does.
fn offset(table: &[u32], k: usize, rule: StaticError) -> usize
    requires { k + length_at table.now k ≤ length table.now }
    ensures { result ≡ offset_of (rule_number rule) (part_at table.now k) }
{
    if let StaticError::BackwardRange | StaticError::UnknownClass = rule {
        return 0;
    }
    let Form::Range = Form::of(table[k]) else {
        return 0;
    };
    if static_errors::bad_end(rule, table[k + tokens::FROM_CODED], table[k + tokens::FROM]) {
        return 0;
    }
    1
}

// The first token at fault gives the spot; the heads before it are counted for 6.
fn search(table: &[u32], end: usize, index: &[u32], n: usize, rule: StaticError) -> usize
    requires { Searching table.now end index.now n }
    ensures { (ts : List Token) → Tokens table.now end 0 ts → FaultAt (rule_number rule) (names_at table.now (take n index.now)) ts result }
{
    let mut k = 0;
    let mut spot = 0;
    let mut before = 0;
    while k < end {
        if at_fault(table, k, index, n, before, rule) {
            return spot + offset(table, k, rule);
        }
        spot += spots_of(table[k]);
        before += heads_of(table, k);
        k = tokens::token_end(table, k);
    }
    spot
}

pub fn first_fault(table: &[u32], end: usize, rule: StaticError) -> usize
    requires { Held table.now end }
    ensures { (g : Grammar) → Holds table.now end g → Rated (rule_number rule) g → result ≡ fault_index (rule_number rule) g }
{
    let mut index = [0u32; text::limits::GRAMMAR_TABLE];
    let n = static_errors::heads(table, end, &mut index);
    search(table, end, &index, n, rule)
}
