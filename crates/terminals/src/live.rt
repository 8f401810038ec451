// Whether a terminal derives some text of known characters.
ghost use Rattle.std.specs.Prelude.{not, List, ◌≡◌, ◌+◌, ◌<◌, take, drop};
ghost use Rattle.text.specs.Lists.{any, all};
ghost use Rattle.text.specs.Utf8.{known as Known};
ghost use Rattle.text.specs.Ranks.{some_known};
ghost use Rattle.tree.specs.Tree.{Member, Terminal};
ghost use Rattle.plain.specs.Plain.{is_member};
ghost use Rattle.plain.specs.Live.{live_member, live as Live};
ghost use Rattle.terminals.specs.Places.{match_of, MemberHere, MembersAt, MembersHere, TerminalAt, Stretch, Looking};

use crate::marks;
use text::alphabet;

// All characters at a place of the table are known.
fn all_known(table: &[u32], at: usize, n: usize) -> bool
    requires { Stretch table.now at n }
    ensures { result ≡ all Known (take n (drop at table.now)) }
{
    table[at..at + n].iter().all(|code| alphabet::known(*code))
}

// Some character is.
fn some_known(table: &[u32], at: usize, n: usize) -> bool
    requires { Stretch table.now at n }
    ensures { result ≡ any Known (take n (drop at table.now)) }
{
    table[at..at + n].iter().any(|code| alphabet::known(*code))
}

// The member at a place matches a known character.
fn member_is_live(table: &[u32], at: usize) -> bool
    requires { MemberHere table.now at }
    ensures { result ≡ some_known (match_of (drop at table.now)) }
{
    let kind = table[at];
    if kind == tokens::MEMBER_QUOTED {
        return some_known(
            table,
            at + tokens::CHARS,
            text::wide(table[at + tokens::COUNT]),
        );
    }
    if kind == tokens::MEMBER_CODED {
        return alphabet::known(table[at + tokens::VALUE]);
    }
    if kind == tokens::MEMBER_RANGE {
        return alphabet::rank(table[at + tokens::FROM])
            < alphabet::rank_past(table[at + tokens::TO]);
    }
    category::class_is_known(category::class_of(
        table[at + tokens::CAPITAL],
        table[at + tokens::SMALL],
    ))
}

// One of the members from a place on does.
fn some_member_is_live(table: &[u32], from: usize) -> bool
    requires { MembersHere table.now from }
    ensures { (ms : List Member) → MembersAt table.now from ms → result ≡ any live_member ms }
{
    let mut at = from;
    while table[at] != tokens::SET_END {
        if member_is_live(table, at) {
            return true;
        }
        at = tokens::token_end(table, at);
    }
    false
}

// Some known character is matched by none of the members from a place on.
fn exclusion_is_live(table: &[u32], from: usize) -> bool
    requires { MembersHere table.now from }
    ensures { (ms : List Member) → MembersAt table.now from ms → result ≡ some_known (λ c. not (any (is_member c) ms)) }
{
    let mut places = [false; alphabet::KNOWN];
    let mut categories = [false; category::CATEGORIES];
    marks::mark_members(table, from, &mut places, &mut categories);
    category::some_unmarked(&places, &categories)
}

// The terminal at a place derives some text of known characters.
pub fn is_live(table: &[u32], at: usize) -> bool
    requires { Looking table.now at }
    ensures { (x : Terminal) → TerminalAt table.now at x → result ≡ Live x }
{
    let kind = table[at];
    if kind < tokens::CODED {
        return all_known(
            table,
            at + tokens::CHARS,
            text::wide(table[at + tokens::COUNT]),
        );
    }
    if kind < tokens::INCLUDE {
        return alphabet::known(table[at + tokens::VALUE]);
    }
    if kind < tokens::EXCLUDE {
        return some_member_is_live(table, at + 1);
    }
    if kind < tokens::RULE_HEAD {
        return exclusion_is_live(table, at + 1);
    }
    true // an insertion derives the empty text
}
