// The known code points that a set's members match, marked in time linear in the members: by place of the alphabet, and by category.
ghost use Rattle.std.specs.Prelude.{◌&&◌, List, ◌≡◌, ◌+◌, ◌<◌, ◌≤◌, leb, length, take, drop};
ghost use Rattle.text.specs.Lists.{any, among};
ghost use Rattle.tree.specs.Tree.{Member};
ghost use Rattle.plain.specs.Plain.{is_member};
ghost use Rattle.terminals.specs.Places.{match_of, MembersAt, Stretch};
ghost use Rattle.terminals.specs.Marks.{Spanned, Placed, Adds, MarkMember, MarkMembers};

use text::alphabet;

// The numbers from `from` on, before `past`. There are none where `past` is first, which `fill` of a part would not take.
fn mark(marks: &mut [bool], from: usize, past: usize)
    requires { past ≤ length marks.old }
    ensures { Spanned marks.old marks.new from past }
{
    for k in from..past {
        marks[k] = true;
    }
}

// The known code points of a range.
fn mark_range(places: &mut [bool], from: u32, to: u32)
    requires { length places.old ≡ 498 }
    ensures { Placed (λ c. leb from c && leb c to) places.old places.new }
{
    mark(places, alphabet::rank(from), alphabet::rank_past(to));
}

// The characters at a place of the table.
fn mark_quoted(table: &[u32], at: usize, n: usize, places: &mut [bool])
    requires { Stretch table.now at n × (length places.old ≡ 498) }
    ensures { Placed (λ c. among c (take n (drop at table.now))) places.old places.new }
{
    for k in 0..n {
        let code = table[at + k];
        mark_range(places, code, code);
    }
}

// What the member at a place matches.
fn mark_member(table: &[u32], at: usize, places: &mut [bool], categories: &mut [bool])
    requires { MarkMember table.now at places.old categories.old }
    ensures { Adds (match_of (drop at table.now)) places.old categories.old places.new categories.new }
{
    let kind = table[at];
    if kind == tokens::MEMBER_QUOTED {
        mark_quoted(
            table,
            at + tokens::CHARS,
            text::wide(table[at + tokens::COUNT]),
            places,
        );
        return;
    }
    if kind == tokens::MEMBER_CODED {
        mark_range(places, table[at + tokens::VALUE], table[at + tokens::VALUE]);
        return;
    }
    if kind == tokens::MEMBER_RANGE {
        mark_range(places, table[at + tokens::FROM], table[at + tokens::TO]);
        return;
    }
    let class = category::class_of(table[at + tokens::CAPITAL], table[at + tokens::SMALL]);
    let span = category::class_categories(class);
    mark(categories, span.first, span.past);
}

// What the members from a place on match.
pub fn mark_members(table: &[u32], from: usize, places: &mut [bool], categories: &mut [bool])
    requires { MarkMembers table.now from places.old categories.old }
    ensures { (ms : List Member) → MembersAt table.now from ms → Adds (λ c. any (is_member c) ms) places.old categories.old places.new
        categories.new }
{
    let mut at = from;
    while table[at] != tokens::SET_END {
        mark_member(table, at, places, categories);
        at = tokens::token_end(table, at);
    }
}
