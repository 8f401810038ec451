// The tokens of a grammar in the grammar table: their kinds, how many numbers each takes, the names and terminals that they hold.
// A token is its kind, with its mark, and then what it holds; characters stand after their count (crates/tree/specs/Tokens.antt).
#![tactic(auto)]

ghost use Rattle.std.specs.Prelude.{◌≡◌, true, false, ℕ, ◌+◌, ◌<◌, ◌≤◌, length, get_or};
ghost use Rattle.text.specs.Lists.{Text, same};
ghost use Rattle.tokens.specs.Lengths.{form_number, form_of, late_form, length_at, width_at};
ghost use Rattle.tokens.specs.Names.{Holding, name_at, Named, Names};

// Marks: none, `^`, `@`, `-`. A kind that has a mark is one of four numbers.
pub const UNMARKED: u32 = 0;

pub const INCLUDED: u32 = 1;

pub const ATTRIBUTE: u32 = 2;

pub const DELETED: u32 = 3;

pub const MARKS: u32 = 4;

// Kinds, those with a mark first.
pub const NAME: u32 = 0;

pub const QUOTED: u32 = 4;

pub const CODED: u32 = 8;

pub const INCLUDE: u32 = 12;

pub const EXCLUDE: u32 = 16;

pub const RULE_HEAD: u32 = 20;

pub const MEMBER_QUOTED: u32 = 24;

pub const MEMBER_CODED: u32 = 25;

pub const MEMBER_RANGE: u32 = 26;

pub const MEMBER_CLASS: u32 = 27;

pub const SET_END: u32 = 28;

pub const INSERT_QUOTED: u32 = 29;

pub const INSERT_CODED: u32 = 30;

pub const OPEN_GROUP: u32 = 31;

pub const CLOSE_GROUP: u32 = 32;

pub const NEXT_ALTERNATIVE: u32 = 33;

pub const TO_OPTION: u32 = 34;

pub const TO_REPEAT0: u32 = 35;

pub const TO_REPEAT1: u32 = 36;

pub const TO_REPEAT0SEP: u32 = 37;

pub const TO_REPEAT1SEP: u32 = 38;

pub const RULE_END: u32 = 39;

pub const VERSION: u32 = 40;

// Names and heads with their marks.
pub const NAME_INCLUDED: u32 = NAME + INCLUDED;

pub const NAME_ATTRIBUTE: u32 = NAME + ATTRIBUTE;

pub const NAME_DELETED: u32 = NAME + DELETED;

pub const RULE_HEAD_ATTRIBUTE: u32 = RULE_HEAD + ATTRIBUTE;

pub const RULE_HEAD_DELETED: u32 = RULE_HEAD + DELETED;

// What follows a token's kind: the characters of a name, of a rule's head or of another, a hex number, a range, a class, or nothing.
#[derive(Clone, Copy, PartialEq, Eq)]
pub enum Form {
    Name,
    Head,
    Text,
    Code,
    Range,
    Class,
    Bare,
}

impl Form {
    // The form of a kind of tokens.
    #[tactic(auto, unfolding(crate::specs::Lengths::form_of))]
    pub fn of(kind: u32) -> Form
        ensures { form_number result ≡ form_of kind }
    {
        if kind < QUOTED {
            return Form::Name;
        }
        if kind < CODED {
            return Form::Text;
        }
        if kind < INCLUDE {
            return Form::Code;
        }
        if kind < RULE_HEAD {
            return Form::Bare;
        }
        if kind < MEMBER_QUOTED {
            return Form::Head;
        }
        Form::of_late(kind)
    }

    // The same of the kinds that have no mark.
    #[tactic(auto, unfolding(crate::specs::Lengths::late_form))]
    fn of_late(kind: u32) -> Form
        ensures { form_number result ≡ late_form kind }
    {
        match kind {
            MEMBER_QUOTED | INSERT_QUOTED | VERSION => Form::Text,
            MEMBER_CODED | INSERT_CODED => Form::Code,
            MEMBER_RANGE => Form::Range,
            MEMBER_CLASS => Form::Class,
            _ => Form::Bare,
        }
    }
}

// What stands after a token's kind, by its form: the count of its characters, and they; a hex number's value; for each end of a range whether
// it is coded, and its character; the letters of a class.
pub const COUNT: usize = 1;

pub const CHARS: usize = 2;

pub const VALUE: usize = 1;

pub const FROM_CODED: usize = 1;

pub const FROM: usize = 2;

pub const TO_CODED: usize = 3;

pub const TO: usize = 4;

pub const CAPITAL: usize = 1;

pub const SMALL: usize = 2;

// The cells of a token of a form.
pub const CODE_CELLS: usize = 2;

pub const RANGE_CELLS: usize = 5;

pub const CLASS_CELLS: usize = 3;

// A number of a table, 0 past its end.
pub fn look(t: &[u32], i: usize) -> usize
    ensures { (result ≡ get_or t.now i 0) × (result < 4294967296) }
{
    if i < t.len() { t[i] as usize } else { 0 }
}

// The place after the token at k.
pub fn token_end(table: &[u32], k: usize) -> usize
    requires { k + length_at table.now k ≤ length table.now }
    ensures { result ≡ k + length_at table.now k }
{
    match Form::of(table[k]) {
        Form::Name | Form::Head | Form::Text => k + (text::wide(table[k + COUNT]) + CHARS),
        Form::Code => k + CODE_CELLS,
        Form::Range => k + RANGE_CELLS,
        Form::Class => k + CLASS_CELLS,
        Form::Bare => k + 1,
    }
}

// The tokens at two places hold the same characters.
pub fn same_name(table: &[u32], a: usize, b: usize) -> bool
    requires { Names table.now a b }
    ensures { result ≡ same (name_at table.now a) (name_at table.now b) }
{
    let count = text::wide(table[a + COUNT]);
    if text::wide(table[b + COUNT]) != count {
        return false;
    }
    // Names that are made by counting differ at their ends.
    if table[a + 1 + count] != table[b + 1 + count] {
        return false;
    }
    for i in 0..count {
        if table[a + CHARS + i] != table[b + CHARS + i] {
            return false;
        }
    }
    true
}

// A count stands after the place, and as many characters in the table.
fn is_named(table: &[u32], at: usize) -> bool
    ensures { (result ≡ true → Named table.now at) × (result ≡ false → (x : Text) → Holding table.now at x → ⊥) }
{
    let size = table.len();
    CHARS <= size && at <= size - CHARS && text::wide(table[at + COUNT]) <= size - CHARS - at
}

// The same of any two places. One where no token with characters can stand holds none.
pub fn same_if_named(table: &[u32], a: usize, b: usize) -> bool
    ensures { (x y : Text) → Holding table.now a x → Holding table.now b y → result ≡ same x y }
{
    is_named(table, a) && is_named(table, b) && same_name(table, a, b)
}

// How many characters of a record the terminal whose token stands at k takes.
#[tactic(auto, unfolding(crate::specs::Lengths::terminal_width))]
pub fn terminal_width(table: &[u32], k: usize) -> usize
    requires { k < 4294967296 }
    ensures { (result ≡ width_at table.now k) × (result < 4294967296) }
{
    let kind = look(table, k);
    if kind < CODED as usize {
        return look(table, k + 1);
    }
    if kind < RULE_HEAD as usize {
        return 1;
    }
    0
}
