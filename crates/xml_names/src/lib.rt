// What forbids to write the XML of a left parse: bad names, bad characters, attributes named xmlns.
#![tactic(auto)]

ghost use Rattle.std.specs.Prelude.{◌≡◌, not, ℕ, ◌<◌};
ghost use Rattle.std.specs.List.{list_all, list_any};
ghost use Rattle.text.specs.Lists.{Text, chars, any, same};
ghost use Rattle.xml.specs.Names.{xml_char, name_start, name_char, xml_name};
ghost use Rattle.left_parse.specs.Steps.{Named};
ghost use Rattle.markup.specs.Pieces.{said, Says};
ghost use Rattle.xml_names.specs.Flags.{both, bad, of_text, of_name, of_attribute_name};

use markup::Piece;

// Lines 18, 19 and 22 of the table: a name that is no XML name, a character that is no XML character, an attribute named xmlns.
#[derive(Clone, Copy)]
pub struct Faults {
    pub misnamed: bool,
    pub unwritable: bool,
    pub namespaced: bool,
}

// Production 2 of XML.
#[tactic(auto, unfolding(xml::specs::Names::xml_char))]
fn xml_char(c: u32) -> bool
    ensures { result ≡ xml_char c }
{
    matches!(c, 0x9..=0xa | 0xd | 0x20..=0xd7ff | 0xe000..=0xfffd | 0x10000..=0x10ffff)
}

// Production 4.
#[tactic(auto, unfolding(xml::specs::Names::name_start))]
fn name_start(c: u32) -> bool
    ensures { result ≡ name_start c }
{
    matches!(
        c,
        0x3a
            | 0x41..=0x5a
            | 0x5f
            | 0x61..=0x7a
            | 0xc0..=0xd6
            | 0xd8..=0xf6
            | 0xf8..=0x2ff
            | 0x370..=0x37d
            | 0x37f..=0x1fff
            | 0x200c..=0x200d
            | 0x2070..=0x218f
            | 0x2c00..=0x2fef
            | 0x3001..=0xd7ff
            | 0xf900..=0xfdcf
            | 0xfdf0..=0xfffd
            | 0x10000..=0xeffff
    )
}

// Production 4a.
#[tactic(auto, unfolding(xml::specs::Names::name_char))]
fn name_char(c: u32) -> bool
    ensures { result ≡ name_char c }
{
    name_start(c) || matches!(c, 0x2d..=0x2e | 0x30..=0x39 | 0xb7 | 0x300..=0x36f | 0x203f..=0x2040)
}

fn all_name_chars(chars: &[u32]) -> bool
    ensures { result ≡ list_all name_char chars.now }
{
    chars.iter().all(|c| name_char(*c))
}

// Production 5.
#[tactic(auto, using(crate::proofs::Names::all_of), unfolding(xml::specs::Names::xml_name))]
fn is_xml_name(name: &[u32]) -> bool
    ensures { result ≡ xml_name name.now }
{
    let Some((first, others)) = name.split_first() else {
        return false;
    };
    name_start(*first) && all_name_chars(others)
}

// Whether the name that a token holds is no XML name.
pub fn bad_name(table: &[u32], token: usize) -> bool
    requires { token < 4294967298 }
    ensures { (k : ℕ) (n : Text) → Named table.now token k n → result ≡ not (xml_name n) }
{
    !is_xml_name(markup::name_of(table, token))
}

// The characters of `xmlns`.
const XMLNS: [u32; 5] = [0x78, 0x6d, 0x6c, 0x6e, 0x73];

#[tactic(auto, using(crate::proofs::Names::same_of))]
fn is_xmlns(name: &[u32]) -> bool
    ensures { result ≡ same name.now (chars "xmlns") }
{
    name == XMLNS.as_slice()
}

fn some_bad(chars: &[u32]) -> bool
    ensures { result ≡ list_any bad chars.now }
{
    chars.iter().any(|c| !xml_char(*c))
}

// Whether some character of a terminal's text is no XML character.
#[tactic(auto, using(crate::proofs::Names::any_of))]
fn bad_piece(table: &[u32], record: &[u32], p: Piece) -> bool
    ensures { result ≡ any bad (said table.now «record».now p) }
{
    some_bad(markup::said(table, record, p))
}

// The faults of either.
pub fn join(a: Faults, b: Faults) -> Faults
    ensures { result ≡ both a b }
{
    Faults {
        misnamed: a.misnamed || b.misnamed,
        unwritable: a.unwritable || b.unwritable,
        namespaced: a.namespaced || b.namespaced,
    }
}

// The faults of a terminal's text.
pub fn of_text(table: &[u32], record: &[u32], p: Piece) -> Faults
    ensures { (t : Text) → Says table.now «record».now p t → result ≡ of_text t }
{
    let unwritable = bad_piece(table, record, p);
    Faults {
        misnamed: false,
        unwritable,
        namespaced: false,
    }
}

// The faults of the name that an element's token holds.
pub fn of_name(table: &[u32], token: usize) -> Faults
    requires { token < 4294967298 }
    ensures { (k : ℕ) (n : Text) → Named table.now token k n → result ≡ of_name n }
{
    let misnamed = bad_name(table, token);
    Faults {
        misnamed,
        unwritable: false,
        namespaced: false,
    }
}

// The faults of the name that an attribute's token holds.
pub fn of_attribute(table: &[u32], token: usize) -> Faults
    requires { token < 4294967298 }
    ensures { (k : ℕ) (n : Text) → Named table.now token k n → result ≡ of_attribute_name n }
{
    let misnamed = bad_name(table, token);
    let namespaced = is_xmlns(markup::name_of(table, token));
    Faults {
        misnamed,
        unwritable: false,
        namespaced,
    }
}
