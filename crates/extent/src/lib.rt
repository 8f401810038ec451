// How many bytes the XML of a row takes at most, and whether it has attributes: gathered while the row is judged.
#![tactic(auto)]

ghost use Rattle.std.specs.Prelude.{◌≡◌, true, ℕ, ◌+◌, ◌*◌, ◌<◌};
ghost use Rattle.text.specs.Lists.{Text};
ghost use Rattle.left_parse.specs.Steps.{Named};
ghost use Rattle.extent.specs.Extent.{tag, none_at, Grown, Fits};

// What is known of a row: the bytes that it takes at most, if they are less than UNKNOWN; whether some element has an attribute.
#[derive(Clone, Copy)]
pub struct Extent {
    pub most: usize,
    pub attributed: bool,
}

// From here on nothing is known of the bytes.
const UNKNOWN: usize = 1099511627776;

// The longest reference, `&apos;`; a character as it is takes no more than four bytes.
const CHARACTER_BYTES: usize = 6;

// A name in two tags, four bytes for each character, and the signs around it: `<`, `>`, `</` and `>`.
const NAME_BYTES: usize = 8;

const TAG_BYTES: usize = 5;

// The state with both words.
const STATE_BYTES: usize = 80;

// Of an empty row.
pub fn none() -> Extent
    ensures { result ≡ none_at }
{
    Extent {
        most: 0,
        attributed: false,
    }
}

fn grown(most: usize, by: usize) -> usize
    requires { by < 8796093022208 }
    ensures { result < 1099511627776 → result ≡ most + by }
{
    if most < UNKNOWN {
        return most + by;
    }
    most
}

// The bytes of so many characters.
fn text_room(count: usize) -> usize
    ensures { (result < 8796093022208) × (result < 1099511627776 → result ≡ 6 * count) }
{
    if count < UNKNOWN {
        return CHARACTER_BYTES * count;
    }
    UNKNOWN
}

// With so many characters more.
pub fn with_text(e: Extent, count: usize) -> Extent
    ensures { Grown e result (6 * count) × (result.attributed ≡ e.attributed) }
{
    let attributed = e.attributed;
    let by = text_room(count);
    let most = grown(e.most, by);
    Extent { most, attributed }
}

// The bytes of the tags of a name.
fn tag_room(table: &[u32], token: usize) -> usize
    requires { token < 4294967298 }
    ensures { (result < 8796093022208) × ((k : ℕ) (n : Text) → Named table.now token k n → result ≡ tag n) }
{
    let count = tokens::look(table, token + tokens::COUNT);
    NAME_BYTES * count + TAG_BYTES
}

// With an element more, whose token holds its name.
pub fn with_element(e: Extent, table: &[u32], token: usize) -> Extent
    requires { token < 4294967298 }
    ensures { ((k : ℕ) (n : Text) → Named table.now token k n → Grown e result (tag n)) × (result.attributed ≡ e.attributed) }
{
    let attributed = e.attributed;
    let by = tag_room(table, token);
    let most = grown(e.most, by);
    Extent { most, attributed }
}

// With an attribute more.
pub fn with_attribute(e: Extent, table: &[u32], token: usize) -> Extent
    requires { token < 4294967298 }
    ensures { ((k : ℕ) (n : Text) → Named table.now token k n → Grown e result (tag n)) × (result.attributed ≡ true) }
{
    let by = tag_room(table, token);
    let most = grown(e.most, by);
    Extent {
        most,
        attributed: true,
    }
}

// Whether it fits for certain, with any state.
pub fn fits(e: Extent, room: usize) -> bool
    ensures { result ≡ true → Fits e room }
{
    e.most < UNKNOWN && e.most + STATE_BYTES <= room
}
