// The main table: where its cells stand, and what one holds that nothing derives. Where each rule is used.
#![tactic(auto)]

ghost use Rattle.std.specs.Prelude.{◌≡◌, ℕ, ◌*◌, ◌<◌, ◌≤◌, length, get_or};
ghost use Rattle.text.specs.Limits.{most_size, record_chars};
ghost use Rattle.chart.specs.Code.{next_kind, rule_at};
ghost use Rattle.chart.specs.Heights.{cell_at, Clear};
ghost use Rattle.chart.specs.Uses.{Uses};

// What the engine is given of each dot position p (specs/Code.antt), each at its own place and CODE_COLUMNS * p: what stands after the dot;
// where it goes on; the rule of a symbol; the rule of which an alternative begins here, and 1.
pub const CODE_COLUMNS: usize = 4;

pub const CODE_GOES: usize = 1;

pub const CODE_RULE: usize = 2;

pub const CODE_OWNER: usize = 3;

pub const CODE_LENGTH: usize = CODE_COLUMNS * text::limits::GRAMMAR_SIZE;

// What stands after a dot: nothing, at the end of an alternative; a terminal; a symbol with alternatives.
pub const AT_END: u32 = 0;

pub const AT_TERMINAL: u32 = 1;

pub const AT_SYMBOL: u32 = 2;

// Where the terminal after a dot fits: a row for each position, with a flag for each place of a record and its end.
pub const FITS_ROW: usize = text::limits::RECORD_CHARACTERS + 1;

pub const FITS_LENGTH: usize = FITS_ROW * text::limits::GRAMMAR_SIZE;

// The columns of a rule and of a use: the last use of a rule; the use before a use.
pub const USE_COLUMNS: usize = 2;

const USE_BEFORE: usize = 1;

pub const USES_LENGTH: usize = USE_COLUMNS * text::limits::GRAMMAR_SIZE;

// A cell that no derivation has.
pub const NONE: u32 = 4294967295;

// Where the cell of p on the stretch from i to j stands.
pub fn cell(n: usize, p: usize, i: usize, j: usize) -> usize
    requires { (n ≤ record_chars) × (p < most_size) × (i ≤ j) × (j ≤ n) }
    ensures { result ≡ cell_at n p i j }
{
    p * ((n + 1) * (n + 2) / 2) + j * (j + 1) / 2 + i
}

// The first k cells hold nothing.
pub fn clear(main: &mut [u32], k: usize)
    requires { k ≤ length main.old }
    ensures { Clear k main.new }
{
    main[..k].fill(NONE);
}

// The last use of each rule, and the one before each use. In the beginning all are 0.
pub fn list_uses(code: &[u32], uses: &mut [u32], size: usize)
    requires { (size ≤ 512) × (4 * size ≤ length code.now) × (2 * size ≤ length uses.old)
        × ((p : ℕ) → p < size → next_kind code.now p ≡ 2 → rule_at code.now p < size) × ((x : ℕ) → get_or uses.old x 0 ≡ 0) }
    ensures { Uses code.now size size uses.new }
{
    for p in 0..size {
        if code[CODE_COLUMNS * p] == AT_SYMBOL {
            let e = code[CODE_COLUMNS * p + CODE_RULE] as usize;
            uses[USE_COLUMNS * p + USE_BEFORE] = uses[USE_COLUMNS * e];
            uses[USE_COLUMNS * e] = p as u32 + 1;
        }
    }
}
