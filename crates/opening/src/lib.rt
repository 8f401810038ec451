// The first stages of a job: its grammar accepted, its record's characters, and whether the lent tables are long enough. The first stage
// that refuses ends it.
#![tactic(auto)]

ghost use Rattle.std.specs.Prelude.{◌≡◌, ◌||◌, ◌*◌, ◌<◌, ltb, length, replicate};
ghost use Rattle.text.specs.Limits.{grammar_table, record_chars};
ghost use Rattle.answer.specs.Answer.{job};
ghost use Rattle.opening.specs.Stages.{Takes, Opens, Small, need_of, lending, Fitting, need_opened, lending_of, Begins, BeginsBy};

use accept::Rules;
use text::{CharPlace, Diagnostic, limits, refusals};

// Judging a list notes two numbers of each entry.
const NOTE_COLUMNS: usize = 2;

// The characters of a record: 12 to 14. Answers where they end.
fn take_record(record: &[u8], text: &mut [u32]) -> Result<CharPlace, Diagnostic>
    requires { length text.old ≡ record_chars }
    ensures { Takes «record».now text.new result }
{
    let end = decode::decode_text(record, text).map_err(|e| e.diagnostic(
        refusals::RECORD_NOT_UTF8,
        refusals::RECORD_CHARACTER,
    ))?;
    if limits::RECORD_CHARACTERS < end.0 {
        return Err(text::plain(refusals::RECORD_TOO_LONG));
    }
    Ok(end)
}

// What the first stages find: the grammar's rules, and where the record's characters end.
#[derive(Clone, Copy)]
pub struct Start {
    pub rules: Rules,
    pub chars: CharPlace,
}

// What these stages fill: the grammar's tokens and plain rules, and the record's characters.
#[derive(Drop)]
pub struct Workspace {
    pub table: [u32; limits::GRAMMAR_TABLE],
    pub text: [u32; limits::RECORD_CHARACTERS],
}

impl Workspace {
    pub fn new() -> Workspace
        ensures { (result.table ≡ replicate grammar_table 0) × (result.text ≡ replicate record_chars 0) }
    {
        Workspace {
            table: [0; limits::GRAMMAR_TABLE],
            text: [0; limits::RECORD_CHARACTERS],
        }
    }
}

// 1 to 14, and 24.
pub fn open_job(grammar: &[u8], record: &[u8], space: &mut Workspace) -> Result<Start, Diagnostic>
    ensures { Opens grammar.now «record».now space.new.table space.new.text result }
{
    let rules = accept::accept_grammar(grammar, &mut space.table)?;
    let chars = take_record(record, &mut space.text)?;
    Ok(Start { rules, chars })
}

// The numbers that the main table needs, of a job that is opened.
pub fn need_of(opened: Result<Start, Diagnostic>) -> usize
    requires { Fitting opened }
    ensures { result ≡ need_opened opened }
{
    let Ok(start) = opened else {
        return 0;
    };
    let rules = start.rules;
    let chars = start.chars;
    room::need(rules.size, chars.0)
}

// 15: the first table is shorter than its need, or the second too short. A refusal stays.
pub fn lend(
    opened: Result<Start, Diagnostic>,
    first: usize,
    need: usize,
    second: usize,
) -> Result<Start, Diagnostic>
    ensures { result ≡ lending_of opened (ltb first need || ltb second grammar_table) }
{
    let start = opened?;
    if room::too_short(first, need, second) {
        return Err(text::plain(refusals::TABLE_TOO_SHORT));
    }
    Ok(start)
}

// The same of a job that is read: the first table is the main table.
pub fn lend_main(start: Start, main: usize, second: usize) -> Result<Start, Diagnostic>
    requires { Small start }
    ensures { result ≡ lending start (ltb main (need_of start) || ltb second grammar_table) }
{
    let need = need_of(Ok(start));
    lend(Ok(start), main, need, second)
}

// 1 to 15, and 24, of a job that is read. The lent tables are known by their lengths.
pub fn begin(
    grammar: &[u8],
    record: &[u8],
    main: usize,
    second: usize,
    space: &mut Workspace,
) -> Result<Start, Diagnostic>
    ensures { Begins (job grammar.now «record».now main second) space.new.table space.new.text result }
{
    let start = open_job(grammar, record, space)?;
    lend_main(start, main, second)
}

// The same of a job whose list of so many numbers is judged: the first table is the scratch.
pub fn begin_list(
    grammar: &[u8],
    record: &[u8],
    numbers: usize,
    scratch: usize,
    second: usize,
    space: &mut Workspace,
) -> Result<Start, Diagnostic>
    requires { numbers < 4611686018427387904 }
    ensures { BeginsBy (λ g r. 2 * numbers) (job grammar.now «record».now scratch second) space.new.table space.new.text result }
{
    let start = open_job(grammar, record, space)?;
    lend(Ok(start), scratch, NOTE_COLUMNS * numbers, second)
}
