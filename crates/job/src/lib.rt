// The stages of a job together, from its bytes to the chosen reading. The first stage that refuses ends it.
#![tactic(auto)]

ghost use Rattle.std.specs.Prelude.{◌≡◌, ◌≤◌, length};
ghost use Rattle.text.specs.Limits.{reading_numbers};
ghost use Rattle.answer.specs.Answer.{job};
ghost use Rattle.job.specs.Found.{why_not};
ghost use Rattle.job.specs.Parses.{parsed_of, Parses};

use exported::Refusal;
use opening::{Start, Workspace};
use parser::Failure;
use reading::Found;
use text::{BytePlace, CharPlace, Diagnostic, Places, refusals};

// What a result is made from: where the root's rule begins, how many numbers the left parse has, where the record's characters end,
// and the two marks.
#[derive(Clone, Copy)]
pub struct LeftParse {
    pub root: usize,
    pub count: usize,
    pub chars: CharPlace,
    pub ambiguous: bool,
    pub mismatch: bool,
}

// The refusal of a record without a reading to answer.
fn why_not(failure: Failure) -> Diagnostic
    ensures { result ≡ why_not failure }
{
    match failure {
        Failure::TooLong => text::plain(refusals::READING_TOO_LONG),
        Failure::NoReading(place) => Diagnostic {
            number: refusals::NO_READING,
            places: Places {
                byte: BytePlace(0),
                fault: place,
                grammar: CharPlace(0),
            },
        },
    }
}

// What is chosen, with what the first stages found.
pub fn parse_of(chosen: Result<Found, Failure>, start: Start) -> Result<LeftParse, Refusal>
    ensures { result ≡ parsed_of chosen start }
{
    let rules = start.rules;
    let chars = start.chars;
    let mismatch = rules.mismatch;
    match chosen {
        Ok(Found { count, ambiguous }) => Ok(LeftParse {
            root: rules.root,
            count,
            chars,
            ambiguous,
            mismatch,
        }),
        Err(failure) => Err(Refusal {
            why: why_not(failure),
            mismatch,
        }),
    }
}

// How long the second lent table is, and whether the plain engine fills the main one.
#[derive(Clone, Copy)]
pub struct Lending {
    pub second: usize,
    pub plain: bool,
}

// All stages: 1 to 16, 24 and 29. `parse` takes the left parse of the chosen reading.
pub fn parse_record(
    grammar: &[u8],
    record: &[u8],
    main: &mut [u32],
    lending: Lending,
    space: &mut Workspace,
    parse: &mut [u32],
) -> Result<LeftParse, Refusal>
    requires { reading_numbers ≤ length parse.old }
    ensures { Parses (job grammar.now «record».now (length main.old) lending.second) space.new.table space.new.text parse.new result }
{
    let start = opening::begin(grammar, record, main.len(), lending.second, space)?;
    let n = start.chars.0;
    let chosen = parser::choose_by(
        lending.plain,
        &space.table,
        start.rules.size,
        start.rules.root,
        &space.text[..n],
        main,
        parse,
    );
    parse_of(chosen, start)
}
