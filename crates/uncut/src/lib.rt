// A record read or converted in one call: all stages, and what is given of what they find.
#![tactic(auto)]

ghost use Rattle.std.specs.Prelude.{length};
ghost use Rattle.answer.specs.Answer.{job};
ghost use Rattle.outcome.specs.Calls.{ReadAs, ConvertedAs};

use exported::Answer;
use job::Lending;
use opening::Workspace;
use text::limits;

// Reads a record, by the plain engine or the quick one.
pub fn read(
    plain: bool,
    grammar: &[u8],
    record: &[u8],
    main: &mut [u32],
    second: usize,
    res: &mut [u32],
) -> Answer
    ensures { ReadAs (job grammar.now «record».now (length main.old) second) res.old result res.new }
{
    let mut space = Workspace::new();
    let mut parse = [0u32; limits::READING_NUMBERS];
    let parsed = job::parse_record(
        grammar,
        record,
        main,
        Lending { second, plain },
        &mut space,
        &mut parse,
    );
    outcome::give_numbers(parsed, &parse, res)
}

// Converts a record.
pub fn convert(
    grammar: &[u8],
    record: &[u8],
    main: &mut [u32],
    second: usize,
    res: &mut [u8],
) -> Answer
    ensures { ConvertedAs (job grammar.now «record».now (length main.old)
        second) res.old result res.new }
{
    let mut space = Workspace::new();
    let mut parse = [0u32; limits::READING_NUMBERS];
    let parsed = job::parse_record(
        grammar,
        record,
        main,
        Lending {
            second,
            plain: false,
        },
        &mut space,
        &mut parse,
    );
    outcome::give_xml(parsed, &space.table, &space.text, &parse, res)
}
