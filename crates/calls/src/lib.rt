// The public calls. None requires anything of its caller.
#![tactic(auto)]

ghost use Rattle.std.specs.Prelude.{length};
ghost use Rattle.answer.specs.Answer.{job, Categorizes, Reads, Converts};
ghost use Rattle.outcome.specs.Calls.{Checked, ReadAs, ConvertedAs, JudgedAs, TidiedAs};
ghost use Rattle.resume.specs.Resume.{StartedAs, RoundedAs, EndedAs};

use exported::{Answer, Refusal};
use opening::Workspace;
use resume::Progress;
use text::limits;

// Checks a grammar.
pub fn ixml_check(grammar: &[u8]) -> Answer
    ensures { Checked grammar.now result }
{
    let mut table = [0u32; limits::GRAMMAR_TABLE];
    match accept::accept_grammar(grammar, &mut table) {
        Ok(rules) => exported::answered(0, false, rules.mismatch),
        Err(why) => exported::refuse(Refusal::from(why)),
    }
}

// The category of a code point, by its place in the list of thirty; 30 for one that is not known here.
pub fn ixml_category(code: u32) -> u32
    ensures { Categorizes code result }
{
    text::wide_byte(category::category_of(code))
}

// Reads a record. Of the lent tables the second is known by its length alone: a grammar is judged before it is known to be long enough, so
// the call has a table of its own. What the main table holds afterwards is left open.
pub fn ixml_read(
    grammar: &[u8],
    record: &[u8],
    main: &mut [u32],
    second: &[u32],
    res: &mut [u32],
) -> Answer
    ensures { ReadAs (job grammar.now «record».now (length main.old) (length second.now)) res.old result res.new }
{
    uncut::read(false, grammar, record, main, second.len(), res)
}

// The same by the plain engine, which fills the whole main table and takes far longer. It is there to be compared with.
pub fn ixml_read_plain(
    grammar: &[u8],
    record: &[u8],
    main: &mut [u32],
    second: &[u32],
    res: &mut [u32],
) -> Answer
    ensures { ReadAs (job grammar.now «record».now (length main.old) (length second.now)) res.old result res.new }
{
    uncut::read(true, grammar, record, main, second.len(), res)
}

// Converts a record. What the main table holds afterwards is left open.
pub fn ixml_convert(
    grammar: &[u8],
    record: &[u8],
    main: &mut [u32],
    second: &[u32],
    res: &mut [u8],
) -> Answer
    ensures { ConvertedAs (job grammar.now «record».now (length main.old)
        (length second.now)) res.old result res.new }
{
    uncut::convert(grammar, record, main, second.len(), res)
}

// Judges a list of numbers, whoever made it: the XML of the derivation that it names. The scratch takes two numbers for each entry; what it
// holds afterwards is left open.
pub fn ixml_judge(
    grammar: &[u8],
    record: &[u8],
    list: &[u32],
    second: &[u32],
    scratch: &mut [u64],
    res: &mut [u8],
) -> Answer
    ensures { JudgedAs list.now (job grammar.now «record».now (length scratch.old)
        (length second.now)) res.old result res.new }
{
    let mut space = Workspace::new();
    let begun = opening::begin_list(
        grammar,
        record,
        list.len(),
        scratch.len(),
        second.len(),
        &mut space,
    );
    let start = match begun {
        Ok(start) => start,
        Err(why) => return exported::refuse(Refusal::from(why)),
    };
    let rules = start.rules;
    let chars = start.chars.0;
    outcome::conclude_list(
        &space.table,
        rules,
        list,
        &space.text[..chars],
        scratch,
        res,
    )
}

// Tidies a grammar.
pub fn ixml_tidy(grammar: &[u8], res: &mut [u8]) -> Answer
    ensures { TidiedAs grammar.now res.old result res.new }
{
    let mut table = [0u32; limits::GRAMMAR_TABLE];
    let accepted = accept::accept_grammar(grammar, &mut table);
    outcome::give_tidy(accepted, &table, res)
}

// Starts a read in rounds. The caller keeps the main table and the state between the calls as they are left.
pub fn ixml_start(
    grammar: &[u8],
    record: &[u8],
    main: &mut [u32],
    second: &[u32],
    state: &mut [u32; state::LENGTH],
) -> Progress
    ensures { StartedAs (job grammar.now «record».now (length main.old) (length second.now)) main.old result
        main.new state.new }
{
    stepping::start(grammar, record, main, second.len(), state)
}

// Does one round of a read.
pub fn ixml_round(
    grammar: &[u8],
    record: &[u8],
    main: &mut [u32],
    second: &[u32],
    state: &mut [u32; state::LENGTH],
) -> Progress
    ensures { RoundedAs (job grammar.now «record».now (length main.old) (length second.now)) main.old state.old result
        main.new state.new }
{
    stepping::round(grammar, record, main, second.len(), state)
}

// Ends a read in rounds as a reading.
pub fn ixml_finish_read(
    grammar: &[u8],
    record: &[u8],
    main: &[u32],
    second: &[u32],
    state: &[u32; state::LENGTH],
    res: &mut [u32],
) -> Progress
    ensures { EndedAs Reads (job grammar.now «record».now (length main.now) (length second.now)) main.now state.now
        res.old result res.new }
{
    let mut space = Workspace::new();
    let mut parse = [0u32; limits::READING_NUMBERS];
    let begun = resume::resume(state, grammar, record, main.len(), second.len(), &mut space);
    let ended = ending::end_read(begun, state, &space, main, &mut parse);
    let answer = outcome::give_numbers(ended.parse, &parse, res);
    Progress {
        answer,
        rounds: ended.rounds,
    }
}

// Ends a read in rounds as XML.
pub fn ixml_finish_convert(
    grammar: &[u8],
    record: &[u8],
    main: &[u32],
    second: &[u32],
    state: &[u32; state::LENGTH],
    res: &mut [u8],
) -> Progress
    ensures { EndedAs Converts (job grammar.now «record».now (length main.now) (length second.now)) main.now state.now
        res.old result res.new }
{
    let mut space = Workspace::new();
    let mut parse = [0u32; limits::READING_NUMBERS];
    let begun = resume::resume(state, grammar, record, main.len(), second.len(), &mut space);
    let ended = ending::end_read(begun, state, &space, main, &mut parse);
    let answer = outcome::give_xml(ended.parse, &space.table, &space.text, &parse, res);
    Progress {
        answer,
        rounds: ended.rounds,
    }
}
