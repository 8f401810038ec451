// The public calls for C, as include/ixml.h declares them: each is that of the library. None requires anything of its caller.
#![tactic(auto)]

ghost use Rattle.std.specs.Prelude.{length};
ghost use Rattle.answer.specs.Answer.{job, Categorizes, Reads, Converts};
ghost use Rattle.outcome.specs.Calls.{Checked, ReadAs, ConvertedAs, JudgedAs, TidiedAs};
ghost use Rattle.resume.specs.Resume.{StartedAs, RoundedAs, EndedAs};

use exported::Answer;
use resume::Progress;

#[unsafe(no_mangle)]
pub extern "C" fn ixml_check(grammar: &[u8]) -> Answer
    ensures { Checked grammar.now result }
{
    calls::ixml_check(grammar)
}

#[unsafe(no_mangle)]
pub extern "C" fn ixml_category(code: u32) -> u32
    ensures { Categorizes code result }
{
    calls::ixml_category(code)
}

#[unsafe(no_mangle)]
pub extern "C" fn ixml_read(
    grammar: &[u8],
    record: &[u8],
    main: &mut [u32],
    second: &[u32],
    res: &mut [u32],
) -> Answer
    ensures { ReadAs (job grammar.now «record».now (length main.old) (length second.now)) res.old result res.new }
{
    calls::ixml_read(grammar, record, main, second, res)
}

#[unsafe(no_mangle)]
pub extern "C" fn ixml_read_plain(
    grammar: &[u8],
    record: &[u8],
    main: &mut [u32],
    second: &[u32],
    res: &mut [u32],
) -> Answer
    ensures { ReadAs (job grammar.now «record».now (length main.old) (length second.now)) res.old result res.new }
{
    calls::ixml_read_plain(grammar, record, main, second, res)
}

#[unsafe(no_mangle)]
pub extern "C" fn ixml_convert(
    grammar: &[u8],
    record: &[u8],
    main: &mut [u32],
    second: &[u32],
    res: &mut [u8],
) -> Answer
    ensures { ConvertedAs (job grammar.now «record».now (length main.old)
        (length second.now)) res.old result res.new }
{
    calls::ixml_convert(grammar, record, main, second, res)
}

#[unsafe(no_mangle)]
pub extern "C" fn ixml_judge(
    grammar: &[u8],
    record: &[u8],
    list: &[u32],
    second: &[u32],
    scratch: &mut [u64],
    res: &mut [u8],
) -> Answer
    ensures { JudgedAs list.now (job grammar.now «record».now (length scratch.old)
        (length second.now)) res.old result res.new }
{
    calls::ixml_judge(grammar, record, list, second, scratch, res)
}

#[unsafe(no_mangle)]
pub extern "C" fn ixml_tidy(grammar: &[u8], res: &mut [u8]) -> Answer
    ensures { TidiedAs grammar.now res.old result res.new }
{
    calls::ixml_tidy(grammar, res)
}

#[unsafe(no_mangle)]
pub extern "C" fn ixml_start(
    grammar: &[u8],
    record: &[u8],
    main: &mut [u32],
    second: &[u32],
    state: &mut [u32; state::LENGTH],
) -> Progress
    ensures { StartedAs (job grammar.now «record».now (length main.old) (length second.now)) main.old result
        main.new state.new }
{
    calls::ixml_start(grammar, record, main, second, state)
}

#[unsafe(no_mangle)]
pub extern "C" fn ixml_round(
    grammar: &[u8],
    record: &[u8],
    main: &mut [u32],
    second: &[u32],
    state: &mut [u32; state::LENGTH],
) -> Progress
    ensures { RoundedAs (job grammar.now «record».now (length main.old) (length second.now)) main.old state.old result
        main.new state.new }
{
    calls::ixml_round(grammar, record, main, second, state)
}

#[unsafe(no_mangle)]
pub extern "C" fn ixml_finish_read(
    grammar: &[u8],
    record: &[u8],
    main: &[u32],
    second: &[u32],
    state: &[u32; state::LENGTH],
    res: &mut [u32],
) -> Progress
    ensures { EndedAs Reads (job grammar.now «record».now (length main.now) (length second.now)) main.now state.now
        res.old result res.new }
{
    calls::ixml_finish_read(grammar, record, main, second, state, res)
}

#[unsafe(no_mangle)]
pub extern "C" fn ixml_finish_convert(
    grammar: &[u8],
    record: &[u8],
    main: &[u32],
    second: &[u32],
    state: &[u32; state::LENGTH],
    res: &mut [u8],
) -> Progress
    ensures { EndedAs Converts (job grammar.now «record».now (length main.now) (length second.now)) main.now state.now
        res.old result res.new }
{
    calls::ixml_finish_convert(grammar, record, main, second, state, res)
}
