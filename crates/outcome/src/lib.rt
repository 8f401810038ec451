// What a call answers, by what its stages find.
#![tactic(auto)]

ghost use Rattle.std.specs.Prelude.{◌≡◌};
ghost use Rattle.outcome.specs.Outcome.{answer_by, answer_of};
ghost use Rattle.outcome.specs.Given.{Counted, GivesNumbers, Named, GivesXml, Tokened, tidied_of, GivesTidy};
ghost use Rattle.outcome.specs.Judging.{Judgeable, Concluded};

use accept::Rules;
use convert::ConvertError;
use exported::{Answer, Refusal, answered, refuse};
use job::LeftParse;
use markup::StateWords;
use text::{Diagnostic, refusals};
use tidy_text::TidyError;

// The answer to XML that is written, or refused with a number.
pub fn answer_to(converted: Result<usize, u32>, ambiguous: bool, mismatch: bool) -> Answer
    ensures { result ≡ answer_by converted ambiguous mismatch }
{
    match converted {
        Ok(length) => answered(length, ambiguous, mismatch),
        Err(number) => refuse(Refusal {
            why: text::plain(number),
            mismatch,
        }),
    }
}

// The same of converting's own refusals.
fn answer_to_converted(
    converted: Result<usize, ConvertError>,
    ambiguous: bool,
    mismatch: bool,
) -> Answer
    ensures { result ≡ answer_of converted ambiguous mismatch }
{
    match converted {
        Ok(length) => answer_to(Ok(length), ambiguous, mismatch),
        Err(error) => answer_to(Err(error.number()), ambiguous, mismatch),
    }
}

// The numbers of a chosen reading, or the refusal.
pub fn give_numbers(parsed: Result<LeftParse, Refusal>, parse: &[u32], res: &mut [u32]) -> Answer
    requires { Counted parsed parse.now }
    ensures { GivesNumbers parsed parse.now res.old res.new result }
{
    let found = match parsed {
        Ok(found) => found,
        Err(refusal) => return refuse(refusal),
    };
    if res.len() < found.count {
        return refuse(Refusal {
            why: text::plain(refusals::RESULT_TOO_LONG),
            mismatch: found.mismatch,
        });
    }
    exported::copy(parse, found.count, res);
    answered(found.count, found.ambiguous, found.mismatch)
}

// Its XML, or the refusal.
pub fn give_xml(
    parsed: Result<LeftParse, Refusal>,
    table: &[u32],
    text: &[u32],
    parse: &[u32],
    res: &mut [u8],
) -> Answer
    requires { Named parsed table.now text.now parse.now }
    ensures { GivesXml parsed table.now text.now parse.now res.old res.new result }
{
    let found = match parsed {
        Ok(found) => found,
        Err(refusal) => return refuse(refusal),
    };
    let count = found.count;
    let chars = found.chars.0;
    let converted = convert::convert(
        table,
        found.root,
        &parse[..count],
        &text[..chars],
        found.ambiguous,
        found.mismatch,
        res,
    );
    answer_to_converted(converted, found.ambiguous, found.mismatch)
}

// A list that names no derivation of the record.
const NOT_A_DERIVATION: u32 = 25;

// 17 to 23 of a list that is judged already, or 25.
pub fn conclude_list(
    table: &[u32],
    rules: Rules,
    list: &[u32],
    record: &[u32],
    scratch: &mut [u64],
    res: &mut [u8],
) -> Answer
    requires { Judgeable table.now rules.root list.now «record».now scratch.old }
    ensures { Concluded table.now rules.root list.now «record».now rules.mismatch res.old res.new result }
{
    if judge::judge_list(table, rules.root, list, record, scratch) {
        let due = StateWords {
            ambiguous: false,
            mismatch: rules.mismatch,
        };
        let converted = convert::conclude(table, rules.root, list, record, due, scratch, res);
        return answer_to_converted(converted, false, rules.mismatch);
    }
    refuse(Refusal::from(text::plain(NOT_A_DERIVATION)))
}

// The answer to tidy text that is written, or refused.
fn answer_to_tidied(tidied: Result<usize, TidyError>, mismatch: bool) -> Answer
    ensures { result ≡ tidied_of tidied mismatch }
{
    match tidied {
        Ok(length) => answered(length, false, mismatch),
        Err(error) => refuse(Refusal::from(text::plain(error.number()))),
    }
}

// The tidy text of an accepted grammar, or the refusal.
pub fn give_tidy(accepted: Result<Rules, Diagnostic>, table: &[u32], res: &mut [u8]) -> Answer
    requires { Tokened accepted table.now }
    ensures { GivesTidy accepted table.now res.old res.new result }
{
    let rules = match accepted {
        Ok(rules) => rules,
        Err(why) => return refuse(Refusal::from(why)),
    };
    let tidied = tidy_text::tidy(table, rules.end, res);
    answer_to_tidied(tidied, rules.mismatch)
}
