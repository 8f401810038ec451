// The end of a read in rounds: the left parse by the table that the rounds have left.
#![tactic(auto)]

ghost use Rattle.std.specs.Prelude.{◌≡◌, length};
ghost use Rattle.answer.specs.Answer.{Job};
ghost use Rattle.state.specs.State.{state_length};
ghost use Rattle.job.specs.Found.{Prepared};
ghost use Rattle.resume.specs.Stages.{Resumes};
ghost use Rattle.ending.specs.Ending.{refused_with, EndsWith};

use exported::Refusal;
use job::LeftParse;
use opening::{Start, Workspace};
use text::Diagnostic;

// A read that is not finished yet.
pub const NOT_YET: u32 = 26;

// What the end of a read comes to: what the stages of an uncut one do, or a refusal; and how many rounds it tells.
#[derive(Clone, Copy)]
pub struct Ending {
    pub parse: Result<LeftParse, Refusal>,
    pub rounds: usize,
}

fn refused(why: Diagnostic, rounds: usize) -> Ending
    ensures { result ≡ refused_with why rounds }
{
    Ending {
        parse: Err(Refusal::from(why)),
        rounds,
    }
}

// 26, 27 of a table that is not of a finished read, 16 and 29 of a read that is gone on with; the left parse goes to `parse`. A refusal stays.
pub fn end_read(
    begun: Result<Start, Diagnostic>,
    state: &[u32],
    space: &Workspace,
    main: &[u32],
    parse: &mut [u32],
) -> Ending
    requires { Prepared begun space.now.table space.now.text (length main.now) (length parse.old) × (length state.now ≡ state_length) }
    ensures { (j : Job) → Resumes j state.now space.now.table space.now.text begun
        → EndsWith j space.now.table space.now.text main.now state.now parse.new result }
{
    let start = match begun {
        Ok(start) => start,
        Err(why) => return refused(why, 0),
    };
    let rounds = text::wide(state::rounds(state));
    if !state::finished(state) {
        return refused(text::plain(NOT_YET), rounds);
    }
    let n = start.chars.0;
    let finished = finish::finish(
        &space.table,
        start.rules.size,
        start.rules.root,
        &space.text[..n],
        main,
        parse,
    );
    let Some(chosen) = finished else {
        return refused(text::plain(resume::OTHER_STATE), 0);
    };
    let read = job::parse_of(chosen, start);
    Ending {
        parse: read,
        rounds,
    }
}
