// A read in rounds: what its calls answer, and how a later call takes it up. The main table and the state are the caller's between the calls.
#![tactic(auto)]

ghost use Rattle.std.specs.Prelude.{◌≡◌, length};
ghost use Rattle.answer.specs.Answer.{job};
ghost use Rattle.state.specs.State.{state_length};
ghost use Rattle.resume.specs.Resume.{refusing};
ghost use Rattle.resume.specs.Stages.{Resumes};

use exported::{Answer, Refusal};
use opening::{Start, Workspace};
use text::Diagnostic;

// A state, or a table, that is not of this read.
pub const OTHER_STATE: u32 = 27;

// What these calls answer: the common answer, and how many rounds were done.
#[repr(C)]
#[derive(Clone, Copy)]
pub struct Progress {
    pub answer: Answer,
    pub rounds: usize,
}

// A refusal that carries neither mark.
pub fn refuse(why: Diagnostic, rounds: usize) -> Progress
    ensures { result ≡ refusing why rounds }
{
    let answer = exported::refuse(Refusal::from(why));
    Progress { answer, rounds }
}

// 27 and 15 of a later call.
pub fn resume(
    state: &[u32],
    grammar: &[u8],
    record: &[u8],
    main: usize,
    second: usize,
    space: &mut Workspace,
) -> Result<Start, Diagnostic>
    requires { length state.now ≡ state_length }
    ensures { Resumes (job grammar.now «record».now main second) state.now space.new.table space.new.text result }
{
    if !state::keeps(state, grammar, record) {
        return Err(text::plain(OTHER_STATE));
    }
    let Ok(start) = opening::open_job(grammar, record, space) else {
        return Err(text::plain(OTHER_STATE));
    };
    opening::lend_main(start, main, second)
}
