// The start of a read in rounds, and each of its rounds.
#![tactic(auto)]

ghost use Rattle.std.specs.Prelude.{◌≡◌, length};
ghost use Rattle.answer.specs.Answer.{job};
ghost use Rattle.state.specs.State.{state_length};
ghost use Rattle.resume.specs.Resume.{StartedAs, RoundedAs};

use opening::Workspace;
use resume::Progress;

// Starts a read: the table is cleared, the state keeps grammar and record. Local are 66,336 bytes.
pub fn start(
    grammar: &[u8],
    record: &[u8],
    main: &mut [u32],
    second: usize,
    state: &mut [u32],
) -> Progress
    requires { length state.old ≡ state_length }
    ensures { StartedAs (job grammar.now «record».now (length main.old) second) main.old result main.new state.new }
{
    let mut space = Workspace::new();
    let start = match opening::begin(grammar, record, main.len(), second, &mut space) {
        Ok(start) => start,
        Err(why) => {
            state::wipe(state);
            return resume::refuse(why, 0);
        }
    };
    let need = room::need(start.rules.size, start.chars.0);
    chart::clear(main, need);
    state::begin(state, grammar, record);
    Progress {
        answer: exported::answered(0, false, start.rules.mismatch),
        rounds: 0,
    }
}

// Does one round. Local are 66,336 bytes.
pub fn round(
    grammar: &[u8],
    record: &[u8],
    main: &mut [u32],
    second: usize,
    state: &mut [u32],
) -> Progress
    requires { length state.old ≡ state_length }
    ensures { RoundedAs (job grammar.now «record».now (length main.old) second) main.old state.old result
        main.new state.new }
{
    let mut space = Workspace::new();
    let begun = resume::resume(state, grammar, record, main.len(), second, &mut space);
    let start = match begun {
        Ok(start) => start,
        Err(why) => return resume::refuse(why, 0),
    };
    let answer = exported::answered(0, false, start.rules.mismatch);
    let done = state::rounds(state);
    let rounds = text::wide(done);
    if state::finished(state) {
        return Progress { answer, rounds };
    }
    let n = start.chars.0;
    let last = advance::round(
        &space.table,
        start.rules.size,
        start.rules.root,
        &space.text[..n],
        rounds,
        main,
    );
    state::count(state, done + 1, u32::from(last));
    Progress {
        answer,
        rounds: rounds + 1,
    }
}
