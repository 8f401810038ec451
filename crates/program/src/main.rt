// ixml GRAMMAR RECORD: writes what the record file is by the grammar file. More pairs of files are
// run one after the other, so that one run tests many.
#![tactic(auto)]

ghost use Rattle.std.specs.Prelude.{◌+◌, ◌<◌};

use std::io;
use std::rt::{Env, Files};

// The arguments of a job: a grammar file and a record file.
const PAIR: usize = 2;

// The first argument of the second job.
const SECOND: usize = 1 + PAIR;

// Runs the job of the files that argument `at` and the next one name.
fn run(rt: &(impl Env + Files + Print), at: usize) -> io::Result<()>
    requires { at + 1 < 18446744073709551616 }
{
    let grammar = cli::named(rt, at);
    let input = cli::named(rt, at + 1);
    replies::answer(grammar, input, &mut io::writer(rt))
}

// How many arguments there are, the program's name among them.
fn count_arguments(rt: &impl Env) -> usize {
    for n in 0..usize::MAX {
        if !cli::is_given(rt, n) {
            return n;
        }
    }
    usize::MAX
}

// The first two arguments, and each two that follow. Output that cannot be written ends it.
fn main(rt: HostRuntime) -> io::Result<()> {
    let n = count_arguments(&rt);
    run(&rt, 1)?;
    let mut at = SECOND;
    while at < n {
        run(&rt, at)?;
        if n - at <= PAIR {
            return Ok(());
        }
        at += PAIR;
    }
    Ok(())
}
