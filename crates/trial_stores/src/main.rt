//! The program `trial_stores`, for tests: it runs the lines of a replay over either store, also where calls on the rows
//! fail, and writes the numbers by which such lines are drawn.
#![tactic(auto)]

ghost use Rattle.std.specs.Prelude.{◌≡◌, IfOk};
ghost use Rattle.std.specs.Process.{exit_status};
ghost use Rattle.trial_stores.specs.Exits.{status_after};

mod base;
mod ending;
mod failing;
mod failing_runs;
mod memory;
mod numbers;
mod retrying;
mod running;
mod script;
mod task;

use base::ListBase;
use ending::End;
use endpoints::{Reading, Sink, Source, Writing};
use failing::Way;
use failing_runs::{run_failing, run_failing_in_memory};
use numbers::write_numbers;
use replay::{Exit, replay};
use retrying::{retry_over_list, retry_over_sql};
use running::replay_over_list;
use script::script_of;
use std::alloc::Global;
use std::io::Eprint;
use std::process::ExitCode;
use std::{env, io};
use task::{Over, Task, task_of};

const USAGE: &str = "usage: trial_stores list|sql | retry|failing|faulted list|sql | numbers";

fn main(rt: HostRuntime) -> anyhow::Result<ExitCode> {
    let alloc = rt.alloc();
    let words = match env::args(&rt).and_then(|words| Ok(words.collect::<Vec<String>>(alloc)?)) {
        Ok(words) => words,
        Err(_) => return tell(&rt, End::Replayed(Exit::Faulted(1))),
    };
    let Some(task) = task_of(words.as_slice()) else {
        eprintln!(rt; "{USAGE}")?;
        return Ok(ExitCode::from(2));
    };
    let mut reader = Reading::new(rt.reader());
    let mut writer = Writing::new(io::writer(&rt));
    let end = match task {
        Task::Replay(Over::List) => {
            End::Replayed(replay_over_list(alloc, &mut reader, &mut writer))
        }
        Task::Replay(Over::Sql) => End::Replayed(replay(alloc, &mut reader, &mut writer)),
        Task::Retry(over) => retry(&rt, alloc, over, &mut reader, &mut writer),
        Task::Failing(over) => fail(&rt, alloc, over, Way::Each, &mut reader, &mut writer),
        Task::Faulted(over) => fail(&rt, alloc, over, Way::Tenth, &mut reader, &mut writer),
        Task::Numbers => End::Replayed(write_numbers(alloc, &mut writer)),
        Task::Help => {
            println!(rt; "{USAGE}")?;
            End::Replayed(Exit::Done)
        }
    };
    tell(&rt, end)
}

/// Runs the lines of the source over a store, and sends a request that met a fault once more.
fn retry<P: Eprint, R: Source, W: Sink>(
    rt: &P,
    alloc: Global,
    over: Over,
    reader: &mut R,
    writer: &mut W,
) -> End {
    let script = match script_of(alloc, reader) {
        Ok(script) => script,
        Err(exit) => return End::Replayed(exit),
    };
    End::Replayed(match over {
        Over::List => retry_over_list(rt, alloc, &script, writer),
        Over::Sql => retry_over_sql(rt, alloc, &script, writer),
    })
}

/// Runs the lines of the source over rows of which calls fail in this way.
fn fail<P: Eprint, R: Source, W: Sink>(
    rt: &P,
    alloc: Global,
    over: Over,
    way: Way,
    reader: &mut R,
    writer: &mut W,
) -> End {
    let script = match script_of(alloc, reader) {
        Ok(script) => script,
        Err(exit) => return End::Replayed(exit),
    };
    match over {
        Over::List => run_failing(rt, alloc, ListBase::new(alloc), way, &script, writer),
        Over::Sql => run_failing_in_memory(rt, alloc, way, &script, writer),
    }
}

/// Says on standard error why the task did not end well, if so, and answers the status: 0, or 1 after a fault or a call
/// that failed otherwise than it has to, or 2 at a bad line.
fn tell<R: Eprint>(rt: &R, end: End) -> anyhow::Result<ExitCode>
    ensures { IfOk result (λ code. exit_status code ≡ status_after end) }
{
    match end {
        End::Replayed(Exit::Done) => Ok(ExitCode::SUCCESS),
        End::Replayed(Exit::Faulted(number)) => {
            eprintln!(rt; "fault {number}")?;
            Ok(ExitCode::from(1))
        }
        End::Replayed(Exit::BadLine(number)) => {
            eprintln!(rt; "bad line {number}")?;
            Ok(ExitCode::from(2))
        }
        End::Wrong => {
            eprintln!(rt; "a call failed, and gave another answer than the fault, or other rows")?;
            Ok(ExitCode::from(1))
        }
    }
}
