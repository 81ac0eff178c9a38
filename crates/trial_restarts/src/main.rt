//! The program `trial_restarts`, for tests: it runs the lines of a replay over files that are closed and opened again,
//! and over files that stop.
#![tactic(auto)]

ghost use Rattle.std.specs.Prelude.{◌≡◌, IfOk};
ghost use Rattle.std.specs.Process.{exit_status};
ghost use Rattle.trial_restarts.specs.Ends.{status_after};

mod disk;
mod ending;
mod found;
mod opening;
mod reopened;
mod running;
mod script;
mod stopped;
mod stops;
mod tally;
mod task;
mod upgraded;

use ending::End;
use endpoints::{Reading, Writing};
use reopened::replay_reopened;
use replay::Exit;
use std::io::{Eprint, Print};
use std::process::ExitCode;
use std::{env, io};
use stopped::{run_again, run_stopped, run_upgraded};
use tally::Tally;
use task::{Task, task_of};

const USAGE: &str = "usage: trial_restarts reopened|stopped|again|upgraded mixed|torn";

fn main(rt: HostRuntime) -> anyhow::Result<ExitCode> {
    let alloc = rt.alloc();
    let words = match env::args(&rt).and_then(|words| Ok(words.collect::<Vec<String>>(alloc)?)) {
        Ok(words) => words,
        Err(_) => return tell(&rt, End::Replayed(Exit::Faulted(1))),
    };
    let Some(task) = task_of(words.as_slice()) else {
        eprintln!(rt; "{USAGE}")?;
        return Ok(ExitCode::from(2));
    };
    let end = run(&rt, task)?;
    tell(&rt, end)
}

/// Runs a task over standard input, and prints what it tells.
fn run(rt: &HostRuntime, task: Task) -> anyhow::Result<End> {
    let alloc = rt.alloc();
    let mut reader = Reading::new(rt.reader());
    let mut writer = Writing::new(io::writer(rt));
    match task {
        Task::Reopened(writes) => Ok(End::Replayed(replay_reopened(
            alloc,
            writes,
            &mut reader,
            &mut writer,
        ))),
        Task::Stopped(writes) => print_tally(rt, run_stopped(alloc, writes, &mut reader)),
        Task::Again(writes) => match run_again(alloc, writes, &mut reader, &mut writer) {
            Ok((without, with)) => {
                println!(rt; "not taken {without} times, taken {with} times")?;
                Ok(End::Replayed(Exit::Done))
            }
            Err(end) => Ok(end),
        },
        Task::Upgraded(writes) => {
            print_tally(rt, run_upgraded(alloc, writes, &mut reader, &mut writer))
        }
        Task::Help => {
            println!(rt; "{USAGE}")?;
            Ok(End::Replayed(Exit::Done))
        }
    }
}

/// Prints what was met at each step, if the task ended well.
fn print_tally<R: Print>(rt: &R, met: Result<Tally, End>) -> anyhow::Result<End> {
    let tally = match met {
        Ok(tally) => tally,
        Err(end) => return Ok(end),
    };
    for (place, step) in tally.steps.iter().enumerate() {
        println!(rt; "step {place}: {step}")?;
    }
    let images = tally.images;
    println!(rt; "{images} images")?;
    Ok(End::Replayed(Exit::Done))
}

/// Says on standard error why the task did not end well, if so, and answers the status: 0, or 1 after a fault or at
/// rows that are not what they should be, or 2 at a bad line.
fn tell<R: Eprint>(rt: &R, end: End) -> anyhow::Result<ExitCode>
    ensures { IfOk result (λ code. exit_status code ≡ status_after end) }
{
    match end {
        End::Replayed(Exit::Done) => Ok(ExitCode::SUCCESS),
        End::Replayed(Exit::Faulted(number)) => {
            eprintln!(rt; "fault {number}")?;
            Ok(ExitCode::from(1))
        }
        End::Replayed(Exit::BadLine(number)) => {
            eprintln!(rt; "bad line {number}")?;
            Ok(ExitCode::from(2))
        }
        End::Wrong(stop) => {
            eprintln!(rt; "{stop}: another broker is found")?;
            Ok(ExitCode::from(1))
        }
    }
}
