//! Maintenance of the broker of a file that no program serves.

use crate::tell;
use broker_types::Words;
use hub::{Clock, ConnectionFault, WordSource};
use maintenance::{Done, Outcome, Task, perform_on_file};
use replay::Exit;
use server::{SystemClock, seeded};
use std::process::ExitCode;

/// Makes one more root token, and prints it; the others are revoked if that is asked for. The status is 0, or 1 if the
/// file is refused, and after a fault.
pub(crate) fn new_root(
    rt: &HostRuntime,
    path: &str,
    revokes_others: bool,
) -> anyhow::Result<ExitCode> {
    let Ok(mut words) = seeded(rt) else {
        eprintln!(rt; "{path}: the system gave no random numbers")?;
        return tell(rt, Exit::Faulted(ConnectionFault::Read.number()));
    };
    // Each draw but the first is for the case that an identifier of those before it was given out.
    let draws = [words.words(), words.words(), words.words(), words.words()];
    let mut clock = SystemClock::new(rt);
    let task = Task::NewRoot {
        moment: clock.now(),
        draws: draws.as_slice(),
        revokes_others,
    };
    let Some(done) = perform(rt, path, &task)? else {
        return Ok(ExitCode::from(1));
    };
    let Done {
        root,
        responses: _,
        tokens,
    } = done;
    let Some(root) = root else {
        eprintln!(rt; "{path}: each identifier that was drawn had been issued before")?;
        return Ok(ExitCode::from(1));
    };
    println!(rt; "root token: {}", root.as_str())?;
    if revokes_others {
        eprintln!(rt; "{path}: revoked root tokens: {tokens}")?;
    }
    Ok(ExitCode::SUCCESS)
}

/// Drops the responses that wait, and revokes tokens if that is asked for; and says how many. The status is 0, or 1 if
/// the file is refused, and after a fault.
pub(crate) fn after_restore(
    rt: &HostRuntime,
    path: &str,
    revokes_tokens: bool,
) -> anyhow::Result<ExitCode> {
    // A task can hold draws: the prover has to meet their type where one is made.
    let _draws: [Words; 0] = [];
    let Some(done) = perform(rt, path, &Task::AfterRestore { revokes_tokens })? else {
        return Ok(ExitCode::from(1));
    };
    let responses = done.responses;
    let tokens = done.tokens;
    println!(rt; "{path}: dropped wrapped responses: {responses}, revoked tokens: {tokens}")?;
    Ok(ExitCode::SUCCESS)
}

/// What was done to the broker of the file; nothing if that is refused, or after a fault, which is said on standard
/// error.
fn perform(rt: &HostRuntime, path: &str, task: &Task<'_>) -> anyhow::Result<Option<Done>> {
    match perform_on_file(rt, path, task) {
        Ok(Outcome::Done(done)) => Ok(Some(done)),
        Ok(Outcome::Unsound(defect)) => {
            eprintln!(rt; "{path}: {defect}")?;
            Ok(None)
        }
        Err(caused) => {
            eprintln!(rt; "{path}: {caused}")?;
            tell(rt, Exit::Faulted(caused.fault.number()))?;
            Ok(None)
        }
    }
}
