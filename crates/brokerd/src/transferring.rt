//! The rows of a database written to standard output, and a database made of those of standard input.

ghost use Rattle.std.specs.Prelude.{◌≡◌, IfOk};
ghost use Rattle.std.specs.Process.{exit_status};

use database_transfer::{Failure, How, Imported, export_file, import_file};
use endpoints::{Reading, Writing};
use hub::Clock;
use salvage::Change;
use server::SystemClock;
use std::io;
use std::io::Eprint;
use std::process::ExitCode;

/// Writes the rows of a file to standard output, and says on standard error how many there are. The status is 0, or 1
/// after a fault.
pub(crate) fn export(rt: &HostRuntime, path: &str) -> anyhow::Result<ExitCode> {
    match export_file(rt, path, Writing::new(io::writer(rt))) {
        Ok(count) => {
            eprintln!(rt; "{path}: {count} rows")?;
            Ok(ExitCode::SUCCESS)
        }
        Err(failure) => refuse(rt, path, &failure),
    }
}

/// Makes a database of the rows of standard input, and says on standard output how many it has. What was changed to
/// salvage them is said on standard error. The status is 0, or 1 if there is no new database.
pub(crate) fn import(rt: &HostRuntime, path: &str, salvages: bool) -> anyhow::Result<ExitCode> {
    let how = if salvages {
        How::Salvaged(SystemClock::new(rt).now())
    } else {
        How::Whole
    };
    match import_file(rt, path, Reading::new(rt.reader()), how) {
        Ok(Imported::Made { counts, changes }) => {
            tell_changes(rt, changes.as_slice())?;
            println!(rt; "{path}: ok, {counts}")?;
            Ok(ExitCode::SUCCESS)
        }
        Ok(Imported::Refused(refusal)) => {
            eprintln!(rt; "{path}: not made: {refusal}")?;
            Ok(ExitCode::from(1))
        }
        Ok(Imported::Unsound(defect)) => {
            eprintln!(rt; "{path}: not made: {defect}")?;
            Ok(ExitCode::from(1))
        }
        Err(failure) => refuse(rt, path, &failure),
    }
}

/// Says what was changed of rows, a line each.
fn tell_changes<R: Eprint>(rt: &R, changes: &[Change]) -> anyhow::Result<()> {
    for change in changes {
        eprintln!(rt; "{change}")?;
    }
    Ok(())
}

/// Says on standard error why there is no export or no new database, and answers the status.
fn refuse<R: Eprint>(rt: &R, path: &str, failure: &Failure) -> anyhow::Result<ExitCode>
    ensures { IfOk result (λ code. exit_status code ≡ 1) }
{
    eprintln!(rt; "{path}: {failure}")?;
    Ok(ExitCode::from(1))
}
