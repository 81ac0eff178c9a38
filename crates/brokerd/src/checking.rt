//! The check of a file.

ghost use Rattle.std.specs.Prelude.{◌≡◌};
ghost use Rattle.brokerd.specs.Exits.{status_of, status_of_all};

use crate::tell;
use broker_types::Fault;
use database_check::{AllFindings, Finding, check_all_file, check_file};
use replay::Exit;
use std::fmt;
use std::process::ExitCode;

/// Says on standard output whether a file is the database of a broker, or else of the first row that keeps it from
/// being so, or of each; and answers the status: 0 if it is, else 1, also after a fault.
pub(crate) fn check(rt: &HostRuntime, path: &str, lists_all: bool) -> anyhow::Result<ExitCode> {
    if lists_all {
        check_all(rt, path)
    } else {
        check_first(rt, path)
    }
}

fn check_first(rt: &HostRuntime, path: &str) -> anyhow::Result<ExitCode> {
    match check_file(rt, path) {
        Ok(finding) => {
            println!(rt; "{path}: {finding}")?;
            Ok(ExitCode::from(found_status(&finding)))
        }
        Err(caused) => tell_fault(rt, path, &caused, caused.fault),
    }
}

/// A line for each row, and one with how many there are.
fn check_all(rt: &HostRuntime, path: &str) -> anyhow::Result<ExitCode> {
    match check_all_file(rt, path) {
        Ok(findings) => {
            let text = format!(in rt.alloc(); "{findings}")?;
            for line in text.lines() {
                println!(rt; "{path}: {line}")?;
            }
            Ok(ExitCode::from(all_found_status(&findings)))
        }
        Err(caused) => tell_fault(rt, path, &caused, caused.fault),
    }
}

/// Says on standard error why a file could not be checked, and answers the status.
fn tell_fault<C: fmt::Display>(
    rt: &HostRuntime,
    path: &str,
    cause: &C,
    fault: Fault,
) -> anyhow::Result<ExitCode> {
    eprintln!(rt; "{path}: {cause}")?;
    tell(rt, Exit::Faulted(fault.number()))
}

/// The exit status after a check: 0 where the rows are those of a sound broker.
fn found_status(finding: &Finding) -> u8
    ensures { result ≡ status_of finding.now }
{
    match finding {
        Finding::Sound(_) => 0,
        Finding::Unsound(_) => 1,
    }
}

/// The same after a check of all rows.
fn all_found_status(findings: &AllFindings) -> u8
    ensures { result ≡ status_of_all findings.now }
{
    match findings {
        AllFindings::AllSound(_) => 0,
        AllFindings::InTrouble(_) => 1,
    }
}
