//! Rows made ready to be served: those of a sound broker, or of any that a database keeps, or none.

ghost use Rattle.std.specs.Prelude.{◌≡◌, ◌≤◌, IsTrue, IfOk, IfErr, OnOk, OnErr, Err, None};
ghost use Rattle.broker_types.specs.Broker.{Broker};
ghost use Rattle.records.specs.Kept.{IsHonestStore};
ghost use Rattle.records_sql.specs.KeptRecords.{kept_records};
ghost use Rattle.broker_rows.specs.ClockRow.{HasNoClock};
ghost use Rattle.broker_rows.specs.Representing.{Represents};
ghost use Rattle.broker_sql.specs.Prepared.{CannotStart, IsPrepared};
ghost use Rattle.database_check.specs.Findings.{OpenAsNone};
ghost use Rattle.hub.specs.declared.serve.ConnectionFault.TheVariants as fault;
ghost use Rattle.server.specs.Starting.{IsFaultOfNew};
ghost use Rattle.broker_server.specs.Ready.{IsReady, IsRefusedFor};
ghost use Rattle.broker_server.specs.Starting.{IfFaulted, IfRefused, IsOfBroker};

use crate::serve_error::ServeError;
use broker_sql::prepare;
use broker_types::{Fault, Moment, TokenText, Words};
use database_check::defect_of;
use records_sql::SqlRecords;
use sqlite::Alter;
use std::alloc::Global;

/// Makes rows ready as `prepare` does, and only those of a sound broker, whoever wrote them: they are checked first,
/// unless they lack the row of the clock, and refused for the first row that keeps them from being such. It fails as
/// `prepare` does. After a refusal or a fault the rows are as before, as long as the storage returned what was written
/// and can still be asked.
pub fn prepare_checked<S: Alter>(
    alloc: Global,
    records: &mut SqlRecords<S>,
    moment: Moment,
    words: &Words,
) -> Result<Option<TokenText>, ServeError>
    ensures sound { IsHonestStore (kept_records S.Store records.new)
        → OnOk result ((b : Broker) × Represents None (kept_records S.Store records.new).rows b) }
    ensures prepared { IsHonestStore (kept_records S.Store records.new) → IfOk result (IsPrepared moment words.now
        (kept_records S.Store records.old).rows (kept_records S.Store records.new).rows) }
    ensures unsound { IsHonestStore (kept_records S.Store records.new)
        → IfErr result (λ error. IfRefused error (OpenAsNone (kept_records S.Store records.old).rows)) }
    ensures started { IsHonestStore (kept_records S.Store records.new)
        → IfErr result (λ error. IfRefused error (λ _. ¬ HasNoClock (kept_records S.Store records.old).rows)) }
    ensures bad_start { IsHonestStore (kept_records S.Store records.new)
        → result ≡ Err (ServeError.Faulted (fault.Broker Fault.BadStart))
        → CannotStart words.now (kept_records S.Store records.old).rows }
    ensures kept { IsHonestStore (kept_records S.Store records.new) → IsTrue (kept_records S.Store records.new).is_open
        → OnErr result ((kept_records S.Store records.new).rows ≡ (kept_records S.Store records.old).rows) }
    ensures stands { IsHonestStore (kept_records S.Store records.new)
        → OnOk result (IsTrue (kept_records S.Store records.new).is_open) }
    ensures mismatches { (kept_records S.Store records.old).mismatches
        ≤ (kept_records S.Store records.new).mismatches }
    ensures broker { IfErr result (λ error. IfFaulted error IsOfBroker) }
    ensures faults { IfErr result (λ error. IfFaulted error IsFaultOfNew) }
{
    match defect_of(alloc, records)? {
        Some(defect) => Err(ServeError::Unsound(defect)),
        None => Ok(prepare(alloc, records, moment, words)?),
    }
}

/// Makes rows ready, and checks them first, if they are to be.
pub(crate) fn make_ready<S: Alter>(
    alloc: Global,
    records: &mut SqlRecords<S>,
    checks: bool,
    moment: Moment,
    words: &Words,
) -> Result<Option<TokenText>, ServeError>
    ensures ready { IsHonestStore (kept_records S.Store records.new) → IfOk result (IsReady checks moment words.now
        (kept_records S.Store records.old).rows (kept_records S.Store records.new).rows) }
    ensures refused { IsHonestStore (kept_records S.Store records.new)
        → IfErr result (λ error. IfRefused error (IsRefusedFor checks (kept_records S.Store records.old).rows)) }
    ensures kept { IsHonestStore (kept_records S.Store records.new) → IsTrue (kept_records S.Store records.new).is_open
        → OnErr result ((kept_records S.Store records.new).rows ≡ (kept_records S.Store records.old).rows) }
    ensures stands { IsHonestStore (kept_records S.Store records.new)
        → OnOk result (IsTrue (kept_records S.Store records.new).is_open) }
    ensures mismatches { (kept_records S.Store records.old).mismatches
        ≤ (kept_records S.Store records.new).mismatches }
    ensures faults { IfErr result (λ error. IfFaulted error IsFaultOfNew) }
{
    if checks {
        return prepare_checked(alloc, records, moment, words);
    }
    Ok(prepare(alloc, records, moment, words)?)
}
