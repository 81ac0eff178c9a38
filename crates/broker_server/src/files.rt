//! The rows of a file, made ready to be served.

ghost use Rattle.std.specs.Prelude.{◌≡◌, ◌≤◌, IsTrue, IfOk, IfErr, OnOk, OnErr, Option};
ghost use Rattle.sqlite.specs.Files.{over_files};
ghost use Rattle.sqlite.specs.WalFiles.{image_at};
ghost use Rattle.broker_types.specs.Text.{Text};
ghost use Rattle.records.specs.Kept.{IsHonestStore};
ghost use Rattle.records.specs.Transaction.{Rows};
ghost use Rattle.records_sql.specs.Adopted.{IsKeptIn};
ghost use Rattle.records_sql.specs.KeptRecords.{kept_records};
ghost use Rattle.broker_server.specs.Ready.{AreReadyOf, AreRefusedFor, IsReady, IsRefusedFor};
ghost use Rattle.broker_server.specs.Starting.{IfRefused};

use crate::preparing::make_ready;
use crate::serve_error::ServeError;
use broker_types::{Fault, Moment, TokenText, Words};
use hub::ConnectionFault;
use records_sql::{Commits, LastCause, SqlRecords};
use sqlite::{Alter, FileFrom, FileStore, Start};
use std::alloc::{AllocError, Global};
use std::rt::HostRuntime;

/// Where records tell of themselves while they are used.
#[derive(Drop)]
pub struct Reports {
    /// Why they failed last.
    pub causes: LastCause,
    /// How often they committed something, if that is counted.
    pub commits: Option<Commits>,
}

impl Reports {
    /// Nothing was told so far. The only error is running out of memory.
    pub fn new(rt: &HostRuntime, counts: bool) -> Result<Reports, AllocError> {
        let causes = LastCause::new(rt.alloc())?;
        let commits = if counts {
            Some(Commits::new(rt)?)
        } else {
            None
        };
        Ok(Reports { causes, commits })
    }
}

/// Opens a file and its log, which is beside it, as `SqlRecords::open_from` does, and makes their rows ready: with
/// checks those of a sound broker alone, whoever wrote the file. It answers the records, and the root token of a broker
/// that was started there, or why they are not ready; then the files keep what they kept, as long as they returned what
/// was written and can still be read. `S` stands for what they hold. The only fault is `Storage`, where they cannot be
/// opened.
pub fn open_ready<S: Start>(
    rt: &HostRuntime,
    path: &str,
    start: S,
    reports: &Reports,
    checks: bool,
    moment: Moment,
    words: &Words,
) -> Result<
    (
        SqlRecords<FileStore<FileFrom<S>>>,
        Result<Option<TokenText>, ServeError>,
    ),
    Fault,
>
    ensures ready { IfOk result (λ opened. IsHonestStore (kept_records over_files opened.0)
        → IfOk opened.1 (AreReadyOf (image_at S.Start) checks moment words.now
        (kept_records over_files opened.0).rows)) }
    ensures refused { IfOk result (λ opened. IsHonestStore (kept_records over_files opened.0)
        → IfErr opened.1 (λ error. IfRefused error (AreRefusedFor (image_at S.Start) checks))) }
    ensures kept { IfOk result (λ opened. IsHonestStore (kept_records over_files opened.0)
        → IsTrue (kept_records over_files opened.0).is_open
        → OnErr opened.1 (IsKeptIn (image_at S.Start) (kept_records over_files opened.0).rows)) }
    ensures faults { IfErr result (λ fault. fault ≡ Fault.Storage) }
{
    match SqlRecords::open_from(rt, path, start) {
        Ok(records) => Ok(make_opened_ready(rt.alloc(), records, reports, checks, moment, words)),
        Err(cause) => {
            reports.causes.tell(cause);
            Err(Fault::Storage)
        }
    }
}

/// What serves the broker of records.
pub trait Serving {
    /// What it may suppose of the rows, and of the root token of a new broker.
    ghost may: { Self → Rows → Option Text → Type 0 };

    /// What is known once it has served.
    ghost served: { Self → Type 0 };

    /// Serves the broker of the records, up to its end or a fault.
    fn serve<S: Alter + Drop>(
        self,
        records: SqlRecords<S>,
        root: Option<TokenText>,
    ) -> Result<(), ConnectionFault>
        requires { IsHonestStore (kept_records S.Store records)
            → may self (kept_records S.Store records).rows root }
        ensures { OnOk result (served self) };
}

/// Opens a file and its log, and makes their rows ready, as `open_ready` does; and then has their broker served.
/// Nothing is served but what is ready: it is all that is required of what may be supposed. It fails as `open_ready`
/// does, and as the serving; or the rows are refused.
pub fn serve_from<S: Start, V: Serving + Drop>(
    rt: &HostRuntime,
    path: &str,
    start: S,
    reports: &Reports,
    checks: bool,
    moment: Moment,
    words: &Words,
    serving: V,
) -> Result<(), ServeError>
    requires { (rows : Rows) (root : Option Text)
        → AreReadyOf (image_at S.Start) checks moment words.now rows root → V.may serving rows root }
    ensures { OnOk result (V.served serving) }
{
    let (records, ready) = open_ready(rt, path, start, reports, checks, moment, words)?;
    serve_if_ready(records, ready, serving)
}

/// Has the broker of records served, if they are ready.
fn serve_if_ready<S: Alter + Drop, V: Serving + Drop>(
    records: SqlRecords<S>,
    ready: Result<Option<TokenText>, ServeError>,
    serving: V,
) -> Result<(), ServeError>
    requires { IsHonestStore (kept_records S.Store records)
        → IfOk ready (V.may serving (kept_records S.Store records).rows) }
    ensures { OnOk result (V.served serving) }
{
    match ready {
        Ok(root) => Ok(serving.serve(records, root)?),
        Err(error) => Err(error),
    }
}

/// The records, made ready, and what came of that. It is generic in the storage, since each call at the type of one
/// over files takes the prover long.
fn make_opened_ready<S: Alter + Drop>(
    alloc: Global,
    records: SqlRecords<S>,
    reports: &Reports,
    checks: bool,
    moment: Moment,
    words: &Words,
) -> (SqlRecords<S>, Result<Option<TokenText>, ServeError>)
    ensures ready { IsHonestStore (kept_records S.Store result.0) → IfOk result.1 (IsReady checks moment words.now
        (kept_records S.Store records).rows (kept_records S.Store result.0).rows) }
    ensures refused { IsHonestStore (kept_records S.Store result.0)
        → IfErr result.1 (λ error. IfRefused error (IsRefusedFor checks (kept_records S.Store records).rows)) }
    ensures kept { IsHonestStore (kept_records S.Store result.0) → IsTrue (kept_records S.Store result.0).is_open
        → OnErr result.1 ((kept_records S.Store result.0).rows ≡ (kept_records S.Store records).rows) }
    ensures mismatches { (kept_records S.Store records).mismatches ≤ (kept_records S.Store result.0).mismatches }
{
    let mut records = records;
    records.tell_to(&reports.causes);
    if let Some(commits) = &reports.commits {
        records.count_in(commits);
    }
    let ready = make_ready(alloc, &mut records, checks, moment, words);
    (records, ready)
}
