//! Programs that serve: a broker in memory, or that of a file.

ghost use Rattle.std.specs.Prelude.{◌≡◌, IsTrue, IfErr, None};
ghost use Rattle.std.specs.FinMap as map;
ghost use Rattle.broker_types.specs.Broker.{Broker};
ghost use Rattle.records.specs.Kept.{IsHonestStore};
ghost use Rattle.records_sql.specs.KeptRecords.{kept_records};
ghost use Rattle.broker_rows.specs.Representing.{Represents};
ghost use Rattle.broker_sql.specs.SqlKept.{ReturnsWhatWasWritten};
ghost use Rattle.server.specs.Starting.{IsFaultOfNew};

use crate::files::{Reports, Serving, serve_from};
use crate::opening::tell_opening;
use crate::serve_error::ServeError;
use crate::telling::tell_why;
use broker_sql::{SqlStore, prepare};
use broker_types::{Fault, TokenText};
use hub::{Clock, ConnectionFault, WordSource};
use rand_chacha::ChaCha20Rng;
use records_sql::{Cause, Numbers, SqlRecords};
use server::{
    DrawnWords, Log, Settings, SystemClock, Watched, begin_log, begin_status, seeded, serve_store,
    shared, tell,
};
use sqlite::{Alter, Unknown};
use std::alloc::AllocError;
use std::fs::OpenOptions;
use std::io;
use std::os::unix::fs::OpenOptionsExt;
use std::rc::Rc;
use std::rt::HostRuntime;

/// What is said in place of the name of a file.
const MEMORY: &str = "the database in memory";

/// Starts a broker in memory, prints its root token on standard output, and serves it. It fails before it serves if
/// memory runs out, the words of the root token and its accessor are equal, the system has no randomness, the address
/// cannot be listened on or standard input not be waited for (a fault of reading), or the token cannot be printed (one
/// of writing); and at any time if the database in memory fails, which it does if memory runs out for it.
pub fn serve_in_memory(rt: &HostRuntime, settings: &Settings<'_>) -> Result<(), ConnectionFault>
    ensures { IfErr result IsFaultOfNew }
{
    let log = begin(rt, MEMORY, settings)?;
    let served = serve_new(rt, settings, &log);
    if let Err(fault) = &served {
        // In memory nothing else can fail.
        tell_why(rt, &log, MEMORY, *fault, Some(Cause::Memory));
    }
    served
}

/// Serves a broker in memory.
fn serve_new(
    rt: &HostRuntime,
    settings: &Settings<'_>,
    log: &Option<Rc<Log>>,
) -> Result<(), ConnectionFault>
    ensures { IfErr result IsFaultOfNew }
{
    let watched = begin_status(rt, settings, log, None)?;
    let its_log = shared(log)?;
    let Ok(records) = SqlRecords::in_memory(rt.alloc()) else {
        return Err(ConnectionFault::Broker(Fault::Storage));
    };
    start_and_serve(rt, records, settings, its_log, watched)
}

/// Starts a broker in records without a row, whose storage returns what was written, and serves it. It is generic in
/// the storage, since each call at the type of the one in memory takes the prover long.
fn start_and_serve<S: Alter + Drop>(
    rt: &HostRuntime,
    records: SqlRecords<S>,
    settings: &Settings<'_>,
    log: Option<Rc<Log>>,
    watched: Option<Watched>,
) -> Result<(), ConnectionFault>
    requires always { ReturnsWhatWasWritten S.Store }
    requires empty { (kept_records S.Store records).rows ≡ map.empty }
    ensures { IfErr result IsFaultOfNew }
{
    let mut records = records;
    let mut words = drawn(rt, &log)?;
    let moment = SystemClock::new(rt).now();
    let root = prepare(rt.alloc(), &mut records, moment, &words.words())?;
    serve_ready(rt, records, root, settings, log, words, watched)
}

/// Serves the broker that a file keeps, with its log beside it, or starts one in a file that is new, and prints its
/// root token on standard output. A file that is not there is made, for its owner alone; in one that is there, rows of
/// keys in format 1 are rewritten in format 2. That a large one is opened is said on standard error first. It fails as
/// `serve_in_memory` does; and with `Storage` if the file cannot be opened, or has another table than that of a broker,
/// with `BadStart` if it has rows and none of the clock, and with `Damaged` if a row cannot be read. If files are
/// checked, it fails with `Unsound` before it listens if the file has a broker that is not sound, and changes no row
/// of it then.
pub fn serve_file(rt: &HostRuntime, path: &str, settings: &Settings<'_>) -> Result<(), ServeError> {
    let log = begin(rt, path, settings)?;
    let reports = Reports::new(rt, settings.status.is_some());
    let served = match &reports {
        Ok(reports) => serve_named(rt, path, settings, &log, reports),
        Err(AllocError) => Err(ServeError::from(Fault::Memory)),
    };
    if let Err(ServeError::Faulted(fault)) = &served {
        let cause = match &reports {
            Ok(reports) => reports.causes.get(),
            Err(AllocError) => None,
        };
        tell_why(rt, &log, path, *fault, cause);
    }
    served
}

/// The log, if there is to be one. The only error is running out of memory, which is told.
fn begin(rt: &HostRuntime, name: &str, settings: &Settings<'_>) -> Result<Option<Rc<Log>>, Fault>
    ensures { IfErr result (λ fault. fault ≡ Fault.Memory) }
{
    let log = begin_log(rt, settings);
    if let Err(fault) = &log {
        tell_why(rt, &None, name, ConnectionFault::Broker(*fault), None);
    }
    log
}

/// Serves the broker of the file, of whose contents nothing is supposed.
fn serve_named(
    rt: &HostRuntime,
    path: &str,
    settings: &Settings<'_>,
    log: &Option<Rc<Log>>,
    reports: &Reports,
) -> Result<(), ServeError> {
    let watched = counted(begin_status(rt, settings, log, Some(path))?, reports)?;
    let its_log = shared(log)?;
    let mut words = drawn(rt, log)?;
    // If it is there, or cannot be made, opening it tells.
    let _ = make_private(rt, path);
    tell_opening(rt, path, log)?;
    let moment = SystemClock::new(rt).now();
    let first = words.words();
    let serving = OverSockets {
        rt,
        settings,
        log: its_log,
        words,
        watched,
    };
    serve_from(
        rt,
        path,
        Unknown,
        reports,
        settings.checks,
        moment,
        &first,
        serving,
    )
}

/// What serves the broker of a file.
#[derive(Drop)]
struct OverSockets<'s> {
    rt: &'s HostRuntime,
    settings: &'s Settings<'s>,
    log: Option<Rc<Log>>,
    words: DrawnWords<ChaCha20Rng>,
    watched: Option<Watched>,
}

impl<'s> Serving for OverSockets<'s> {
    ghost use Rattle.std.specs.Prelude.{IsTrue, None, ⊤};
    ghost use Rattle.broker_types.specs.Broker.{Broker};
    ghost use Rattle.broker_rows.specs.Representing.{Represents};

    ghost may = { λ s rows root. IsTrue s.settings.now.checks → (b : Broker) × Represents None rows b };

    ghost served = { λ _. ⊤ };

    fn serve<S: Alter + Drop>(
        self,
        records: SqlRecords<S>,
        root: Option<TokenText>,
    ) -> Result<(), ConnectionFault> {
        let OverSockets {
            rt,
            settings,
            log,
            words,
            watched,
        } = self;
        serve_ready(rt, records, root, settings, log, words, watched)
    }
}

/// What operators are told, with the commits that are counted.
fn counted(watched: Option<Watched>, reports: &Reports) -> Result<Option<Watched>, Fault>
    ensures { IfErr result (λ fault. fault ≡ Fault.Memory) }
{
    let Some(mut watched) = watched else {
        return Ok(None);
    };
    if let Some(commits) = &reports.commits {
        watched.count_commits(commits.times()?, commits.micros()?);
    }
    Ok(Some(watched))
}

/// Words that the system's randomness draws.
fn drawn(
    rt: &HostRuntime,
    log: &Option<Rc<Log>>,
) -> Result<DrawnWords<ChaCha20Rng>, ConnectionFault>
    ensures { IfErr result IsFaultOfNew }
{
    match seeded(rt) {
        Ok(words) => Ok(words),
        Err(_) => {
            tell(rt, log, Cause::Randomness);
            Err(ConnectionFault::Read)
        }
    }
}

/// Makes an empty file that its owner alone may read and write, if there is none.
fn make_private(rt: &HostRuntime, path: &str) -> io::Result<()> {
    OpenOptions::new()
        .write(true)
        .create_new(true)
        .mode(0o600)
        .open(rt, path)?;
    Ok(())
}

/// Serves the store of records whose rows were made ready. If files are checked, they are those of a sound broker:
/// whoever calls this has to know it.
fn serve_ready<S: Alter + Drop, D: WordSource + Drop>(
    rt: &HostRuntime,
    records: SqlRecords<S>,
    root: Option<TokenText>,
    settings: &Settings<'_>,
    log: Option<Rc<Log>>,
    words: D,
    watched: Option<Watched>,
) -> Result<(), ConnectionFault>
    requires sound { IsTrue settings.now.checks → IsHonestStore (kept_records S.Store records)
        → (b : Broker) × Represents None (kept_records S.Store records).rows b }
    ensures { ReturnsWhatWasWritten S.Store → IsTrue (kept_records S.Store records).is_open → (b : Broker)
        → Represents None (kept_records S.Store records).rows b → IfErr result IsFaultOfNew }
{
    let watched = told(watched, records.numbers());
    let store = SqlStore::new(rt.alloc(), records);
    serve_store(rt, store, root, settings, log, words, watched)
}

/// What operators are told, with the numbers of rows that were found.
fn told(watched: Option<Watched>, numbers: Numbers) -> Option<Watched> {
    let mut watched = watched?;
    watched.found(numbers.tokens, numbers.secrets, numbers.responses);
    Some(watched)
}
