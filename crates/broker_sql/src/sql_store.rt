//! A store in a database.

ghost use Rattle.std.specs.Prelude.{◌≡◌, ◌≢◌, ◌⊎◌, ◌≤◌, IsTrue, IfOk, IfErr, OnOk, OnErr, Err, None, false};
ghost use Rattle.std.specs.Prelude.{is_some};
ghost use Rattle.std.specs.FinMap as map;
ghost use Rattle.sqlite.specs.Files.{over_files};
ghost use Rattle.broker_types.specs.Answer.{HasRoom, response_of};
ghost use Rattle.broker_types.specs.Broker.{Broker};
ghost use Rattle.broker_types.specs.Fault.{IsMemoryOrStorage};
ghost use Rattle.broker_types.specs.First.{first_broker};
ghost use Rattle.broker_types.specs.Identifier.{id};
ghost use Rattle.broker_types.specs.Names.{token_word, accessor_word};
ghost use Rattle.broker_types.specs.TokenText.{token_text};
ghost use Rattle.records.specs.Kept.{IsHonestStore, IsReady};
ghost use Rattle.records.specs.Transaction.{is_storage};
ghost use Rattle.records_sql.specs.KeptRecords.{kept_records};
ghost use Rattle.broker_model.specs.ListedResponses.{IsListed};
ghost use Rattle.broker_model.specs.Step.{step};
ghost use Rattle.broker_rows.specs.ClockRow.{NeedsClock};
ghost use Rattle.broker_rows.specs.Representing.{Represents, Gives};
ghost use Rattle.broker_sql.specs.Atomic.{IsAtomic};
ghost use Rattle.broker_sql.specs.SqlKept.{sql_kept};

use crate::preparing::start_rows;
use broker::{Aids, Noticed, Store, handle_with};
use broker_types::{Answer, Ask, Fault, Moment, TokenText, Words};
use ram_disk::RamFile;
use records_sql::{Cause, SqlRecords};
use sqlite::{Alter, FileStore};
use std::alloc::Global;

/// A store in a database, generic in the storage of the library `sqlite`.
#[derive(Drop)]
pub struct SqlStore<S: Alter> {
    pub(crate) alloc: Global,
    pub(crate) records: SqlRecords<S>,
    pub(crate) aids: Option<Aids>,
}

impl SqlStore<FileStore<RamFile>> {
    /// A store in memory without rows, which `start` fills. The only error is `Storage`, if the database cannot be
    /// made.
    pub fn in_memory(alloc: Global) -> Result<SqlStore<FileStore<RamFile>>, Fault>
        ensures rows { IfOk result (λ store. (sql_kept over_files store).rows ≡ map.empty) }
        ensures ready { IfOk result (λ store. IsReady (sql_kept over_files store)) }
        ensures faults { IfErr result (λ fault. fault ≡ Fault.Storage) }
    {
        let records = SqlRecords::in_memory(alloc)?;
        Ok(SqlStore {
            alloc,
            records,
            aids: None,
        })
    }
}

impl<S: Alter> SqlStore<S> {
    /// The store of these records, whose rows it takes as they are: `prepare` makes them ready before.
    pub fn new(alloc: Global, records: SqlRecords<S>) -> SqlStore<S>
        ensures { sql_kept S.Store result ≡ kept_records S.Store records }
    {
        SqlStore {
            alloc,
            records,
            aids: None,
        }
    }

    /// Gives the records back.
    pub fn into_records(self) -> SqlRecords<S>
        ensures { kept_records S.Store result ≡ sql_kept S.Store self }
    {
        let SqlStore {
            alloc: _,
            records,
            aids: _,
        } = self;
        records
    }

    /// Why the last `one` failed; there is a cause exactly if it answered `Storage`.
    pub fn cause(&self) -> Option<Cause>
        ensures { is_some result ≡ (sql_kept S.Store self.now).has_failed }
    {
        self.records.cause()
    }

    /// Makes the first broker at a moment, with the root token (Vault's documentation, "Tokens") of word 1 and the
    /// accessor of word 2, and answers the root token. It fails with `BadStart` if the two words are equal or the store
    /// has rows, with `Memory` if memory runs out, and with `Storage` if the storage failed. After a fault the rows are
    /// as before, as long as the storage returned what was written and can still be asked; it can, unless the fault is
    /// `Storage`.
    pub fn start(&mut self, moment: Moment, words: &Words) -> Result<TokenText, Fault>
        ensures told { IsHonestStore (sql_kept S.Store self.new)
            → OnOk result (Represents None (sql_kept S.Store self.new).rows
            (first_broker moment (token_word words.now) (accessor_word words.now))) }
        ensures token { IfOk result (λ t. t ≡ token_text (id (token_word words.now))) }
        ensures empty { IsHonestStore (sql_kept S.Store self.new)
            → OnOk result ((sql_kept S.Store self.old).rows ≡ map.empty) }
        ensures differ { OnOk result (token_word words.now ≢ accessor_word words.now) }
        ensures bad_start { IsHonestStore (sql_kept S.Store self.new) → result ≡ Err Fault.BadStart
            → ((sql_kept S.Store self.old).rows ≢ map.empty)
            ⊎ (token_word words.now ≡ accessor_word words.now) }

        // Equal words are refused whatever the storage does; rows, once it has shown them (`empty`).
        ensures refused { token_word words.now ≡ accessor_word words.now → result ≡ Err Fault.BadStart }
        ensures faults { IfErr result (λ fault. IsMemoryOrStorage fault ⊎ (fault ≡ Fault.BadStart)) }
        ensures kept { IsHonestStore (sql_kept S.Store self.new) → IsTrue (sql_kept S.Store self.new).is_open
            → OnErr result ((sql_kept S.Store self.new).rows ≡ (sql_kept S.Store self.old).rows) }
        ensures mismatches { (sql_kept S.Store self.old).mismatches ≤ (sql_kept S.Store self.new).mismatches }
        ensures closes { IsTrue (sql_kept S.Store self.new).is_open → IsTrue (sql_kept S.Store self.old).is_open }
        ensures stays_open { IsHonestStore (sql_kept S.Store self.new) → is_storage result ≡ false
            → (sql_kept S.Store self.new).is_open ≡ (sql_kept S.Store self.old).is_open }
        ensures failed { result ≡ Err Fault.Storage → IsTrue (sql_kept S.Store self.new).has_failed }
    {
        let token_word = words.token();
        let accessor_word = words.accessor();
        if token_word == accessor_word {
            return Err(Fault::BadStart);
        }
        match self.write_start(moment, token_word, accessor_word) {
            Ok(token) => Ok(token),
            Err(Fault::Storage) => Err(Fault::Storage),
            Err(fault) => {
                self.records.ask()?;
                Err(fault)
            }
        }
    }

    /// Writes the rows of the first broker in a transaction of their own, unless there are rows.
    fn write_start(
        &mut self,
        moment: Moment,
        token_word: u128,
        accessor_word: u128,
    ) -> Result<TokenText, Fault>
        ensures told { IsHonestStore (sql_kept S.Store self.new)
            → OnOk result (Represents None (sql_kept S.Store self.new).rows
            (first_broker moment token_word accessor_word)) }
        ensures token { IfOk result (λ t. t ≡ token_text (id token_word)) }
        ensures empty { IsHonestStore (sql_kept S.Store self.new)
            → OnOk result ((sql_kept S.Store self.old).rows ≡ map.empty) }
        ensures bad_start { IsHonestStore (sql_kept S.Store self.new) → result ≡ Err Fault.BadStart
            → ((sql_kept S.Store self.old).rows ≢ map.empty) ⊎ (token_word ≡ accessor_word) }
        ensures faults { IfErr result (λ fault. IsMemoryOrStorage fault ⊎ (fault ≡ Fault.BadStart)) }
        ensures atomic { IsAtomic (sql_kept S.Store self.old) (sql_kept S.Store self.new) result }
    {
        let mut tx = self.records.begin()?;
        let token = start_rows(self.alloc, &mut tx, moment, token_word, accessor_word)?;
        tx.commit()?;
        Ok(token)
    }

    /// Answers one request in a transaction of its own.
    fn answer(&mut self, moment: Moment, words: &Words, ask: &Ask<'_>) -> Result<Answer, Fault>
        ensures told { IsHonestStore (sql_kept S.Store self.new) → (b : Broker)
            → Represents None (sql_kept S.Store self.old).rows b
            → IfOk result (λ a. Gives a (sql_kept S.Store self.new).rows (step b moment words.now ask.now)) }
        ensures room { IfOk result HasRoom }
        ensures clock { IsHonestStore (sql_kept S.Store self.new)
            → NeedsClock (sql_kept S.Store self.old).rows result }
        ensures listed { IfOk result (λ a. IsListed (response_of a)) }
        ensures wants { IsHonestStore (sql_kept S.Store self.new) → (b : Broker)
            → Represents None (sql_kept S.Store self.old).rows b → IfErr result IsMemoryOrStorage }
        ensures atomic { IsAtomic (sql_kept S.Store self.old) (sql_kept S.Store self.new) result }
    {
        let mut tx = self.records.begin()?;
        let aids = Aids::kept(&mut self.aids, self.alloc)?;
        let answer = handle_with(aids, self.alloc, &mut tx, moment, words, ask)?;
        tx.commit()?;
        Ok(answer)
    }
}

impl<S: Alter> Store for SqlStore<S> {
    ghost use Rattle.broker_sql.specs.SqlKept.{sql_kept};

    ghost seen = { sql_kept S.Store };

    fn one(&mut self, moment: Moment, words: &Words, ask: &Ask<'_>) -> Result<Answer, Fault> {
        match self.answer(moment, words, ask) {
            Ok(answered) => Ok(answered),
            Err(Fault::Storage) => Err(Fault::Storage),
            Err(fault) => {
                self.records.ask()?;
                Err(fault)
            }
        }
    }

    fn failed(&self) -> bool {
        self.records.failed()
    }

    fn noticed(&self) -> Noticed {
        Aids::noticed(&self.aids)
    }
}
