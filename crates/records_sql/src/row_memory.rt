//! What is remembered of rows.

ghost use Rattle.std.specs.Prelude.{◌≡◌, ◌≤◌, ℕ, [], IfSome, option_map};
ghost use Rattle.std.specs.FinMap as map;
ghost use Rattle.records.specs.DueRows.{AreDue};
ghost use Rattle.records.specs.Transaction.{Rows};
ghost use Rattle.records_sql.specs.Memory.{Agrees, AreBounded, AreFound, AreOthers, entries_of, IsFound, IsSmall};
ghost use Rattle.records_sql.specs.Memory.{nothing};

use crate::remembered::Remembered;
use broker_types::Moment;
use lru::LruCache;
use records::{Due, Entry, Kind, Row};
use std::alloc::Global;
use std::marker::Model;
use std::num::NonZeroUsize;

/// How many rows are remembered at most.
const PLACES: usize = 1024;

/// Rows by their keys.
type Cache = LruCache<String, Remembered>;

/// Rows that were read, or that there was none, by their keys: at most 1,024, each with its key of at most 4,096 bytes;
/// a further one takes the place of the one that was remembered first. Of two kinds with one key the later is
/// remembered. Also a moment before which no row is due. No row with a value that a client stored is remembered; those
/// of tokens are, each under its token.
#[derive(Drop)]
pub struct RowMemory {
    alloc: Global,
    /// None before the first.
    rows: Option<Cache>,
    calm_until: u64,
}

impl Model for RowMemory {
    ghost use Rattle.records_sql.specs.Memory.{AreBounded, Memory, entries_of};

    ghost Value = { Memory };

    ghost view = { λ m. record { entries = entries_of m.rows; calm_until = m.calm_until } };

    ghost invariant = { λ m. AreBounded m.rows };
}

impl RowMemory {
    /// A memory of nothing, which takes none.
    pub fn new(alloc: Global) -> RowMemory
        ensures empty { result ≡ nothing }
        ensures agrees { (rows : Rows) → Agrees result rows }
    {
        RowMemory {
            alloc,
            rows: None,
            calm_until: 0,
        }
    }

    /// Forgets everything.
    pub fn clear(&mut self)
        ensures { (rows : Rows) → Agrees self.new rows }
    {
        self.rows = None;
        self.calm_until = 0;
    }

    /// A copy of the row at a kind and key, or that there is none, if that is remembered and memory suffices.
    pub fn recalled(&self, kind: Kind, key: &str) -> Option<Option<Row>>
        ensures { IfSome result (λ row. (rows : Rows) → Agrees self.now rows
            → row ≡ map.get rows (kind, key.now)) }
    {
        let remembered = self.rows.as_ref()?.peek(key)?;
        if !remembered.is_of(kind) {
            return None;
        }
        match remembered.row() {
            None => Some(None),
            Some(row) => Some(Some(row.copied(self.alloc).ok()?)),
        }
    }

    /// Remembers the row at a kind and key, or that there is none, unless it is of another kind or too long, or
    /// memory is refused.
    pub fn keep(&mut self, kind: Kind, key: &str, row: Option<&Row>)
        ensures { (rows : Rows) → Agrees self.old rows
            → option_map (λ r. r.now) row.entry ≡ map.get rows (kind, key.now) → Agrees self.new rows }
    {
        let Some(remembered) = Remembered::copied(self.alloc, kind, key, row) else {
            return;
        };
        let Ok(key) = String::from_str(self.alloc, key) else {
            return;
        };
        self.rows = with_row(self.alloc, self.rows.take(), key, remembered);
    }

    /// Forgets the row at a kind and key, which is removed.
    pub fn forget(&mut self, kind: Kind, key: &str)
        ensures { (rows : Rows) → Agrees self.old rows
            → Agrees self.new (map.remove rows (kind, key.now)) }
    {
        self.drop_key(key);
    }

    /// Remembers the row that is put at a kind and key, in place of the one that was there.
    pub fn replace(&mut self, kind: Kind, key: &str, row: &Row)
        ensures { (rows : Rows) → Agrees self.old rows
            → Agrees self.new (map.insert rows (kind, key.now) row.now) }
    {
        self.drop_key(key);
        self.calm_until = sooner(self.calm_until, row.due);
        self.keep(kind, key, Some(row));
    }

    /// Forgets what is remembered at a key.
    fn drop_key(&mut self, key: &str)
        ensures others { AreOthers key.now self.old.entries self.new.entries }
        ensures calm { self.new.calm_until ≡ self.old.calm_until }
    {
        self.rows = without_key(self.rows.take(), key);
    }

    /// The rows that are due at or before the moment, if it is known that there is none.
    pub fn none_due(&self, moment: Moment) -> Option<Vec<Entry>>
        ensures { IfSome result (λ list. (rows : Rows) → Agrees self.now rows → AreDue rows moment list.items) }
    {
        if moment.seconds() < self.calm_until {
            return Some(Vec::new(self.alloc));
        }
        None
    }

    /// Remembers that no row is due at or before the moment, if the list of those that are due has none.
    pub fn keep_due(&mut self, moment: Moment, due: &[Entry])
        ensures { (rows : Rows) → Agrees self.old rows → AreDue rows moment due.now → Agrees self.new rows }
    {
        if due.is_empty() {
            self.calm_until = moment.seconds() + 1;
        }
    }
}

/// Places for rows; none if memory is refused.
fn places(alloc: Global) -> Option<Cache>
    ensures empty { entries_of result ≡ [] }
    ensures bounded { AreBounded result }
{
    LruCache::sparse(alloc, NonZeroUsize::new(PLACES)?).ok()
}

/// The cache, which is made if there is none, with a row at a key in place of what it had there. It is as before if
/// memory is refused.
fn with_row(
    alloc: Global,
    cache: Option<Cache>,
    key: String,
    remembered: Remembered,
) -> Option<Cache>
    requires bounded { AreBounded cache }
    requires small { IsSmall (key, remembered) }
    ensures found { (rows : Rows) → AreFound (entries_of cache) rows → IsFound rows (key, remembered)
        → AreFound (entries_of result) rows }
    ensures bounded { AreBounded result }
{
    let mut cache = match cache {
        Some(cache) => cache,
        None => places(alloc)?,
    };
    drop(cache.put(key, remembered));
    Some(cache)
}

/// The cache without what it had at a key.
fn without_key(cache: Option<Cache>, key: &str) -> Option<Cache>
    requires bounded { AreBounded cache }
    ensures others { AreOthers key.now (entries_of cache) (entries_of result) }
    ensures bounded { AreBounded result }
{
    let mut cache = cache?;
    // A length says that no key is there twice.
    let _ = cache.len();
    drop(cache.pop(key));
    Some(cache)
}

/// A moment that is no later than another, nor than when something is due.
fn sooner(moment: u64, due: Option<Due>) -> u64
    ensures before { result ≤ moment }
    ensures due { (d : ℕ) → due ≡ Some d → result ≤ d }
{
    match due {
        None => moment,
        Some(due) => moment.min(due.seconds()),
    }
}
