//! A database in memory, and what is done over it.

use broker_sql::SqlStore;
use broker_types::Fault;
use sqlite::Alter;
use std::alloc::Global;

/// What is done over a store without rows, whatever its storage is.
pub(crate) trait OverSql {
    /// What comes of it.
    type Came;

    /// Does it. It fails as the store does.
    fn run<S: Alter + Drop>(
        &mut self,
        alloc: Global,
        store: SqlStore<S>,
    ) -> Result<Self::Came, Fault>;
}

/// Does it over a store in memory. It fails with `Storage` if there can be none. This function alone has a store at the
/// type of its storage: each that calls what is generic at this type takes the prover some 20 seconds.
pub(crate) fn in_memory<T: OverSql>(alloc: Global, task: &mut T) -> Result<T::Came, Fault> {
    task.run(alloc, SqlStore::in_memory(alloc)?)
}
