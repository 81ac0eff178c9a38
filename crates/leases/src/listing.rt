//! The leases that end, listed with their rows.

ghost use Rattle.std.specs.Prelude.{IfOk};
ghost use Rattle.broker_types.specs.Fault.{IsMemoryOrStorage};
ghost use Rattle.records.specs.Calls.{IsReading};
ghost use Rattle.records.specs.Table.{table};
ghost use Rattle.records.specs.Transaction.{IsHonest};
ghost use Rattle.leases.specs.Endings.{ids_under, is_owned};
ghost use Rattle.leases.specs.Removed.{leases_among, AreThoseThatEnd};

use crate::keys::folder;
use broker_types::Fault;
use records::{Entry, Kind, RecordsTx};
use std::alloc::Global;

/// The leases whose ids begin with a prefix and a slash.
pub(crate) fn leases_under<T: RecordsTx>(
    alloc: Global,
    tx: &mut T,
    prefix: &str,
) -> Result<Vec<Entry>, Fault>
    ensures entries { IsHonest (T.seen tx.new) → IfOk result
        (λ list. AreThoseThatEnd (ids_under prefix.now) (table (T.seen tx.old)) (leases_among list.items)) }
    ensures call { IsReading (T.seen tx.old) (T.seen tx.new) result IsMemoryOrStorage }
{
    let key = folder(alloc, prefix)?;
    tx.under(Kind::Lease, key.as_str())
}

/// The leases of a token.
pub(crate) fn leases_of<T: RecordsTx>(tx: &mut T, token: &str) -> Result<Vec<Entry>, Fault>
    ensures entries { IsHonest (T.seen tx.new) → IfOk result
        (λ list. AreThoseThatEnd (is_owned token.now) (table (T.seen tx.old)) (leases_among list.items)) }
    ensures call { IsReading (T.seen tx.old) (T.seen tx.new) result IsMemoryOrStorage }
{
    tx.by_owner(Kind::Lease, token)
}
