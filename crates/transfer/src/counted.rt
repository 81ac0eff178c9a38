//! How many rows a transaction has.

ghost use Rattle.std.specs.Prelude.{◌≡◌, ◌+◌, length, IfOk};
ghost use Rattle.broker_types.specs.Fault.{IsMemoryOrStorage};
ghost use Rattle.broker_types.specs.Words.{entries};
ghost use Rattle.records.specs.Calls.{IsReading};
ghost use Rattle.records.specs.Transaction.{IsHonest};

use crate::walk::{Visit, walk};
use broker_types::Fault;
use records::{Entry, RecordsTx};
use std::alloc::{AllocError, Global};

/// How many rows were visited.
#[derive(Drop)]
struct Counted {
    count: u64,
}

impl Visit for Counted {
    ghost use Rattle.std.specs.Prelude.{◌≡◌, length};
    ghost use Rattle.transfer.specs.Counting.{count_of};

    ghost visited = { λ first now rows. count_of now ≡ length rows };

    /// Counts rows. It fails after 18,446,744,073,709,551,615 of them, for which no memory has room.
    fn visit(&mut self, _alloc: Global, page: &[Entry]) -> Result<bool, AllocError> {
        match self.count.checked_add(page.len() as u64) {
            Some(count) => {
                self.count = count;
                Ok(true)
            }
            None => Err(AllocError),
        }
    }
}

/// How many rows a transaction has.
pub(crate) fn count<T: RecordsTx>(alloc: Global, tx: &mut T) -> Result<u64, Fault>
    ensures counted { IsHonest (T.seen tx.new) → IfOk result (λ n. n ≡ length (entries (T.seen tx.old).rows)) }
    ensures call { IsReading (T.seen tx.old) (T.seen tx.new) result IsMemoryOrStorage }
{
    let mut counted = Counted { count: 0 };
    if walk(alloc, tx, &mut counted)? {
        Ok(counted.count)
    } else {
        Err(Fault::Memory)
    }
}
