//! Lists as fields.

ghost use Rattle.std.specs.Prelude.{◌≡◌, ◌<◌, ◌^◌, ◌++◌, length, All, true, OnOk};
ghost use Rattle.records.specs.Spelling.{listed};
ghost use Rattle.records.specs.RowReaders.{IsListOf, shown};
ghost use Rattle.records.specs.Fields.{ReadsField};

use crate::field::{Form, Spell};
use crate::fields::read_count;
use crate::spell::push_count;
use broker_types::Fault;
use std::alloc::{AllocError, Global};

/// Writes items after their count of four bytes.
pub fn push_items<F: Spell>(body: &mut Vec<u8>, items: &[F::Value]) -> Result<(), AllocError>
    requires few { length items.now < 2 ^ 32 }
    requires fit { All F.fits items.now }
    ensures { OnOk result (body.new.items ≡ body.old.items ++ listed F.spell items.now) }
{
    push_count(body, items.len() as u32)?;
    for x in items {
        F::write(x, body)?;
    }
    Ok(())
}

/// Items after their count of four bytes, and the bytes after them.
pub fn read_items<'a, F: Form<'a, Global>>(
    alloc: Global,
    bytes: &'a [u8],
) -> Result<(Vec<F::Value>, &'a [u8]), Fault>
where
    F::Value: Drop,
    ensures { ReadsField true (IsListOf F.in_range) (listed F.spell) bytes.now
        (shown result (λ p. (p.0.items, p.1.now))) }
{
    let (count, mut left) = read_count(bytes)?;
    let mut list = Vec::new(alloc);
    let mut missing = count;
    while missing > 0 {
        let (x, rest) = F::read(alloc, left)?;
        list.push(x)?;
        left = rest;
        missing -= 1;
    }
    Ok((list, left))
}
