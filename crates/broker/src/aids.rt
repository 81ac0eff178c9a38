//! What a store keeps between requests, beside its rows.

ghost use Rattle.std.specs.Prelude.{◌≡◌, IfErr, IfSome};

use crate::noticed::Noticed;
use broker_types::{Fault, Moment};
use mounts::Routers;
use policies::PolicyMemory;
use std::alloc::Global;

/// What is made once and asked at each request: the routers of the table of routes, and the policies that were read.
/// None of it is a row, so a store without it answers the same. Beside it is what was noticed of the last request.
pub struct Aids {
    pub(crate) routers: Routers,
    pub(crate) policies: PolicyMemory,
    pub(crate) noticed: Noticed,
}

/// It is no derived one, which the prover would follow field by field at each way out of a function that owns a store.
impl Drop for Aids {
    fn drop(self) {
        let Aids {
            routers: _routers,
            policies: _policies,
            noticed: _noticed,
        } = self;
    }
}

impl Aids {
    ghost use Rattle.std.specs.Prelude.{None, Some};
    ghost use Rattle.broker.specs.Noticing.{noticed_by};

    /// The routers, and a memory of no policy. The only error is running out of memory.
    pub fn new(alloc: Global) -> Result<Aids, Fault>
        ensures { IfErr result (λ fault. fault ≡ Fault.Memory) }
    {
        Ok(Aids {
            routers: Routers::new(alloc)?,
            policies: PolicyMemory::new(alloc),
            noticed: Noticed::nothing(),
        })
    }

    /// Those that are kept, made now if there are none. The only error is running out of memory.
    pub fn kept(aids: &mut Option<Aids>, alloc: Global) -> Result<&mut Aids, Fault>
        ensures { IfErr result (λ fault. fault ≡ Fault.Memory) }
    {
        if aids.is_none() {
            *aids = Some(Aids::new(alloc)?);
        }
        match aids {
            Some(aids) => Ok(aids),
            None => unreachable!(),
        }
    }

    /// What was noticed of the last request; nothing if nothing is kept.
    pub fn noticed(aids: &Option<Aids>) -> Noticed
        ensures { IfSome aids.now (λ kept. result ≡ noticed_by kept) }
    {
        match aids {
            Some(aids) => aids.noticed,
            None => Noticed::nothing(),
        }
    }

    /// A request begins, at this time of the broker's clock.
    pub(crate) fn begin(&mut self, clock: Moment)
        ensures { noticed_by self.new ≡ record { accessor = None; clock = Some clock } }
    {
        self.noticed = Noticed {
            accessor: None,
            clock: Some(clock),
        };
    }

    /// It is that of the token with this accessor. One that is no identifier is not noted.
    pub(crate) fn note(&mut self, accessor: &str)
        ensures accessor { IfSome (noticed_by self.new).accessor (λ a. a ≡ accessor.now) }
        ensures clock { (noticed_by self.new).clock ≡ (noticed_by self.old).clock }
    {
        self.noticed.accessor = identifier(accessor);
    }
}

/// The text, if it is as long as an identifier.
fn identifier(text: &str) -> Option<[u8; 36]>
    ensures { IfSome result (λ id. id ≡ text.now) }
{
    let bytes = text.as_bytes();
    if bytes.len() != 36 {
        return None;
    }
    let mut id = [0u8; 36];
    id.copy_from_slice(bytes);
    Some(id)
}
