//! The object of replies about leases (Vault's documentation, "/sys/leases").
ghost use Rattle.std.specs.Prelude.{◌≡◌, IfOk};
ghost use Rattle.api_json.specs.Objects.{lease_object};

use crate::end_time::EndTime;
use crate::name::Name;
use crate::printing::ObjectText;
use broker_types::{Moment, TextBuf};
use std::alloc::{AllocError, Global};

/// A lease that is looked up.
#[derive(Drop)]
pub struct LeaseObject {
    /// When it ends.
    pub ends: EndTime,
    /// Its id.
    pub id: TextBuf,
    /// When it was made.
    pub issued: Moment,
    /// When it was renewed last, if it was.
    pub renewed: Option<Moment>,
    /// Seconds to its end.
    pub ttl: u64,
}

/// Prints a lease that is looked up. The only error is running out of memory.
#[tactic(auto, unfolding(crate::specs::Objects::lease_object))]
pub fn lease_object(alloc: Global, lease: &LeaseObject) -> Result<TextBuf, AllocError>
    ensures { IfOk result (λ t. t ≡ lease_object lease.now) }
{
    ObjectText::new(alloc)?
        .end(Name::ExpireTime, lease.ends)?
        .text(Name::Id, lease.id.as_str())?
        .time(Name::IssueTime, lease.issued)?
        .time_or_null(Name::LastRenewal, lease.renewed)?
        .flag(Name::Renewable, true)?
        .number(Name::Ttl, lease.ttl)?
        .finish()
}
