//! What `/health` shows, and `/v1/sys/health`.

ghost use Rattle.std.specs.Prelude.{◌≡◌, ◌++◌, ◌∷◌, [], fold, IfOk};
ghost use Rattle.status.specs.Health.{health_text, later_members, state_text, storage_text, uptime};
ghost use Rattle.status.specs.Objects.{with_member};

use crate::figures::{Figures, State, Storage};
use crate::member::Member;
use crate::object::ObjectText;
use std::alloc::{AllocError, Global};

/// Whether the server serves, and since when, as a JSON object with the members that Vault documents. The only error is
/// running out of memory.
#[tactic(auto, unfolding(crate::specs::Health::health_text))]
pub fn health_text(alloc: Global, figures: &Figures<'_>) -> Result<Vec<u8>, AllocError>
    ensures { IfOk result (λ text. text.items ≡ health_text figures.entry.now) }
{
    let begun = ObjectText::new(alloc)?
        .text(Member::ClusterId, "00000000-0000-0000-0000-000000000000")?
        .text(Member::ClusterName, "dehluvima")?
        .number(Member::Connections, figures.connections)?
        .flag(Member::Initialized, true)?
        .number_or_null(Member::LastFault, figures.last_fault)?
        .flag(Member::PerformanceStandby, false)?
        .text(Member::ReplicationDrMode, "disabled")?
        .text(Member::ReplicationPerformanceMode, "disabled")?;
    let text = finished(begun, figures)?;
    Ok(text)
}

/// The object with the members that come after these.
#[tactic(auto, unfolding(crate::specs::Health::later_members))]
fn finished(begun: ObjectText, figures: &Figures<'_>) -> Result<Vec<u8>, AllocError>
    ensures { IfOk result (λ text. text.items
        ≡ fold with_member begun (later_members figures.entry.now) ++ 125 ∷ 10 ∷ []) }
{
    begun
        .flag(Member::Sealed, false)?
        .number(Member::ServerTimeUtc, figures.now.seconds())?
        .time(Member::Since, figures.started)?
        .flag(Member::Standby, false)?
        .text(Member::State, state_text(figures.state))?
        .text(Member::Store, storage_text(figures.storage))?
        .number(Member::Uptime, uptime(figures))?
        .text(Member::Version, figures.version)?
        .finish()
}

/// How many seconds there are between the start and the moment.
pub(crate) fn uptime(figures: &Figures<'_>) -> u64
    ensures { result ≡ uptime figures.entry.now }
{
    figures
        .now
        .seconds()
        .saturating_sub(figures.started.seconds())
}

pub(crate) fn state_text(state: State) -> &'static str
    ensures { result.now ≡ state_text state }
{
    match state {
        State::Opening => "opening",
        State::Serving => "serving",
        State::Stopping => "stopping",
    }
}

pub(crate) fn storage_text(storage: Storage) -> &'static str
    ensures { result.now ≡ storage_text storage }
{
    match storage {
        Storage::Memory => "memory",
        Storage::File => "file",
    }
}
