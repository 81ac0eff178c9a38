//! Which operation a verb and a path mean, and the mounts, as rows.
#![tactic(auto, unfolding(broker_types::specs::Text::same))]

mod laws;
mod listing;
mod mount_type;
mod mounting;
mod naming;
mod operation;
mod pattern;
mod router;
mod routing;
mod table;

pub use laws::{
    edits_evolve, edits_keep_soundness, mounts_are_told, patterns_are_found_by_form,
    rows_are_routes, tables_are_in_order,
};
pub use listing::{NamedMount, list};
pub use mount_type::MountType;
pub use mounting::{disable, enable};
pub use operation::{
    CubbyholeOperation, Facts, IssuedOperation, LeaseOperation, MountOperation, Opens, Operation,
    PolicyOperation, Route, SecretOperation, Stores, TokenOperation, WrappingOperation,
};
pub use router::Routers;
pub use routing::{asks_sudo, operation_at, route};
