//! The order of one request, step by step.

pub(crate) mod caller;
pub(crate) mod capability;
pub(crate) mod finishing;
pub(crate) mod opening;
pub(crate) mod operating;
pub(crate) mod permission;
pub(crate) mod serving;
pub(crate) mod wrap;
