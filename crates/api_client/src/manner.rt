//! How a reply is printed.

use crate::argument::ShortText;

/// What of a reply is printed, and where.
#[derive(Drop)]
pub struct Manner<'a> {
    /// The body goes to standard output whatever the status is, also that of a refusal.
    pub plain: bool,
    /// The member that is printed alone.
    pub field: Option<ShortText<'a>>,
    /// Nothing is printed of a reply that is no refusal, but for the member.
    pub silent: bool,
    /// The exit status tells an unreached server, a 403 and a 404 from the rest.
    pub exit_codes: bool,
}
