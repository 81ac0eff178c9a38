//! The members of a reply, before they are printed as JSON.

use crate::text::TextBuf;

/// A reply with an object (Vault's documentation, "HTTP API"): with status 200, or 404 for
/// a version that is deleted or destroyed. The members that are objects are compact JSON texts
/// (RFC 8259), and none prints as `null`.
#[derive(Drop)]
pub struct Reply {
    /// The token that was made or renewed.
    pub auth: Option<TextBuf>,
    /// What was asked for: the member `data`.
    pub payload: Option<TextBuf>,
    /// Seconds to the end of the lease; 0 without one.
    pub lease_duration: u64,
    /// Empty without a lease.
    pub lease_id: TextBuf,
    /// Whether the token or the lease can be renewed.
    pub renewable: bool,
    /// The identifier of the request.
    pub request_id: TextBuf,
    /// The wrapping token under which the reply itself is kept.
    pub wrap_info: Option<TextBuf>,
}
