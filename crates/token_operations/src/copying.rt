//! Copies of what the rows of tokens say.

ghost use Rattle.std.specs.Prelude.{◌≡◌, IfOk};

use crate::new_policies::copy_each;
use crate::new_token::copied_pairs;
use broker_types::TextBuf;
use records::TokenRecord;
use std::alloc::{AllocError, Global};

/// A copy of what the row of a token says.
pub(crate) fn copied_token(alloc: Global, token: &TokenRecord) -> Result<TokenRecord, AllocError>
    ensures { IfOk result (λ copy. copy ≡ token.now) }
{
    let parent = token.parent.as_ref().map(|parent| parent.as_str());
    let parent = TextBuf::copied_if_some(alloc, parent)?;
    let accessor = TextBuf::copied(alloc, token.accessor.as_str())?;
    let mut policies = Vec::new(alloc);
    copy_each(alloc, &mut policies, &token.policies)?;
    let meta = copied_pairs(alloc, &token.meta)?;
    Ok(TokenRecord {
        parent,
        accessor,
        policies,
        issued: token.issued,
        ends: token.ends,
        ttl: token.ttl,
        explicit_max_ttl: token.explicit_max_ttl,
        period: token.period,
        uses_left: token.uses_left,
        meta,
    })
}
