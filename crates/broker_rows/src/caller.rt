//! Callers as operations see them: a token with its row, and with the rules of its policies.

ghost use Rattle.std.specs.Prelude.{◌≡◌};
ghost use Rattle.broker_rows.specs.Ending.{has_no_uses};

use policies::Rules;
use records::TokenRecord;
use std::marker::Model;

/// The caller of a request.
pub struct Caller<'r> {
    /// Its token.
    pub token: &'r str,
    /// What the row of its token says, once a use is spent.
    pub known: TokenRecord,
}

/// It is no derived one, which the prover would follow through the record at each way out.
impl Drop for Caller<'_> {
    fn drop(self) {
        let Caller {
            token: _token,
            known: _known,
        } = self;
    }
}

impl<'r> Model for Caller<'r> {
    ghost use Rattle.broker_rows.specs.Caller as spec;

    ghost Value = { spec.Caller };

    ghost view = { λ c. record { token = c.token.now; known = c.known } };
}

impl Caller<'_> {
    /// Whether this was its last use, so that it ends after its request (Vault's documentation, "Tokens", use limits).
    pub fn is_on_last_use(&self) -> bool
        ensures { result ≡ has_no_uses self.now.known }
    {
        match self.known.uses_left {
            None => false,
            Some(uses) => uses == 0,
        }
    }
}

/// Who asks: a caller that may, and what its policies say.
pub struct Asker<'r> {
    /// The caller.
    pub caller: Caller<'r>,
    /// What its policies say, as it was read when it was permitted to ask.
    pub rules: Rules,
}

impl Drop for Asker<'_> {
    fn drop(self) {
        let Asker {
            caller: _caller,
            rules: _rules,
        } = self;
    }
}

impl<'r> Model for Asker<'r> {
    ghost use Rattle.broker_rows.specs.Caller as spec;

    ghost Value = { spec.Asker };

    ghost view = { λ a. record { caller = a.caller; rules = a.rules } };
}
