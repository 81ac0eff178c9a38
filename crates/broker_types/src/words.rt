//! The random numbers of an event, one for each identifier that its request may need.

ghost use Rattle.std.specs.Prelude.{◌≡◌};
ghost use Rattle.broker_types.specs.Names.{request_word, token_word, accessor_word, lease_word};
ghost use Rattle.broker_types.specs.Names.{credential_word, wrapping_token_word, wrapping_accessor_word};

/// The eight words of an event, 128 bits each, from which its identifiers are made. The last is for none.
#[derive(Clone, Copy, Debug, PartialEq, Eq)]
pub struct Words(pub [u128; 8]);

impl Words {
    /// The word of the request.
    pub fn request(&self) -> u128
        ensures { result ≡ request_word self.now }
    {
        self.0[0]
    }

    /// The word of a new token.
    pub fn token(&self) -> u128
        ensures { result ≡ token_word self.now }
    {
        self.0[1]
    }

    /// The word of a new token's accessor.
    pub fn accessor(&self) -> u128
        ensures { result ≡ accessor_word self.now }
    {
        self.0[2]
    }

    /// The word of a new lease.
    pub fn lease(&self) -> u128
        ensures { result ≡ lease_word self.now }
    {
        self.0[3]
    }

    /// The word of a new lease's credential.
    pub fn credential(&self) -> u128
        ensures { result ≡ credential_word self.now }
    {
        self.0[4]
    }

    /// The word of a new wrapping token.
    pub fn wrapping_token(&self) -> u128
        ensures { result ≡ wrapping_token_word self.now }
    {
        self.0[5]
    }

    /// The word of a new wrapping token's accessor.
    pub fn wrapping_accessor(&self) -> u128
        ensures { result ≡ wrapping_accessor_word self.now }
    {
        self.0[6]
    }
}
