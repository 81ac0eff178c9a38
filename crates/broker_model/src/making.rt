//! The two routes that make tokens.

ghost use Rattle.std.specs.Prelude.{◌≡◌};
ghost use Rattle.broker_model.specs.parts.TokenCreation.{makes_orphans, making_path};

/// Which route makes a token (Vault's documentation, "Token auth method (API)", create token).
#[derive(Clone, Copy)]
pub enum Making {
    /// `auth/token/create`: a child of the caller, or a token without parent if the body asks for it.
    OfCaller,
    /// `auth/token/create-orphan`: a token without parent.
    WithoutParent,
}

impl Making {
    /// Whether the route makes tokens without parent alone.
    pub fn makes_orphans(self) -> bool
        ensures { result ≡ makes_orphans self }
    {
        match self {
            Making::OfCaller => false,
            Making::WithoutParent => true,
        }
    }

    /// The path of the route.
    pub fn path(self) -> &'static str
        ensures { result.now ≡ making_path self }
    {
        match self {
            Making::OfCaller => "auth/token/create",
            Making::WithoutParent => "auth/token/create-orphan",
        }
    }
}
