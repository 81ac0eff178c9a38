//! What a request can mean, part by part, and what each operation asks for.

ghost use Rattle.std.specs.Prelude.{◌≡◌};
ghost use Rattle.mounts.specs.RouteTable.{facts};

use std::marker::Model;

/// One operation of one part.
#[derive(Clone, Copy, Debug, PartialEq, Eq)]
pub enum Operation {
    /// On the caller's cubbyhole.
    Cubbyholes(CubbyholeOperation),
    /// On tokens.
    Tokens(TokenOperation),
    /// On the secrets of a mount.
    Secrets(SecretOperation),
    /// On policies.
    Policies(PolicyOperation),
    /// On mounts.
    Mounts(MountOperation),
    /// On leases.
    Leases(LeaseOperation),
    /// On the roles and the credentials of a mount.
    Issued(IssuedOperation),
    /// On responses that wait.
    Wrappings(WrappingOperation),
}

/// What is done with a path of the caller's cubbyhole (Vault's documentation, "Cubbyhole secrets engine
/// (API)").
#[derive(Clone, Copy, Debug, PartialEq, Eq)]
pub enum CubbyholeOperation {
    /// Its object is read.
    Read,
    /// The objects and folders of the folder are listed.
    List,
    /// An object is put there.
    Write,
    /// Its object is removed.
    Delete,
}

/// What is done with tokens (Vault's documentation, "Token auth method (API)").
#[derive(Clone, Copy, Debug, PartialEq, Eq)]
pub enum TokenOperation {
    /// A child of the caller is made, or a token without parent if that is asked for.
    Create,
    /// A token without parent is made.
    CreateOrphan,
    /// A token is shown.
    LookUp,
    /// The caller is shown.
    LookUpSelf,
    /// The token of an accessor is shown, without its text.
    LookUpAccessor,
    /// A token gets a later end.
    Renew,
    /// The caller gets a later end.
    RenewSelf,
    /// A token ends, with all below it.
    Revoke,
    /// A token ends alone.
    RevokeOrphan,
    /// The caller ends, with all below it.
    RevokeSelf,
    /// The token of an accessor ends, with all below it.
    RevokeAccessor,
    /// The accessors of all tokens are listed.
    ListAccessors,
}

/// What is done with the secrets of a mount (Vault's documentation, "KV secrets engine - version 2 (API)").
#[derive(Clone, Copy, Debug, PartialEq, Eq)]
pub enum SecretOperation {
    /// The settings of the mount are shown.
    ShowSettings,
    /// Settings of the mount are set.
    SetSettings,
    /// A version of a secret is read.
    Read,
    /// A version of a secret is written.
    Write,
    /// The current version of a secret is deleted.
    DeleteCurrent,
    /// Versions of a secret are deleted.
    Delete,
    /// The deletion of versions of a secret is taken back.
    Undelete,
    /// Versions of a secret are destroyed.
    Destroy,
    /// A secret is shown without its texts.
    ShowMetadata,
    /// Settings of a secret are set.
    SetMetadata,
    /// A secret is removed with all its versions.
    Remove,
    /// The secrets and folders of a folder are listed.
    List,
}

/// What is done with policies (Vault's documentation, "/sys/policies").
#[derive(Clone, Copy, Debug, PartialEq, Eq)]
pub enum PolicyOperation {
    /// The names of all policies are listed.
    List,
    /// A policy is shown.
    Show,
    /// A policy is set, in place of the one of its name.
    Set,
    /// A policy is deleted.
    Remove,
}

/// What is done with mounts (Vault's documentation, "/sys/mounts").
#[derive(Clone, Copy, Debug, PartialEq, Eq)]
pub enum MountOperation {
    /// All mounts are listed.
    List,
    /// A mount is enabled.
    Enable,
    /// A mount is disabled, with all that is kept there.
    Disable,
}

/// What is done with leases (Vault's documentation, "/sys/leases").
#[derive(Clone, Copy, Debug, PartialEq, Eq)]
pub enum LeaseOperation {
    /// A lease is shown.
    LookUp,
    /// A lease gets another end.
    Renew,
    /// A lease ends.
    Revoke,
    /// The leases below a prefix end.
    RevokeUnder,
}

/// What is done with the roles and the credentials of a mount that issues them (this project's engine).
#[derive(Clone, Copy, Debug, PartialEq, Eq)]
pub enum IssuedOperation {
    /// A role is shown.
    ShowRole,
    /// A role is set, in place of the one of its name.
    SetRole,
    /// A role is removed.
    RemoveRole,
    /// A credential of a role is issued, with a lease.
    Issue,
    /// Whether the lease of a credential still stands.
    Verify,
}

/// What is done with responses that wait (Vault's documentation, "/sys/wrapping").
#[derive(Clone, Copy, Debug, PartialEq, Eq)]
pub enum WrappingOperation {
    /// An object is wrapped.
    Wrap,
    /// A response is shown without its text.
    LookUp,
    /// A response moves to a new wrapping token.
    Rewrap,
    /// A response is handed out.
    Unwrap,
}

// ---- what an operation asks for

/// What an operation asks for before the body of its request is read.
#[derive(Clone, Copy, Debug, PartialEq, Eq)]
pub struct Facts {
    /// Whether the caller needs the capability `sudo` too (Vault's documentation, "Policies", root-protected API
    /// endpoints).
    pub sudo: bool,
    /// Whether it needs no caller.
    pub opens: Opens,
    /// What it stores.
    pub stores: Stores,
}

/// Whether an operation needs no caller (Vault's documentation, "/sys/wrapping").
#[derive(Clone, Copy, Debug, PartialEq, Eq)]
pub enum Opens {
    /// It needs one.
    Never,
    /// It needs none.
    Always,
    /// It needs none if its body names no token but the client token.
    WithItsOwn,
}

/// What a write stores, so that it asks for `create` where nothing is there (Vault's documentation, "Policies",
/// capabilities).
#[derive(Clone, Copy, Debug, PartialEq, Eq)]
pub enum Stores {
    /// Neither of the others. Such a write asks for `update`, also where it makes something, as a token or a policy.
    Nothing,
    /// An object at a path of the caller's cubbyhole.
    Object,
    /// A secret of a mount at a path.
    Secret,
}

/// What most operations ask for.
const PLAIN: Facts = Facts {
    sudo: false,
    opens: Opens::Never,
    stores: Stores::Nothing,
};

impl Operation {
    /// What it asks for before the body of its request is read.
    pub fn facts(self) -> Facts
        ensures { result ≡ facts self }
    {
        match self {
            Operation::Cubbyholes(CubbyholeOperation::Write) => Facts {
                stores: Stores::Object,
                ..PLAIN
            },
            Operation::Secrets(SecretOperation::Write) => Facts {
                stores: Stores::Secret,
                ..PLAIN
            },
            Operation::Tokens(TokenOperation::RevokeOrphan | TokenOperation::ListAccessors)
            | Operation::Leases(LeaseOperation::RevokeUnder) => Facts {
                sudo: true,
                ..PLAIN
            },
            Operation::Wrappings(WrappingOperation::LookUp) => Facts {
                opens: Opens::Always,
                ..PLAIN
            },
            Operation::Wrappings(WrappingOperation::Rewrap | WrappingOperation::Unwrap) => Facts {
                opens: Opens::WithItsOwn,
                ..PLAIN
            },
            _ => PLAIN,
        }
    }
}

// ---- routes

/// Where a request goes.
#[derive(Debug, Drop)]
pub struct Route<'p> {
    /// What is done.
    pub operation: Operation,
    /// The name of the mount.
    pub mount: &'p str,
    /// The name or the path that stands for the pattern's parameter; empty if it has none.
    pub parameter: &'p str,
}

impl<'p> Model for Route<'p> {
    ghost use Rattle.mounts.specs.Route as spec;

    ghost Value = { spec.Route };

    ghost view = { λ r. record { operation = r.operation; mount = r.mount.now; parameter = r.parameter.now } };
}
