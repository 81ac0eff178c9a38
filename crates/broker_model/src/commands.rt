//! What requests ask for, once their bodies are read: the commands, part by part. Where a command acts, as a path,
//! stands beside it.

ghost use Rattle.std.specs.Prelude.{◌≡◌};
ghost use Rattle.broker_model.specs.parts.Issued.{issued_needs};
ghost use Rattle.broker_model.specs.parts.TokenCommands.{token_needs};
ghost use Rattle.broker_model.specs.parts.WrappingCommands.{is_wrap, wrapping_needs};

use crate::making::Making;
use api_json::{
    Counts, KeySettings, LeaseRenewal, MountCreation, MountSettings, RoleSettings, SecretWrite,
    TokenCreation, TokenRenewal,
};
use broker_types::{Seconds, TextBuf};

/// Which identifiers an operation needs, which have to be new.
#[derive(Clone, Copy)]
pub enum Needs {
    /// None.
    Nothing,
    /// Those of a token and of its accessor.
    Token,
    /// That of a lease, and its credential.
    Lease,
    /// Those of a wrapping token and of its accessor.
    WrappingToken,
}

/// What an operation does with the caller's cubbyhole, at a path (Vault's documentation, "Cubbyhole secrets engine
/// (API)").
#[derive(Drop)]
pub enum CubbyholeCommand {
    /// Shows the object.
    Read,
    /// Lists the objects and folders of the folder.
    List,
    /// Keeps an object: its compact text, or nothing where it has no members.
    Write(Option<TextBuf>),
    /// Removes the object.
    Delete,
}

/// What an operation does with tokens (Vault's documentation, "Token auth method (API)").
#[derive(Drop)]
pub enum TokenCommand {
    /// Makes a token, by one of the two routes that do.
    Create(Making, TokenCreation),
    /// Shows a token.
    LookUp(TextBuf),
    /// Shows the token of an accessor, without its text.
    LookUpAccessor(TextBuf),
    /// Shows the caller's token.
    LookUpSelf,
    /// Gives a token a new end.
    Renew(TokenRenewal),
    /// Gives the caller's token a new end, for so long, or for the time that it was made for if that is 0.
    RenewSelf(Seconds),
    /// Ends a token with all below it.
    Revoke(TextBuf),
    /// Ends a token alone.
    RevokeOrphan(TextBuf),
    /// Ends the token of an accessor with all below it.
    RevokeAccessor(TextBuf),
    /// Ends the caller's token with all below it.
    RevokeSelf,
    /// Lists the accessors of all tokens.
    ListAccessors,
}

/// What an operation does with versioned secrets, at a place (Vault's documentation, "KV secrets engine - version 2
/// (API)").
#[derive(Drop)]
pub enum SecretCommand {
    /// Shows the settings of the mount.
    ShowSettings,
    /// Changes the settings of the mount.
    SetSettings(MountSettings),
    /// Shows a version; 0 is the current one.
    Read(u64),
    /// Writes one more version.
    Write(SecretWrite),
    /// Deletes the current version.
    DeleteCurrent,
    /// Deletes versions.
    Delete(Counts),
    /// Takes back the deletion of versions.
    Undelete(Counts),
    /// Destroys versions.
    Destroy(Counts),
    /// Shows the secret without its texts.
    ShowMetadata,
    /// Changes the settings of the secret.
    SetMetadata(KeySettings),
    /// Removes the secret with all its versions.
    Remove,
    /// Lists the secrets and folders of the folder.
    List,
}

/// What an operation does with policies, at a name (Vault's documentation, "/sys/policies").
#[derive(Drop)]
pub enum PolicyCommand {
    /// Lists the names of all policies, whatever the name is.
    List,
    /// Shows a policy with its text.
    Show,
    /// Sets a policy to a text.
    Set(TextBuf),
    /// Deletes a policy.
    Remove,
}

/// What an operation does with mounts, at the name of one (Vault's documentation, "/sys/mounts").
#[derive(Drop)]
pub enum MountCommand {
    /// Lists all mounts, whatever the name is.
    List,
    /// Enables a mount.
    Enable(MountCreation),
    /// Disables a mount, with all that is kept there.
    Disable,
}

/// What an operation does with leases, below a prefix (Vault's documentation, "/sys/leases").
#[derive(Drop)]
pub enum LeaseCommand {
    /// Shows the lease of an id, whatever the prefix is.
    LookUp(TextBuf),
    /// Gives a lease another end.
    Renew(LeaseRenewal),
    /// Ends the lease of an id.
    Revoke(TextBuf),
    /// Ends the leases whose ids begin with the prefix and a slash.
    RevokeUnder,
}

/// What an operation does with roles and credentials, at the place of a role (this project's engine).
#[derive(Drop)]
pub enum IssuedCommand {
    /// Shows the role.
    ShowRole,
    /// Sets the role, in place of the one that is there.
    SetRole(RoleSettings),
    /// Removes the role.
    RemoveRole,
    /// Issues a credential of the role, with a lease of the caller's token.
    Issue,
    /// Says whether the lease of a credential still stands, whatever the place is.
    Verify(TextBuf),
}

/// What an operation does with responses that wait. All but the first name the wrapping token that is meant, if one is
/// (Vault's documentation, "/sys/wrapping").
#[derive(Drop)]
pub enum WrappingCommand {
    /// Answers with an object, by its compact text, so that the reply is wrapped.
    Wrap(TextBuf),
    /// Shows the response without its text.
    LookUp(Option<TextBuf>),
    /// Moves the response to a new wrapping token.
    Rewrap(Option<TextBuf>),
    /// Hands out the response, which is gone then.
    Unwrap(Option<TextBuf>),
}

impl TokenCommand {
    /// Which identifiers it needs.
    pub fn needs(&self) -> Needs
        ensures { result ≡ token_needs self.now }
    {
        match self {
            TokenCommand::Create(_, _) => Needs::Token,
            _ => Needs::Nothing,
        }
    }
}

impl IssuedCommand {
    /// Which identifiers it needs.
    pub fn needs(&self) -> Needs
        ensures { result ≡ issued_needs self.now }
    {
        match self {
            IssuedCommand::Issue => Needs::Lease,
            _ => Needs::Nothing,
        }
    }
}

impl WrappingCommand {
    /// Which identifiers it needs.
    pub fn needs(&self) -> Needs
        ensures { result ≡ wrapping_needs self.now }
    {
        match self {
            WrappingCommand::Rewrap(_) => Needs::WrappingToken,
            _ => Needs::Nothing,
        }
    }

    /// Whether it wraps an object: the reply to it is wrapped, and must be. The others have no wrap TTL.
    pub fn is_wrap(&self) -> bool
        ensures { result ≡ is_wrap self.now }
    {
        match self {
            WrappingCommand::Wrap(_) => true,
            _ => false,
        }
    }
}
