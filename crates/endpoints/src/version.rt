//! The version of the programs.

/// The version of `brokerd` and of `client`, which `--version` prints (Semantic Versioning 2.0.0).
pub const VERSION: &str = "0.6.0";
