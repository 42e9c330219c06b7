//! Which version this is.

/// The version of `desk` and of `panel`, which `--version` prints.
pub const VERSION: &str = "1.0.0";
