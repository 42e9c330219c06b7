//! How long a head may be (condition H1).

/// How many bytes a head has at most.
pub const MOST_HEAD_BYTES: usize = 8_192;

/// How many fields a head has at most.
pub const MOST_FIELDS: usize = 64;
