//! How much is listed.

/// The most extensions that an answer lists.
pub const MAX_EXTENSIONS: u32 = 10_000;
