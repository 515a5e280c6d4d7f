//! How long names and paths may be.

/// A plain name has at most so many bytes.
pub const LONGEST_NAME: usize = 64;

/// A path has at most so many bytes.
pub const LONGEST_PATH: usize = 255;
