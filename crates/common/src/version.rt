//! The version.

/// The version of the program and of the library, as semantic versioning counts.
pub const VERSION: &str = "0.9.0";
