//! What the tests ask of whatever is printed.

use std::alloc::{AllocError, Global};
use std::fmt::Display;

/// Whether something is printed as this text.
pub fn is_printed<D: Display>(alloc: Global, shown: &D, text: &str) -> Result<bool, AllocError> {
    let printed = format!(in alloc; "{shown}")?;
    Ok(printed.as_str() == text)
}
