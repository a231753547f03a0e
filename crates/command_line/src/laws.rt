//! The numbers of steps with their values written out. The function does nothing when it is called.

ghost use Rattle.std.specs.Prelude.{◌≡◌};

use crate::request::{DEFAULT_STEPS, MAX_STEPS};

/// The most steps, and those that are taken where none are given, are as written here: a constant that is changed is refused here, while the
/// definitions that cite it would follow the change.
pub fn steps_are_as_written()
    ensures most_steps { MAX_STEPS ≡ 1000000000000 }
    ensures default_steps { DEFAULT_STEPS ≡ 1000000 }
{}
