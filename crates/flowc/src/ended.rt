//! How tasks end that do not fail.

ghost use Rattle.std.specs.Prelude.{[], ◌≡◌};
ghost use Rattle.std.specs.String.{string_bytes};

use std::alloc::Global;

/// How a task ended that did not fail, as the program reports it: its exit status, and the line for standard error.
#[derive(Drop)]
pub struct Ended {
    pub status: u8,
    pub line: String,
}

impl Ended {
    /// A successful end: status 0 and no line.
    pub fn report_nothing(alloc: Global) -> Ended
        ensures status { result.status ≡ 0 }
        ensures line { string_bytes result.line ≡ [] }
    {
        Ended {
            status: 0,
            line: String::new(alloc),
        }
    }
}
