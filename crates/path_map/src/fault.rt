//! What `ends` answers where it found no exits.

use common::OrNoMemory;
use resolved::ExitRefusal;

/// Why the exits of a program were not found.
pub type EndFault = OrNoMemory<ExitRefusal>;
