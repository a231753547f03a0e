//! The numbers of unknowns, as they are counted.
ghost use Rattle.std.specs.Prelude.{length, ◌+◌, ◌<◌, ◌^◌, ◌≡◌};

use resolved::tables::Procedure;

/// The number of the first unknown after those of a procedure, which are its locals and its loops, by the number of its own first.
///
/// Precondition: the number fits 32 bits, as those of all programs within the limits do.
pub fn first_after(first: u32, procedure: &Procedure) -> u32
    requires { first + (length procedure.now.slots.items + procedure.now.loops) < 2 ^ 32 }
    ensures { result ≡ first + (length procedure.now.slots.items + procedure.now.loops) }
{
    first + procedure.slots.len() as u32 + procedure.loops
}
