//! The version of the library.

ghost use Rattle.flowc_c.specs.Buffer.{IsPut, IsTooShort};
ghost use Rattle.std.specs.Prelude.{◌≡◌};
ghost use Rattle.common.specs.declared.version.TheConstants.{VERSION};

use crate::buffer::deliver;
use crate::outcome::{DONE, Outcome, REFUSED, TOO_SHORT};

/// Puts the version of the library, as `0.9.0`, at the head of a buffer.
#[unsafe(no_mangle)]
pub extern "C" fn flowc_version(out: &mut [u8]) -> Outcome
    ensures done { result.status ≡ DONE → IsPut VERSION.now result.length out.old out.new }
    ensures too_short { result.status ≡ TOO_SHORT → IsTooShort VERSION.now result.length out.old }
    ensures unchanged { ¬ (result.status ≡ DONE) → out.new ≡ out.old }
    ensures refused { ¬ (result.status ≡ REFUSED) }
{
    deliver(common::VERSION.as_bytes(), out)
}
