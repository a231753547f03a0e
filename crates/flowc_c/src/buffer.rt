//! Results at the head of a buffer of the caller.

ghost use Rattle.flowc_c.specs.Buffer.{IsPut, IsPutIfFits, IsTooShort};
ghost use Rattle.std.specs.Prelude.{◌≡◌};

use crate::outcome::{DONE, NO_MEMORY, Outcome, REFUSED, TOO_SHORT, ended};

// Puts a text at the head of a buffer, if it fits.
pub(crate) fn deliver(text: &[u8], out: &mut [u8]) -> Outcome
    ensures done { result.status ≡ DONE → IsPut text.now result.length out.old out.new }
    ensures too_short { result.status ≡ TOO_SHORT → IsTooShort text.now result.length out.old }
    ensures unchanged { ¬ (result.status ≡ DONE) → out.new ≡ out.old }
    ensures either { IsPutIfFits text.now result.length out.old out.new }
    ensures refused { ¬ (result.status ≡ REFUSED) }
    ensures memory { ¬ (result.status ≡ NO_MEMORY) }
{
    let length = text.len();
    if length > out.len() {
        return ended(TOO_SHORT, length);
    }
    out[..length].copy_from_slice(text);
    ended(DONE, length)
}

// Puts the words of a refusal at the head of a buffer, if they fit, and answers how many bytes they have.
pub(crate) fn deliver_words(words: &str, out: &mut [u8]) -> usize
    ensures { IsPutIfFits words.now result out.old out.new }
{
    deliver(words.as_bytes(), out).length
}
