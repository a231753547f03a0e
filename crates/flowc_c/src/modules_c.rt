//! The bytes of a module: listed.

ghost use Rattle.flowc.specs.Stdout.{CannotList};
ghost use Rattle.flowc_c.specs.Outcome.{SaysModuleRefusal, TellsModuleRefusal};
ghost use Rattle.flowc_c.specs.Buffer.{IsPutIfFits};
ghost use Rattle.flowc_c.specs.Results.{NeedsListing, PutsListing};
ghost use Rattle.listing.specs.Listing.{listing_text};
ghost use Rattle.verifier.specs.RefusalKinds.{load_message};
ghost use Rattle.std.specs.Prelude.{◌≡◌, IfOk};

use crate::buffer::{deliver, deliver_words};
use crate::outcome::{DONE, NO_MEMORY, Outcome, REFUSED, TOO_SHORT, ended, refuse_module};
use channels::{Device, ViewFault};
use flowc::{LoadRefusal, Module, OrNoMemory, Reported, load};
use listing::write_listing;
use std::alloc::Global;

/// Lists the module that bytes spell: puts a line for each channel, and its code, at the head of a buffer.
///
/// Where they are refused it says why, and puts the words there.
#[unsafe(no_mangle)]
pub extern "C" fn flowc_list(alloc: Global, bytes: &[u8], out: &mut [u8]) -> Outcome
    ensures listed { result.status ≡ DONE →
        PutsListing bytes.now result.length out.old out.new }
    ensures rejected { result.status ≡ REFUSED → CannotList bytes.now }
    ensures reason { result.status ≡ REFUSED →
        TellsModuleRefusal bytes.now result out.old out.new }
    ensures too_short { result.status ≡ TOO_SHORT →
        NeedsListing bytes.now result.length out.old }
    ensures short_unchanged { result.status ≡ TOO_SHORT → out.new ≡ out.old }
    ensures memory_unchanged { result.status ≡ NO_MEMORY → out.new ≡ out.old }
{
    let verified = match load(alloc, bytes) {
        Ok(verified) => verified,
        Err(OrNoMemory::NoMemory) => return ended(NO_MEMORY, 0),
        Err(OrNoMemory::Refused(refusal)) => return tell(refusal, out),
    };
    match listing_of(alloc, verified.module()) {
        Ok(text) => deliver(&text, out),
        Err(_) => ended(NO_MEMORY, 0),
    }
}

// The listing of a module.
fn listing_of(alloc: Global, program: &Module) -> Result<Vec<u8>, ViewFault>
    ensures { IfOk result (λ text. text.items ≡ listing_text program.now) }
{
    let mut sink = Device::new(Vec::new(alloc));
    write_listing(alloc, program, &mut sink)?;
    Ok(sink.into_inner())
}

// The outcome of bytes that are not loaded, with the words of the refusal at the head of a buffer.
fn tell(refusal: LoadRefusal, out: &mut [u8]) -> Outcome
    ensures status { result.status ≡ REFUSED }
    ensures says { SaysModuleRefusal refusal result }
    ensures words { IsPutIfFits (load_message refusal).words result.length out.old out.new }
{
    let length = deliver_words(refusal.words(), out);
    refuse_module(refusal, length)
}
