//! The listing of a module, written line by line.

ghost use Rattle.modules.specs.Code.{code_length};
ghost use Rattle.channels.specs.Sink.{AppendsPrefix};
ghost use Rattle.common.specs.Answers.{IfRefused};
ghost use Rattle.listing.specs.Listing.{channel_line, code_text, handler_line, listing_text, procedure_text, procedures_text};
ghost use Rattle.std.specs.Io.KnownBytes.{Appends};
ghost use Rattle.std.specs.Prelude.{◌<◌, ◌^◌, ◌≡◌, All, IfErr, IsTrue, OnErr, OnOk, flat_map};

use crate::lines::{channel_line, handler_line, instruction_line, procedure_line};
use channels::{Sink, ViewFault, write_all};
use modules::{Channel, Handler, Instruction, Module, Procedure};
use principals::Hierarchy;
use std::alloc::Global;

// Writes a line for each channel.
fn write_channels<O: Sink>(
    alloc: Global,
    hierarchy: &Hierarchy,
    channels: &[Channel],
    out: &mut O,
) -> Result<(), ViewFault>
    ensures accepted { OnOk result (Appends (O.taken out.old) (O.taken out.new)
        (flat_map (channel_line hierarchy.now) channels.now)) }
    ensures prefix { OnErr result (AppendsPrefix (O.taken out.old) (O.taken out.new)
        (flat_map (channel_line hierarchy.now) channels.now)) }
    ensures kept { OnOk result (O.has_failed out.new ≡ O.has_failed out.old) }
    ensures rejected { IfErr result (IfRefused (λ _. IsTrue (O.has_failed out.new))) }
{
    for channel in channels {
        let line = channel_line(alloc, hierarchy, channel)?;
        write_all(out, line.as_bytes())?;
    }
    Ok(())
}

// Writes a line for each instruction.
fn write_code<O: Sink>(alloc: Global, code: &[Instruction], out: &mut O) -> Result<(), ViewFault>
    requires { code_length code.now < 2 ^ 32 }
    ensures accepted { OnOk result (Appends (O.taken out.old) (O.taken out.new)
        (code_text 0 code.now)) }
    ensures prefix { OnErr result (AppendsPrefix (O.taken out.old) (O.taken out.new)
        (code_text 0 code.now)) }
    ensures kept { OnOk result (O.has_failed out.new ≡ O.has_failed out.old) }
    ensures rejected { IfErr result (IfRefused (λ _. IsTrue (O.has_failed out.new))) }
{
    let mut offset = 0;
    for instruction in code {
        let line = instruction_line(alloc, offset, *instruction)?;
        write_all(out, line.as_bytes())?;
        offset += instruction.width();
    }
    Ok(())
}

// Writes a line for each handler.
fn write_handlers<O: Sink>(
    alloc: Global,
    handlers: &[Handler],
    out: &mut O,
) -> Result<(), ViewFault>
    ensures accepted { OnOk result (Appends (O.taken out.old) (O.taken out.new)
        (flat_map handler_line handlers.now)) }
    ensures prefix { OnErr result (AppendsPrefix (O.taken out.old) (O.taken out.new)
        (flat_map handler_line handlers.now)) }
    ensures kept { OnOk result (O.has_failed out.new ≡ O.has_failed out.old) }
    ensures rejected { IfErr result (IfRefused (λ _. IsTrue (O.has_failed out.new))) }
{
    for handler in handlers {
        let line = handler_line(alloc, *handler)?;
        write_all(out, line.as_bytes())?;
    }
    Ok(())
}

// Writes a procedure: its number, its instructions and its handlers.
fn write_procedure<O: Sink>(
    alloc: Global,
    number: usize,
    procedure: &Procedure,
    out: &mut O,
) -> Result<(), ViewFault>
    requires { code_length procedure.now.code < 2 ^ 32 }
    ensures accepted { OnOk result (Appends (O.taken out.old) (O.taken out.new)
        (procedure_text number procedure.now)) }
    ensures prefix { OnErr result (AppendsPrefix (O.taken out.old) (O.taken out.new)
        (procedure_text number procedure.now)) }
    ensures kept { OnOk result (O.has_failed out.new ≡ O.has_failed out.old) }
    ensures rejected { IfErr result (IfRefused (λ _. IsTrue (O.has_failed out.new))) }
{
    let line = procedure_line(alloc, number)?;
    write_all(out, line.as_bytes())?;
    write_code(alloc, procedure.code(), out)?;
    write_handlers(alloc, procedure.handlers(), out)
}

// Writes the procedures, in the order of their numbers.
fn write_procedures<O: Sink>(
    alloc: Global,
    procedures: &[Procedure],
    out: &mut O,
) -> Result<(), ViewFault>
    requires { All (λ procedure. code_length procedure.code < 2 ^ 32) procedures.now }
    ensures accepted { OnOk result (Appends (O.taken out.old) (O.taken out.new)
        (procedures_text 0 procedures.now)) }
    ensures prefix { OnErr result (AppendsPrefix (O.taken out.old) (O.taken out.new)
        (procedures_text 0 procedures.now)) }
    ensures kept { OnOk result (O.has_failed out.new ≡ O.has_failed out.old) }
    ensures rejected { IfErr result (IfRefused (λ _. IsTrue (O.has_failed out.new))) }
{
    for (number, procedure) in procedures.iter().enumerate() {
        write_procedure(alloc, number, procedure, out)?;
    }
    Ok(())
}

/// Writes a module as text, in lines that each end in a line feed: for each channel its direction,
/// name and label; then for each procedure its number, its instructions at their byte offsets, and
/// its handlers.
///
/// # Errors
///
/// The fault of the sink where that failed, or out of memory. What went out then is a prefix of
/// the text.
pub fn write_listing<O: Sink>(alloc: Global, program: &Module, out: &mut O) -> Result<(), ViewFault>
    ensures accepted { OnOk result (Appends (O.taken out.old) (O.taken out.new)
        (listing_text program.now)) }
    ensures prefix { OnErr result (AppendsPrefix (O.taken out.old) (O.taken out.new)
        (listing_text program.now)) }
    ensures kept { OnOk result (O.has_failed out.new ≡ O.has_failed out.old) }
    ensures rejected { IfErr result (IfRefused (λ _. IsTrue (O.has_failed out.new))) }
{
    write_channels(alloc, program.hierarchy(), program.channels(), out)?;
    write_procedures(alloc, program.procedures(), out)
}
