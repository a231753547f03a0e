//! Lists the module of a file.

ghost use Rattle.flowc.specs.Lines.{IsPerformFault};
ghost use Rattle.flowc.specs.Messages.{IsModuleLine};
ghost use Rattle.flowc.specs.Stdout.{CannotList, Lists, ListsSome};
ghost use Rattle.flowc.specs.Task.{status_of_fault};
ghost use Rattle.std.specs.Prelude.{[], ◌≡◌, IfErr, IfOk, OnErr, OnOk};
ghost use Rattle.std.specs.String.{string_bytes};

use crate::ended::Ended;
use crate::fault::PerformFault;
use crate::reading::{File, read_module};
use channels::Sink;
use listing::write_listing;
use std::alloc::Global;

/// Lists a module: its channels, and the code of its procedures.
pub fn list_module<O: Sink>(
    alloc: Global,
    code: File<'_>,
    out: &mut O,
) -> Result<Ended, PerformFault>
    ensures listed { OnOk result (Lists code.entry.bytes.now (O.taken out.old) (O.taken out.new)) }
    ensures prefix { OnErr result (ListsSome
        code.entry.bytes.now (O.taken out.old) (O.taken out.new)) }
    ensures rejected { IfErr result (λ fault. status_of_fault fault ≡ 1 →
        CannotList code.entry.bytes.now) }
    ensures unchanged { IfErr result (λ fault. status_of_fault fault ≡ 1 →
        O.taken out.old ≡ O.taken out.new) }
    ensures status { IfOk result (λ ended. ended.status ≡ 0) }
    ensures silent { IfOk result (λ ended. string_bytes ended.line ≡ []) }
    ensures message { IfErr result (IsPerformFault
        (IsModuleLine code.entry.path.now code.entry.bytes.now) (O.has_failed out.new)) }
{
    let verified = read_module(alloc, code)?;
    write_listing(alloc, verified.module(), out)?;
    Ok(Ended::report_nothing(alloc))
}
