//! Checks and compiles the texts of two files: of a hierarchy, and of a source under it.

ghost use Rattle.channels.specs.Sink.{AppendsPrefix};
ghost use Rattle.acceptance.specs.Accepted.{StandFor};
ghost use Rattle.checker.specs.Reported.{IsFirstFault};
ghost use Rattle.compiler.specs.Compiled.{IsCompiled};
ghost use Rattle.flowc.specs.Compiled.{AreAccepted};
ghost use Rattle.flowc.specs.Lines.{IsPerformFault};
ghost use Rattle.flowc.specs.Messages.{IsTextsLine};
ghost use Rattle.flowc.specs.Task.{status_of_fault};
ghost use Rattle.resolved.specs.CoreOf.{program_of};
ghost use Rattle.std.specs.Io.KnownBytes.{Appends};
ghost use Rattle.std.specs.Prelude.{◌≡◌, IfErr, IfOk, IfSome, IsSome, None, OnErr, OnOk, codes, false};
ghost use Rattle.std.specs.String.{string_bytes};

use crate::fault::PerformFault;
use crate::messages::text_line;
use crate::reading::File;
use acceptance::Text;
use channels::{Sink, write_all};
use checker::{Checked, Refusal, check_texts};
use common::OrNoMemory;
use compiler::compile_checked;
use std::alloc::{AllocError, Global};

/// What the texts of two files are, where they are accepted: the checked program, and the bytes of its module, if they were wanted.
#[derive(Drop)]
pub struct Accepted {
    pub checked: Checked,
    pub code: Option<Vec<u8>>,
}

/// Checks a source under a hierarchy, and says so on standard output.
pub fn check<O: Sink>(
    alloc: Global,
    hierarchy: File<'_>,
    source: File<'_>,
    out: &mut O,
) -> Result<Accepted, PerformFault>
    ensures accepted { OnOk result (AreAccepted hierarchy.entry.bytes.now source.entry.bytes.now) }
    ensures rejected { IfErr result (λ fault. status_of_fault fault ≡ 1 →
        ¬ AreAccepted hierarchy.entry.bytes.now source.entry.bytes.now) }
    ensures checked { IfOk result (λ accepted. StandFor
        hierarchy.entry.bytes.now source.entry.bytes.now (program_of accepted.checked.core)) }
    ensures code { IfOk result (λ accepted. accepted.code ≡ None) }
    ensures stdout { OnOk result (Appends (O.taken out.old) (O.taken out.new) (codes "ok\n")) }
    ensures unchanged { IfErr result (λ fault. status_of_fault fault ≡ 1 →
        O.taken out.old ≡ O.taken out.new) }
    ensures prefix { OnErr result
        (AppendsPrefix (O.taken out.old) (O.taken out.new) (codes "ok\n")) }
    ensures message { IfErr result (IsPerformFault (IsTextsLine
        hierarchy.entry.path.now source.entry.path.now
        hierarchy.entry.bytes.now source.entry.bytes.now) (O.has_failed out.new)) }
{
    match check_texts(alloc, hierarchy.bytes, source.bytes) {
        Ok(checked) => {
            write_all(out, b"ok\n")?;
            Ok(Accepted {
                checked,
                code: None,
            })
        }
        Err(OrNoMemory::NoMemory) => Err(PerformFault::NoMemory),
        Err(OrNoMemory::Refused(refused)) => {
            let line = texts_line(alloc, hierarchy, source, &refused)?;
            Err(PerformFault::Refused(line))
        }
    }
}

/// Checks a source under a hierarchy, and compiles it to the bytes of a module.
pub fn build(alloc: Global, hierarchy: File<'_>, source: File<'_>) -> Result<Accepted, PerformFault>
    ensures accepted { OnOk result (AreAccepted hierarchy.entry.bytes.now source.entry.bytes.now) }
    ensures checked { IfOk result (λ accepted. StandFor
        hierarchy.entry.bytes.now source.entry.bytes.now (program_of accepted.checked.core)) }
    ensures code { IfOk result (λ accepted. IsSome accepted.code) }
    ensures compiled { IfOk result (λ accepted. IfSome accepted.code (λ code.
        IsCompiled hierarchy.entry.bytes.now source.entry.bytes.now code.items)) }
    ensures rejected { IfErr result (λ fault. status_of_fault fault ≡ 1 →
        ¬ AreAccepted hierarchy.entry.bytes.now source.entry.bytes.now) }
    ensures message { IfErr result (IsPerformFault (IsTextsLine
        hierarchy.entry.path.now source.entry.path.now
        hierarchy.entry.bytes.now source.entry.bytes.now) false) }
{
    match check_texts(alloc, hierarchy.bytes, source.bytes) {
        Ok(checked) => {
            let code = compile_checked(alloc, &checked)?;
            Ok(Accepted {
                checked,
                code: Some(code),
            })
        }
        Err(OrNoMemory::NoMemory) => Err(PerformFault::NoMemory),
        Err(OrNoMemory::Refused(refusal)) => {
            let line = texts_line(alloc, hierarchy, source, &refusal)?;
            Err(PerformFault::Refused(line))
        }
    }
}

/// The line that reports the first fault of two texts, by the path of the text that it is in.
pub fn texts_line(
    alloc: Global,
    hierarchy: File<'_>,
    source: File<'_>,
    refusal: &Refusal,
) -> Result<String, AllocError>
    requires { IsFirstFault hierarchy.bytes.now source.bytes.now refusal.now }
    ensures { IfOk result (λ line. IsTextsLine
        hierarchy.entry.path.now source.entry.path.now
        hierarchy.entry.bytes.now source.entry.bytes.now (string_bytes line)) }
{
    let path = match refusal.text {
        Text::Hierarchy => hierarchy.path,
        Text::Source => source.path,
    };
    text_line(alloc, path, refusal)
}
