//! Looks for a refusal of a module's code.

ghost use Rattle.common.specs.Answers.{IfRefused};
ghost use Rattle.common.specs.declared.fault.OrNoMemory.TheVariants.{NoMemory};
ghost use Rattle.std.specs.Prelude.{IfErr, IfNone, IfOk, IfSome, Some, length, ◌<◌, ◌^◌, ◌≡◌, ◌⊎◌};
ghost use Rattle.verifier.specs.Boundaries.{KeepsBoundaries};
ghost use Rattle.verifier.specs.Positions.{positioned};
ghost use Rattle.verifier.specs.Refusals.{IsCodeRefusal};
ghost use Rattle.verifier.specs.Search.{IsSearchableBody};
ghost use Rattle.verifier.specs.Verified.{HasCodes, FlowsOn, IsOperandRefusalOf};

use crate::body::IndexedProcedure;
use crate::fault::{CodeRefusal, VerifyFault};
use crate::fixed::place_code;
use crate::index::Index;
use crate::parameters::PackedModule;
use crate::positions::Code;
use crate::search::{FlowRefusal, FlowSearch};
use common::OrNoMemory;
use modules::{Instruction, Procedure};
use std::alloc::Global;

/// What is kept of the procedures of a module: the code of all, where that of each begins, and its index.
#[derive(Drop)]
pub(crate) struct CheckedCode {
    pub placed: Vec<Instruction>,
    pub codes: Vec<Code>,
    pub indexes: Vec<Index>,
}

/// Looks for a refusal of a module's code, and answers what is kept of each procedure where there is none.
///
/// A refusal that an instruction or a handler has by itself is reported before each one of the flow. So past one of
/// the flow the search goes on, for those alone.
pub(crate) fn look_for_refusals(
    alloc: Global,
    program: &PackedModule,
) -> Result<CheckedCode, VerifyFault>
    ensures accepted { IfOk result (λ kept. HasCodes program.now kept.placed.items
        kept.codes.items kept.indexes.items) }
    ensures rejected { IfErr result (IfRefused (IsCodeRefusal program.now)) }
{
    let procedures = program.procedures();
    let mut placed = Vec::with_capacity(alloc, count_instructions(procedures))?;
    let mut codes = Vec::with_capacity(alloc, procedures.len())?;
    let mut indexes = Vec::with_capacity(alloc, procedures.len())?;
    let mut search = FlowSearch::new(alloc)?;
    let mut found = None;
    let mut number = 0;
    for procedure in procedures {
        indexes.push_reserved(Index::of(alloc, procedure.code())?);
        let body = IndexedProcedure::new(program, procedure, &indexes[number as usize]);
        let start = placed.len();
        place_code(&body, number, &mut placed)?;
        let flow = look_for_flow_refusal(&mut search, &body, number, found, &placed[start..])?;
        let (found_now, greatest_depth) = flow;
        found = found_now;
        codes.push_reserved(Code {
            start,
            greatest_depth,
        });
        number += 1;
    }
    match found {
        None => Ok(CheckedCode {
            placed,
            codes,
            indexes,
        }),
        Some(refusal) => Err(OrNoMemory::Refused(refusal)),
    }
}

// How many instructions procedures have.
fn count_instructions(procedures: &[Procedure]) -> usize {
    let mut count: usize = 0;
    for procedure in procedures {
        count = count.saturating_add(procedure.code().len());
    }
    count
}

// Looks for a refusal of the flow of a procedure whose targets are right, unless one was found before. Where there is none, also the
// greatest number of operands is answered.
fn look_for_flow_refusal(
    search: &mut FlowSearch,
    body: &IndexedProcedure,
    number: u32,
    found: Option<CodeRefusal>,
    placed: &[Instruction],
) -> Result<(Option<CodeRefusal>, u32), VerifyFault>
    requires placed { placed.now ≡ positioned body.now.procedure.now.code }
    requires boundaries { KeepsBoundaries body.now.procedure.now }
    requires body { IsSearchableBody body.now }
    requires few { length body.now.procedure.now.handlers < 2 ^ 32 }
    ensures none { IfOk result (λ looked. IfNone looked.0 (
        FlowsOn body.now.program.now body.now.procedure.now found looked.1)) }
    ensures some { IfOk result (λ looked. IfSome looked.0 (λ refusal.
        (found ≡ Some refusal)
        ⊎ IsOperandRefusalOf body.now.program.now number body.now.procedure.now refusal)) }
    ensures no_memory { IfErr result (λ fault. fault ≡ NoMemory) }
{
    if found.is_some() {
        return Ok((found, 0));
    }
    match search.find_refusal(body, placed) {
        Ok(greatest_depth) => Ok((None, greatest_depth)),
        Err(OrNoMemory::NoMemory) => Err(OrNoMemory::NoMemory),
        Err(OrNoMemory::Refused(FlowRefusal { kind, offset })) => {
            let refusal = CodeRefusal {
                kind,
                procedure: number,
                offset,
            };
            Ok((Some(refusal), 0))
        }
    }
}
