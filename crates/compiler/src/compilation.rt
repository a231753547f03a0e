//! The compiler: from a hierarchy text and a source to the bytes of a module.

ghost use Rattle.checker.specs.Reported.{HasFlow, IsFirstFault, StandForNone, TextsAskForFlow};
ghost use Rattle.common.specs.Answers.{IfRefused};
ghost use Rattle.compiler.specs.Compiled.{IsCodeOf, IsCompiled};
ghost use Rattle.resolved.specs.CoreOf.{program_of};
ghost use Rattle.std.specs.Prelude.{IfErr, IfOk, IfSome};

use bytecode::encode;
use checker::{Checked, Fault, check_texts};
use isolation::noninterference::labelled_programs_stay_isolated;
use layout::emit;
use lowering::lower;
use std::alloc::{AllocError, Global};

/// Compiles a source under a hierarchy text to the bytes of a module: [`check_texts`], and then the module of the program.
///
/// # Errors
///
/// The first fault of the two texts, at its line and column, with the flow where one is not allowed; or out of memory.
pub fn compile(alloc: Global, hierarchy: &[u8], source: &[u8]) -> Result<Vec<u8>, Fault>
    // The bytes are code of the program that the two texts stand for, and spell a module that stays isolated under every hierarchy
    // that contains its own.
    ensures accepted { IfOk result (λ code. IsCompiled hierarchy.now source.now code.items) }

    // A refusal is the first fault of the two texts, at its line and column, and they stand for no program.
    ensures first_fault { IfErr result (IfRefused (IsFirstFault hierarchy.now source.now)) }
    ensures rejected { IfErr result (IfRefused (λ _. StandForNone hierarchy.now source.now)) }

    // There is a flow exactly where one is not allowed, and it is the one that the source asks for.
    ensures flow { IfErr result (IfRefused HasFlow) }
    ensures asked { IfErr result (IfRefused (λ refusal. IfSome refusal.flow
        (TextsAskForFlow hierarchy.now source.now refusal))) }
{
    let checked = check_texts(alloc, hierarchy, source)?;
    let code = compile_checked(alloc, &checked)?;
    Ok(code)
}

/// The bytes of the module of a checked program.
///
/// # Errors
///
/// Memory ran out.
pub fn compile_checked(alloc: Global, checked: &Checked) -> Result<Vec<u8>, AllocError>
    ensures { IfOk result (λ code. IsCodeOf (program_of checked.now.core) code.items) }
{
    labelled_programs_stay_isolated();
    let core = checked.core();
    // Its contract says that this is a hierarchy.
    let _count = core.hierarchy.count();
    let graph = lower(alloc, checked)?;
    let module = emit(alloc, &graph)?;
    // The module is all that the bytes are made of.
    drop(graph);
    let code = encode(alloc, &module)?;
    Ok(code)
}
