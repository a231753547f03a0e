ghost use Rattle.modules.specs.MachineParts.{code_of};
ghost use Rattle.std.specs.Prelude.{IfErr, IfOk, OnOk, Some, length, slice_get, ◌<◌, ◌≡◌};
ghost use Rattle.modules.specs.Contents.{ProcedureContents};
ghost use Rattle.common.specs.Answers.{IfRefused};
ghost use Rattle.verifier.specs.Depth.{IsGreatestDepth};
ghost use Rattle.verifier.specs.Index.{indexes_of};
ghost use Rattle.verifier.specs.Refusals.{IsNotRefused, IsCodeRefusal};
ghost use Rattle.verifier.specs.Safety.{IsNeverStuck};
ghost use Rattle.verifier.specs.Positions.{positioned};

use crate::fault::VerifyFault;
use crate::index::Index;
use crate::looking::{CheckedCode, look_for_refusals};
use crate::parameters::PackedModule;
use crate::positions::Code;
use modules::{Instruction, Module};
use std::alloc::Global;
use std::marker::Model;

/// A module of which no run is ever stuck: no step of it lacks a transition, whatever the
/// world gives. Only [`verify`] makes one.
#[derive(Debug, Drop)]
pub struct Verified {
    inner: Module,
    // The code of all procedures, one after the other, where that of each begins, and its index.
    placed: Vec<Instruction>,
    codes: Vec<Code>,
    indexes: Vec<Index>,
}

impl Model for Verified {
    ghost use Rattle.modules.specs.Contents.{ModuleContents};
    ghost use Rattle.verifier.specs.Verified.{HasCodes};

    ghost Value = { ModuleContents };

    ghost view = { λ v. v.inner };

    ghost invariant = { λ v. HasCodes v.inner v.placed.items v.codes.items v.indexes.items };
}

impl Verified {
    /// The module.
    pub fn module(&self) -> &Module
        ensures value { result.now ≡ self.now }
        ensures not_refused { IsNotRefused self.now }
        ensures never_stuck { IsNeverStuck self.now }
    {
        &self.inner
    }

    /// The module, and for each procedure the index of its code: what a run needs. The rest is let go.
    pub fn into_parts(self) -> (Module, Vec<Index>)
        ensures module { result.0 ≡ self }
        ensures not_refused { IsNotRefused self }
        ensures never_stuck { IsNeverStuck self }
        ensures indexes { result.1.items ≡ indexes_of self }
    {
        (self.inner, self.indexes)
    }

    /// The code of a procedure, with positions as targets: the number of an instruction in the code, and not the offset of its
    /// first byte. It takes no memory. Precondition: there is a procedure of that number.
    pub fn code(&self, procedure: u32) -> &[Instruction]
        requires { procedure < length self.now.procedures }
        ensures { result.now ≡ positioned (code_of (slice_get self.now.procedures procedure)) }
    {
        let start = self.codes[procedure as usize].start;
        let count = self.inner.procedures()[procedure as usize].code().len();
        &self.placed[start..start + count]
    }

    /// For each procedure the index of its code. It takes no memory.
    pub fn indexes(&self) -> &[Index]
        ensures { result.now ≡ indexes_of self.now }
    {
        &self.indexes
    }

    /// The greatest number of operands that an instruction of a procedure finds or leaves, where control reaches it. No frame of
    /// that procedure ever has more. Precondition: there is a procedure of that number.
    pub fn greatest_depth(&self, procedure: u32) -> u32
        requires { procedure < length self.now.procedures }
        ensures { (p : ProcedureContents) → slice_get self.now.procedures procedure ≡ Some p
            → IsGreatestDepth self.now p result }
    {
        self.codes[procedure as usize].greatest_depth
    }
}

/// Verifies a module.
///
/// A module is refused if its code breaks a rule. The reported refusal is one of the code: the first one
/// that an instruction or a handler has by itself, or else one of the flow of operands.
/// Memory grows with the size of the module.
pub fn verify(alloc: Global, program: Module) -> Result<Verified, VerifyFault>
    ensures accepted { IfOk result (λ verified. verified ≡ program) }
    ensures safe { OnOk result (IsNeverStuck program) }
    ensures not_refused { OnOk result (IsNotRefused program) }
    ensures rejected { IfErr result (IfRefused (IsCodeRefusal program)) }
{
    let packed = PackedModule::new(alloc, program)?;
    let CheckedCode {
        placed,
        codes,
        indexes,
    } = look_for_refusals(alloc, &packed)?;
    Ok(Verified {
        inner: packed.into_module(),
        placed,
        codes,
        indexes,
    })
}
