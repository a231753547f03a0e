//! The parameters of procedures, as calls pop them.

ghost use Rattle.modules.specs.Contents.{ProcedureContents};
ghost use Rattle.modules.specs.ByteFormat.{Fits};
ghost use Rattle.modules.specs.Format.{module_file};
ghost use Rattle.modules.specs.MachineParts.{kinds_of};
ghost use Rattle.std.specs.Prelude.{Some, ◌<◌, ◌≤◌, ◌≡◌, IfOk, length, map, reverse, slice_get, string_bytes, take};
ghost use Rattle.verifier.specs.Operands.{packed};
ghost use Rattle.verifier.specs.Parameters.{parameter_blocks};

use crate::operands::bit_of;
use common::BaseType;
use modules::{Channel, Global as Variable, Module, Procedure, Slot};
use std::alloc::{AllocError, Global};
use std::marker::Model;

// The kinds of the last 64 of the first this many slots as bits, the last one the lowest.
fn block_of(slots: &[Slot], count: usize) -> u64
    requires full { 64 ≤ count }
    requires there { count ≤ length slots.now }
    ensures { result ≡ packed 64 (reverse (kinds_of (take count slots.now))) }
{
    let first = count - 64;
    let mut bits = 0;
    for index in 0..64 {
        bits = bits * 2 + bit_of(slots[first + index].kind());
    }
    bits
}

// The kinds of a procedure's parameters in blocks of 64, the last one first; those that fill no block are not among them.
#[derive(Debug, Drop)]
struct Parameters {
    blocks: Vec<u64>,
}

impl Model for Parameters {
    ghost use Rattle.std.specs.Prelude.{List, ℕ};

    ghost Value = { List ℕ };

    ghost view = { λ p. p.blocks.items };
}

impl Parameters {
    // The parameters of a procedure.
    fn of(alloc: Global, procedure: &Procedure) -> Result<Parameters, AllocError>
        ensures { IfOk result (λ p. p ≡ parameter_blocks procedure.now) }
    {
        let slots = procedure.slots();
        let mut count = slots.len().min(procedure.parameters() as usize);
        let mut blocks = Vec::new(alloc);
        while count >= 64 {
            blocks.push(block_of(slots, count))?;
            count -= 64;
        }
        Ok(Parameters { blocks })
    }

    fn blocks(&self) -> &[u64]
        ensures { result.now ≡ self.now }
    {
        self.blocks.as_slice()
    }
}

/// A module, with the kinds of each procedure's parameters in blocks.
#[derive(Drop)]
pub(crate) struct PackedModule {
    program: Module,
    parameters: Vec<Parameters>,
}

impl Model for PackedModule {
    ghost use Rattle.modules.specs.Contents.{ModuleContents};
    ghost use Rattle.std.specs.Prelude.{◌≡◌, map};
    ghost use Rattle.verifier.specs.Parameters.{parameter_blocks};

    ghost Value = { ModuleContents };

    ghost view = { λ p. p.program };

    ghost invariant = { λ p. p.parameters.items ≡ map parameter_blocks p.program.procedures };
}

impl PackedModule {
    /// Packs the parameters of a module's procedures.
    pub(crate) fn new(alloc: Global, program: Module) -> Result<PackedModule, AllocError>
        ensures { IfOk result (λ packed. packed ≡ program) }
    {
        let mut parameters = Vec::with_capacity(alloc, program.procedures().len())?;
        for procedure in program.procedures() {
            parameters.push(Parameters::of(alloc, procedure)?)?;
        }
        Ok(PackedModule {
            program,
            parameters,
        })
    }

    /// The module.
    pub(crate) fn into_module(self) -> Module
        ensures { result ≡ self }
    {
        self.program
    }

    /// The names of the declared exceptions, which are numbered from 3.
    pub(crate) fn exceptions(&self) -> &[String]
        ensures { map (λ name. string_bytes name) result.now ≡ self.now.exceptions }
    {
        self.program.exceptions()
    }

    /// The channels, in the order of their numbers.
    pub(crate) fn channels(&self) -> &[Channel]
        ensures { result.now ≡ self.now.channels }
    {
        self.program.channels()
    }

    /// The globals, in the order of their numbers.
    pub(crate) fn globals(&self) -> &[Variable]
        ensures { result.now ≡ self.now.globals }
    {
        self.program.globals()
    }

    /// The procedures, in the order of their numbers.
    pub(crate) fn procedures(&self) -> &[Procedure]
        ensures procedures { result.now ≡ self.now.procedures }
        ensures spelled { Fits module_file self.now }
    {
        self.program.procedures()
    }

    /// The parameters of a procedure in blocks.
    pub(crate) fn parameters(&self, procedure: u32) -> &[u64]
        requires { procedure < length self.now.procedures }
        ensures { (p : ProcedureContents) → slice_get self.now.procedures procedure ≡ Some p →
            result.now ≡ parameter_blocks p }
    {
        self.parameters[procedure as usize].blocks()
    }
}
