//! Writing of modules.

ghost use Rattle.modules.specs.ByteFormat.{Fits, Spells};
ghost use Rattle.modules.specs.Format.{module_file};
ghost use Rattle.bytecode.specs.Reading.{texts};
ghost use Rattle.modules.specs.Opcodes.{code_bytes};
ghost use Rattle.bytecode.specs.Writing.{IsShort, list_bytes, module_bytes, number_bytes, pair_bytes, procedure_bytes, ProcedureFits, text_bytes};
ghost use Rattle.std.specs.Prelude.{All, IfOk, length, OnOk, ◌++◌, ◌≡◌};

use crate::decoding::MAGIC;
use crate::writing::{Field, put_instruction, put_list, put_number};
use common::BaseType;
use modules::code_length;
use modules::instruction::Instruction;
use modules::module::Module;
use modules::procedure::Procedure;
use principals::Hierarchy;
use std::alloc::{AllocError, Global};

/// Writes code after its length.
fn put_code(out: &mut Vec<u8>, code: &[Instruction]) -> Result<(), AllocError>
    requires { IsShort (code_bytes code.now) }
    ensures { OnOk result (out.new.items ≡ out.old.items
        ++ (number_bytes (length (code_bytes code.now)) ++ code_bytes code.now)) }
{
    put_number(out, code_length(code) as u32)?;
    for instruction in code {
        put_instruction(out, *instruction)?;
    }
    Ok(())
}

impl Field for Procedure {
    ghost spelling = { procedure_bytes };

    ghost fits = { ProcedureFits };

    #[tactic(auto, unfolding(crate::specs::Writing::procedure_bytes))]
    fn put(&self, out: &mut Vec<u8>) -> Result<(), AllocError> {
        let returned = match self.returned() {
            None => 0,
            Some(BaseType::Int) => 1,
            Some(BaseType::Boolean) => 2,
        };
        out.push(returned)?;
        put_number(out, self.parameters())?;
        put_list(out, self.slots())?;
        put_code(out, self.code())?;
        put_list(out, self.handlers())
    }
}

/// Writes names after their count.
fn put_names(out: &mut Vec<u8>, names: &[String]) -> Result<(), AllocError>
    requires few { IsShort (texts names.now) }
    requires each { All IsShort (texts names.now) }
    ensures { OnOk result (out.new.items ≡ out.old.items ++ list_bytes text_bytes
        (texts names.now)) }
{
    put_list(out, names)
}

/// Writes a hierarchy.
fn put_hierarchy(out: &mut Vec<u8>, hierarchy: &Hierarchy) -> Result<(), AllocError>
    requires names { IsShort hierarchy.now.names }
    requires each { All IsShort hierarchy.now.names }
    requires pairs { IsShort hierarchy.now.pairs }
    ensures { OnOk result (out.new.items ≡ out.old.items
        ++ (list_bytes text_bytes hierarchy.now.names ++ list_bytes pair_bytes
        hierarchy.now.pairs)) }
{
    put_names(out, hierarchy.names())?;
    put_list(out, hierarchy.pairs())
}

/// Writes a module.
fn put_module(out: &mut Vec<u8>, program: &Module) -> Result<(), AllocError>
    ensures written { OnOk result (out.new.items ≡ out.old.items ++ module_bytes program.now) }
    ensures spelled { Fits module_file program.now }
{
    let hierarchy = program.hierarchy();
    let version = program.version().number();
    put_number(out, MAGIC)?;
    put_number(out, version)?;
    put_hierarchy(out, hierarchy)?;
    put_names(out, program.exceptions())?;
    put_list(out, program.channels())?;
    put_list(out, program.globals())?;
    put_list(out, program.procedures())?;
    put_number(out, program.main())?;
    Ok(())
}

/// The bytes that spell a module.
pub fn encode(alloc: Global, program: &Module) -> Result<Vec<u8>, AllocError>
    ensures { IfOk result (λ bytes. Spells module_file program.now bytes.items) }
{
    let mut out = Vec::new(alloc);
    put_module(&mut out, program)?;
    Ok(out)
}
