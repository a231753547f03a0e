//! Reads the files of modules and worlds, and reports what is wrong with them.

ghost use Rattle.modules.specs.Contents.{ModuleContents};
ghost use Rattle.modules.specs.ByteFormat.{Spells};
ghost use Rattle.modules.specs.Format.{module_file};
ghost use Rattle.channels.specs.World.{input_names};
ghost use Rattle.channels.specs.WorldText.{IsWorldText, lines_of, world_of};
ghost use Rattle.flowc.specs.Lines.{IsPerformFault};
ghost use Rattle.flowc.specs.Messages.{IsModuleLine, IsWorldLine};
ghost use Rattle.flowc.specs.Task.{status_of_fault};
ghost use Rattle.std.specs.Prelude.{◌≡◌, IfErr, IfOk, IsUtf8, OnOk, false};
ghost use Rattle.verifier.specs.Refusals.{IsNotRefused};
ghost use Rattle.verifier.specs.Loaded.{IsLoaded};

use crate::fault::PerformFault;
use crate::messages::{encoding_line, module_line, world_line};
use channels::World;
use common::OrNoMemory;
use modules::Module;
use std::alloc::Global;
use verifier::{Verified, load};

/// A file that was read: its path and its bytes.
#[derive(Clone, Copy)]
pub struct File<'a> {
    pub path: &'a str,
    pub bytes: &'a [u8],
}

/// The verified module that the bytes of a file spell.
pub fn read_module(alloc: Global, file: File<'_>) -> Result<Verified, PerformFault>
    ensures accepted { IfOk result (IsLoaded file.entry.bytes.now) }
    ensures rejected { IfErr result (λ fault. status_of_fault fault ≡ 1 →
        (program : ModuleContents) →
        Spells module_file program file.entry.bytes.now → ¬ IsNotRefused program) }
    ensures message { IfErr result (IsPerformFault
        (IsModuleLine file.entry.path.now file.entry.bytes.now) false) }
{
    match load(alloc, file.bytes) {
        Ok(verified) => Ok(verified),
        Err(OrNoMemory::NoMemory) => Err(PerformFault::NoMemory),
        Err(OrNoMemory::Refused(refusal)) => {
            Err(PerformFault::Refused(module_line(alloc, file.path, refusal)?))
        }
    }
}

/// The world that the bytes of a file write for a module.
pub fn read_world(alloc: Global, program: &Module, file: File<'_>) -> Result<World, PerformFault>
    ensures encoded { OnOk result (IsUtf8 file.entry.bytes.now) }
    ensures accepted { OnOk result
        (IsWorldText (input_names program.now) (lines_of file.entry.bytes.now)) }
    ensures exact { IfOk result (λ world.
        world ≡ world_of (input_names program.now) (lines_of file.entry.bytes.now)) }
    ensures rejected { IfErr result (λ fault. status_of_fault fault ≡ 1 →
        IsUtf8 file.entry.bytes.now →
        ¬ IsWorldText (input_names program.now) (lines_of file.entry.bytes.now)) }
    ensures message { IfErr result (IsPerformFault
        (IsWorldLine program.now file.entry.path.now file.entry.bytes.now) false) }
{
    let path = file.path;
    let Ok(text) = std::str::from_utf8(file.bytes) else {
        return Err(PerformFault::Refused(encoding_line(alloc, path)?));
    };
    match World::read(alloc, program, text) {
        Ok(world) => Ok(world),
        Err(OrNoMemory::NoMemory) => Err(PerformFault::NoMemory),
        Err(OrNoMemory::Refused(refusal)) => {
            Err(PerformFault::Refused(world_line(alloc, path, refusal)?))
        }
    }
}
