//! Reading of modules.

ghost use Rattle.modules.specs.Contents.{ModuleContents};
ghost use Rattle.modules.specs.ContentsOf.{contents_of};
ghost use Rattle.common.specs.Answers.{Answers, IfRefused};
ghost use Rattle.bytecode.specs.Decoded.{first_refusal};
ghost use Rattle.modules.specs.ByteFormat.{read, read_all, Spells};
ghost use Rattle.modules.specs.Format.{main, module_file, version};
ghost use Rattle.modules.specs.FormatParts.{contents, program};
ghost use Rattle.bytecode.specs.Reading.{Decodes, fields_of};
ghost use Rattle.std.specs.Prelude.{IfErr, IfOk, Some, ◌≡◌};

use crate::channels::read_declared;
use crate::fault::{FormatFault, FormatRefusal};
use crate::globals::read_globals;
use crate::hierarchy::read_hierarchy;
use crate::procedures::read_procedures;
use crate::reading::{FieldFault, read_number, refuse};
use common::OrNoMemory;
use modules::contents::Contents;
use modules::declaration::Global as Variable;
use modules::module::Module;
use modules::procedure::Procedure;
use modules::{FormatRefusalKind, Version};
use std::alloc::Global;

/// The first four bytes of a module, `FLOB`, as a number.
pub(crate) const MAGIC: u32 = 0x464c_4f42;

/// What runs of a module that was read.
#[derive(Drop)]
struct CodeSections {
    globals: Vec<Variable>,
    procedures: Vec<Procedure>,
    main: u32,
}

/// The number of a procedure without parameters that returns no value.
#[tactic(auto, unfolding(modules::specs::Format::main))]
fn read_main<'a>(procedures: &[Procedure], bytes: &'a [u8]) -> Result<(u32, &'a [u8]), FieldFault>
    ensures { Decodes (λ x. (x.0, x.1.now)) result (read (main procedures.now) bytes.now) }
{
    let (number, rest) = read_number(bytes)?;
    match procedures.get(number as usize) {
        Some(procedure) if procedure.parameters() == 0 && procedure.returned().is_none() => Ok((
            number, rest,
        )),
        _ => Err(refuse(FormatRefusalKind::BadValue, bytes)),
    }
}

/// The globals, the procedures, and the number of the one where a run starts, in a file of the version.
#[tactic(auto, unfolding(modules::specs::FormatParts::program))]
fn read_program(
    alloc: Global,
    version: Version,
    bytes: &[u8],
) -> Result<(CodeSections, &[u8]), FieldFault>
    ensures { Decodes (λ x. ((x.0.globals.items, (x.0.procedures.items, x.0.main)), x.1.now)) result
        (read (program version) bytes.now) }
{
    let (globals, rest) = read_globals(alloc, bytes)?;
    let (procedures, rest) = read_procedures(alloc, version, rest)?;
    let (main, rest) = read_main(&procedures, rest)?;
    let program = CodeSections {
        globals,
        procedures,
        main,
    };
    Ok((program, rest))
}

/// The contents of a module of the version, after magic and version.
#[tactic(auto, unfolding(modules::specs::FormatParts::contents))]
fn read_contents(
    alloc: Global,
    version: Version,
    bytes: &[u8],
) -> Result<(Contents, &[u8]), FieldFault>
    ensures reads { Decodes (λ x. (fields_of x.0, x.1.now)) result
        (read (contents version) bytes.now) }
    ensures version { IfOk result (λ x. x.0.version ≡ version) }
{
    let (hierarchy, rest) = read_hierarchy(alloc, bytes)?;
    let (exceptions, channels, rest) = read_declared(alloc, &hierarchy, rest)?;
    let (program, rest) = read_program(alloc, version, rest)?;
    let contents = Contents {
        version,
        hierarchy,
        exceptions,
        channels,
        globals: program.globals,
        procedures: program.procedures,
        main: program.main,
    };
    Ok((contents, rest))
}

/// The version of the file.
#[tactic(auto, unfolding(modules::specs::Format::version))]
fn read_version(bytes: &[u8]) -> Result<(Version, &[u8]), FieldFault>
    ensures { Decodes (λ x. (x.0, x.1.now)) result (read version bytes.now) }
{
    let (number, rest) = read_number(bytes)?;
    match number {
        1 => Ok((Version::One, rest)),
        2 => Ok((Version::Two, rest)),
        _ => Err(refuse(FormatRefusalKind::Version, bytes)),
    }
}

/// The contents of a module after magic and version, which are tested.
#[tactic(auto, unfolding(modules::specs::Format::module_file, modules::specs::FormatParts::contents, modules::specs::FormatParts::program, modules::specs::FormatParts::globals, modules::specs::FormatParts::procedures))]
fn read_file(alloc: Global, bytes: &[u8]) -> Result<(Contents, &[u8]), FieldFault>
    ensures { Decodes (λ x. (contents_of x.0, x.1.now)) result (read module_file bytes.now) }
{
    let (magic, rest) = read_number(bytes)?;
    if magic != MAGIC {
        return Err(refuse(FormatRefusalKind::Magic, bytes));
    }
    let (version, rest) = read_version(rest)?;
    read_contents(alloc, version, rest)
}

/// The contents of a module that all of the bytes are.
fn read_all_of_file(alloc: Global, bytes: &[u8]) -> Result<Contents, FieldFault>
    ensures { Decodes contents_of result (read_all module_file bytes.now) }
{
    let (contents, rest) = read_file(alloc, bytes)?;
    if !rest.is_empty() {
        return Err(refuse(FormatRefusalKind::Trailing, rest));
    }
    Ok(contents)
}

/// The module that the bytes spell.
///
/// A refusal is the first one in reading order, field by field from the left, with the offset of the field's first byte,
/// within code that of the offending byte, and for bytes that end too early their length. No more than a few places are
/// reserved by a count that the bytes claim, and none by a length of code where fewer bytes follow: lists grow by what was read.
pub fn decode(alloc: Global, bytes: &[u8]) -> Result<Module, FormatFault>
    // What is read is spelled so, each byte of it.
    ensures accepted { IfOk result (λ m. Spells module_file m bytes.now) }
    // What is spelled so is read, unless memory runs out.
    ensures complete { (m : ModuleContents) → Spells module_file m bytes.now →
        Answers (λ found. found ≡ m) (λ _. ⊥) result }
    // A refusal is the first one, at its offset.
    ensures first_fault { IfErr result (IfRefused
        (λ refusal. first_refusal bytes.now ≡ Some refusal)) }
{
    match read_all_of_file(alloc, bytes) {
        Ok(contents) => Ok(Module::new(contents)),
        Err(OrNoMemory::NoMemory) => Err(OrNoMemory::NoMemory),
        Err(OrNoMemory::Refused(stop)) => {
            let at = bytes.len() - stop.left;
            Err(OrNoMemory::Refused(FormatRefusal {
                kind: stop.kind,
                at,
            }))
        }
    }
}
