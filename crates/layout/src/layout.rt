//! From graphs to modules.
ghost use Rattle.modules.specs.Code.{code_length};
ghost use Rattle.modules.specs.ByteFormat.{Fits};
ghost use Rattle.modules.specs.Format.{module_file};
ghost use Rattle.layout.specs.Graph.{HasPositions};
ghost use Rattle.layout.specs.SameRuns.{SameInterface, SameRuns};
ghost use Rattle.layout.specs.Offsets.{laid_out, laid_out_procedure};
ghost use Rattle.layout.specs.Starts.{HasStarts};
ghost use Rattle.std.specs.Prelude.{All, IfOk, map, ◌<◌, ◌^◌, ◌≡◌};
ghost use Rattle.std.specs.String.{string_bytes};

use crate::code::lay_out_procedure;
use crate::graph::Graph;
use modules::{Channel, Contents, Module, Procedure};
use std::alloc::{AllocError, Global};

/// The same names, in their order.
///
/// # Errors
///
/// Memory ran out.
pub fn copy_names(alloc: Global, names: &[String]) -> Result<Vec<String>, AllocError>
    ensures { IfOk result (λ made.
        map (λ name. string_bytes name) made.items ≡ map (λ name. string_bytes name) names.now) }
{
    let mut made = Vec::new(alloc);
    for name in names {
        made.push(name.clone()?)?;
    }
    Ok(made)
}

/// The same channels.
fn copy_channels(alloc: Global, channels: &[Channel]) -> Result<Vec<Channel>, AllocError>
    ensures { IfOk result (λ made. made.items ≡ channels.now) }
{
    let mut made = Vec::new(alloc);
    for channel in channels {
        let name = String::from_str(alloc, channel.name())?;
        let label = channel.label().clone()?;
        made.push(Channel::new(channel.direction(), name, label))?;
    }
    Ok(made)
}

/// The procedures with byte offsets instead of positions.
fn lay_out_procedures(alloc: Global, procedures: &[Procedure]) -> Result<Vec<Procedure>, AllocError>
    requires short { All (λ procedure. code_length procedure.code < 2 ^ 32) procedures.now }
    requires positions { All HasPositions procedures.now }
    ensures { IfOk result (λ made. made.items ≡ map laid_out_procedure procedures.now) }
{
    let mut table = Vec::new(alloc);
    let mut made = Vec::with_capacity(alloc, procedures.len())?;
    for procedure in procedures {
        made.push(lay_out_procedure(alloc, &mut table, procedure)?)?;
    }
    Ok(made)
}

/// The module that a graph is laid out as: the same with byte offsets instead of positions.
///
/// The module runs as the graph does, has the graph's interface, and has a spelling. Each of its
/// targets is an instruction's first byte.
///
/// # Errors
///
/// Memory ran out.
pub fn emit(alloc: Global, graph: &Graph) -> Result<Module, AllocError>
    ensures contents { IfOk result (λ m. m ≡ laid_out graph.now) }
    ensures runs { IfOk result (λ m. SameRuns graph.now m) }
    ensures interface { IfOk result (λ m. SameInterface graph.now m) }
    ensures spelled { IfOk result (λ m. Fits module_file m) }
    ensures starts { IfOk result (λ m. All HasStarts m.procedures) }
{
    let contents = graph.contents();
    Ok(Module::new(Contents {
        version: contents.version,
        hierarchy: contents.hierarchy.clone()?,
        exceptions: copy_names(alloc, &contents.exceptions)?,
        channels: copy_channels(alloc, &contents.channels)?,
        globals: Vec::from_slice(alloc, &contents.globals)?,
        procedures: lay_out_procedures(alloc, &contents.procedures)?,
        main: contents.main,
    }))
}
