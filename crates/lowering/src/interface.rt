//! What a graph shows before any run: the hierarchy, the exceptions, the channels and the globals.
ghost use Rattle.labels.specs.Label.{Label};
ghost use Rattle.resolved.specs.ProgramOf.{channel_entry, global_entry};
ghost use Rattle.lowering.specs.Interface.{declared_global, global_contents, hierarchy_contents, scalar_global};
ghost use Rattle.lowering.specs.Fitting.{IsShortValue};
ghost use Rattle.std.specs.Prelude.{All, IfOk, List, map, ◌≡◌};

use common::{BaseType, Value};
use labels::LabelTable;
use modules::Channel;
use principals::Hierarchy;
use resolved::tables;
use std::alloc::{AllocError, Global};

/// The same principals, with the written pairs in ascending order, each once.
pub(crate) fn hierarchy_of(alloc: Global, hierarchy: &Hierarchy) -> Result<Hierarchy, AllocError>
    ensures { IfOk result (λ made. made ≡ hierarchy_contents hierarchy.now) }
{
    // Its contract says that the names are different and few, and that the pairs are of principals that are there.
    let _kept = hierarchy.count();
    let mut names = Vec::new(alloc);
    for name in hierarchy.names() {
        names.push(name.clone()?)?;
    }
    let mut pairs = Vec::from_slice(alloc, hierarchy.pairs())?;
    pairs.sort_unstable();
    pairs.dedup();
    Hierarchy::of(alloc, names, pairs)
}

/// The same channels, in their order, each with its whole label.
pub(crate) fn channels_of(
    alloc: Global,
    labels: &LabelTable,
    channels: &[tables::Channel],
) -> Result<Vec<Channel>, AllocError>
    ensures { IfOk result (λ made. made.items ≡ map (channel_entry labels.now) channels.now) }
{
    let mut made = Vec::new(alloc);
    for channel in channels {
        made.push(Channel::new(
            channel.direction,
            channel.name.clone()?,
            labels.label(alloc, channel.label)?,
        ))?;
    }
    Ok(made)
}

/// The global that holds a value at first.
fn scalar_global(value: Value) -> modules::Global
    ensures exact { result ≡ scalar_global value }
    ensures short { IsShortValue value }
{
    match value {
        Value::Int(number) => modules::Global::Int(number),
        Value::Bool(truth) => modules::Global::Boolean(truth),
    }
}

/// A scalar global that holds a value at first, or an array with its number of elements.
fn declared_global(base: BaseType, size: Option<u32>, first: Value) -> modules::Global
    ensures exact { result ≡ declared_global base size first }
    ensures short { IsShortValue first }
{
    match size {
        None => scalar_global(first),
        Some(count) => modules::Global::Array(base, count),
    }
}

/// The globals, in their order; what they hold at first is of 32 bits.
pub(crate) fn globals_of(
    alloc: Global,
    globals: &[tables::GlobalVariable],
) -> Result<Vec<modules::Global>, AllocError>
    ensures exact { (labels : List Label) → IfOk result (λ made.
        made.items ≡ map global_contents (map (global_entry labels) globals.now)) }
    ensures short { (labels : List Label) → IfOk result (λ _.
        All (λ entry. IsShortValue entry.first) (map (global_entry labels) globals.now)) }
{
    let mut made = Vec::new(alloc);
    for variable in globals {
        made.push(declared_global(variable.base, variable.size, variable.first))?;
    }
    Ok(made)
}
