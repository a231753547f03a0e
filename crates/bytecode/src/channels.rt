//! Reading of channels.

ghost use Rattle.modules.specs.ByteFormat.{Counted, each_at, read};
ghost use Rattle.modules.specs.Format.{any, channel_after, declared, direction};
ghost use Rattle.bytecode.specs.Reading.{Decodes, texts};
ghost use Rattle.std.specs.BTreeSet.{contains_text};
ghost use Rattle.std.specs.Prelude.{[], length};

use crate::hierarchy::read_label;
use crate::names::{read_exceptions, read_name, take, take_built_in};
use crate::reading::{FieldFault, read_byte, read_number, refuse};
use common::Direction;
use modules::FormatRefusalKind;
use modules::channel::Channel;
use principals::Hierarchy;
use std::alloc::Global;
use std::collections::BTreeSet;

/// The direction of a channel.
#[tactic(auto, unfolding(modules::specs::Format::direction))]
fn read_direction(bytes: &[u8]) -> Result<(Direction, &[u8]), FieldFault>
    ensures { Decodes (λ x. (x.0, x.1.now)) result (read direction bytes.now) }
{
    let (direction, rest) = read_byte(bytes)?;
    match direction {
        0 => Ok((Direction::Input, rest)),
        1 => Ok((Direction::Output, rest)),
        _ => Err(refuse(FormatRefusalKind::BadValue, bytes)),
    }
}

/// A channel whose name is not taken, with a label among this many principals.
#[tactic(auto, unfolding(modules::specs::Format::channel_after))]
fn read_channel<'a>(
    alloc: Global,
    principals: u32,
    taken: &BTreeSet<String>,
    bytes: &'a [u8],
) -> Result<(Channel, &'a [u8]), FieldFault>
    ensures { Decodes (λ x. (x.0, x.1.now)) result
        (read (channel_after principals (contains_text taken.now) []) bytes.now) }
{
    let (direction, rest) = read_direction(bytes)?;
    let (name, rest) = read_name(alloc, taken, rest)?;
    let (label, rest) = read_label(alloc, principals, rest)?;
    Ok((Channel::new(direction, name, label), rest))
}

/// This many channels, none of whose names is taken before.
fn read_channels(
    alloc: Global,
    principals: u32,
    mut taken: BTreeSet<String>,
    count: u32,
    bytes: &[u8],
) -> Result<(Vec<Channel>, &[u8]), FieldFault>
    ensures { Decodes (λ x. (x.0.items, x.1.now)) result
        (each_at (λ before rest. read (channel_after principals (contains_text taken) before) rest)
        count [] bytes.now) }
{
    let mut channels = Vec::new(alloc);
    let mut rest = bytes;
    for _ in 0..count {
        let (channel, after) = read_channel(alloc, principals, &taken, rest)?;
        take(alloc, &mut taken, channel.name())?;
        channels.push(channel)?;
        rest = after;
    }
    channels.shrink_to_fit();
    Ok((channels, rest))
}

/// The channels after their count, none of whose names is taken before.
fn read_counted_channels(
    alloc: Global,
    principals: u32,
    taken: BTreeSet<String>,
    bytes: &[u8],
) -> Result<(Vec<Channel>, &[u8]), FieldFault>
    ensures { Decodes (λ x. (x.0.items, x.1.now)) result
        (read (Counted any (channel_after principals (contains_text taken))) bytes.now) }
{
    let (count, rest) = read_number(bytes)?;
    read_channels(alloc, principals, taken, count, rest)
}

/// The names of the declared exceptions, and the channels with labels among the principals of the hierarchy.
#[tactic(auto, unfolding(modules::specs::Format::declared, modules::specs::FormatParts::exceptions))]
pub(crate) fn read_declared<'a>(
    alloc: Global,
    hierarchy: &Hierarchy,
    bytes: &'a [u8],
) -> Result<(Vec<String>, Vec<Channel>, &'a [u8]), FieldFault>
    ensures { Decodes (λ x. ((texts x.0.items, x.1.items), x.2.now)) result
        (read (declared (length hierarchy.now.names)) bytes.now) }
{
    let mut taken = take_built_in(alloc)?;
    let (exceptions, rest) = read_exceptions(alloc, &mut taken, bytes)?;
    let (channels, rest) = read_counted_channels(alloc, hierarchy.count(), taken, rest)?;
    Ok((exceptions, channels, rest))
}
