//! The lines of a listing, one by one.

ghost use Rattle.listing.specs.Listing.{channel_line, direction_word, handler_line, instruction_line, procedure_line};
ghost use Rattle.std.specs.Prelude.{◌<◌, ◌≡◌, ◌^◌, IfOk};
ghost use Rattle.std.specs.String.{string_bytes};

use common::Direction;
use labels::PrintedLabel;
use modules::{Channel, Handler, Instruction};
use principals::Hierarchy;
use std::alloc::{AllocError, Global};

fn direction_word(direction: Direction) -> &'static str
    ensures { result.now ≡ direction_word direction }
{
    match direction {
        Direction::Input => "input",
        Direction::Output => "output",
    }
}

/// The line of a channel: its direction, its name, and its label with the names of the hierarchy.
pub(crate) fn channel_line(
    alloc: Global,
    hierarchy: &Hierarchy,
    channel: &Channel,
) -> Result<String, AllocError>
    ensures { IfOk result (λ line. string_bytes line ≡ channel_line hierarchy.now channel.now) }
{
    let direction = direction_word(channel.direction());
    let name = channel.name();
    let label = PrintedLabel {
        hierarchy,
        label: channel.label(),
    };
    format!(in alloc; "{direction} {name} {label}\n")
}

/// The line at which a procedure begins: its number.
pub(crate) fn procedure_line(alloc: Global, number: usize) -> Result<String, AllocError>
    ensures { IfOk result (λ line. string_bytes line ≡ procedure_line number) }
{
    format!(in alloc; "proc {number}\n")
}

/// The line of an instruction: the offset of its first byte, its name and its operand.
pub(crate) fn instruction_line(
    alloc: Global,
    offset: usize,
    instruction: Instruction,
) -> Result<String, AllocError>
    ensures { IfOk result (λ line. string_bytes line ≡ instruction_line offset instruction) }
{
    format!(in alloc; "{offset:08x} {instruction}\n")
}

/// The line of a handler: where its range starts and ends, its exception and its target.
pub(crate) fn handler_line(alloc: Global, handler: Handler) -> Result<String, AllocError>
    ensures { IfOk result (λ line. string_bytes line ≡ handler_line handler) }
{
    let Handler {
        start,
        end,
        exception,
        target,
    } = handler;
    format!(in alloc; "handler {start} {end} {exception} {target}\n")
}
