//! Events and answers of a host as words.

use crate::answer::{write, write_lines};
use crate::fault::{LineFault, LineRefusal};
use crate::line::{number_of, words_of};
use crate::texts::Texts;
use bytecode::decode;
use channels::World;
use common::{Message, OrNoMemory, Pair, Reported};
use flowc::{Answer, Event, HostFault, HostRefusal, LoadRefusal};
use machine::Status;
use principals::Hierarchy;
use std::alloc::{AllocError, Global};

/// The event that words ask for: `open MODULE WORLD`, `open MODULE WORLD OTHER` with a world of the inputs of another module,
/// `open_under MODULE WORLD HIER`, `open_under MODULE WORLD HIER OTHER`, `turn ID STEPS`, `view ID PRINCIPAL`, or `close ID`.
pub fn event_of(texts: &Texts, words: &str) -> Result<Event, LineFault> {
    let words = words_of(texts.alloc(), words)?;
    match words.as_slice() {
        ["open", module, world] => open(texts, module, world, module),
        ["open", module, world, other] => open(texts, module, world, other),
        ["open_under", module, world, hier] => open_under(texts, module, world, hier, module),
        ["open_under", module, world, hier, other] => {
            open_under(texts, module, world, hier, other)
        }
        ["turn", id, steps] => Ok(Event::Turn(number_of(id)?, number_of(steps)?)),
        ["view", id, principal] => Ok(Event::View(number_of(id)?, principal_of(principal)?)),
        ["close", id] => Ok(Event::Close(number_of(id)?)),
        _ => Err(OrNoMemory::Refused(LineRefusal::WRONG_FORM)),
    }
}

fn principal_of(word: &str) -> Result<u32, LineFault> {
    match word.parse::<u32>() {
        Ok(number) => Ok(number),
        Err(_) => Err(OrNoMemory::Refused(LineRefusal::WRONG_FORM)),
    }
}

fn open(texts: &Texts, module: &str, world: &str, other: &str) -> Result<Event, LineFault> {
    let bytes = texts.copy(module)?;
    let world = world_of(texts.alloc(), texts.get(other)?, texts.get(world)?)?;
    Ok(Event::Open(bytes, world))
}

fn open_under(
    texts: &Texts,
    module: &str,
    world: &str,
    hier: &str,
    other: &str,
) -> Result<Event, LineFault> {
    let bytes = texts.copy(module)?;
    let world = world_of(texts.alloc(), texts.get(other)?, texts.get(world)?)?;
    let hierarchy = hierarchy_of(texts.alloc(), texts.get(hier)?)?;
    Ok(Event::OpenUnder(bytes, world, hierarchy))
}

// The hierarchy that a text is.
fn hierarchy_of(alloc: Global, text: &[u8]) -> Result<Hierarchy, LineFault> {
    let Ok(text) = str::from_utf8(text) else {
        return Err(OrNoMemory::Refused(LineRefusal::NO_HIERARCHY));
    };
    match Hierarchy::read(alloc, text) {
        Ok(hierarchy) => Ok(hierarchy),
        Err(OrNoMemory::NoMemory) => Err(OrNoMemory::NoMemory),
        Err(OrNoMemory::Refused(_)) => Err(OrNoMemory::Refused(LineRefusal::NO_HIERARCHY)),
    }
}

// The world of a module's inputs that a text is.
fn world_of(alloc: Global, module: &[u8], text: &[u8]) -> Result<World, LineFault> {
    let Ok(text) = str::from_utf8(text) else {
        return Err(OrNoMemory::Refused(LineRefusal::NO_WORLD));
    };
    let program = decode(alloc, module).map_err(OrNoMemory::cast)?;
    World::read(alloc, &program, text).map_err(OrNoMemory::cast)
}

/// Writes what a host answered.
pub fn write_answer(
    alloc: Global,
    answer: &mut Vec<u8>,
    answered: &Answer,
) -> Result<(), LineFault> {
    match answered {
        Answer::Opened(id) => {
            let line = format!(in alloc; "= opened {id}\n")?;
            write(answer, line.as_bytes())
        }
        Answer::Turned(steps, status) => write_turned(alloc, answer, *steps, *status),
        Answer::Viewed(pairs) => write_view(alloc, answer, pairs),
        Answer::Closed => write(answer, b"= closed\n"),
        Answer::Refused(fault) => write_fault(alloc, answer, *fault),
    }
}

fn write_turned(
    alloc: Global,
    answer: &mut Vec<u8>,
    steps: u64,
    status: Status,
) -> Result<(), LineFault> {
    let line = match status {
        Status::Running => format!(in alloc; "= {steps} running\n")?,
        Status::Finished => format!(in alloc; "= {steps} finished\n")?,
        Status::Threw(exception) => format!(in alloc; "= {steps} threw {exception}\n")?,
        Status::Deep => format!(in alloc; "= {steps} deep\n")?,
        Status::NoMemory => format!(in alloc; "= {steps} no memory\n")?,
    };
    write(answer, line.as_bytes())
}

// The number of pairs, and for each the number of its channel and what was sent.
fn write_view(alloc: Global, answer: &mut Vec<u8>, pairs: &[Pair]) -> Result<(), LineFault> {
    let count = pairs.len();
    let line = format!(in alloc; "= viewed {count}\n")?;
    write(answer, line.as_bytes())?;
    for pair in pairs {
        write_pair(alloc, answer, *pair)?;
    }
    Ok(())
}

fn write_pair(alloc: Global, answer: &mut Vec<u8>, pair: Pair) -> Result<(), LineFault> {
    let Pair { channel, number } = pair;
    let line = format!(in alloc; "{channel} {number}\n")?;
    write_lines(answer, b'>', line.as_bytes())
}

fn write_fault(alloc: Global, answer: &mut Vec<u8>, fault: HostFault) -> Result<(), LineFault> {
    write(answer, b"= refused\n")?;
    let line = match fault {
        OrNoMemory::NoMemory => String::from_str(alloc, "no memory\n")?,
        OrNoMemory::Refused(refusal) => line_of(alloc, refusal)?,
    };
    write_lines(answer, b'!', line.as_bytes())
}

// The offset in the bytes, where the refusal has one, its number, and its words.
fn line_of(alloc: Global, refusal: HostRefusal) -> Result<String, AllocError> {
    let Message { number, words } = refusal.message();
    match refusal {
        HostRefusal::Load(LoadRefusal::Bytes(found)) => {
            let offset = found.at;
            format!(in alloc; "{offset}: {number} {words}\n")
        }
        HostRefusal::Load(LoadRefusal::Code(found)) => {
            let (procedure, offset) = (found.procedure, found.offset);
            format!(in alloc; "{procedure}:{offset}: {number} {words}\n")
        }
        HostRefusal::Full
        | HostRefusal::UnknownId
        | HostRefusal::UnknownPrincipal
        | HostRefusal::New(_)
        | HostRefusal::NotContained => format!(in alloc; "{number} {words}\n"),
    }
}
