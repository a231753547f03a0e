ghost use Rattle.channels.specs.Table.{table_of};
ghost use Rattle.channels.specs.World.{is_input};
ghost use Rattle.channels.specs.WorldText as spec;
ghost use Rattle.channels.specs.WorldText.{IsWorldRefusal, IsWorldText, input_of, numbers_in, table_after, texts_of};
ghost use Rattle.common.specs.Answers.{IfRefused, IsCast};
ghost use Rattle.std.specs.Prelude.{[], ◌≡◌, ℕ, List, IfErr, IfOk, OnOk, filter, map};

use crate::kind::{WorldFault, WorldRefusal, WorldRefusalKind};
use crate::world::InputList;
use crate::world_table::{Inputs, entry_of, read_line};
use crate::world_text::{lines_of, words_of};
use common::{Direction, OrNoMemory};
use modules::Channel;
use std::alloc::{AllocError, Global};
use std::collections::BTreeMap;

/// The names of the inputs among channels.
pub fn names_of(alloc: Global, channels: &[Channel]) -> Result<Vec<&str>, AllocError>
    ensures { IfOk result (λ names. texts_of names.items
        ≡ map (λ c. c.name) (filter (λ c. is_input c.direction) channels.now)) }
{
    let mut names = Vec::new(alloc);
    for channel in channels {
        if channel.direction() == Direction::Input {
            names.push(channel.name())?;
        }
    }
    Ok(names)
}

// A table in which nothing is given so far.
fn empty_table<'a>(alloc: Global, names: &[&'a str]) -> Result<Inputs<'a>, AllocError>
    ensures { IfOk result (λ inputs. (name : List ℕ) → table_of inputs name
        ≡ table_after (texts_of names.now) [] name) }
{
    let mut inputs = BTreeMap::new(alloc);
    for name in names {
        inputs.insert(*name, None)?;
    }
    Ok(inputs)
}

/// Reads the lines of a text, or reports the first wrong one.
pub fn read_lines<'a>(
    alloc: Global,
    names: &[&'a str],
    text: &'a str,
) -> Result<Inputs<'a>, WorldFault>
    ensures accepted { OnOk result (IsWorldText (texts_of names.now) (spec.lines_of text.now)) }
    ensures table { IfOk result (λ inputs. (name : List ℕ) → table_of inputs name
        ≡ table_after (texts_of names.now) (spec.lines_of text.now) name) }
    ensures first_fault { IfErr result (IfRefused (IsWorldRefusal (texts_of names.now)
        (spec.lines_of text.now))) }
{
    let mut inputs = empty_table(alloc, names)?;
    let lines = lines_of(alloc, text)?;
    let mut number = 0;
    for line in &lines {
        number += 1;
        let words = words_of(alloc, line)?;
        match read_line(alloc, &mut inputs, &words) {
            Ok(()) => {}
            Err(fault) => return Err(at_line(fault, number)),
        }
    }
    Ok(inputs)
}

// A fault of a line as that of the text.
fn at_line(fault: OrNoMemory<WorldRefusalKind>, line: usize) -> WorldFault
    ensures { IsCast (λ kind refusal. refusal ≡ record { line = line; kind = kind })
        fault result }
{
    match fault {
        OrNoMemory::NoMemory => OrNoMemory::NoMemory,
        OrNoMemory::Refused(kind) => OrNoMemory::Refused(WorldRefusal { line, kind }),
    }
}

// The numbers that a table holds for a name.
fn numbers_for(alloc: Global, inputs: &Inputs<'_>, name: &str) -> Result<Vec<i32>, AllocError>
    ensures { IfOk result (λ numbers. numbers.items ≡ numbers_in (table_of inputs.now name.now)) }
{
    match entry_of(inputs, name) {
        Some(Some(numbers)) => Vec::from_slice(alloc, numbers),
        _ => Ok(Vec::new(alloc)),
    }
}

/// The inputs of these names with the numbers that a table holds for them.
pub fn inputs_of(
    alloc: Global,
    names: &[&str],
    inputs: &Inputs<'_>,
) -> Result<Vec<InputList>, AllocError>
    ensures { IfOk result (λ lists. lists.items ≡ map (input_of (table_of inputs.now))
        (texts_of names.now)) }
{
    let mut lists = Vec::new(alloc);
    for name in names {
        let numbers = numbers_for(alloc, inputs, name)?;
        let name = String::from_str(alloc, name)?;
        lists.push(InputList::new(name, numbers))?;
    }
    Ok(lists)
}
