ghost use Rattle.channels.specs.Table.{table_of};
ghost use Rattle.channels.specs.WorldText as spec;
ghost use Rattle.channels.specs.WorldText.{table_refusal, table_with, texts_of};
ghost use Rattle.common.specs.Answers.{IfRefused};
ghost use Rattle.std.specs.List.{list_all};
ghost use Rattle.std.specs.Option.{option_map};
ghost use Rattle.std.specs.Prelude.{◌≡◌, ℕ, List, IfErr, IfOk, IsTrue, None, OnOk, Some, if◌then◌else◌, map};

use crate::kind::WorldRefusalKind;
use crate::world_text::{has_form, number_of};
use common::OrNoMemory;
use std::alloc::{AllocError, Global};
use std::collections::BTreeMap;

/// What a table of inputs holds: nothing so far, or the numbers of the line that names the input. The names are a stranger's, so
/// the table is ordered: no choice of names makes looking them up slow, as colliding hashes would.
pub type Inputs<'a> = BTreeMap<&'a str, Option<Vec<i32>>>;

// The numbers that words write, where each has 32 bits.
fn numbers_of(alloc: Global, words: &[&str]) -> Result<Option<Vec<i32>>, AllocError>
    requires { IsTrue (list_all spec.is_number (texts_of words.now)) }
    ensures { IfOk result (λ numbers. option_map (λ n. n.items) numbers
        ≡ (if list_all spec.is_int (map spec.number_of (texts_of words.now))
        then Some (map spec.number_of (texts_of words.now))
        else None)) }
{
    let mut numbers = Vec::new(alloc);
    for word in words {
        let Some(number) = number_of(word) else {
            return Ok(None);
        };
        numbers.push(number)?;
    }
    Ok(Some(numbers))
}

/// What a table holds for a name: nothing where no input has it, else the numbers of its line if there was one.
pub fn entry_of<'t>(inputs: &'t Inputs<'_>, name: &str) -> Option<&'t Option<Vec<i32>>>
    ensures { option_map (λ entry. option_map (λ n. n.items) entry.now) result
        ≡ table_of inputs.now name.now }
{
    inputs.get(name)
}

/// Reads a line into the table, or reports what is wrong with it.
pub fn read_line<'a>(
    alloc: Global,
    inputs: &mut Inputs<'a>,
    words: &[&'a str],
) -> Result<(), OrNoMemory<WorldRefusalKind>>
    ensures accepted { OnOk result
        (table_refusal (table_of inputs.old) (texts_of words.now) ≡ None) }
    ensures table { OnOk result ((name : List ℕ) → table_of inputs.new name
        ≡ table_with (table_of inputs.old) (texts_of words.now) name) }
    ensures rejected { IfErr result (IfRefused (λ kind.
        table_refusal (table_of inputs.old) (texts_of words.now) ≡ Some kind)) }
{
    if !has_form(words) {
        return Err(OrNoMemory::Refused(WorldRefusalKind::Syntax));
    }
    let [name, _, rest @ ..] = words else {
        return Ok(());
    };
    match entry_of(inputs, name) {
        None => return Err(OrNoMemory::Refused(WorldRefusalKind::UnknownChannel)),
        Some(Some(_)) => return Err(OrNoMemory::Refused(WorldRefusalKind::RepeatedChannel)),
        Some(None) => {}
    }
    let Some(numbers) = numbers_of(alloc, rest)? else {
        return Err(OrNoMemory::Refused(WorldRefusalKind::NumberOutOfRange));
    };
    inputs.insert(*name, Some(numbers))?;
    Ok(())
}
