//! Reading of names.

ghost use Rattle.modules.specs.ByteFormat.{each_at, read};
ghost use Rattle.modules.specs.Format.{is_among, name_after};
ghost use Rattle.modules.specs.FormatParts.{exceptions, is_built_in, is_new_name};
ghost use Rattle.bytecode.specs.Reading.{Decodes, texts};
ghost use Rattle.std.specs.BTreeSet.{contains_text};
ghost use Rattle.std.specs.Prelude.{[], bytes_eq, false, IfOk, List, MatchOption, OnOk, true, ℕ, ◌||◌, ◌≡◌};
ghost use Rattle.std.specs.String.{string_bytes};

use crate::reading::{FieldFault, read_number, read_text, refuse};
use common::exceptions::{ARITH_NAME, BOUNDS_NAME, END_NAME};
use lexer::is_name;
use modules::FormatRefusalKind;
use std::alloc::{AllocError, Global};
use std::collections::BTreeSet;

/// The text as a name, where it is one that is not taken.
fn read_new_name<'a>(taken: &BTreeSet<String>, text: &'a [u8]) -> Option<&'a str>
    ensures { MatchOption result (is_new_name (contains_text taken.now) [] text.now ≡ false)
        (λ name. (name.now ≡ text.now) × (is_new_name (contains_text taken.now) []
        text.now ≡ true)) }
{
    let Ok(name) = str::from_utf8(text) else {
        return None;
    };
    if is_name(name) && !taken.contains(name) {
        Some(name)
    } else {
        None
    }
}

/// A name that is not taken.
#[tactic(auto, unfolding(modules::specs::Format::name_after))]
pub(crate) fn read_name<'a>(
    alloc: Global,
    taken: &BTreeSet<String>,
    bytes: &'a [u8],
) -> Result<(String, &'a [u8]), FieldFault>
    ensures { Decodes (λ x. (string_bytes x.0, x.1.now)) result
        (read (name_after (contains_text taken.now) []) bytes.now) }
{
    let (size, rest) = read_number(bytes)?;
    let (name, rest) = read_text(size as usize, rest)?;
    let Some(name) = read_new_name(taken, name) else {
        return Err(refuse(FormatRefusalKind::BadValue, bytes));
    };
    Ok((String::from_str(alloc, name)?, rest))
}

/// Takes a name.
pub(crate) fn take(
    alloc: Global,
    taken: &mut BTreeSet<String>,
    name: &str,
) -> Result<(), AllocError>
    ensures { OnOk result ((q : List ℕ) → contains_text taken.new q
        ≡ (contains_text taken.old q || bytes_eq name.now q)) }
{
    taken.insert(String::from_str(alloc, name)?)?;
    Ok(())
}

/// This many names, none of which is taken before. They are taken then.
pub(crate) fn read_names<'a>(
    alloc: Global,
    taken: &mut BTreeSet<String>,
    count: u32,
    bytes: &'a [u8],
) -> Result<(Vec<String>, &'a [u8]), FieldFault>
    ensures gives { Decodes (λ x. (texts x.0.items, x.1.now)) result
        (each_at (λ before rest. read (name_after (contains_text taken.old) before) rest) count []
        bytes.now) }
    ensures taken { IfOk result (λ x. (q : List ℕ) → contains_text taken.new q
        ≡ (contains_text taken.old q || is_among (texts x.0.items) q)) }
{
    let mut names = Vec::new(alloc);
    let mut rest = bytes;
    for _ in 0..count {
        let (name, after) = read_name(alloc, taken, rest)?;
        take(alloc, taken, name.as_str())?;
        names.push(name)?;
        rest = after;
    }
    names.shrink_to_fit();
    Ok((names, rest))
}

/// This many names, where none is taken before.
pub(crate) fn read_first_names(
    alloc: Global,
    count: u32,
    bytes: &[u8],
) -> Result<(Vec<String>, &[u8]), FieldFault>
    ensures { Decodes (λ x. (texts x.0.items, x.1.now)) result
        (each_at (λ before rest. read (name_after (λ _. false) before) rest) count [] bytes.now) }
{
    let mut taken = BTreeSet::new(alloc);
    read_names(alloc, &mut taken, count, bytes)
}

/// The names of the built-in exceptions, as those that are taken before any is declared.
pub(crate) fn take_built_in(alloc: Global) -> Result<BTreeSet<String>, AllocError>
    ensures { IfOk result (λ taken. (q : List ℕ) → contains_text taken q ≡ is_built_in q) }
{
    let mut taken = BTreeSet::new(alloc);
    take(alloc, &mut taken, ARITH_NAME)?;
    take(alloc, &mut taken, BOUNDS_NAME)?;
    take(alloc, &mut taken, END_NAME)?;
    Ok(taken)
}

/// The declared exceptions after their count, where the built-in ones are taken.
#[tactic(auto, unfolding(modules::specs::FormatParts::exceptions))]
pub(crate) fn read_exceptions<'a>(
    alloc: Global,
    taken: &mut BTreeSet<String>,
    bytes: &'a [u8],
) -> Result<(Vec<String>, &'a [u8]), FieldFault>
    requires { (q : List ℕ) → contains_text taken.old q ≡ is_built_in q }
    ensures gives { Decodes (λ x. (texts x.0.items, x.1.now)) result (read exceptions bytes.now) }
    ensures taken { IfOk result (λ x. (q : List ℕ) → contains_text taken.new q
        ≡ (is_built_in q || is_among (texts x.0.items) q)) }
{
    let (count, rest) = read_number(bytes)?;
    read_names(alloc, taken, count, rest)
}
