//! What names stand for, and the uses that places make of them.

ghost use Rattle.std.specs.BTreeMap.{get_by_text};
ghost use Rattle.types.specs.Environment.{array_of, declaring, fresh_finding, item_of, scalar_of, use_as, variable_of};
ghost use Rattle.types.specs.Finding.{give};
ghost use Rattle.types.specs.Views.{Resolves, array_use, found_in, itself, or_else, scalar_use, texts_of, without};
ghost use Rattle.types.specs.Resolution.{nothing_declared};
ghost use Rattle.types.specs.ShortNames as spec;
ghost use Rattle.std.specs.Prelude.{IfSome, IsTrue, OnOk, List, [], ◌∷◌, ◌≡◌, ◌≤◌, None, Some, length, true, ℕ};

use crate::fault::{TypeFault, TypeRefusal, TypeRefusalKind};
use crate::short_names::ShortNames;
use common::{BaseType, Direction, OrNoMemory};
use resolved::expression::Variable;
use std::alloc::Global;
use std::collections::BTreeMap;

/// The most bytes of a short name.
pub const MOST_SHORT: usize = 15;

/// The most bytes of a name whose number fits 64 bits.
const MOST_IN_WORD: usize = 7;

/// What an item is that is no variable.
#[derive(Clone, Copy, Debug, PartialEq, Eq)]
pub enum ItemKind {
    Channel(Direction),
    Exception,
    Procedure,
}

/// What a name stands for: an item of a kind, by its number, or a global, parameter or local, with the type of its values and, if it
/// is an array, its length. Channels are numbered in their order, inputs and outputs together; so are globals, procedures and
/// exceptions, of which 0, 1 and 2 are `Arith`, `Bounds` and `End`; a local has the number of its slot.
#[derive(Clone, Copy, Debug, PartialEq, Eq)]
pub enum Meaning {
    Item(ItemKind, u32),
    Variable(Variable, BaseType, Option<u32>),
}

/// A scalar that is used.
#[derive(Clone, Copy, Debug)]
pub struct FoundScalar {
    pub variable: Variable,
    pub base: BaseType,
}

/// An array that is used.
#[derive(Clone, Copy, Debug)]
pub struct FoundArray {
    pub variable: Variable,
    pub base: BaseType,
    pub size: u32,
}

/// What names stand for. A short name is looked up by its number, which is compared at once, and any other one by its text, in an
/// ordered table.
#[derive(Drop)]
pub struct Names {
    pub short: ShortNames,
    pub long: BTreeMap<String, Meaning>,
}

impl Names {
    /// A table by which no name stands for anything.
    pub fn new(alloc: Global) -> Names
        ensures { found_in result ≡ nothing_declared }
    {
        Names {
            short: ShortNames::new(alloc),
            long: BTreeMap::new(alloc),
        }
    }
}

/// The number of a name that fits a word.
#[inline(always)]
fn word_of(name: &[u8]) -> u64
    requires { length name.now ≤ MOST_IN_WORD }
    ensures value { result ≡ spec.digits name.now }
    ensures bytes { spec.are_bytes name.now ≡ true }
{
    let mut number = 1;
    let mut at = name.len();
    while at > 0 {
        at -= 1;
        number = number * 256 + name[at] as u64;
    }
    number
}

/// The number of a short name: its bytes are the digits, the first one the last digit, after a 1.
#[inline(always)]
fn number_of(name: &[u8]) -> Option<u128>
    ensures { result ≡ spec.number_of name.now }
{
    if name.len() <= MOST_IN_WORD {
        return Some(word_of(name) as u128);
    }
    if name.len() > MOST_SHORT {
        return None;
    }
    let mut number = 1;
    let mut at = name.len();
    while at > 0 {
        at -= 1;
        number = number * 256 + name[at] as u128;
    }
    Some(number)
}

/// What a name stands for by a table.
pub fn find(table: &Names, name: &str) -> Option<Meaning>
    ensures { result ≡ found_in table.now name.now }
{
    match number_of(name.as_bytes()) {
        Some(number) => table.short.find(number),
        None => table.long.get(name).copied(),
    }
}

/// What a name that is not short stands for by a table, or else by another one.
#[inline(never)]
fn find_long_in_either(first: &Names, second: &Names, name: &str) -> Option<Meaning>
    ensures { result ≡ or_else (get_by_text first.now.long name.now)
        (get_by_text second.now.long name.now) }
{
    match first.long.get(name).copied() {
        Some(meaning) => Some(meaning),
        None => second.long.get(name).copied(),
    }
}

/// What a name stands for by a table, or else by another one. The number of a short name is made once.
#[inline(always)]
pub fn find_in_either(first: &Names, second: &Names, name: &str) -> Option<Meaning>
    ensures { result ≡ or_else (found_in first.now name.now) (found_in second.now name.now) }
{
    match number_of(name.as_bytes()) {
        Some(number) => match first.short.find(number) {
            Some(meaning) => Some(meaning),
            None => second.short.find(number),
        },
        None => find_long_in_either(first, second, name),
    }
}

/// What a short name stands for by a table, or else by another one, where their buckets alone tell that, as most do.
#[inline(always)]
pub fn find_at_once<'t>(first: &'t Names, second: &'t Names, name: &str) -> Option<&'t Meaning>
    ensures { IfSome result (λ meaning.
        or_else (found_in first.now name.now) (found_in second.now name.now) ≡ Some meaning.now) }
{
    let Some(number) = number_of(name.as_bytes()) else {
        return None;
    };
    if let Some(meaning) = first.short.find_at_once(number) {
        return Some(meaning);
    }
    if first.short.lacks_at_once(number) {
        return second.short.find_at_once(number);
    }
    None
}

/// Whether the buckets of two tables alone tell that a short name stands for nothing.
#[inline(always)]
pub fn lack_at_once(first: &Names, second: &Names, name: &str) -> bool
    ensures { IsTrue result →
        or_else (found_in first.now name.now) (found_in second.now name.now) ≡ None }
{
    match number_of(name.as_bytes()) {
        Some(number) => first.short.lacks_at_once(number) && second.short.lacks_at_once(number),
        None => false,
    }
}

/// Puts a name into a table, where it has this meaning from now on.
#[inline(always)]
pub fn insert(
    alloc: Global,
    table: &mut Names,
    name: &str,
    meaning: Meaning,
) -> Result<(), TypeFault>
    ensures { Resolves (λ _. λ (other : List ℕ). found_in table.new other) result
        (give (declaring name.now meaning (found_in table.old))) }
{
    match number_of(name.as_bytes()) {
        Some(number) => {
            table.short.insert(alloc, number, meaning)?;
        }
        None => {
            table.long.insert(String::from_str(alloc, name)?, meaning)?;
        }
    }
    Ok(())
}

/// Takes a name out of a table.
fn remove(table: &mut Names, name: &str)
    ensures { (other : List ℕ) → found_in table.new other ≡
        without (name.now ∷ []) (found_in table.old) other }
{
    match number_of(name.as_bytes()) {
        Some(number) => {
            table.short.remove(number);
        }
        None => {
            table.long.remove(name);
        }
    }
}

/// Takes names out of a table.
pub fn remove_all(table: &mut Names, names: &[&str])
    ensures { (other : List ℕ) → found_in table.new other ≡
        without (texts_of names.now) (found_in table.old) other }
{
    for name in names {
        remove(table, name);
    }
}

/// Requires that a name stands for nothing yet, so that it may be declared.
///
/// # Errors
///
/// 302 where it stands for something already.
#[tactic(auto, unfolding(crate::specs::Environment::fresh_finding))]
pub fn require_fresh(found: Option<Meaning>, at: usize) -> Result<(), TypeFault>
    ensures made { Resolves (λ _. tt) result (fresh_finding found at) }
    ensures none { OnOk result (found ≡ None) }
{
    match found {
        None => Ok(()),
        Some(_) => Err(OrNoMemory::Refused(TypeRefusal {
            kind: TypeRefusalKind::DeclaredTwice,
            at,
        })),
    }
}

/// Requires that a name stands for a scalar, and gives its variable and type.
///
/// # Errors
///
/// 301 where it stands for nothing, 403 where it stands for something else than a scalar.
#[tactic(auto, unfolding(crate::specs::Environment::use_as))]
pub fn require_scalar(found: Option<Meaning>, at: usize) -> Result<FoundScalar, TypeFault>
    ensures { Resolves scalar_use result (use_as scalar_of found at) }
{
    match found {
        None => Err(OrNoMemory::Refused(TypeRefusal {
            kind: TypeRefusalKind::UnknownName,
            at,
        })),
        Some(Meaning::Variable(variable, base, None)) => Ok(FoundScalar { variable, base }),
        Some(Meaning::Item(_, _) | Meaning::Variable(_, _, Some(_))) => {
            Err(OrNoMemory::Refused(TypeRefusal {
                kind: TypeRefusalKind::WrongUse,
                at,
            }))
        }
    }
}

/// Requires that a name stands for an array, and gives its variable, type and length.
///
/// # Errors
///
/// 301 where it stands for nothing, 403 where it stands for something else than an array.
#[tactic(auto, unfolding(crate::specs::Environment::use_as))]
pub fn require_array(found: Option<Meaning>, at: usize) -> Result<FoundArray, TypeFault>
    ensures { Resolves array_use result (use_as array_of found at) }
{
    match found {
        None => Err(OrNoMemory::Refused(TypeRefusal {
            kind: TypeRefusalKind::UnknownName,
            at,
        })),
        Some(Meaning::Variable(variable, base, Some(size))) => Ok(FoundArray {
            variable,
            base,
            size,
        }),
        Some(Meaning::Item(_, _) | Meaning::Variable(_, _, None)) => {
            Err(OrNoMemory::Refused(TypeRefusal {
                kind: TypeRefusalKind::WrongUse,
                at,
            }))
        }
    }
}

/// Requires that a name stands for a variable, scalar or array, and gives it.
///
/// # Errors
///
/// 301 where it stands for nothing, 403 where it stands for something else than a variable.
#[tactic(auto, unfolding(crate::specs::Environment::use_as))]
pub fn require_variable(found: Option<Meaning>, at: usize) -> Result<Variable, TypeFault>
    ensures { Resolves itself result (use_as variable_of found at) }
{
    match found {
        None => Err(OrNoMemory::Refused(TypeRefusal {
            kind: TypeRefusalKind::UnknownName,
            at,
        })),
        Some(Meaning::Variable(variable, _, _)) => Ok(variable),
        Some(Meaning::Item(_, _)) => Err(OrNoMemory::Refused(TypeRefusal {
            kind: TypeRefusalKind::WrongUse,
            at,
        })),
    }
}

/// The number of an item of a kind, if the meaning is one.
fn number_of_item(kind: ItemKind, meaning: Meaning) -> Option<u32>
    ensures { result ≡ item_of kind meaning }
{
    match meaning {
        Meaning::Item(other, number) => { if other == kind { Some(number) } else { None } }
        Meaning::Variable(_, _, _) => None,
    }
}

/// Requires that a name stands for an item of a kind, and gives its number.
///
/// # Errors
///
/// 301 where it stands for nothing, 403 where it stands for something else.
#[tactic(auto, unfolding(crate::specs::Environment::use_as))]
pub fn require_item(kind: ItemKind, found: Option<Meaning>, at: usize) -> Result<u32, TypeFault>
    ensures { Resolves itself result (use_as (item_of kind) found at) }
{
    let Some(meaning) = found else {
        return Err(OrNoMemory::Refused(TypeRefusal {
            kind: TypeRefusalKind::UnknownName,
            at,
        }));
    };
    match number_of_item(kind, meaning) {
        Some(number) => Ok(number),
        None => Err(OrNoMemory::Refused(TypeRefusal {
            kind: TypeRefusalKind::WrongUse,
            at,
        })),
    }
}
