//! The hierarchy that the statements of a text describe.

ghost use Rattle.common.specs.Answers.{IfRefused};
ghost use Rattle.lexer.specs.Terminal.{terminal_of};
ghost use Rattle.principals.specs.ActsFor.{IsHierarchy};
ghost use Rattle.principals.specs.HierarchyText.{Declares, Relates, refusal_for};
ghost use Rattle.principals.specs.Named.{IsKeptName};
ghost use Rattle.principals.specs.Reading.{declared, entries_of, IsBuilt, IsEntryRefusal, IsFirstRefusal};
ghost use Rattle.principals.specs.Table.{names_of};
ghost use Rattle.principals.specs.declared.fault.HierarchyRefusalKind.TheVariants.{UnknownPrincipal};
ghost use Rattle.std.specs.Prelude.{All, Contains, IfErr, IfOk, OnOk, Some, [], ◌∷◌, ◌++◌, length, slice_get, ◌<◌, ◌≡◌, ◌≤◌};

use crate::Hierarchy;
use crate::fault::{HierFault, HierarchyRefusal, HierarchyRefusalKind};
use crate::principal_set::PrincipalSet;
use crate::reading::HierarchyStatement;
use common::OrNoMemory;
use common::limits::MAX_PRINCIPALS;
use indexmap::IndexSet;
use lexer::Token;
use std::alloc::Global;

/// Declares one more principal.
fn declare(alloc: Global, names: &mut IndexSet<String>, name: &Token<'_>) -> Result<(), HierFault>
    ensures added { OnOk result (names_of names.new ≡ names_of names.old ++ name.now.text.now ∷
        []) }
    ensures fresh { OnOk result (¬ Contains (names_of names.old) name.now.text.now) }
    ensures room { OnOk result (length (names_of names.old) < MAX_PRINCIPALS) }
    ensures rejected { IfErr result (IfRefused
        (IsEntryRefusal (names_of names.old) (Declares (terminal_of name.now)))) }
{
    let full = names.len() >= PrincipalSet::LIMIT;
    let at = name.start;
    if names.contains(name.text) {
        let kind = HierarchyRefusalKind::DeclaredTwice;
        return Err(OrNoMemory::Refused(HierarchyRefusal { kind, at }));
    }
    if full {
        let kind = HierarchyRefusalKind::TooManyPrincipals;
        return Err(OrNoMemory::Refused(HierarchyRefusal { kind, at }));
    }
    names.insert(String::from_str(alloc, name.text)?)?;
    Ok(())
}

/// The number of a principal that was declared before.
fn find_number(names: &IndexSet<String>, name: &Token<'_>) -> Result<u32, HierarchyRefusal>
    requires { length (names_of names.now) ≤ MAX_PRINCIPALS }
    ensures found { IfOk result (λ number. slice_get (names_of names.now) number
        ≡ Some name.now.text.now) }
    ensures unknown { IfErr result (λ refusal. (refusal ≡ refusal_for UnknownPrincipal
        name.now.start) × (¬ Contains (names_of names.now) name.now.text.now)) }
{
    match names.get_index_of(name.text) {
        Some(number) => Ok(number as u32),
        None => Err(HierarchyRefusal {
            kind: HierarchyRefusalKind::UnknownPrincipal,
            at: name.start,
        }),
    }
}

/// The numbers of both names of a pair.
fn find_pair(
    names: &IndexSet<String>,
    left: &Token<'_>,
    right: &Token<'_>,
) -> Result<(u32, u32), HierarchyRefusal>
    requires { length (names_of names.now) ≤ MAX_PRINCIPALS }
    ensures left { IfOk result (λ pair. slice_get (names_of names.now) pair.0
        ≡ Some left.now.text.now) }
    ensures right { IfOk result (λ pair. slice_get (names_of names.now) pair.1
        ≡ Some right.now.text.now) }
    ensures rejected { IfErr result (IsEntryRefusal (names_of names.now)
        (Relates (terminal_of left.now) (terminal_of right.now))) }
{
    let first = find_number(names, left)?;
    let second = find_number(names, right)?;
    Ok((first, second))
}

/// The hierarchy that statements describe, or the first of them that is refused.
pub(crate) fn hierarchy_of(
    alloc: Global,
    statements: &[HierarchyStatement<'_>],
) -> Result<Hierarchy, HierFault>
    requires { All IsKeptName (declared (entries_of statements.now)) }
    ensures described { IfOk result (IsBuilt (entries_of statements.now)) }
    ensures kept { IfOk result IsHierarchy }
    ensures first_fault { IfErr result (IfRefused (IsFirstRefusal (entries_of statements.now))) }
{
    let mut names = IndexSet::new(alloc);
    let mut pairs = Vec::new(alloc);
    for statement in statements {
        match statement {
            HierarchyStatement::Declares(name) => declare(alloc, &mut names, name)?,
            HierarchyStatement::Relates(left, right) => {
                let pair = find_pair(&names, left, right).map_err(OrNoMemory::Refused)?;
                pairs.push(pair)?;
            }
        }
    }
    Ok(Hierarchy::close(alloc, names, pairs)?)
}
