//! The phases that come before labels, in their order.

ghost use Rattle.acceptance.specs.Accepted.{IsResolvedFrom, IsTreeOf, text_fault};
ghost use Rattle.checker.specs.Found.{IsBeforeLabels, IsFoundRefusal};
ghost use Rattle.common.specs.Answers.{IfRefused};
ghost use Rattle.path_map.specs.EndsOf.{AreEndsOf};
ghost use Rattle.principals.specs.ActsFor.{PrincipalHierarchy};
ghost use Rattle.resolved.specs.CoreOf.{program_of};
ghost use Rattle.resolved.specs.Labelled.{exit_faults};
ghost use Rattle.std.specs.Prelude.{IfErr, IfOk, [], ◌≡◌};
ghost use Rattle.syntax.specs.Tree.{program_tree};

use acceptance::RefusalKind;
use bumpalo::Bump;
use common::limits::MAX_TEXT;
use common::{OrNoMemory, RefusalAt};
use lexer::lex;
use parser::parse;
use path_map::{Ends, ends};
use principals::Hierarchy;
use resolved::program::Core;
use std::alloc::Global;
use types::resolve;

/// A source without a fault before its labels: its resolved program, and the possible exits of each statement and block of it.
#[derive(Drop)]
pub(crate) struct Analysed {
    pub core: Core,
    pub ends: Ends,
}

/// Analyses a source under a hierarchy, phase by phase: its length, its tokens, its tree, its names, types and sizes, and the exits of
/// its statements.
pub(crate) fn analyse(
    alloc: Global,
    hierarchy: &Hierarchy,
    source: &str,
) -> Result<Analysed, OrNoMemory<RefusalAt<RefusalKind>>>
    // The program is the one that the source stands for, and has no fault of its exits.
    ensures resolved { IfOk result (λ analysed.
        IsResolvedFrom hierarchy.now source.now (program_of analysed.core)) }
    ensures ended { IfOk result (λ analysed. exit_faults (program_of analysed.core) ≡ []) }

    // The exits are those of its statements and blocks.
    ensures mapped { IfOk result (λ analysed.
        AreEndsOf (program_of analysed.core) analysed.ends) }

    // A refusal is the first fault, at its byte, and not one of labels.
    ensures first_fault { IfErr result (IfRefused (IsFoundRefusal hierarchy.now source.now)) }
    ensures before_labels { IfErr result (IfRefused IsBeforeLabels) }
{
    if source.len() > MAX_TEXT {
        return Err(OrNoMemory::Refused(RefusalAt {
            kind: RefusalKind::TextTooLong,
            at: 0,
        }));
    }
    let core = resolve_source(alloc, hierarchy, source)?;
    let ends = ends(alloc, &core).map_err(OrNoMemory::cast_kind)?;
    Ok(Analysed { core, ends })
}

// The resolved program that a source stands for. Its tree is given up at the end.
fn resolve_source(
    alloc: Global,
    hierarchy: &Hierarchy,
    source: &str,
) -> Result<Core, OrNoMemory<RefusalAt<RefusalKind>>>
    requires text { text_fault source.now ≡ None }
    ensures resolved { IfOk result (λ core.
        IsResolvedFrom hierarchy.now source.now (program_of core)) }
    ensures first_fault { IfErr result (IfRefused (IsFoundRefusal hierarchy.now source.now)) }
    ensures before_labels { IfErr result (IfRefused IsBeforeLabels) }
{
    let arena = Bump::new(alloc);
    let tree = read(alloc, &arena, source)?;
    let core = resolve(alloc, tree, hierarchy).map_err(OrNoMemory::cast_kind)?;
    Ok(core)
}

// The tree that a source spells, whose names are slices of it, and whose operands lie in an arena.
fn read<'a>(
    alloc: Global,
    arena: &'a Bump,
    source: &'a str,
) -> Result<syntax::Program<'a>, OrNoMemory<RefusalAt<RefusalKind>>>
    requires text { text_fault source.now ≡ None }
    ensures spelled { IfOk result (λ tree. IsTreeOf source.now (program_tree tree)) }
    ensures first_fault { (h : PrincipalHierarchy) → IfErr result (IfRefused
        (IsFoundRefusal h source.now)) }
    ensures before_labels { IfErr result (IfRefused IsBeforeLabels) }
{
    let tokens = lex(alloc, source).map_err(OrNoMemory::cast_kind)?;
    let tree = parse(alloc, arena, tokens.as_slice()).map_err(OrNoMemory::cast_kind)?;
    Ok(tree)
}
