//! Whole programs: their tables, and the procedure at which a run begins.

ghost use Rattle.common.specs.Answers.{IfRefused};
ghost use Rattle.common.specs.Results.{along};
ghost use Rattle.types.specs.Finding.{IsRefusalOf, give};
ghost use Rattle.types.specs.Resolution.{empty_program, main_finding, next_item, resolution};
ghost use Rattle.types.specs.Views.{Resolves, AreTablesInside, itself, program_with, tables_view, top_view};
ghost use Rattle.resolved.specs.CoreOf.{program_of};
ghost use Rattle.std.specs.Prelude.{All, IfErr, IfOk, length, map, sum_by, ◌+◌, ◌<◌, ◌≡◌, ◌≤◌};
ghost use Rattle.syntax.specs.Limits.{IsOfText, most_nodes};
ghost use Rattle.syntax.specs.Nodes.{item_nodes};
ghost use Rattle.syntax.specs.Tree.{item_tree, program_tree};
ghost use Rattle.syntax.specs.Written.{Anywhere, IsInteger, IsNameWithin, IsWrittenItem};
ghost use Rattle.common.specs.declared.limits.TheConstants.{MAX_TEXT};

use crate::cells::{count_global_cells, limit_frames};
use crate::fault::{TypeFault, TypeRefusal, TypeRefusalKind};
use crate::item::{resolve_channel, resolve_global};
use crate::label::ItemContext;
use crate::procedure::resolve_procedure;
use crate::scope::{ItemKind, Meaning, find};
use crate::top::TopNames;
use crate::variables::DeclaredVariables;
use common::OrNoMemory;
use common::limits::MAX_PRINCIPALS;
use principals::Hierarchy;
use resolved::program::Core;
use resolved::tables::{Channel, Procedure};
use std::alloc::{AllocError, Global};
use syntax::{Item, Program};

/// The tables of a program.
#[derive(Drop)]
pub struct ItemTables {
    pub variables: DeclaredVariables,
    pub channels: Vec<Channel>,
    pub exceptions: Vec<String>,
    pub procedures: Vec<Procedure>,
}

impl ItemTables {
    // The tables of no items, with room for as many procedures as there may be among this many items.
    fn empty(alloc: Global, items: usize) -> Result<ItemTables, AllocError>
        ensures none { IfOk result (λ tables. tables_view tables ≡ empty_program) }
        ensures inside { IfOk result AreTablesInside }
        ensures few { IfOk result (λ tables. length tables.variables.labels ≡ 1) }
    {
        Ok(ItemTables {
            variables: DeclaredVariables::new(alloc)?,
            channels: Vec::new(alloc),
            exceptions: Vec::new(alloc),
            procedures: Vec::with_capacity(alloc, items)?,
        })
    }

    /// Puts the entry of the next item after the others of its kind.
    #[tactic(auto, unfolding(crate::specs::Resolution::next_item))]
    fn with_item(self, context: &ItemContext<'_>, item: &Item<'_>) -> Result<ItemTables, TypeFault>
        requires written { IsWrittenItem Anywhere (IsNameWithin MAX_TEXT) IsInteger
            (item_tree item.now) }
        requires inside { AreTablesInside self }
        requires room { length self.variables.labels + item_nodes (item_tree item.now) ≤
            most_nodes }
        ensures made { Resolves tables_view result
            (next_item context.now.hierarchy.now (top_view context.now.top.now) (tables_view self)
            (item_tree item.now)) }
        ensures inside { IfOk result AreTablesInside }
        ensures few { IfOk result (λ tables. length tables.variables.labels ≤
            length self.variables.labels + item_nodes (item_tree item.now)) }
    {
        let ItemTables {
            mut variables,
            mut channels,
            mut exceptions,
            mut procedures,
        } = self;
        match item {
            Item::Channel(one) => channels.push(resolve_channel(context, &mut variables, one)?)?,
            Item::Exception { name, .. } => {
                exceptions.push(String::from_str(context.alloc, name.text)?)?
            }
            Item::Global(one) => {
                let global = resolve_global(context, &mut variables, one)?;
                variables.push_global(global)?;
            }
            Item::Procedure(one) => {
                let (after, procedure) = resolve_procedure(context, variables, one)?;
                variables = after;
                procedures.push(procedure)?;
            }
        }
        Ok(ItemTables {
            variables,
            channels,
            exceptions,
            procedures,
        })
    }

    /// The tables of these items, each kind in the order of the text.
    pub fn of(context: &ItemContext<'_>, items: &[Item<'_>]) -> Result<ItemTables, TypeFault>
        requires written { All (IsWrittenItem Anywhere (IsNameWithin MAX_TEXT) IsInteger)
            (map item_tree items.now) }
        requires room { sum_by item_nodes (map item_tree items.now) < most_nodes }
        ensures { Resolves tables_view result
            (along (next_item context.now.hierarchy.now (top_view context.now.top.now))
            empty_program (map item_tree items.now)) }
    {
        let mut tables = ItemTables::empty(context.alloc, items.len())?;
        for item in items {
            tables = tables.with_item(context, item)?;
        }
        Ok(tables)
    }
}

/// The number of the procedure at which a run begins.
#[tactic(auto, unfolding(crate::specs::Resolution::main_finding))]
pub fn find_main(found: Option<Meaning>, tables: &ItemTables) -> Result<u32, TypeFault>
    ensures { Resolves itself result (main_finding found (tables_view tables.now).procedures) }
{
    let Some(Meaning::Item(ItemKind::Procedure, number)) = found else {
        return Err(OrNoMemory::Refused(TypeRefusal {
            kind: TypeRefusalKind::NoProperMain,
            at: 0,
        }));
    };
    let Some(procedure) = tables.procedures.get(number as usize) else {
        return Err(OrNoMemory::Refused(TypeRefusal {
            kind: TypeRefusalKind::NoProperMain,
            at: 0,
        }));
    };
    if procedure.parameters == 0 && procedure.result.is_none() {
        Ok(number)
    } else {
        Err(OrNoMemory::Refused(TypeRefusal {
            kind: TypeRefusalKind::NoProperMain,
            at: procedure.at,
        }))
    }
}

/// The tables of a program, and the number of the procedure at which a run begins.
#[tactic(auto, unfolding(crate::specs::Resolution::resolution))]
fn resolve_tables(
    alloc: Global,
    hierarchy: &Hierarchy,
    items: &[Item<'_>],
) -> Result<(ItemTables, u32), TypeFault>
    requires written { All (IsWrittenItem Anywhere (IsNameWithin MAX_TEXT) IsInteger)
        (map item_tree items.now) }
    requires room { sum_by item_nodes (map item_tree items.now) < most_nodes }
    ensures { Resolves (λ found. program_with hierarchy.now (tables_view found.0) found.1) result
        (resolution hierarchy.now (program_tree items.now)) }
{
    let top = TopNames::of(alloc, items)?;
    let context = ItemContext {
        alloc,
        hierarchy,
        top: &top,
    };
    let tables = ItemTables::of(&context, items)?;
    let main = find_main(find(&top.names, "main"), &tables)?;
    count_global_cells(items)?;
    limit_frames(&tables)?;
    Ok((tables, main))
}

/// The resolved program that a program stands for under a hierarchy: names give way to numbers, labels to their canonical forms, and
/// each expression has the type that its place wants.
///
/// Precondition: the program is that of a text of at most 1 MiB. Its names are names of at most this many bytes, its integers are at
/// most 2147483647, and it has at most 1,048,577 nodes.
///
/// # Errors
///
/// The first fault in the order in which the definitions look: the names of the items, the items from left to right, `main`, and
/// the cells of the globals and of each procedure; or out of memory.
pub fn resolve(
    alloc: Global,
    program: Program<'_>,
    hierarchy: &Hierarchy,
) -> Result<Core, TypeFault>
    requires of_text { IsOfText (program_tree program) }

    // An answer is the program that the tree stands for.
    ensures accepted { IfOk result (λ core.
        resolution hierarchy.now (program_tree program.entry) ≡ give (program_of core)) }

    // A refusal is the first fault, and stands where that stands.
    ensures first_fault { IfErr result (IfRefused
        (IsRefusalOf (resolution hierarchy.now (program_tree program.entry)))) }
{
    prove!(hierarchy.count() <= MAX_PRINCIPALS);
    let (tables, main) = resolve_tables(alloc, hierarchy, program.items())?;
    let ItemTables {
        variables,
        channels,
        exceptions,
        procedures,
    } = tables;
    let (labels, globals) = variables.into_tables();
    Ok(Core {
        hierarchy: hierarchy.clone()?,
        labels,
        channels,
        exceptions,
        globals,
        procedures,
        main,
    })
}
