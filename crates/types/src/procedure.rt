//! Procedures.

ghost use Rattle.indexmap.specs.IndexSet.{contains};
ghost use Rattle.labels.specs.LabelTable.{label_at};
ghost use Rattle.common.specs.Results.{along};
ghost use Rattle.types.specs.Resolution.{is_thrown, joined_all, next_parameter, next_thrown, procedure_entry_finding, result_finding};
ghost use Rattle.types.specs.VariableEntries.{AreThrownLabelsInside, HasMoreLabels, IsInside, IsOptionInside, IsProcedureInside, IsResultInside};
ghost use Rattle.types.specs.Views.{Resolves, IsLater, item_scope, item_scope_of, point_of, taken, throws_view, top_view};
ghost use Rattle.resolved.specs.ProgramOf.{procedure_entry, result_entry, thrown_entry, written_at};
ghost use Rattle.std.specs.Prelude.{[], IfOk, OnOk, length, map, nat_eq, unwrap_or, ◌+◌, ◌*◌, ◌<◌, ◌≡◌, ◌≤◌, ℕ};
ghost use Rattle.syntax.specs.Limits.{most_nodes};
ghost use Rattle.syntax.specs.Nodes.{optional_label_nodes, procedure_nodes, written_result_nodes};
ghost use Rattle.syntax.specs.Tree.{written_result_tree, parameter_tree, procedure_tree, thrown_tree};

use crate::body::BodyScope;
use crate::fault::{TypeFault, TypeRefusal, TypeRefusalKind};
use crate::label::ItemContext;
use crate::scope::{ItemKind, find, require_item};
use crate::top::result_of;
use crate::variables::{DeclaredVariables, LabelParts, NewSlot};
use common::OrNoMemory;
use indexmap::IndexSet;
use resolved::tables::{Procedure, ResultType, Thrown};
use std::alloc::{AllocError, Global};
use syntax::{Parameter, WrittenResult};

/// The value of a procedure, if it gives one, with the number of its label.
#[tactic(auto, unfolding(crate::specs::Finding::of_option))]
fn resolve_result(
    context: &ItemContext<'_>,
    variables: &mut DeclaredVariables,
    written: &WrittenResult<'_>,
) -> Result<Option<ResultType>, TypeFault>
    requires room { length variables.old.labels < most_nodes }
    ensures made { Resolves (λ value. result_entry variables.new.labels value) result
        (result_finding (item_scope context.now variables.old) (written_result_tree written.now)) }
    ensures more { OnOk result (HasMoreLabels
        (written_result_nodes (written_result_tree written.now)) variables.old variables.new) }
    ensures inside { IfOk result (λ value. IsResultInside variables.new.labels value) }
{
    match written {
        WrittenResult::Nothing => Ok(None),
        WrittenResult::Value {
            base,
            label: written,
        } => {
            let label = context.add_label(variables, written)?;
            Ok(Some(ResultType { base: *base, label }))
        }
    }
}

impl<'a, 'n> BodyScope<'a, 'n> {
    /// Declares the next parameter.
    #[tactic(auto, unfolding(crate::specs::Statements::declared_finding, crate::specs::Finding::of_option))]
    fn declare_parameter(&mut self, written: &Parameter<'n>) -> Result<(), TypeFault>
        requires room { taken self.old < most_nodes }
        ensures made { Resolves (λ _. point_of self.new) result
            (next_parameter (item_scope_of self.old) (point_of self.old)
            (parameter_tree written.now)) }
        ensures later { OnOk result (IsLater self.old self.new) }
        ensures grows { OnOk result (taken self.new ≤ taken self.old + 2) }
    {
        let label = self.item_label_context().resolve(&written.label)?;
        self.require_unused(&written.name)?;
        self.declare(NewSlot {
            base: written.base,
            size: None,
            label: Some(label),
            at: written.at,
            name: written.name.text,
        })?;
        Ok(())
    }

    /// Declares parameters.
    fn declare_parameters(&mut self, written: &[Parameter<'n>]) -> Result<(), TypeFault>
        requires room { taken self.old + 2 * length written.now < most_nodes }
        ensures made { Resolves (λ _. point_of self.new) result
            (along (next_parameter (item_scope_of self.old)) (point_of self.old)
            (map parameter_tree written.now)) }
        ensures later { OnOk result (IsLater self.old self.new) }
        ensures grows { OnOk result (taken self.new ≤ taken self.old + 2 * length written.now) }
    {
        for one in written {
            self.declare_parameter(one)?;
        }
        Ok(())
    }
}

/// Puts an exception that a procedure declares after those that are named before it, which are the ones of the set.
fn add_thrown(
    context: &ItemContext<'_>,
    variables: &mut DeclaredVariables,
    seen: &mut IndexSet<u32>,
    throws: &mut Vec<Thrown>,
    written: &syntax::Thrown<'_>,
) -> Result<(), TypeFault>
    requires room { length variables.old.labels < most_nodes }
    requires same { (number : ℕ) → contains nat_eq seen.old number ≡
        is_thrown (throws_view variables.old.labels throws.old) number }
    requires inside { AreThrownLabelsInside variables.old.labels throws.old.items }
    ensures made { Resolves (λ _. throws_view variables.new.labels throws.new) result
        (next_thrown (item_scope context.now variables.old)
        (throws_view variables.old.labels throws.old) (thrown_tree written.now)) }
    ensures same { OnOk result ((number : ℕ) → contains nat_eq seen.new number ≡
        is_thrown (throws_view variables.new.labels throws.new) number) }
    ensures inside { OnOk result (AreThrownLabelsInside variables.new.labels throws.new.items) }
    ensures more { OnOk result (HasMoreLabels 1 variables.old variables.new) }
{
    let name = &written.name;
    let found = find(&context.top.names, name.text);
    let number = require_item(ItemKind::Exception, found, name.at)?;
    if !seen.insert(number)? {
        return Err(OrNoMemory::Refused(TypeRefusal {
            kind: TypeRefusalKind::DeclaredTwice,
            at: name.at,
        }));
    }
    let label = context.add_label(variables, &written.label)?;
    throws.push(Thrown {
        exception: number,
        label,
    })?;
    Ok(())
}

/// The exceptions that a procedure declares in `throws`.
fn resolve_throws(
    context: &ItemContext<'_>,
    variables: &mut DeclaredVariables,
    written: &[syntax::Thrown<'_>],
) -> Result<Vec<Thrown>, TypeFault>
    requires room { length variables.old.labels + length written.now < most_nodes }
    ensures made { Resolves (λ throws. throws_view variables.new.labels throws) result
        (along (next_thrown (item_scope context.now variables.old)) []
        (map thrown_tree written.now)) }
    ensures inside { IfOk result (λ throws.
        AreThrownLabelsInside variables.new.labels throws.items) }
    ensures more { OnOk result (HasMoreLabels (length written.now) variables.old variables.new) }
{
    let mut seen = IndexSet::new(context.alloc);
    let mut throws = Vec::new(context.alloc);
    for one in written {
        add_thrown(context, variables, &mut seen, &mut throws, one)?;
    }
    Ok(throws)
}

/// The begin label of a procedure.
fn make_begin_label(variables: &DeclaredVariables, written: Option<u32>) -> u32
    requires inside { IsOptionInside variables.now.labels written }
    ensures label { label_at variables.now.labels result ≡
        unwrap_or (written_at variables.now.labels written) [] }
    ensures inside { IsInside variables.now.labels result }
{
    match written {
        Some(label) => label,
        None => variables.least_label(),
    }
}

/// A label joined by those of exceptions. It is held by the numbers of all these labels, so that many exceptions take no longer than
/// there are.
fn join_all(
    alloc: Global,
    variables: &mut DeclaredVariables,
    first: u32,
    throws: &[Thrown],
) -> Result<u32, AllocError>
    requires room { length variables.old.labels < most_nodes }
    requires inside { IsInside variables.old.labels first }
    ensures label { IfOk result (λ number. label_at variables.new.labels number ≡
        joined_all (label_at variables.old.labels first)
        (map (thrown_entry variables.old.labels) throws.now)) }
    ensures inside { IfOk result (λ number. IsInside variables.new.labels number) }
    ensures more { OnOk result (HasMoreLabels 1 variables.old variables.new) }
{
    if throws.is_empty() {
        return Ok(first);
    }
    let mut named = Vec::new(alloc);
    named.push(first)?;
    for thrown in throws {
        named.push(thrown.label)?;
    }
    Ok(variables.add_label(LabelParts::of(Vec::new(alloc), named))?)
}

/// The end label of a procedure.
fn make_end_label(
    alloc: Global,
    variables: &mut DeclaredVariables,
    written: Option<u32>,
    begin: u32,
    throws: &[Thrown],
) -> Result<u32, AllocError>
    requires room { length variables.old.labels < most_nodes }
    requires written { IsOptionInside variables.old.labels written }
    requires begin { IsInside variables.old.labels begin }
    ensures label { IfOk result (λ number. label_at variables.new.labels number ≡
        unwrap_or (written_at variables.old.labels written)
        (joined_all (label_at variables.old.labels begin)
        (map (thrown_entry variables.old.labels) throws.now))) }
    ensures inside { IfOk result (λ number. IsInside variables.new.labels number) }
    ensures more { OnOk result (HasMoreLabels 1 variables.old variables.new) }
{
    match written {
        Some(label) => Ok(label),
        None => join_all(alloc, variables, begin, throws),
    }
}

/// Resolves a procedure with its body, after the variables that are declared before it. A begin label that is left out is the least
/// one; an end label that is left out is the join of the begin label and of the labels of the declared exceptions. Precondition: it
/// has fewer nodes than a program may have beside the labels that there are.
///
/// # Errors
///
/// The first fault of, in this order, the label of its value, its begin label, its parameters, its end label, its declared
/// exceptions and the statements of its body: 301 to 303, 305, 401 to 403 or 703; or out of memory. The cells of its frame are not
/// counted here.
#[tactic(auto, unfolding(crate::specs::Resolution::procedure_entry_finding))]
pub fn resolve_procedure(
    context: &ItemContext<'_>,
    variables: DeclaredVariables,
    written: &syntax::Procedure<'_>,
) -> Result<(DeclaredVariables, Procedure), TypeFault>
    requires none { variables.slots ≡ [] }
    requires room { length variables.labels + procedure_nodes (procedure_tree written.now) ≤
        most_nodes }
    ensures made { Resolves (λ found. procedure_entry found.0.labels found.1) result
        (procedure_entry_finding (item_scope context.now variables)
        (top_view context.now.top.now).signatures (procedure_tree written.now)) }
    ensures inside { IfOk result (λ found. IsProcedureInside found.0.labels found.1) }
    ensures more { IfOk result (λ found.
        HasMoreLabels (procedure_nodes (procedure_tree written.now)) variables found.0) }
{
    let mut variables = variables;
    let value = resolve_result(context, &mut variables, &written.result)?;
    let begin = context.add_optional_label(&mut variables, &written.begin)?;
    let begin_label = make_begin_label(&variables, begin);
    let mut body = BodyScope::new(context, variables, result_of(&written.result));
    body.declare_parameters(&written.parameters)?;
    let end = context.add_optional_label(&mut body.variables, &written.end)?;
    let throws = resolve_throws(context, &mut body.variables, &written.throws)?;
    let end_label = make_end_label(
        context.alloc,
        &mut body.variables,
        end,
        begin_label,
        &throws,
    )?;
    let statements = body.resolve_body(&written.body)?;
    let BodyScope {
        mut variables,
        loops,
        ..
    } = body;
    let slots = variables.take_slots(context.alloc);
    let procedure = Procedure {
        at: written.name.at,
        name: String::from_str(context.alloc, written.name.text)?,
        result: value,
        begin_label,
        end_label,
        throws,
        parameters: written.parameters.len() as u32,
        slots,
        loops,
        body: statements,
    };
    Ok((variables, procedure))
}
