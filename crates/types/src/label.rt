//! Labels as they are held, from labels as they are written.

ghost use Rattle.labels.specs.Canonical.{IsCanonicalPolicy};
ghost use Rattle.labels.specs.LabelTable.{label_at};
ghost use Rattle.resolved.specs.ProgramOf.{written_at};
ghost use Rattle.std.specs.Prelude.{IfOk, OnOk, length, map, ◌<◌, ◌≡◌};
ghost use Rattle.syntax.specs.Limits.{most_nodes};
ghost use Rattle.syntax.specs.Nodes.{optional_label_nodes};
ghost use Rattle.syntax.specs.Tree.{VariableComponent, label_tree, name_tree, optional_label_tree};
ghost use Rattle.types.specs.Finding.{of_each};
ghost use Rattle.types.specs.Labels.{component_finding, label_finding, optional_label_finding, policy_finding, principal_finding, variable_label_finding};
ghost use Rattle.types.specs.VariableEntries.{HasMoreLabels, IsInside, IsOptionInside, label_with, optional_label_with};
ghost use Rattle.types.specs.Views.{Resolves, item_scope, itself, label_scope_of};

use crate::fault::{TypeFault, TypeRefusal, TypeRefusalKind};
use crate::scope::{Meaning, Names, find, require_variable};
use crate::top::TopNames;
use crate::variables::{DeclaredVariables, LabelParts};
use common::OrNoMemory;
use labels::Policy;
use principals::Hierarchy;
use resolved::expression::Variable;
use resolved::tables::Slot;
use std::alloc::Global;
use syntax::{Component, Name, WrittenLabel};

/// Where a label stands: what it may name. `top` are the names of the items, `variables` have the globals that are declared before
/// it, and `locals` and `slots` are the parameters and locals in scope, if the label is that of a local.
#[derive(Clone, Copy, Drop)]
pub struct LabelContext<'a> {
    pub alloc: Global,
    pub hierarchy: &'a Hierarchy,
    pub top: &'a Names,
    pub variables: &'a DeclaredVariables,
    pub locals: Option<&'a Names>,
    pub slots: &'a [Slot],
}

/// Where the items stand: the principals, and the names of the items.
#[derive(Clone, Copy, Drop)]
pub struct ItemContext<'a> {
    pub alloc: Global,
    pub hierarchy: &'a Hierarchy,
    pub top: &'a TopNames,
}

/// The number of a principal.
#[tactic(auto, unfolding(crate::specs::Labels::principal_finding))]
fn find_principal(hierarchy: &Hierarchy, name: &Name<'_>) -> Result<u32, TypeFault>
    ensures { Resolves itself result (principal_finding hierarchy.now (name_tree name.now)) }
{
    match hierarchy.find(name.text) {
        Some(number) => Ok(number),
        None => Err(OrNoMemory::Refused(TypeRefusal {
            kind: TypeRefusalKind::UnknownPrincipal,
            at: name.at,
        })),
    }
}

/// The numbers of readers.
fn resolve_readers(
    alloc: Global,
    hierarchy: &Hierarchy,
    names: &[Name<'_>],
) -> Result<Vec<u32>, TypeFault>
    ensures { Resolves (λ numbers. numbers.items) result
        (of_each (principal_finding hierarchy.now) (map name_tree names.now)) }
{
    let mut numbers = Vec::new(alloc);
    for name in names {
        numbers.push(find_principal(hierarchy, name)?)?;
    }
    Ok(numbers)
}

/// A policy.
#[tactic(auto, unfolding(crate::specs::Labels::policy_finding))]
fn resolve_policy(
    alloc: Global,
    hierarchy: &Hierarchy,
    owner: &Name<'_>,
    readers: &[Name<'_>],
) -> Result<Policy, TypeFault>
    ensures made { Resolves itself result
        (policy_finding hierarchy.now (name_tree owner.now) (map name_tree readers.now)) }
    ensures canonical { IfOk result IsCanonicalPolicy }
{
    let owner = find_principal(hierarchy, owner)?;
    let readers = resolve_readers(alloc, hierarchy, readers)?;
    Ok(Policy::written(owner, readers))
}

impl<'a> ItemContext<'a> {
    /// Where the labels of an item stand, but for those within the body of a procedure. No local is in scope there.
    pub fn label_context<'b>(&self, variables: &'b DeclaredVariables) -> LabelContext<'b>
    where
        'a: 'b,
        ensures scope { label_scope_of result ≡ item_scope self.now variables.now }
        ensures variables { result.variables.now ≡ variables.now }
    {
        LabelContext {
            alloc: self.alloc,
            hierarchy: self.hierarchy,
            top: &self.top.names,
            variables,
            locals: None,
            slots: &[],
        }
    }

    /// Resolves a label of an item, and gives it its number. Precondition: there are fewer labels than a program may have nodes.
    ///
    /// # Errors
    ///
    /// Those of [`LabelContext::resolve`].
    pub fn add_label(
        &self,
        variables: &mut DeclaredVariables,
        written: &WrittenLabel<'_>,
    ) -> Result<u32, TypeFault>
        requires room { length variables.old.labels < most_nodes }
        ensures made { Resolves (λ number. label_at variables.new.labels number) result
            (label_finding (item_scope self.now variables.old) (label_tree written.now)) }
        ensures more { OnOk result (HasMoreLabels 1 variables.old variables.new) }
        ensures inside { IfOk result (λ number. IsInside variables.new.labels number) }
    {
        let parts = self.label_context(variables).resolve(written)?;
        Ok(variables.add_label(parts)?)
    }

    /// Resolves a label of an item that may be left out, and gives it its number if it is there. Precondition: there are fewer
    /// labels than a program may have nodes.
    ///
    /// # Errors
    ///
    /// Those of [`LabelContext::resolve`].
    #[tactic(auto, unfolding(crate::specs::Finding::of_option), using(crate::proofs::LabelNumbers::no_more))]
    pub fn add_optional_label(
        &self,
        variables: &mut DeclaredVariables,
        written: &Option<WrittenLabel<'_>>,
    ) -> Result<Option<u32>, TypeFault>
        requires room { length variables.old.labels < most_nodes }
        ensures made { Resolves (λ number. written_at variables.new.labels number) result
            (optional_label_finding (item_scope self.now variables.old)
            (optional_label_tree written.now)) }
        ensures more { OnOk result (HasMoreLabels
            (optional_label_nodes (optional_label_tree written.now)) variables.old variables.new) }
        ensures inside { IfOk result (λ number. IsOptionInside variables.new.labels number) }
    {
        match written {
            None => Ok(None),
            Some(written) => Ok(Some(self.add_label(variables, written)?)),
        }
    }
}

impl<'a> LabelContext<'a> {
    /// What a name stands for.
    pub fn look_up(&self, name: &Name<'_>) -> Option<Meaning>
        ensures { result ≡ (label_scope_of self.now).names (name_tree name.now).text }
    {
        let text = name.text;
        let local = match self.locals {
            None => None,
            Some(locals) => find(locals, text),
        };
        local.or_else(|| find(self.top, text))
    }

    /// The number of the label of a variable: of a global that is declared before, or of a local that is written with one.
    #[tactic(auto, unfolding(crate::specs::Labels::variable_label_finding))]
    fn label_of_variable(&self, variable: Variable, at: usize) -> Result<u32, TypeFault>
        ensures { Resolves (λ number. label_at self.now.variables.now.labels number) result
            (variable_label_finding (label_scope_of self.now) variable at) }
    {
        let kind = match variable {
            Variable::Global(number) => match self.variables.globals().get(number as usize) {
                Some(global) => return Ok(global.label),
                None => TypeRefusalKind::UnknownName,
            },
            Variable::Local(number) => match self.slots.get(number as usize) {
                None => TypeRefusalKind::UnknownName,
                Some(slot) => match slot.written {
                    Some(label) => return Ok(label),
                    None => TypeRefusalKind::LabelNotWritten,
                },
            },
        };
        Err(OrNoMemory::Refused(TypeRefusal { kind, at }))
    }

    /// The number of the label of the variable of this name.
    #[tactic(auto, unfolding(crate::specs::Labels::component_finding))]
    fn label_of(&self, name: &Name<'_>) -> Result<u32, TypeFault>
        ensures { Resolves (λ number. label_at self.now.variables.now.labels number) result
            (component_finding (label_scope_of self.now) (VariableComponent (name_tree name.now))) }
    {
        let variable = require_variable(self.look_up(name), name.at)?;
        self.label_of_variable(variable, name.at)
    }

    /// Resolves a label: gives its own policies, with principals by their numbers, and the numbers of the labels of the variables
    /// that it names.
    ///
    /// # Errors
    ///
    /// The first fault of, from the left: 303 at a principal that the hierarchy lacks, 301 at a name that is not declared, not in
    /// scope, or that of a global that is declared later, 403 at a name that is no variable, 305 at a local without a written label;
    /// or out of memory.
    pub fn resolve(&self, written: &WrittenLabel<'_>) -> Result<LabelParts, TypeFault>
        ensures { Resolves (λ parts. label_with self.now.variables.now.labels parts) result
            (label_finding (label_scope_of self.now) (label_tree written.now)) }
    {
        let mut own = Vec::new(self.alloc);
        let mut named = Vec::new(self.alloc);
        for component in written.components {
            match component {
                Component::Policy { owner, readers } => own.push(resolve_policy(
                    self.alloc,
                    self.hierarchy,
                    owner,
                    readers,
                )?)?,
                Component::Variable(name) => named.push(self.label_of(name)?)?,
            }
        }
        Ok(LabelParts::of(own, named))
    }

    /// Resolves a label that may be left out: gives none where it is, and else what [`LabelContext::resolve`] gives.
    ///
    /// # Errors
    ///
    /// Those of [`LabelContext::resolve`].
    #[tactic(auto, unfolding(crate::specs::Finding::of_option))]
    pub fn resolve_optional(
        &self,
        written: &Option<WrittenLabel<'_>>,
    ) -> Result<Option<LabelParts>, TypeFault>
        ensures { Resolves (λ parts. optional_label_with self.now.variables.now.labels parts) result
            (optional_label_finding (label_scope_of self.now) (optional_label_tree written.now)) }
    {
        match written {
            None => Ok(None),
            Some(written) => Ok(Some(self.resolve(written)?)),
        }
    }
}
