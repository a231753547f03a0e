//! A point of the body of a procedure.

ghost use Rattle.types.specs.Environment.{array_of, fresh_finding, item_of, scalar_of, use_as};
ghost use Rattle.types.specs.Finding.{give};
ghost use Rattle.types.specs.Statements.{label_scope, with_local};
ghost use Rattle.types.specs.Views.{Resolves, IsLater, array_use, found_in, itself, item_scope, item_scope_of, label_scope_of, names_of, new_slot_entry, point_of, scalar_use, setting_of, signature_view, taken};
ghost use Rattle.std.specs.Prelude.{IfSome, None, OnOk, Some, length, map, ◌+◌, ◌<◌, ◌≡◌, ◌≤◌};
ghost use Rattle.syntax.specs.Limits.{most_nodes};
ghost use Rattle.syntax.specs.Tree.{name_tree};

use crate::fault::TypeFault;
use crate::label::{ItemContext, LabelContext};
use crate::scope::{
    FoundArray, FoundScalar, ItemKind, Meaning, Names, find_at_once, find_in_either, insert,
    lack_at_once, require_array, require_fresh, require_item, require_scalar,
};
use crate::top::TopNames;
use crate::variables::{DeclaredVariables, NewSlot};
use common::BaseType;
use principals::Hierarchy;
use resolved::expression::Variable;
use std::alloc::Global;
use syntax::Name;

/// A point of a body: the names of the top level, the globals that are declared before the procedure and the slots that parameters
/// and locals have taken, also those of blocks that have ended, the parameters and locals in scope, in a table and again in the
/// order in which they were declared, and how many loops have begun.
#[derive(Drop)]
pub struct BodyScope<'a, 'n> {
    pub alloc: Global,
    pub hierarchy: &'a Hierarchy,
    pub top: &'a TopNames,
    pub variables: DeclaredVariables,
    pub result: Option<BaseType>,
    pub locals: Names,
    pub declared: Vec<&'n str>,
    pub loops: u32,
}

impl<'a, 'n> BodyScope<'a, 'n> {
    /// The point before the first parameter.
    pub fn new(
        context: &ItemContext<'a>,
        variables: DeclaredVariables,
        value: Option<BaseType>,
    ) -> BodyScope<'a, 'n>
        ensures setting { setting_of result ≡
            record {
              outer = item_scope context.now variables;
              signatures = map signature_view context.now.top.now.signatures.items;
              result = value;
            } }
        ensures point { point_of result ≡
            record {
              names = found_in context.now.top.now.names;
              slots = variables.slots;
              loops =
                  0;
            } }
        ensures scope { item_scope_of result ≡ item_scope context.now variables }
        ensures variables { result.variables ≡ variables }
        ensures taken { taken result ≡ length variables.labels + length variables.slots }
    {
        BodyScope {
            alloc: context.alloc,
            hierarchy: context.hierarchy,
            top: context.top,
            variables,
            result: value,
            locals: Names::new(context.alloc),
            declared: Vec::new(context.alloc),
            loops: 0,
        }
    }

    /// What a name stands for.
    #[inline(never)]
    pub fn look_up(&self, name: &Name<'_>) -> Option<Meaning>
        ensures { result ≡ names_of self.now (name_tree name.now).text }
    {
        find_in_either(&self.locals, &self.top.names, name.text)
    }

    /// What a name stands for, where that is found at once.
    #[inline(always)]
    fn find_at_once(&self, name: &Name<'_>) -> Option<&Meaning>
        ensures { IfSome result (λ meaning.
            names_of self.now (name_tree name.now).text ≡ Some meaning.now) }
    {
        find_at_once(&self.locals, &self.top.names, name.text)
    }

    /// The scalar that a name stands for.
    ///
    /// # Errors
    ///
    /// 301 where it stands for nothing, 403 where it stands for something else than a scalar.
    #[inline(always)]
    #[tactic(auto, unfolding(crate::specs::Environment::use_as))]
    pub fn find_scalar(&self, name: &Name<'_>) -> Result<FoundScalar, TypeFault>
        ensures { Resolves scalar_use result
            (use_as scalar_of (names_of self.now (name_tree name.now).text) name.now.at) }
    {
        match self.find_at_once(name) {
            Some(Meaning::Variable(variable, base, None)) => Ok(FoundScalar {
                variable: *variable,
                base: *base,
            }),
            _ => require_scalar(self.look_up(name), name.at),
        }
    }

    /// The array that a name stands for.
    ///
    /// # Errors
    ///
    /// 301 where it stands for nothing, 403 where it stands for something else than an array.
    #[inline(always)]
    #[tactic(auto, unfolding(crate::specs::Environment::use_as))]
    pub fn find_array(&self, name: &Name<'_>) -> Result<FoundArray, TypeFault>
        ensures { Resolves array_use result
            (use_as array_of (names_of self.now (name_tree name.now).text) name.now.at) }
    {
        match self.find_at_once(name) {
            Some(Meaning::Variable(variable, base, Some(size))) => Ok(FoundArray {
                variable: *variable,
                base: *base,
                size: *size,
            }),
            _ => require_array(self.look_up(name), name.at),
        }
    }

    /// Requires that a name stands for nothing yet, so that it may be declared.
    ///
    /// # Errors
    ///
    /// 302 where it stands for something already.
    #[inline(never)]
    #[tactic(auto, unfolding(crate::specs::Environment::fresh_finding))]
    pub fn require_unused(&self, name: &Name<'_>) -> Result<(), TypeFault>
        ensures made { Resolves (λ _. tt) result
            (fresh_finding (names_of self.now (name_tree name.now).text) name.now.at) }
        ensures none { OnOk result (names_of self.now (name_tree name.now).text ≡ None) }
    {
        if lack_at_once(&self.locals, &self.top.names, name.text) {
            return Ok(());
        }
        require_fresh(self.look_up(name), name.at)
    }

    /// The number of the item of a kind that a name stands for.
    ///
    /// # Errors
    ///
    /// 301 where it stands for nothing, 403 where it stands for something else.
    #[inline(never)]
    #[tactic(auto, unfolding(crate::specs::Environment::use_as))]
    pub fn find_item(&self, kind: ItemKind, name: &Name<'_>) -> Result<u32, TypeFault>
        ensures { Resolves itself result
            (use_as (item_of kind) (names_of self.now (name_tree name.now).text) name.now.at) }
    {
        if let Some(Meaning::Item(found, number)) = self.find_at_once(name) {
            if *found == kind {
                return Ok(*number);
            }
        }
        require_item(kind, self.look_up(name), name.at)
    }

    /// What the label of a local may name here.
    pub fn label_context(&self) -> LabelContext<'_>
        ensures scope { label_scope_of result ≡
            label_scope (setting_of self.now) (point_of self.now) }
        ensures variables { result.variables.now ≡ self.now.variables }
    {
        LabelContext {
            alloc: self.alloc,
            hierarchy: self.hierarchy,
            top: &self.top.names,
            variables: &self.variables,
            locals: Some(&self.locals),
            slots: self.variables.slots(),
        }
    }

    /// What the label of a parameter may name.
    pub fn item_label_context(&self) -> LabelContext<'_>
        ensures scope { label_scope_of result ≡ item_scope_of self.now }
        ensures variables { result.variables.now ≡ self.now.variables }
    {
        let context = ItemContext {
            alloc: self.alloc,
            hierarchy: self.hierarchy,
            top: self.top,
        };
        context.label_context(&self.variables)
    }

    /// Declares a parameter or local, which takes the next slot. Precondition: its name stands for nothing yet, and there are fewer
    /// labels, slots and loops than a program may have nodes.
    #[inline(always)]
    pub fn declare(&mut self, slot: NewSlot<'n>) -> Result<(), TypeFault>
        requires fresh { names_of self.old slot.name.now ≡ None }
        requires room { taken self.old < most_nodes }
        ensures made { Resolves (λ _. point_of self.new) result
            (give (with_local (point_of self.old)
            (new_slot_entry self.old.variables.labels slot.entry))) }
        ensures later { OnOk result (IsLater self.old self.new) }
        ensures grows { OnOk result (taken self.new ≤ taken self.old + 2) }
    {
        let variable = Variable::Local(self.variables.slots().len() as u32);
        let meaning = Meaning::Variable(variable, slot.base, slot.size);
        insert(self.alloc, &mut self.locals, slot.name, meaning)?;
        self.declared.push(slot.name)?;
        self.variables.declare(self.alloc, slot)?;
        Ok(())
    }
}
