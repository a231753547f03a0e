//! The top level of a program: what the names of its items stand for.

ghost use Rattle.common.specs.declared.exceptions.TheConstants.{BUILT_IN};
ghost use Rattle.common.specs.Results.{along};
ghost use Rattle.types.specs.Finding.{give};
ghost use Rattle.types.specs.Resolution.{built_in, size_of, item_meaning, item_name, next_name, result_base_of, signature_of};
ghost use Rattle.types.specs.Statements as spec;
ghost use Rattle.types.specs.Views.{Resolves, signature_view, top_view};
ghost use Rattle.std.specs.Prelude.{IfOk, OnOk, length, map, ◌+◌, ◌<◌, ◌≡◌};
ghost use Rattle.syntax.specs.Limits.{most_nodes};
ghost use Rattle.syntax.specs.Tree.{global_value_tree, item_tree, name_tree, written_result_tree, procedure_tree};

use crate::fault::TypeFault;
use crate::scope::{ItemKind, Meaning, Names, find, insert, require_fresh};
use common::BaseType;
use common::exceptions::{ARITH, ARITH_NAME, BOUNDS, BOUNDS_NAME, BUILT_IN, END, END_NAME};
use resolved::expression::Variable;
use std::alloc::{AllocError, Global};
use syntax::{GlobalValue, Item, Name, Procedure, WrittenResult};

/// What a call has to know of a procedure: the types of its parameters, and the type of its value, if it gives one.
#[derive(Drop)]
pub struct CodeSignature {
    pub parameters: Vec<BaseType>,
    pub result: Option<BaseType>,
}

/// What the names of the top level stand for, how many items there are of each kind, and the signatures of the procedures.
#[derive(Drop)]
pub struct TopNames {
    pub names: Names,
    pub channels: u32,
    pub exceptions: u32,
    pub globals: u32,
    pub signatures: Vec<CodeSignature>,
}

/// The length of a global that is an array.
pub fn size_of_global(value: &GlobalValue) -> Option<u32>
    ensures { result ≡ size_of (global_value_tree value.now) }
{
    match value {
        GlobalValue::Scalar(_) => None,
        GlobalValue::Array(size) => Some(size.size),
    }
}

/// The type of the value that a procedure gives, if it gives one.
pub fn result_of(written: &WrittenResult<'_>) -> Option<BaseType>
    ensures { result ≡ result_base_of (written_result_tree written.now) }
{
    match written {
        WrittenResult::Nothing => None,
        WrittenResult::Value { base, .. } => Some(*base),
    }
}

fn make_signature(alloc: Global, procedure: &Procedure<'_>) -> Result<CodeSignature, AllocError>
    ensures { IfOk result (λ signature. signature_view signature ≡
        signature_of (procedure_tree procedure.now)) }
{
    let mut parameters = Vec::new(alloc);
    for parameter in &procedure.parameters {
        parameters.push(parameter.base)?;
    }
    Ok(CodeSignature {
        parameters,
        result: result_of(&procedure.result),
    })
}

/// The name of an item.
fn name_of<'t, 'a>(item: &'t Item<'a>) -> &'t Name<'a>
    ensures { name_tree result.now ≡ item_name (item_tree item.now) }
{
    match item {
        Item::Channel(channel) => &channel.name,
        Item::Exception { name, .. } => name,
        Item::Global(global) => &global.name,
        Item::Procedure(procedure) => &procedure.name,
    }
}

impl TopNames {
    /// The types of the parameters of a procedure, and the type of its value, if it gives one.
    pub fn signature(&self, procedure: u32) -> (&[BaseType], Option<BaseType>)
        ensures parameters { result.0.now ≡
            (spec.signature_at (map signature_view self.now.signatures.items)
            procedure).parameters }
        ensures value { result.1 ≡
            (spec.signature_at (map signature_view self.now.signatures.items) procedure).result }
    {
        match self.signatures.get(procedure as usize) {
            Some(signature) => (signature.parameters.as_slice(), signature.result),
            None => (&[], None),
        }
    }

    /// The top level before the first item.
    fn declare_built_in(alloc: Global) -> Result<TopNames, TypeFault>
        ensures { Resolves top_view result (give built_in) }
    {
        let mut names = Names::new(alloc);
        insert(
            alloc,
            &mut names,
            ARITH_NAME,
            Meaning::Item(ItemKind::Exception, ARITH),
        )?;
        insert(
            alloc,
            &mut names,
            BOUNDS_NAME,
            Meaning::Item(ItemKind::Exception, BOUNDS),
        )?;
        insert(
            alloc,
            &mut names,
            END_NAME,
            Meaning::Item(ItemKind::Exception, END),
        )?;
        Ok(TopNames {
            names,
            channels: 0,
            exceptions: BUILT_IN,
            globals: 0,
            signatures: Vec::new(alloc),
        })
    }

    /// What the name of the next item stands for.
    fn meaning_of(&self, item: &Item<'_>) -> Meaning
        requires { length self.now.signatures.items < most_nodes + BUILT_IN }
        ensures { result ≡ item_meaning (top_view self.now) (item_tree item.now) }
    {
        match item {
            Item::Channel(channel) => {
                Meaning::Item(ItemKind::Channel(channel.direction), self.channels)
            }
            Item::Exception { .. } => Meaning::Item(ItemKind::Exception, self.exceptions),
            Item::Global(global) => Meaning::Variable(
                Variable::Global(self.globals),
                global.base,
                size_of_global(&global.value),
            ),
            Item::Procedure(_) => {
                Meaning::Item(ItemKind::Procedure, self.signatures.len() as u32)
            }
        }
    }

    /// Declares the name of the next item.
    fn add(&mut self, alloc: Global, item: &Item<'_>) -> Result<(), TypeFault>
        requires room { self.old.channels + self.old.exceptions + self.old.globals +
            length self.old.signatures.items < most_nodes + BUILT_IN }
        ensures made { Resolves (λ _. top_view self.new) result
            (next_name (top_view self.old) (item_tree item.now)) }
        ensures grows { OnOk result
            (self.new.channels + self.new.exceptions + self.new.globals +
            length self.new.signatures.items ≡
            self.old.channels + self.old.exceptions + self.old.globals +
            length self.old.signatures.items + 1) }
    {
        let name = name_of(item);
        let meaning = self.meaning_of(item);
        require_fresh(find(&self.names, name.text), name.at)?;
        insert(alloc, &mut self.names, name.text, meaning)?;
        match item {
            Item::Channel(_) => self.channels += 1,
            Item::Exception { .. } => self.exceptions += 1,
            Item::Global(_) => self.globals += 1,
            Item::Procedure(procedure) => self.signatures.push(make_signature(alloc, procedure)?)?,
        }
        Ok(())
    }

    /// The top level of these items.
    pub fn of(alloc: Global, items: &[Item<'_>]) -> Result<TopNames, TypeFault>
        requires { length items.now < most_nodes }
        ensures { Resolves top_view result (along next_name built_in (map item_tree items.now)) }
    {
        let mut top = TopNames::declare_built_in(alloc)?;
        for item in items {
            top.add(alloc, item)?;
        }
        Ok(top)
    }
}
