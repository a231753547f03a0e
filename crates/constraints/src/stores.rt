//! The constraints of stores into arrays.
ghost use Rattle.constraints.specs.ByTable.{IsLeftFromBy, IsJoinedBy};
ghost use Rattle.constraints.specs.ByWalk.{scope_in, IsSimpleBy};
ghost use Rattle.constraints.specs.LeftSides.{index_atoms};
ghost use Rattle.gathering.specs.Walk.{store_atoms};
ghost use Rattle.path_map.specs.Exceptions.{AreRaised};
ghost use Rattle.resolved.specs.Exits.{index_raises, raises};
ghost use Rattle.resolved.specs.Labelled.{value_label};
ghost use Rattle.resolved.specs.Tree.{Placed, Store};
ghost use Rattle.resolved.specs.TreeOf.{expression_of};
ghost use Rattle.std.specs.Prelude.{IfOk, OnOk, ◌++◌};

use crate::around::Around;
use crate::forms::ArrayStore;
use crate::lefts::left_of_pc;
use crate::statements::ProcedureWalk;
use path_map::raises::{Raises, index_can_raise, raises_of};
use resolved::expression::Expression;
use resolved::statement::Exit;
use resolved::target::Target;
use solver::{Atom, Constraint, Left, Rule};
use std::alloc::AllocError;

impl<'a> ProcedureWalk<'a> {
    // The pc, and the labels of the index and the value of a store.
    fn left_of_stored(
        &self,
        pc: Atom,
        index: &Expression,
        value: &Expression,
    ) -> Result<Left, AllocError>
        ensures { IfOk result (λ left. IsLeftFromBy self.now.table.now pc (value_label
            (scope_in self.now) (expression_of index.now) ++ value_label (scope_in self.now)
            (expression_of value.now)) left.items) }
    {
        let mut left = left_of_pc(self.alloc, pc)?;
        self.table.add_value(self.procedure, index, &mut left)?;
        self.table.add_value(self.procedure, value, &mut left)?;
        Ok(left)
    }

    // The pc, and what decides whether a store into an array of this length raises an exception.
    fn left_of_store(
        &self,
        pc: Atom,
        length: u32,
        index: &Expression,
        value: &Expression,
    ) -> Result<Left, AllocError>
        ensures { IfOk result (λ left. IsLeftFromBy self.now.table.now pc (store_atoms
            (scope_in self.now) length (expression_of index.now) (expression_of value.now))
            left.items) }
    {
        let mut left = left_of_pc(self.alloc, pc)?;
        self.add_index(length, index, &mut left)?;
        self.table.add_raise(self.procedure, value, &mut left)?;
        Ok(left)
    }

    // Adds what decides whether the index of a store raises an exception.
    fn add_index(&self, length: u32, index: &Expression, left: &mut Left) -> Result<(), AllocError>
        ensures { OnOk result (IsJoinedBy self.now.table.now
            (index_atoms (scope_in self.now) length (expression_of index.now))
            left.old.items left.new.items) }
    {
        if index_can_raise(index, length) {
            return self.table.add_value(self.procedure, index, left);
        }
        self.table.add_raise(self.procedure, index, left)?;
        Ok(())
    }

    /// Adds what is gathered of a store into an array.
    #[inline(never)]
    pub fn add_store(
        &self,
        store: ArrayStore,
        index: &Expression,
        value: &Expression,
        around: &Around,
        constraints: &mut Vec<Constraint<Option<Target>>>,
    ) -> Result<(), AllocError>
        ensures { OnOk result (IsSimpleBy self.now around.now (Placed store.at (Store store.array
            store.length (expression_of index.now) (expression_of value.now)))
            constraints.old.items constraints.new.items) }
    {
        let target = Target::ToVariable(self.procedure, store.array);
        let stored = self.left_of_stored(around.pc, index, value)?;
        self.table
            .add_rule(store.at, Rule::Store, stored, target, constraints)?;
        if around.ends_nowhere(Exit::Normal) {
            return Ok(());
        }
        let left = self.left_of_store(around.pc, store.length, index, value)?;
        let found = raises_of_store(store.length, index, value);
        self.add_exits(&left, around, Exit::Normal, found, constraints)?;
        Ok(())
    }
}

// The exceptions that a store into an array of this length can raise.
fn raises_of_store(length: u32, index: &Expression, value: &Expression) -> Raises
    ensures { AreRaised result (raises (expression_of index.now) ++ raises (expression_of value.now)
        ++ index_raises (expression_of index.now) length) }
{
    let access = Raises {
        arith: false,
        bounds: index_can_raise(index, length),
    };
    raises_of(index).or(raises_of(value)).or(access)
}
