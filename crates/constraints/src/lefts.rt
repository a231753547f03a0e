//! Left sides that begin with the program-counter label (pc) of a statement.
ghost use Rattle.constraints.specs.ByTable.{program_in, IsLeftFromBy};
ghost use Rattle.constraints.specs.ByWalk.{scope_in};
ghost use Rattle.gathering.specs.Walk.{raise_atoms, raise_atoms_all};
ghost use Rattle.resolved.specs.Labelled.{label_of, one, value_label};
ghost use Rattle.resolved.specs.TreeOf.{expression_of};
ghost use Rattle.std.specs.Prelude.{IfOk, [], map, ◌∷◌, ◌≡◌};

use crate::statements::ProcedureWalk;
use crate::table::Table;
use resolved::expression::Expression;
use resolved::target::Target;
use solver::{Atom, Left};
use std::alloc::{AllocError, Global};

/// The left side of the pc alone.
pub fn left_of_pc(alloc: Global, pc: Atom) -> Result<Left, AllocError>
    ensures { IfOk result (λ left. left.items ≡ pc ∷ []) }
{
    let mut left = Left::new(alloc);
    left.push(pc)?;
    Ok(left)
}

impl<'a> Table<'a> {
    /// The pc, and the label of what a rule names.
    pub fn left_of_label(&self, alloc: Global, pc: Atom, target: Target) -> Result<Left, AllocError>
        ensures { IfOk result (λ left. IsLeftFromBy self.now pc
            (one (label_of (program_in self.now) target)) left.items) }
    {
        let mut left = left_of_pc(alloc, pc)?;
        self.add_label(target, &mut left)?;
        Ok(left)
    }
}

impl<'a> ProcedureWalk<'a> {
    /// The pc, and the label of the value of an expression.
    pub fn left_of_value(&self, pc: Atom, expression: &Expression) -> Result<Left, AllocError>
        ensures { IfOk result (λ left. IsLeftFromBy self.now.table.now pc
            (value_label (scope_in self.now) (expression_of expression.now)) left.items) }
    {
        let mut left = left_of_pc(self.alloc, pc)?;
        self.table.add_value(self.procedure, expression, &mut left)?;
        Ok(left)
    }

    /// The pc, and what decides whether an expression raises an exception.
    pub fn left_of_raise(&self, pc: Atom, expression: &Expression) -> Result<Left, AllocError>
        ensures { IfOk result (λ left. IsLeftFromBy self.now.table.now pc
            (raise_atoms (scope_in self.now) (expression_of expression.now)) left.items) }
    {
        let mut left = left_of_pc(self.alloc, pc)?;
        self.table.add_raise(self.procedure, expression, &mut left)?;
        Ok(left)
    }

    /// The pc, and what decides whether one of the arguments of a call raises an exception.
    pub fn left_of_arguments(&self, pc: Atom, arguments: &[Expression]) -> Result<Left, AllocError>
        ensures { IfOk result (λ left. IsLeftFromBy self.now.table.now pc
            (raise_atoms_all (scope_in self.now) (map expression_of arguments.now)) left.items) }
    {
        let mut left = left_of_pc(self.alloc, pc)?;
        self.table
            .add_raise_all(self.procedure, arguments, &mut left)?;
        Ok(left)
    }
}
