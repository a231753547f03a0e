//! The constraints of calls.
ghost use Rattle.constraints.specs.ByTable.{program_in, IsPartBy, IsLeftFromBy, AreAddedBy, IsGatheredBy};
ghost use Rattle.constraints.specs.ByWalk.{scope_in};
ghost use Rattle.constraints.specs.Added.{flow_if};
ghost use Rattle.constraints.specs.ExitUnknowns.{exit_unknowns_around};
ghost use Rattle.constraints.specs.Walks.{kept_call, kept_exits};
ghost use Rattle.gathering.specs.Names.{NamedAtom, named_atoms};
ghost use Rattle.gathering.specs.Walk.{argument_constraints, call_atoms, call_flows, flow, inner_atom, raised_once};
ghost use Rattle.path_map.specs.Exceptions.{AreRaised};
ghost use Rattle.resolved.specs.Exits.{thrown_exits};
ghost use Rattle.resolved.specs.Labelled.{any_of, label_of, one};
ghost use Rattle.resolved.specs.Program.{procedure_at};
ghost use Rattle.resolved.specs.TreeOf.{expression_of};
ghost use Rattle.resolved.specs.declared.statement.Exit.TheVariants.{Normal, Throw};
ghost use Rattle.resolved.specs.declared.target.Target.TheVariants.{ToValue};
ghost use Rattle.std.specs.Prelude.{IfOk, List, OnOk, map, ℕ, ◌++◌, ◌∷◌, ◌≡◌};

use crate::around::Around;
use crate::forms::CallSite;
use crate::lefts::left_of_pc;
use crate::statements::ProcedureWalk;
use common::exceptions::{ARITH, BOUNDS};
use path_map::raises::{Raises, raises_of_all};
use resolved::expression::Expression;
use resolved::statement::Exit;
use resolved::target::Target;
use solver::{Atom, Constraint, Left, Rule};
use std::alloc::AllocError;

impl<'a> ProcedureWalk<'a> {
    // Whether a procedure declares exceptions.
    fn throws_any(&self, callee: u32) -> bool
        ensures { result ≡ any_of (procedure_at (program_in self.now.table.now) callee).throws }
    {
        !self.table.row(callee).throws.is_empty()
    }

    // The label of a call, and what its normal exit has beside it.
    fn left_of_end(&self, own: Atom, callee: u32) -> Result<Left, AllocError>
        ensures { IfOk result (λ left. IsLeftFromBy self.now.table.now own
            (call_atoms (program_in self.now.table.now) callee Normal) left.items) }
    {
        if self.throws_any(callee) {
            return self
                .table
                .left_of_label(self.alloc, own, Target::ToEnd(callee));
        }
        left_of_pc(self.alloc, own)
    }

    // The label of the value of a call.
    fn left_of_result(&self, own: Atom, callee: u32) -> Result<Left, AllocError>
        ensures { IfOk result (λ left. IsLeftFromBy self.now.table.now own (call_atoms
            (program_in self.now.table.now) callee Normal ++ one
            (label_of (program_in self.now.table.now) (ToValue callee))) left.items) }
    {
        let mut left = self.left_of_end(own, callee)?;
        self.table.add_label(Target::ToValue(callee), &mut left)?;
        Ok(left)
    }

    // Adds the demands on the parameters of a call.
    fn add_arguments(
        &self,
        at: usize,
        own: Atom,
        callee: u32,
        arguments: &[Expression],
        constraints: &mut Vec<Constraint<Option<Target>>>,
    ) -> Result<(), AllocError>
        ensures { OnOk result ((k : ℕ) → IsPartBy self.now.table.now (inner_atom k) own →
            AreAddedBy self.now.table.now (argument_constraints (scope_in self.now) at k callee 0
            (map expression_of arguments.now)) constraints.old.items constraints.new.items) }
    {
        for (parameter, argument) in arguments.iter().enumerate() {
            let left = self.left_of_value(own, argument)?;
            let target = Target::ToParameter(callee, parameter);
            self.table
                .add_rule(at, Rule::Call, left, target, constraints)?;
        }
        Ok(())
    }

    // Adds the flow of an exception that a call raises.
    fn add_thrown(
        &self,
        callee: u32,
        exception: u32,
        around: &Around,
        constraints: &mut Vec<Constraint<Option<Target>>>,
    ) -> Result<(), AllocError>
        ensures { OnOk result (IsGatheredBy self.now.table.now around.now.pc
            (λ (named : NamedAtom). flow (named ∷ named_atoms
            (call_atoms (program_in self.now.table.now) callee (Throw exception)))
            (exit_unknowns_around around.now (Throw exception)))
            constraints.old.items constraints.new.items) }
    {
        match around.exit_unknown(Exit::Throw(exception)) {
            None => Ok(()),
            Some(number) => {
                let target = Target::ToThrown(callee, exception);
                let left = self.table.left_of_label(self.alloc, around.pc, target)?;
                self.table.add_inner(left, number, constraints)?;
                Ok(())
            }
        }
    }

    // Adds the flow of an exception of the arguments, if a test holds.
    fn add_thrown_if(
        &self,
        test: bool,
        callee: u32,
        exception: u32,
        around: &Around,
        constraints: &mut Vec<Constraint<Option<Target>>>,
    ) -> Result<(), AllocError>
        ensures { OnOk result (IsGatheredBy self.now.table.now around.now.pc
            (λ (named : NamedAtom). flow_if test (named ∷ named_atoms
            (call_atoms (program_in self.now.table.now) callee (Throw exception)))
            (exit_unknowns_around around.now (Throw exception)))
            constraints.old.items constraints.new.items) }
    {
        if test {
            return self.add_thrown(callee, exception, around, constraints);
        }
        Ok(())
    }

    // Adds the flows of the exceptions that the arguments of a call can raise.
    fn add_argument_exits(
        &self,
        callee: u32,
        found: Raises,
        around: &Around,
        constraints: &mut Vec<Constraint<Option<Target>>>,
    ) -> Result<(), AllocError>
        ensures { OnOk result ((k : ℕ) (exceptions : List ℕ) →
            IsPartBy self.now.table.now (inner_atom k) around.now.pc → AreRaised found exceptions →
            AreAddedBy self.now.table.now (call_flows (program_in self.now.table.now) callee k
            (exit_unknowns_around around.now) (thrown_exits (raised_once exceptions)))
            constraints.old.items constraints.new.items) }
    {
        let arith = found.arith;
        self.add_thrown_if(arith, callee, ARITH, around, constraints)?;
        let bounds = found.bounds;
        self.add_thrown_if(bounds, callee, BOUNDS, around, constraints)?;
        Ok(())
    }

    // Adds the flows of the exits of a call, but for the exceptions that its callee declares.
    fn add_call_exits(
        &self,
        callee: u32,
        arguments: &[Expression],
        around: &Around,
        constraints: &mut Vec<Constraint<Option<Target>>>,
    ) -> Result<(), AllocError>
        ensures { OnOk result ((k : ℕ) → IsPartBy self.now.table.now (inner_atom k) around.now.pc →
            AreAddedBy self.now.table.now (call_flows (program_in self.now.table.now) callee k
            (exit_unknowns_around around.now) (kept_exits (map expression_of arguments.now)))
            constraints.old.items constraints.new.items) }
    {
        let left = self.left_of_end(around.pc, callee)?;
        let normal = around.exit_unknown(Exit::Normal);
        self.table.add_flow(self.alloc, &left, normal, constraints)?;
        let found = raises_of_all(arguments);
        self.add_argument_exits(callee, found, around, constraints)?;
        Ok(())
    }

    /// Adds what is gathered of a call, whose own label is the inner unknown with this number, but for the flows of the exceptions that its
    /// callee declares.
    pub fn add_call(
        &self,
        site: CallSite,
        arguments: &[Expression],
        number: u32,
        around: &Around,
        constraints: &mut Vec<Constraint<Option<Target>>>,
    ) -> Result<(), AllocError>
        ensures { OnOk result (IsGatheredBy self.now.table.now around.now.pc
            (λ (named : NamedAtom). kept_call (scope_in self.now) named
            (exit_unknowns_around around.now) number site.at site.callee
            (map expression_of arguments.now) site.target)
            constraints.old.items constraints.new.items) }
    {
        let table = self.table;
        let raised = self.left_of_arguments(around.pc, arguments)?;
        table.add_inner(raised, number, constraints)?;
        let own = Atom::Unknown(number);
        let begin = left_of_pc(self.alloc, own)?;
        table.add_rule(
            site.at,
            Rule::Call,
            begin,
            Target::ToBegin(site.callee),
            constraints,
        )?;
        self.add_arguments(site.at, own, site.callee, arguments, constraints)?;
        let received = self.left_of_result(own, site.callee)?;
        self.add_target(site.at, Rule::Call, received, site.target, constraints)?;
        let ends = Around { pc: own, ..*around };
        self.add_call_exits(site.callee, arguments, &ends, constraints)?;
        Ok(())
    }
}
