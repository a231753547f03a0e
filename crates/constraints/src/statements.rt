//! The constraints of statements without blocks, but for calls.
ghost use Rattle.constraints.specs.ByTable.{IsLeftBy, AreAddedBy, IsGatheredBy};
ghost use Rattle.constraints.specs.ByWalk.{scope_in, IsSimpleBy};
ghost use Rattle.constraints.specs.ExitUnknowns.{exit_unknowns_around};
ghost use Rattle.constraints.specs.Walks.{valued_constraints};
ghost use Rattle.gathering.specs.Names.{NamedAtom};
ghost use Rattle.gathering.specs.Walk.{flow, raised_flows, target_constraint};
ghost use Rattle.path_map.specs.Exceptions.{AreRaised};
ghost use Rattle.resolved.specs.Exits.{raises};
ghost use Rattle.resolved.specs.Tree.{Placed, Clear, Leave, Receive, ReturnWith};
ghost use Rattle.resolved.specs.TreeOf.{expression_of, some_expression_of};
ghost use Rattle.solver.specs.Rule.{rule_number};
ghost use Rattle.std.specs.Prelude.{List, OnOk, ℕ, ◌++◌};

use crate::around::Around;
use crate::forms::Demand;
use crate::lefts::left_of_pc;
use crate::table::Table;
use common::exceptions::END;
use path_map::Ends;
use path_map::raises::{Raises, raises_of};
use resolved::expression::{Expression, Variable};
use resolved::statement::Exit;
use resolved::target::Target;
use solver::{Atom, Constraint, Left, Rule};
use std::alloc::{AllocError, Global};

/// A procedure of a program whose constraints are gathered, with the labels of the program's tables and its possible exits.
#[derive(Drop)]
pub struct ProcedureWalk<'a> {
    pub alloc: Global,
    pub table: &'a Table<'a>,
    pub map: &'a Ends,
    pub procedure: u32,
}

impl<'a> ProcedureWalk<'a> {
    // Adds the flows of what goes on at an exit or raises one of these exceptions.
    pub(crate) fn add_exits(
        &self,
        left: &[Atom],
        around: &Around,
        exit: Exit,
        found: Raises,
        constraints: &mut Vec<Constraint<Option<Target>>>,
    ) -> Result<(), AllocError>
        ensures { OnOk result ((atoms : List NamedAtom) (exceptions : List ℕ) →
            IsLeftBy self.now.table.now atoms left.now → AreRaised found exceptions →
            AreAddedBy self.now.table.now (flow atoms (exit_unknowns_around around.now exit) ++
            raised_flows atoms (exit_unknowns_around around.now) exceptions)
            constraints.old.items constraints.new.items) }
    {
        let exit_unknown = around.exit_unknown(exit);
        self.table
            .add_flow(self.alloc, left, exit_unknown, constraints)?;
        self.table
            .add_raised(self.alloc, left, around, found, constraints)?;
        Ok(())
    }

    /// Adds what a value flows to, and the exits of a statement that goes on at an exit once it has the value.
    pub fn add_valued(
        &self,
        demand: Demand,
        value: &Expression,
        exit: Exit,
        around: &Around,
        constraints: &mut Vec<Constraint<Option<Target>>>,
    ) -> Result<(), AllocError>
        ensures { OnOk result (IsGatheredBy self.now.table.now around.now.pc
            (λ (named : NamedAtom). valued_constraints (scope_in self.now) named
            (exit_unknowns_around around.now) demand.at (rule_number demand.rule)
            (expression_of value.now) demand.target exit)
            constraints.old.items constraints.new.items) }
    {
        let valued = self.left_of_value(around.pc, value)?;
        self.table
            .add_rule(demand.at, demand.rule, valued, demand.target, constraints)?;
        if around.ends_nowhere(exit) {
            return Ok(());
        }
        let left = self.left_of_raise(around.pc, value)?;
        let found = raises_of(value);
        self.add_exits(&left, around, exit, found, constraints)?;
        Ok(())
    }

    /// Adds what is gathered of `break`, `continue` or `throw`.
    #[inline(never)]
    pub fn add_leave(
        &self,
        at: usize,
        exit: Exit,
        around: &Around,
        constraints: &mut Vec<Constraint<Option<Target>>>,
    ) -> Result<(), AllocError>
        ensures { OnOk result (IsSimpleBy self.now around.now (Placed at (Leave exit))
            constraints.old.items constraints.new.items) }
    {
        let exit_unknown = around.exit_unknown(exit);
        self.table
            .add_pc_flow(self.alloc, around.pc, exit_unknown, constraints)?;
        Ok(())
    }

    /// Adds what is gathered of a return.
    #[inline(never)]
    pub fn add_return(
        &self,
        at: usize,
        value: &Option<Expression>,
        around: &Around,
        constraints: &mut Vec<Constraint<Option<Target>>>,
    ) -> Result<(), AllocError>
        ensures { OnOk result (IsSimpleBy self.now around.now
            (Placed at (ReturnWith (some_expression_of value.now)))
            constraints.old.items constraints.new.items) }
    {
        match value {
            None => {
                let exit_unknown = around.exit_unknown(Exit::Return);
                self.table
                    .add_pc_flow(self.alloc, around.pc, exit_unknown, constraints)?;
                Ok(())
            }
            Some(value) => {
                let demand = Demand {
                    at,
                    rule: Rule::Return,
                    target: Target::ToValue(self.procedure),
                };
                self.add_valued(demand, value, Exit::Return, around, constraints)?;
                Ok(())
            }
        }
    }

    /// Adds what is gathered of the declaration of an array.
    #[inline(never)]
    pub fn add_clear(
        &self,
        at: usize,
        slot: u32,
        around: &Around,
        constraints: &mut Vec<Constraint<Option<Target>>>,
    ) -> Result<(), AllocError>
        ensures { OnOk result (IsSimpleBy self.now around.now (Placed at (Clear slot))
            constraints.old.items constraints.new.items) }
    {
        let target = Target::ToVariable(self.procedure, Variable::Local(slot));
        self.table.add_rule(
            at,
            Rule::ArrayDeclaration,
            left_of_pc(self.alloc, around.pc)?,
            target,
            constraints,
        )?;
        let exit_unknown = around.exit_unknown(Exit::Normal);
        self.table
            .add_pc_flow(self.alloc, around.pc, exit_unknown, constraints)?;
        Ok(())
    }

    // Adds the demand on the label of a target, if there is one.
    pub(crate) fn add_target(
        &self,
        at: usize,
        rule: Rule,
        left: Left,
        target: Option<Variable>,
        constraints: &mut Vec<Constraint<Option<Target>>>,
    ) -> Result<(), AllocError>
        ensures { OnOk result ((atoms : List NamedAtom) →
            IsLeftBy self.now.table.now atoms left.items →
            AreAddedBy self.now.table.now
            (target_constraint (scope_in self.now) at (rule_number rule) atoms target)
            constraints.old.items constraints.new.items) }
    {
        match target {
            None => Ok(()),
            Some(variable) => {
                let target = Target::ToVariable(self.procedure, variable);
                self.table.add_rule(at, rule, left, target, constraints)?;
                Ok(())
            }
        }
    }

    /// Adds what is gathered of a receive.
    #[inline(never)]
    pub fn add_receive(
        &self,
        at: usize,
        channel: u32,
        target: Option<Variable>,
        around: &Around,
        constraints: &mut Vec<Constraint<Option<Target>>>,
    ) -> Result<(), AllocError>
        ensures { OnOk result (IsSimpleBy self.now around.now (Placed at (Receive channel target))
            constraints.old.items constraints.new.items) }
    {
        let source = Target::ToChannel(channel);
        self.table.add_rule(
            at,
            Rule::Receive,
            left_of_pc(self.alloc, around.pc)?,
            source,
            constraints,
        )?;
        let left = self.table.left_of_label(self.alloc, around.pc, source)?;
        let received = self.table.left_of_label(self.alloc, around.pc, source)?;
        self.add_target(at, Rule::Receive, received, target, constraints)?;
        let normal = around.exit_unknown(Exit::Normal);
        self.table.add_flow(self.alloc, &left, normal, constraints)?;
        let ended = around.exit_unknown(Exit::Throw(END));
        self.table.add_flow(self.alloc, &left, ended, constraints)?;
        Ok(())
    }
}
