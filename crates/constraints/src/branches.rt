//! The pieces of what is gathered of statements with blocks.
ghost use Rattle.constraints.specs.ByTable.{IsGatheredBy};
ghost use Rattle.constraints.specs.ByWalk.{scope_in, entries_in};
ghost use Rattle.constraints.specs.ExitUnknowns.{exit_unknowns_around};
ghost use Rattle.constraints.specs.Walks.{loop_head_constraints};
ghost use Rattle.gathering.specs.Names.{NamedAtom, named_atoms};
ghost use Rattle.gathering.specs.Walk.{inner_constraint, raise_atoms, raised_flows, rule_constraint, single};
ghost use Rattle.path_map.specs.Exits.{exits_of};
ghost use Rattle.path_map.specs.Exits.{Exits};
ghost use Rattle.resolved.specs.Exits.{one_exit, raises};
ghost use Rattle.resolved.specs.Labelled.{value_label};
ghost use Rattle.resolved.specs.TreeOf.{expression_of};
ghost use Rattle.resolved.specs.declared.statement.Exit.{Exit};
ghost use Rattle.resolved.specs.declared.target.Target.TheVariants.{ToLoop};
ghost use Rattle.std.specs.Prelude.{List, OnOk, [], drop, ◌∷◌, ◌≡◌};

use crate::around::Around;
use crate::forms::LoopSite;
use crate::lefts::left_of_pc;
use crate::statements::ProcedureWalk;
use path_map::raises::raises_of;
use path_map::{Exits, Raised};
use resolved::expression::Expression;
use resolved::statement::Exit;
use resolved::target::Target;
use solver::{Atom, Constraint, Rule};
use std::alloc::AllocError;

impl<'a> ProcedureWalk<'a> {
    /// The possible exits that the path map has under this number.
    pub fn exits_at(&self, number: usize) -> Exits
        ensures { (exits : Exits) (rest : List Exits) →
            drop number (entries_in self.now) ≡ exits ∷ rest → result ≡ exits }
    {
        if number >= self.map.len() {
            return Exits::of_all(false, Raised::Nothing);
        }
        self.map.exits(number)
    }

    /// Adds the flow of the pc to the exit unknown of the possible exit, where there is one only.
    #[inline(always)]
    pub fn add_single(
        &self,
        exits: Exits,
        around: &Around,
        constraints: &mut Vec<Constraint<Option<Target>>>,
    ) -> Result<(), AllocError>
        ensures { OnOk result ((ends : List Exit) → exits ≡ exits_of ends →
            IsGatheredBy self.now.table.now around.now.pc
            (λ (named : NamedAtom). single (one_exit ends) named (exit_unknowns_around around.now)
            ends) constraints.old.items constraints.new.items) }
    {
        match exits.single() {
            None => Ok(()),
            Some(exit) => {
                let exit_unknown = around.exit_unknown(exit);
                self.table
                    .add_pc_flow(self.alloc, around.pc, exit_unknown, constraints)?;
                Ok(())
            }
        }
    }

    /// Adds the pc of a branch, which is the inner unknown with this number: the pc before it and the value of the condition.
    pub fn add_branch(
        &self,
        condition: &Expression,
        number: u32,
        pc: Atom,
        constraints: &mut Vec<Constraint<Option<Target>>>,
    ) -> Result<(), AllocError>
        ensures { OnOk result (IsGatheredBy self.now.table.now pc
            (λ (named : NamedAtom). inner_constraint
            (named ∷ named_atoms (value_label (scope_in self.now) (expression_of condition.now)))
            number) constraints.old.items constraints.new.items) }
    {
        let left = self.left_of_value(pc, condition)?;
        self.table.add_inner(left, number, constraints)?;
        Ok(())
    }

    /// Adds the flows of the exceptions that a condition can raise.
    pub fn add_condition(
        &self,
        condition: &Expression,
        around: &Around,
        constraints: &mut Vec<Constraint<Option<Target>>>,
    ) -> Result<(), AllocError>
        ensures { OnOk result (IsGatheredBy self.now.table.now around.now.pc
            (λ (named : NamedAtom). raised_flows
            (named ∷ named_atoms (raise_atoms (scope_in self.now) (expression_of condition.now)))
            (exit_unknowns_around around.now) (raises (expression_of condition.now)))
            constraints.old.items constraints.new.items) }
    {
        if around.raises_nowhere() {
            return Ok(());
        }
        let left = self.left_of_raise(around.pc, condition)?;
        let found = raises_of(condition);
        self.table
            .add_raised(self.alloc, &left, around, found, constraints)?;
        Ok(())
    }

    /// Adds the demand of a loop on its label: the label of what reaches its condition flows to it.
    pub fn add_turn(
        &self,
        at: usize,
        number: u32,
        pc: Atom,
        constraints: &mut Vec<Constraint<Option<Target>>>,
    ) -> Result<(), AllocError>
        ensures { OnOk result (IsGatheredBy self.now.table.now pc
            (λ (named : NamedAtom). rule_constraint (scope_in self.now) at 8 (named ∷ [])
            (ToLoop self.now.procedure number)) constraints.old.items constraints.new.items) }
    {
        let left = left_of_pc(self.alloc, pc)?;
        let target = Target::ToLoop(self.procedure, number);
        self.table
            .add_rule(at, Rule::While, left, target, constraints)?;
        Ok(())
    }

    /// Adds what is gathered of a loop but for its body, which is reached at the inner unknown with this number.
    pub fn add_loop_head(
        &self,
        site: LoopSite,
        condition: &Expression,
        inner: u32,
        around: &Around,
        constraints: &mut Vec<Constraint<Option<Target>>>,
    ) -> Result<(), AllocError>
        ensures { OnOk result (IsGatheredBy self.now.table.now around.now.pc
            (λ (named : NamedAtom). loop_head_constraints (scope_in self.now) named
            (exit_unknowns_around around.now) inner site.at site.number
            (expression_of condition.now)) constraints.old.items constraints.new.items) }
    {
        self.add_turn(site.at, site.number, around.pc, constraints)?;
        let loop_atom = self.table.part(Target::ToLoop(self.procedure, site.number));
        self.add_branch(condition, inner, loop_atom, constraints)?;
        let body = Atom::Unknown(inner);
        let exit_unknown = around.exit_unknown(Exit::Normal);
        self.table
            .add_pc_flow(self.alloc, body, exit_unknown, constraints)?;
        let tested = Around {
            pc: loop_atom,
            ..*around
        };
        self.add_condition(condition, &tested, constraints)?;
        Ok(())
    }
}
